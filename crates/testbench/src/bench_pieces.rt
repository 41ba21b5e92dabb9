ghost use Rattle.std.specs.Prelude.{◌≤◌, length};
ghost use Rattle.handshake.specs.Offers.{AreBefore};

use crate::spot::Spot;
use handshake::{Cursor, TransferFeed};
use physical_stream::Head;
use tydi_base::List;

/// The rest of the text of a driving bench: the lines before its processes and after them, where they are still to come, and the
/// processes, whose statements are made from one transfer after another as they are asked for.
#[derive(Drop)]
pub struct BenchPieces<F: TransferFeed> {
    pub(crate) front: List<u8>,
    pub(crate) heads: List<Head>,
    pub(crate) cursors: Vec<Cursor<F>>,
    pub(crate) spot: Spot,
    pub(crate) back: List<u8>,
    ghost before: { AreBefore F.rest F.whole cursors.items },
    ghost few: { length cursors.items ≤ 65536 },
}

/// The text of a driving bench, before any of it is written.
#[derive(Drop)]
pub struct BenchText<F: TransferFeed> {
    pub pieces: BenchPieces<F>,
    /// The bytes of the text, or the greatest number of 64 bits where there are more.
    pub length: u64,
}
