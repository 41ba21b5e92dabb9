ghost use Rattle.std.specs.Prelude.{◌≡◌, ◌<◌, ◌+◌, ◌^◌, [], Bool, List, length, slice_get, Some};
ghost use Rattle.handshake.specs.Ports.{AreAt, runs_in};
ghost use Rattle.handshake.specs.declared.cursor.Cursor.{Cursor};

use crate::cursor::Cursor;
use crate::feed::TransferFeed;
use tydi_base::List;

/// The runs of all streams of a port, row by row.
#[derive(Drop)]
pub struct PortRun<F: TransferFeed> {
    pub(crate) cursors: Vec<Cursor<F>>,
    /// The ready bits of each stream, one for each cycle.
    pub(crate) ready: List<List<bool>>,
    /// The cycle of the next row, from 0.
    pub(crate) number: usize,
    /// The cycles that are left, with that of the next row.
    pub(crate) many: usize,
    /// The stream of the next row, from 0.
    pub(crate) stream: usize,
    ghost at: { AreAt F.rest F.whole cursors.items ready number many stream },
    ghost few: { number + many < 2 ^ 32 },
}
