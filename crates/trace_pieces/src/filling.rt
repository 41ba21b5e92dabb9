ghost use Rattle.std.specs.Prelude.{◌≡◌, ◌<◌, ◌++◌, [], length, OnOk};
ghost use Rattle.trace_pieces.specs.Rows.{AreShownFrom, rows_from};

use crate::rowing::write_next;
use handshake::CycleFeed;
use physical_stream::Params;
use std::alloc::Global;
use tydi_base::{List, Memory};

/// A piece ends with the first row that brings it to this many bytes.
const PIECE: usize = 65_536;

/// Fills an empty piece with the text of rows, the first of which is of this stream.
pub(crate) fn fill<C: CycleFeed>(
    alloc: Global,
    piece: &mut List<u8>,
    streams: &[Params],
    stream: &mut usize,
    feed: &mut C,
) -> Result<(), Memory>
    requires shown { AreShownFrom streams.now stream.old (C.rows feed.old) }
    requires empty { piece.old ≡ [] }
    ensures made { OnOk result (rows_from streams.now stream.old (C.rows feed.old) ≡ piece.new ++ rows_from streams.now stream.new (C.rows feed.new)) }
    ensures some { OnOk result (0 < length (rows_from streams.now stream.old (C.rows feed.old)) → 0 < length piece.new) }
    ensures shown { AreShownFrom streams.now stream.new (C.rows feed.new) }
    ensures whole { C.whole feed.new ≡ C.whole feed.old }
{
    'rows: while piece.len() < PIECE {
        if !write_next(alloc, piece, streams, stream, feed)? {
            return Ok(());
        }
    }
    Ok(())
}
