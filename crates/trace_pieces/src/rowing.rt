ghost use Rattle.std.specs.Prelude.{◌≡◌, ◌<◌, length};
ghost use Rattle.handshake.specs.Rows.{rows_behind};
ghost use Rattle.trace_pieces.specs.Rows.{AreShownFrom, WritesRow, stream_behind};

use cycle_trace::write_row;
use handshake::CycleFeed;
use physical_stream::Params;
use std::alloc::Global;
use tydi_base::{List, Memory};

/// The stream whose row comes after the row of this one, among so many streams.
pub(crate) fn stream_behind(many: usize, stream: usize) -> usize
    requires { stream < many }
    ensures { result ≡ stream_behind many stream }
{
    if stream + 1 < many { stream + 1 } else { 0 }
}

/// Adds the text of the next row, which is of this stream, at the end. False exactly where there is none. After `Memory` the row is gone
/// and the text is as before.
pub(crate) fn write_next<C: CycleFeed>(
    alloc: Global,
    piece: &mut List<u8>,
    streams: &[Params],
    stream: &mut usize,
    feed: &mut C,
) -> Result<bool, Memory>
    requires shown { AreShownFrom streams.now stream.old (C.rows feed.old) }
    ensures writes { WritesRow streams.now stream.old stream.new (C.rows feed.old) piece.old piece.new result }
    ensures shown { AreShownFrom streams.now stream.new (C.rows feed.new) }
    ensures rows { C.rows feed.new ≡ rows_behind (C.rows feed.old) }
    ensures whole { C.whole feed.new ≡ C.whole feed.old }
{
    match feed.next() {
        Some(row) => {
            let at = *stream;
            *stream = stream_behind(streams.len(), at);
            write_row(alloc, piece, &streams[at], row)?;
            Ok(true)
        }
        None => Ok(false),
    }
}
