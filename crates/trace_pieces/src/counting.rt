ghost use Rattle.std.specs.Prelude.{◌≡◌, ◌<◌, [], length, min};
ghost use Rattle.tydi_base.specs.Lengths.{most_bytes};
ghost use Rattle.handshake.specs.Rows.{rows_behind};
ghost use Rattle.trace_pieces.specs.Rows.{AreShownFrom, CountsRow, rows_from};

use crate::rowing::stream_behind;
use cycle_trace::row_length;
use handshake::CycleFeed;
use physical_stream::Params;

/// The bytes of the text of all rows, or the greatest number of 64 bits where there are more. No row is left after it.
pub fn count_rows<C: CycleFeed>(streams: &[Params], feed: &mut C) -> u64
    requires shown { AreShownFrom streams.now 0 (C.rows feed.old) }
    ensures bytes { result ≡ min (length (rows_from streams.now 0 (C.rows feed.old))) most_bytes }
    ensures rows { C.rows feed.new ≡ [] }
    ensures whole { C.whole feed.new ≡ C.whole feed.old }
    ensures undone { C.undone feed.new ≡ C.undone feed.old }
{
    let mut bytes: u64 = 0;
    let mut stream = 0;
    'rows: while let Some(more) = count_row(streams, stream, feed) {
        bytes = bytes.saturating_add(more);
        stream = stream_behind(streams.len(), stream);
    }
    bytes
}

/// The bytes of the next row, which is of this stream. None exactly where there is none. It takes the row.
fn count_row<C: CycleFeed>(streams: &[Params], stream: usize, feed: &mut C) -> Option<u64>
    requires shown { AreShownFrom streams.now stream (C.rows feed.old) }
    ensures counts { CountsRow streams.now stream (C.rows feed.old) result }
    ensures rows { C.rows feed.new ≡ rows_behind (C.rows feed.old) }
    ensures whole { C.whole feed.new ≡ C.whole feed.old }
    ensures undone { C.undone feed.new ≡ C.undone feed.old }
{
    match feed.next() {
        Some(row) => Some(row_length(&streams[stream], row)),
        None => None,
    }
}
