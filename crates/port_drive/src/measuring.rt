//! How long the text of a port's rows is, and whether its runs finish.

ghost use Rattle.std.specs.Prelude.{◌≡◌, [], length, min, IfOk};
ghost use Rattle.tydi_base.specs.Lengths.{most_bytes};
ghost use Rattle.trace_pieces.specs.Rows.{AreShownFrom, rows_from};
ghost use Rattle.port_drive.specs.Finishing.{Finishes};

use crate::fault::DriveFault;
use handshake::CycleFeed;
use physical_stream::Params;
use trace_pieces::count_rows;

/// The bytes of the text of all rows, or the greatest number of 64 bits where there are more. `NotFinished` comes exactly where a stream
/// leaves transfers, with the first such stream; no other error comes. All rows are left again after it.
pub fn measured<C: CycleFeed>(streams: &[Params], feed: &mut C) -> Result<u64, DriveFault>
    requires shown { AreShownFrom streams.now 0 (C.rows feed.old) }
    requires many { length streams.now ≡ length (C.undone feed.old) }
    ensures finishes { Finishes (C.undone feed.old) result }
    ensures bytes { IfOk result (λ bytes. bytes ≡ min (length (rows_from streams.now 0 (C.rows feed.old))) most_bytes) }
    ensures rows { C.rows feed.new ≡ C.whole feed.old }
    ensures whole { C.whole feed.new ≡ C.whole feed.old }
    ensures undone { C.undone feed.new ≡ C.undone feed.old }
{
    let bytes = count_rows(streams, feed);
    let finished = finished(streams.len(), feed);
    feed.rewind();
    match finished {
        Ok(()) => Ok(bytes),
        Err(fault) => Err(fault),
    }
}

/// No error, where none of so many streams leaves transfers once no row is left.
fn finished<C: CycleFeed>(many: usize, feed: &C) -> Result<(), DriveFault>
    requires over { C.rows feed.now ≡ [] }
    requires many { many ≡ length (C.undone feed.now) }
    ensures { Finishes (C.undone feed.now) result }
{
    'streams: for stream in 0..many {
        let left = feed.left(stream);
        if left > 0 {
            return Err(DriveFault::NotFinished { stream, left });
        }
    }
    Ok(())
}
