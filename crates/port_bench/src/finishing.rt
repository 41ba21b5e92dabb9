//! Whether the runs of cursors finish.

ghost use Rattle.std.specs.Prelude.{◌≡◌, ◌≤◌, ℕ, Bool, List, [], length, slice_get, Some};
ghost use Rattle.handshake.specs.Ports.{runs_in};
ghost use Rattle.handshake.specs.Rows.{undone_in};
ghost use Rattle.handshake.specs.Run.{undone};
ghost use Rattle.handshake.specs.Standing.{StandsFor};
ghost use Rattle.handshake.specs.Turns.{AreRewound, KeepRun, KeepRuns};
ghost use Rattle.port_drive.specs.Finishing.{Finishes};

use handshake::{Cursor, TransferFeed, finish_cycle};
use port_drive::DriveFault;
use tydi_base::List;

/// No error, where the run of each cursor under its ready bits does all transfers. `NotFinished` comes exactly where one leaves
/// transfers, with the first such stream.
pub(crate) fn finished<F: TransferFeed>(
    cursors: &mut [Cursor<F>],
    ready: &[List<bool>],
) -> Result<(), DriveFault>
    requires same { length cursors.old ≡ length ready.now }
    requires long { (i : ℕ) (bits : List Bool) → slice_get ready.now i ≡ Some bits → length bits ≤ 1000000 }
    requires start { AreRewound F.whole F.rest cursors.old }
    ensures finishes { Finishes (undone_in (runs_in F.rest F.whole cursors.old ready.now)) result }
    ensures kept { KeepRuns F.whole cursors.old cursors.new }
{
    'streams: for stream in 0..cursors.len() {
        let left = left_after(&mut cursors[stream], ready[stream].as_slice());
        if left > 0 {
            return Err(DriveFault::NotFinished { stream, left });
        }
    }
    Ok(())
}

/// How many transfers the run of a cursor leaves under these ready bits.
fn left_after<F: TransferFeed>(cursor: &mut Cursor<F>, ready: &[bool]) -> usize
    requires few { length ready.now ≤ 1000000 }
    requires start { StandsFor F.rest cursor.old (F.whole cursor.old.feed) [] }
    ensures left { result ≡ undone cursor.old.params (F.whole cursor.old.feed) cursor.old.gaps ready.now }
    ensures kept { KeepRun F.whole cursor.old cursor.new }
{
    let _cycle = finish_cycle(cursor, ready);
    cursor.left()
}
