ghost use Rattle.std.specs.Prelude.{◌≡◌, ◌≤◌, ◌++◌, Bool, List, length};
ghost use Rattle.physical_stream.specs.declared.transfer.Transfer.{Transfer};
ghost use Rattle.handshake.specs.Kept.{finished_by};
ghost use Rattle.handshake.specs.Run.{Finishes};
ghost use Rattle.handshake.specs.Standing.{StandsFor};

use crate::cursor::Cursor;
use crate::feed::TransferFeed;

/// Runs a cycle for each of these ready bits, at most 1,000,000, also after the last transfer. It gives the least number of these
/// cycles after which no transfer is left, and None exactly where some are left after all of them.
pub fn finish_cycle<F: TransferFeed>(cursor: &mut Cursor<F>, ready: &[bool]) -> Option<u32>
    requires { length ready.now ≤ 1000000 }
    ensures finishes { (ts : List Transfer) (before : List Bool) → StandsFor F.rest cursor.old ts before → Finishes cursor.old.params ts cursor.old.gaps before ready.now result }
    ensures stands { (ts : List Transfer) (before : List Bool) → StandsFor F.rest cursor.old ts before → StandsFor F.rest cursor.new ts (before ++ ready.now) }
    ensures params { cursor.new.params ≡ cursor.old.params }
    ensures gaps { cursor.new.gaps ≡ cursor.old.gaps }
    ensures whole { F.whole cursor.new.feed ≡ F.whole cursor.old.feed }
{
    let mut finished = or_here(None, 0, cursor.left());
    let mut number = 0;
    'cycles: for bit in ready {
        cursor.step(*bit);
        number += 1;
        finished = or_here(finished, number, cursor.left());
    }
    finished
}

/// The number of cycles that was found before; else this one, where no transfer is left.
fn or_here(found: Option<u32>, number: u32, left: usize) -> Option<u32>
    ensures { result ≡ finished_by found number left }
{
    match found {
        Some(earlier) => Some(earlier),
        None => { if left == 0 { Some(number) } else { None } }
    }
}
