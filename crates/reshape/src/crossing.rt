//! One cycle of both sides of a reshaper.

ghost use Rattle.std.specs.Prelude.{◌≡◌, ◌∷◌, [], ◌<◌, ◌+◌, ◌&&◌, if◌then◌else◌, true, false, get_or, Some, None, List, length};
ghost use Rattle.std.specs.List.{All};
ghost use Rattle.physical_stream.specs.Cycles.{cycle_in};
ghost use Rattle.physical_stream.specs.Counts.{transfers_of};
ghost use Rattle.physical_stream.specs.Signals.{Fits};
ghost use Rattle.physical_stream.specs.declared.transfer.Transfer.{Transfer};
ghost use Rattle.reshape.specs.Runs.{IsAt};
ghost use Rattle.reshape.specs.Standing.{is_due_in, offered_by, to_of};

use crate::reshaper::Reshaper;
use handshake::{Cursor, TransferFeed};
use physical_stream::{Row, Transfer};

// How many transfers a cycle does: one where it shows one with ready.
fn transfers_in(row: Row<'_>) -> usize
    ensures { result ≡ transfers_of (cycle_in row.entry ∷ []) }
{
    usize::from(row.ready && row.shown.is_some())
}

// Copies the transfer that a reshaper offers. False exactly where there is none, and the transfer is then as before.
pub(crate) fn copy_offer(reshaper: &Reshaper, into: &mut Transfer) -> bool
    requires room { Fits (to_of reshaper.now) into.old }
    ensures due { result ≡ is_due_in reshaper.now }
    ensures offered { offered_by reshaper.now ≡ (if result then Some into.new else None) }
    ensures fits { Fits (to_of reshaper.now) into.new }
{
    match reshaper.offer() {
        Some(offered) => {
            into.copy_from(offered);
            true
        }
        None => false,
    }
}

// The cycle of this number of both sides. Whether the far side does a transfer in it comes from its ready bit, and from whether it shows one.
pub(crate) fn cross<F: TransferFeed>(
    near: &mut Cursor<F>,
    reshaper: &mut Reshaper,
    ready: &[bool],
    number: usize,
    shows: bool,
)
    requires at { IsAt F.rest F.whole near.old reshaper.old ready.now number }
    requires fits { All (Fits near.old.params) (F.whole near.old.feed) }
    requires more { number < length ready.now }
    requires shows { shows ≡ is_due_in reshaper.old }
    ensures at { IsAt F.rest F.whole near.new reshaper.new ready.now (number + 1) }
    ensures params { near.new.params ≡ near.old.params }
    ensures gaps { near.new.gaps ≡ near.old.gaps }
    ensures whole { F.whole near.new.feed ≡ F.whole near.old.feed }
    ensures to { to_of reshaper.new ≡ to_of reshaper.old }
{
    let bit = ready[number];
    let left = near.left();
    let given = near.cycle(!shows);
    let ended = left <= transfers_in(given);
    reshaper.edge(given, shows && bit, ended);
}
