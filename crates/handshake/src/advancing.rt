ghost use Rattle.std.specs.Prelude.{◌≡◌, ◌↔◌, ◌<◌, ◌++◌, ◌∷◌, [], ℕ, Bool, List, length, take, IfOk, IsTrue, true, false, slice_index, None, Some, if◌then◌else◌};
ghost use Rattle.physical_stream.specs.Cycles.{Cycle, cycle_in};
ghost use Rattle.physical_stream.specs.Signals.{Fits};
ghost use Rattle.physical_stream.specs.declared.transfer.Transfer.{Transfer};
ghost use Rattle.handshake.specs.Run.{next_cycle, run_of, shown_after};
ghost use Rattle.handshake.specs.Kept.{Rests, gap_at};
ghost use Rattle.handshake.specs.Standing.{Follows, StandsFor};

use crate::cursor::Cursor;
use crate::feed::TransferFeed;
use complexity_rules::{may_pause, tail_after};
use physical_stream::{Params, Row, Tail, Transfer};
use std::alloc::Global;
use tydi_base::{List, Memory};

impl<F: TransferFeed> Cursor<F> {
    // The gap before the next transfer: the plan's, where valid may be low.
    fn gap(&self) -> u32
        ensures { result ≡ gap_at self.now.params self.now.gaps self.now.place self.now.tail }
    {
        if may_pause(&self.params, self.tail) {
            gap_in(self.gaps.as_slice(), self.place)
        } else {
            0
        }
    }

    // Holds the next transfer, where none is held and there is one.
    pub(crate) fn fill(&mut self)
        ensures stands { (ts : List Transfer) (cycles : List Cycle) → Follows F.rest self.old ts cycles
            → Follows F.rest self.new ts cycles }
        ensures full { self.new.holds ≡ false → F.rest self.new.feed ≡ [] }
        ensures params { self.new.params ≡ self.old.params }
        ensures gaps { self.new.gaps ≡ self.old.gaps }
        ensures whole { F.whole self.new.feed ≡ F.whole self.old.feed }
    {
        if !self.holds {
            self.holds = self.feed.next(&mut self.held);
            if self.holds {
                self.pause = self.gap();
            }
        }
    }

    // Whether nothing is shown in the cycle that comes.
    pub(crate) fn rests(&self) -> bool
        ensures yes { result ≡ true → Rests self.now.holds self.now.pause }
        ensures no { result ≡ false → (self.now.holds ≡ true) × (self.now.pause ≡ 0) }
    {
        !self.holds || self.pause > 0
    }

    // One cycle less to wait.
    pub(crate) fn wait(&mut self)
        ensures stands { (ts : List Transfer) (cycles : List Cycle) (bit : Bool) → Follows F.rest self.old ts cycles
            → (self.old.holds ≡ false → F.rest self.old.feed ≡ [])
            → Follows F.rest self.new ts (cycles ++ record { ready = bit; shown = None } ∷ []) }
        ensures params { self.new.params ≡ self.old.params }
        ensures gaps { self.new.gaps ≡ self.old.gaps }
        ensures whole { F.whole self.new.feed ≡ F.whole self.old.feed }
    {
        self.pause = self.pause.saturating_sub(1);
    }

    // The transfer that is held is done.
    pub(crate) fn take(&mut self)
        requires holds { self.old.holds ≡ true }
        ensures stands { (ts : List Transfer) (cycles : List Cycle) → Follows F.rest self.old ts cycles
            → Follows F.rest self.new ts (cycles ++ record { ready = true; shown = Some self.old.held } ∷ []) }
        ensures params { self.new.params ≡ self.old.params }
        ensures gaps { self.new.gaps ≡ self.old.gaps }
        ensures held { self.new.held ≡ self.old.held }
        ensures free { self.new.holds ≡ false }
        ensures rest { F.rest self.new.feed ≡ F.rest self.old.feed }
        ensures whole { F.whole self.new.feed ≡ F.whole self.old.feed }
    {
        self.tail = tail_after(&self.params, self.tail, &self.held);
        self.holds = false;
        if self.place < self.gaps.len() {
            self.place += 1;
        }
    }

    // The next cycle: whether it shows the transfer that is held.
    pub(crate) fn advance(&mut self, ready: bool) -> bool
        ensures shown { (ts : List Transfer) (cycles : List Cycle) → Follows F.rest self.old ts cycles
            → shown_after self.old.params ts self.old.gaps cycles ≡ (if result then Some self.new.held else None) }
        ensures stands { (ts : List Transfer) (cycles : List Cycle) → Follows F.rest self.old ts cycles
            → Follows F.rest self.new ts (cycles ++ next_cycle self.old.params ts self.old.gaps cycles ready ∷ []) }
        ensures params { self.new.params ≡ self.old.params }
        ensures gaps { self.new.gaps ≡ self.old.gaps }
        ensures whole { F.whole self.new.feed ≡ F.whole self.old.feed }
    {
        self.fill();
        if self.rests() {
            self.wait();
            return false;
        }
        if ready {
            self.take();
            return true;
        }
        true
    }

    /// The next cycle of the run that it stands for: whether it shows the transfer that is held.
    pub(crate) fn step(&mut self, ready: bool) -> bool
        ensures shown { (ts : List Transfer) (before : List Bool) → StandsFor F.rest self.old ts before
            → shown_after self.old.params ts self.old.gaps (run_of self.old.params ts self.old.gaps before) ≡ (if result then Some self.new.held else None) }
        ensures stands { (ts : List Transfer) (before : List Bool) → StandsFor F.rest self.old ts before → StandsFor F.rest self.new ts (before ++ ready ∷ []) }
        ensures params { self.new.params ≡ self.old.params }
        ensures gaps { self.new.gaps ≡ self.old.gaps }
        ensures whole { F.whole self.new.feed ≡ F.whole self.old.feed }
    {
        self.advance(ready)
    }
}

// The gap of this number, 0 past the end.
fn gap_in(gaps: &[u32], place: usize) -> u32
    ensures { result ≡ slice_index gaps.now place }
{
    match gaps.get(place) {
        Some(gap) => *gap,
        None => 0,
    }
}
