//! What the source of a chain does.

ghost use Rattle.std.specs.Prelude.{◌≡◌, ◌<◌, ◌%◌, ◌∷◌, [], ⊤, suc, Bool, List, length, true, false, slice_index, get_or};
ghost use Rattle.std.specs.List.{All};
ghost use Rattle.physical_stream.specs.Signals.{Fits};
ghost use Rattle.physical_stream.specs.declared.transfer.Transfer.{Transfer};
ghost use Rattle.handshake.specs.Feed.{Feeds};
ghost use Rattle.handshake.specs.Kept.{Rests, gap_at};
ghost use Rattle.elastic_net.specs.States.{ChainState, act_of, has_acted, has_room, next_cycle_of};
ghost use Rattle.elastic_net.specs.Standing.{ActsAs, IsAt, KeepChain, StandsFor};

use crate::chain::Chain;
use complexity_rules::{may_pause, tail_after};
use handshake::TransferFeed;
use physical_stream::{Params, Tail, Transfer};

impl<F: TransferFeed> Chain<F> {
    // The place of the transfer of this number.
    pub(crate) fn place_of(&self, number: usize) -> usize
        ensures is { result ≡ number % length self.now.places.items }
        ensures within { result < length self.now.places.items }
    {
        number % self.places.len()
    }

    // The gap before the next transfer: the plan's, where valid may be low.
    fn gap(&self) -> u32
        ensures { result ≡ gap_at self.now.params self.now.gaps (slice_index self.now.past.items 0) self.now.tail }
    {
        if may_pause(&self.params, self.tail) {
            gap_in(self.gaps.as_slice(), self.past[0])
        } else {
            0
        }
    }

    // Holds the next transfer in its place, where none is held and there is one.
    fn fill(&mut self)
        ensures at { (ts : List Transfer) (s : ChainState) → IsAt F.rest self.old ts s → IsAt F.rest self.new ts s }
        ensures full { self.new.holds ≡ false → F.rest self.new.feed ≡ [] }
        ensures kept { KeepChain F.whole self.old self.new }
        ensures holds { self.old.holds ≡ true → self.new.holds ≡ true }
        ensures past { self.new.past ≡ self.old.past }
        ensures shows { self.new.shows ≡ self.old.shows }
        ensures number { self.new.number ≡ self.old.number }
    {
        if !self.holds {
            let place = self.place_of(self.past[0]);
            self.holds = self.feed.next(&mut self.places[place]);
            if self.holds {
                self.pause = self.gap();
            }
        }
    }

    // Whether the source shows nothing in the cycle that runs.
    fn rests(&self) -> bool
        ensures yes { result ≡ true → Rests self.now.holds self.now.pause }
        ensures no { result ≡ false → (self.now.holds ≡ true) × (self.now.pause ≡ 0) }
    {
        !self.holds || self.pause > 0
    }

    // One cycle less to wait.
    fn wait(&mut self)
        ensures at { (ts : List Transfer) (s : ChainState) (ready : Bool) → IsAt F.rest self.old ts s → has_acted 0 s ≡ false
            → (self.old.holds ≡ false → F.rest self.old.feed ≡ []) → Rests self.old.holds self.old.pause
            → IsAt F.rest self.new ts (act_of self.old.params ts self.old.gaps self.old.stages 0 ready s) }
        ensures kept { KeepChain F.whole self.old self.new }
        ensures holds { self.new.holds ≡ self.old.holds }
        ensures shows { self.new.shows ≡ self.old.shows }
        ensures number { self.new.number ≡ self.old.number }
    {
        self.pause = self.pause.saturating_sub(1);
    }

    // The transfer that is held is sent.
    fn send(&mut self)
        ensures at { (ts : List Transfer) (s : ChainState) (ready : Bool) → IsAt F.rest self.old ts s → has_acted 0 s ≡ false
            → self.old.holds ≡ true → self.old.pause ≡ 0 → has_room self.old.stages 0 ready s ≡ true
            → IsAt F.rest self.new ts (act_of self.old.params ts self.old.gaps self.old.stages 0 ready s) }
        ensures kept { KeepChain F.whole self.old self.new }
        ensures holds { self.new.holds ≡ false }
        ensures shows { self.new.shows ≡ self.old.shows }
        ensures number { self.new.number ≡ self.old.number }
    {
        let sent = self.past[0];
        let place = self.place_of(sent);
        self.tail = tail_after(&self.params, self.tail, &self.places[place]);
        self.holds = false;
        self.past[0] = sent.saturating_add(1);
    }

    // The source acts: whether it shows a transfer, which it sends where there is room.
    pub(crate) fn act_source(&mut self, room: bool) -> bool
        ensures at { (ts : List Transfer) (s : ChainState) (ready : Bool) → IsAt F.rest self.old ts s → has_acted 0 s ≡ false
            → room ≡ has_room self.old.stages 0 ready s
            → IsAt F.rest self.new ts (act_of self.old.params ts self.old.gaps self.old.stages 0 ready s) }
        ensures acts { (ts : List Transfer) (s : ChainState) (ready : Bool) → IsAt F.rest self.old ts s → has_acted 0 s ≡ false
            → room ≡ has_room self.old.stages 0 ready s
            → ActsAs self.old.params ts self.old.gaps self.old.stages s 0 ready self.old.holds self.new.holds result }
        ensures kept { KeepChain F.whole self.old self.new }
        ensures shows { self.new.shows ≡ self.old.shows }
        ensures number { self.new.number ≡ self.old.number }
    {
        self.fill();
        if self.rests() {
            self.wait();
            return false;
        }
        if room {
            self.send();
        }
        true
    }
}

// The gap of this number, 0 past the end.
fn gap_in(gaps: &[u32], place: usize) -> u32
    ensures { result ≡ slice_index gaps.now place }
{
    match gaps.get(place) {
        Some(gap) => *gap,
        None => 0,
    }
}
