//! What a component of a chain does.

ghost use Rattle.std.specs.Prelude.{◌≡◌, ◌≤◌, ◌<◌, ◌+◌, ◌-◌, ◌^◌, suc, min, Bool, List, length, true, false};
ghost use Rattle.std.specs.Option.{option_copied};
ghost use Rattle.physical_stream.specs.declared.transfer.Transfer.{Transfer};
ghost use Rattle.elastic_net.specs.States.{ChainState, act_of, has_acted, has_room};
ghost use Rattle.elastic_net.specs.Standing.{ActsAs, IsAt, KeepChain, StandsFor};

use crate::chain::Chain;
use handshake::TransferFeed;
use physical_stream::{Params, Tail, Transfer};

impl<F: TransferFeed> Chain<F> {
    // Whether the place behind a component has room: a stage that is not full, and the sink where it is ready.
    fn has_room(&self, component: usize, ready: bool) -> bool
        requires within { component ≤ length self.now.stages }
        ensures { (ts : List Transfer) (s : ChainState) → IsAt F.rest self.now ts s → result ≡ has_room self.now.stages component ready s }
    {
        match self.stages.get(component) {
            Some(capacity) => {
                self.past[component].saturating_sub(self.past[component + 1])
                    < usize::from(*capacity)
            }
            None => ready,
        }
    }

    // A stage acts: whether it shows a transfer, which it moves on where there is room.
    fn act_stage(&mut self, component: usize, room: bool) -> bool
        requires first { 0 < component }
        requires within { component ≤ length self.old.stages }
        ensures at { (ts : List Transfer) (s : ChainState) (ready : Bool) → IsAt F.rest self.old ts s → room ≡ has_room self.old.stages component ready s
            → IsAt F.rest self.new ts (act_of self.old.params ts self.old.gaps self.old.stages component ready s) }
        ensures acts { (ts : List Transfer) (s : ChainState) (ready : Bool) → IsAt F.rest self.old ts s → room ≡ has_room self.old.stages component ready s
            → ActsAs self.old.params ts self.old.gaps self.old.stages s component ready self.old.holds self.new.holds result }
        ensures kept { KeepChain F.whole self.old self.new }
        ensures shows { self.new.shows ≡ self.old.shows }
        ensures number { self.new.number ≡ self.old.number }
    {
        let moved = self.past[component];
        if moved >= self.past[component - 1] {
            return false;
        }
        if room {
            self.past[component] = moved + 1;
        }
        true
    }

    // A component moves what it shows, where there is room: whether it shows a transfer.
    fn act_one(&mut self, component: usize, room: bool) -> bool
        requires within { component ≤ length self.old.stages }
        ensures at { (ts : List Transfer) (s : ChainState) (ready : Bool) → IsAt F.rest self.old ts s → has_acted component s ≡ false
            → room ≡ has_room self.old.stages component ready s
            → IsAt F.rest self.new ts (act_of self.old.params ts self.old.gaps self.old.stages component ready s) }
        ensures acts { (ts : List Transfer) (s : ChainState) (ready : Bool) → IsAt F.rest self.old ts s → has_acted component s ≡ false
            → room ≡ has_room self.old.stages component ready s
            → ActsAs self.old.params ts self.old.gaps self.old.stages s component ready self.old.holds self.new.holds result }
        ensures kept { KeepChain F.whole self.old self.new }
        ensures shows { self.new.shows ≡ self.old.shows }
        ensures number { self.new.number ≡ self.old.number }
    {
        if component == 0 {
            self.act_source(room)
        } else {
            self.act_stage(component, room)
        }
    }

    // A component acts in the cycle that runs, in which it has not acted yet; what the last one shows is kept.
    pub(crate) fn act(&mut self, component: usize, ready: bool)
        requires within { component ≤ length self.old.stages }
        ensures stands { (ts : List Transfer) (s : ChainState) → StandsFor F.rest self.old ts s → has_acted component s ≡ false
            → StandsFor F.rest self.new ts (act_of self.old.params ts self.old.gaps self.old.stages component ready s) }
        ensures kept { KeepChain F.whole self.old self.new }
    {
        let room = self.has_room(component, ready);
        let number = self.past[component];
        let shows = self.act_one(component, room);
        if component == self.stages.len() {
            self.shows = shows;
            self.number = number;
        }
    }

    // What the last component showed when it acted last.
    pub(crate) fn shown(&self) -> Option<&Transfer>
        ensures { (ts : List Transfer) (s : ChainState) → StandsFor F.rest self.now ts s → option_copied result ≡ s.shown }
    {
        if self.shows {
            Some(&self.places[self.place_of(self.number)])
        } else {
            None
        }
    }

    // The number of the first component behind this chain, whose first component has that number; the greatest number of 64 bits where
    // it is greater.
    pub(crate) fn first_behind(&self, first: usize) -> usize
        ensures { result ≡ min (first + suc (length self.now.stages)) (2 ^ 64 - 1) }
    {
        first.saturating_add(self.past.len())
    }
}
