//! The steps of a chain.

ghost use Rattle.std.specs.Prelude.{◌≡◌, ◌≤◌, ◌==◌, Bool, List, length, true, false, IfSome, IsSome, IsTrue, ◌↔◌, ⊤, replicate};
ghost use Rattle.std.specs.Borrow.{sem};
ghost use Rattle.physical_stream.specs.Cycles.{cycle_in};
ghost use Rattle.physical_stream.specs.declared.transfer.Transfer.{Transfer};
ghost use Rattle.elastic_net.specs.States.{ChainState, first_state, has_acted, step_of};
ghost use Rattle.elastic_net.specs.Sinks.{left_in};
ghost use Rattle.elastic_net.specs.Standing.{KeepChain, StandsFor};

use crate::chain::Chain;
use handshake::{Rewind, TransferFeed};
use physical_stream::{Params, Row, Tail, Transfer};

impl<F: TransferFeed> Chain<F> {
    ghost use Rattle.elastic_net.specs.contracts.chain.Chain.{the_row};
    ghost use mathlib.Core.Option.{none};
    ghost use denote.Follow.{follows_so};

    /// A component acts, 0 being the source and the stages following it: it moves the first transfer that it has, where the place behind
    /// it has room, which the sink has where it is ready. The row at the sink is there exactly for the last component.
    pub fn step(&mut self, component: u32, ready: bool) -> Option<Row<'_>>
        requires within { component ≤ length self.old.stages }
        ensures last { IsSome result ↔ (component ≡ length self.old.stages) }
        ensures row { (ts : List Transfer) (s : ChainState) → StandsFor F.rest self.old ts s → has_acted component s ≡ false
            → IfSome result (λ row. cycle_in row ≡ record { ready = ready; shown = (step_of self.old.params ts self.old.gaps self.old.stages component ready s).shown }) }
        ensures* after { sem 𝓛 (follows_so (the_row F.row F.TransferFeed) (the_row F.row F.TransferFeed) self.entry.ghost_name none (λ _ _. ⊤)
            (λ n. ((ts : List Transfer) (s : ChainState) → StandsFor F.rest self.old ts s → has_acted component s ≡ false
            → StandsFor F.rest n ts (step_of self.old.params ts self.old.gaps self.old.stages component ready s))
            × KeepChain F.whole self.old n)) }
    {
        if self.act_step(component as usize, ready) {
            return Some(Row {
                ready,
                shown: self.shown(),
            });
        }
        None
    }

    // A step of a component: whether it is the last one.
    fn act_step(&mut self, component: usize, ready: bool) -> bool
        requires within { component ≤ length self.old.stages }
        ensures last { IsTrue result ↔ (component ≡ length self.old.stages) }
        ensures stands { (ts : List Transfer) (s : ChainState) → StandsFor F.rest self.old ts s → has_acted component s ≡ false
            → StandsFor F.rest self.new ts (step_of self.old.params ts self.old.gaps self.old.stages component ready s) }
        ensures kept { KeepChain F.whole self.old self.new }
    {
        self.act(component, ready);
        component == self.stages.len()
    }

    /// How many transfers are not at the sink.
    pub fn left(&self) -> usize
        ensures { (ts : List Transfer) (s : ChainState) → StandsFor F.rest self.now ts s → result ≡ left_in self.now.params ts self.now.gaps self.now.stages s }
    {
        self.total.saturating_sub(self.past[self.stages.len()])
    }
}

impl<F: Rewind> Chain<F> {
    /// Goes back to before the first step of the chain of all transfers of the feed. It takes no memory.
    pub fn rewind(&mut self)
        ensures stands { StandsFor F.rest self.new (F.whole self.old.feed) (first_state (F.whole self.old.feed)) }
        ensures kept { KeepChain F.whole self.old self.new }
    {
        self.feed.rewind();
        self.total = self.feed.left();
        self.holds = false;
        self.tail = None;
        self.shows = false;
        clear_counts(self.past.as_mut_slice());
    }
}

/// Every component has moved nothing on.
fn clear_counts(past: &mut [usize])
    ensures { past.new ≡ replicate (length past.old) 0 }
{
    'components: for count in past.iter_mut() {
        *count = 0;
    }
}
