//! The block of a stream: its lines, one after another.

ghost use Rattle.std.specs.Prelude.{◌≡◌, ◌≤◌};
ghost use Rattle.tydi_base.specs.Reading.{Gives};
ghost use Rattle.plan_text.specs.Blocks as spec;
ghost use Rattle.plan_text.specs.Faults.{fault_in};

use crate::fault::PlanFault;
use crate::lines::Line;
use crate::plan::StreamPlan;
use crate::words::{gaps_of, ready_of, users_of, wishes_of};
use physical_stream::Params;
use std::alloc::Global;
use tydi_base::{List, Place};

/// The block of a stream.
#[derive(Drop)]
pub(crate) struct Block {
    /// The stream's number, from 0.
    pub(crate) number: usize,
    pub(crate) params: Params,
    /// The plan that its lines give so far. Each line that is there has an element.
    pub(crate) plan: StreamPlan,
}

impl Block {
    /// The block of a stream, without lines.
    pub(crate) fn new(alloc: Global, number: usize, params: Params) -> Block
        ensures { result ≡ record { number = number; params = params; plan = spec.empty_plan } }
    {
        Block {
            number,
            params,
            plan: StreamPlan::empty(alloc),
        }
    }
}

impl StreamPlan {
    /// The plan of a block without lines.
    pub(crate) fn empty(alloc: Global) -> StreamPlan
        ensures { result ≡ spec.empty_plan }
    {
        StreamPlan {
            gaps: List::new(alloc),
            ready: List::new(alloc),
            wishes: List::new(alloc),
            users: List::new(alloc),
        }
    }

    /// Adds a line `gaps` with these words.
    #[tactic(auto, unfolding(crate::specs::Blocks::with_gaps))]
    fn add_gaps(&mut self, alloc: Global, place: Place, text: &[u8]) -> Result<(), PlanFault>
        ensures { Gives fault_in (λ _. self.new) result (spec.with_gaps place text.now self.old) }
    {
        if !(self.gaps.is_empty()
            && self.ready.is_empty()
            && self.wishes.is_empty()
            && self.users.is_empty())
        {
            return Err(PlanFault::Syntax(place));
        }
        self.gaps = gaps_of(alloc, place, text)?;
        Ok(())
    }

    /// Adds a line `ready` with this word, for so many cycles.
    #[tactic(auto, unfolding(crate::specs::Blocks::with_ready))]
    fn add_ready(
        &mut self,
        alloc: Global,
        place: Place,
        cycles: u32,
        word: &[u8],
    ) -> Result<(), PlanFault>
        ensures { Gives fault_in (λ _. self.new) result (spec.with_ready place cycles word.now self.old) }
    {
        if !(self.ready.is_empty() && self.wishes.is_empty() && self.users.is_empty()) {
            return Err(PlanFault::Syntax(place));
        }
        self.ready = ready_of(alloc, place, cycles, word)?;
        Ok(())
    }

    /// Adds a line `wishes` with these words, for a stream of so many lanes.
    #[tactic(auto, unfolding(crate::specs::Blocks::with_wishes))]
    fn add_wishes(
        &mut self,
        alloc: Global,
        place: Place,
        lanes: u16,
        text: &[u8],
    ) -> Result<(), PlanFault>
        requires { lanes ≤ 128 }
        ensures { Gives fault_in (λ _. self.new) result (spec.with_wishes place lanes text.now self.old) }
    {
        if !(self.wishes.is_empty() && self.users.is_empty()) {
            return Err(PlanFault::Syntax(place));
        }
        self.wishes = wishes_of(alloc, place, lanes, text)?;
        Ok(())
    }

    /// Adds a line `users` with these words, for a stream of this user width.
    #[tactic(auto, unfolding(crate::specs::Blocks::with_users))]
    fn add_users(
        &mut self,
        alloc: Global,
        place: Place,
        width: u32,
        text: &[u8],
    ) -> Result<(), PlanFault>
        ensures { Gives fault_in (λ _. self.new) result (spec.with_users place width text.now self.old) }
    {
        if !self.users.is_empty() {
            return Err(PlanFault::Syntax(place));
        }
        self.users = users_of(alloc, place, width, text)?;
        Ok(())
    }

    /// Adds a line that is no `stream` line, for a stream of these parameters.
    #[tactic(auto, unfolding(crate::specs::Blocks::with_line))]
    pub(crate) fn add_line(
        &mut self,
        alloc: Global,
        cycles: u32,
        params: &Params,
        line: Line<'_>,
    ) -> Result<(), PlanFault>
        ensures { Gives fault_in (λ _. self.new) result (spec.with_line line.entry.place cycles params.now line.entry.bytes.now self.old) }
    {
        let place = line.place;
        let bytes = line.bytes;
        if bytes.starts_with(b"gaps ") {
            self.add_gaps(alloc, place, &bytes[5..])
        } else if bytes.starts_with(b"ready ") {
            self.add_ready(alloc, place, cycles, &bytes[6..])
        } else if bytes.starts_with(b"wishes ") {
            self.add_wishes(alloc, place, params.lanes, &bytes[7..])
        } else if bytes.starts_with(b"users ") {
            self.add_users(alloc, place, params.user, &bytes[6..])
        } else {
            Err(PlanFault::Syntax(place))
        }
    }
}
