ghost use Rattle.std.specs.Prelude.{◌≡◌, ◌<◌, length, IfOk, MatchResult};
ghost use Rattle.physical_stream.specs.Signals.{Fits, zero_transfer};
ghost use Rattle.scheduler.specs.Laws.{AreItems, UsersFit};
ghost use Rattle.scheduler.specs.Planned.{MasksFit, plan_of};
ghost use Rattle.scheduler.specs.Planners.{rest_of, whole_of, IsPlannerOf};
ghost use Rattle.scheduler.specs.Schedules.{IsFaultOf};
ghost use Rattle.scheduler.specs.Stepping.{CanGoOn};

use crate::fault::ScheduleFault;
use crate::multiple::is_multiple;
use crate::passing::pass_transfer;
use crate::planner::Planner;
use crate::stepping::next_transfer;
use handshake::{Rewind, TransferFeed};
use physical_stream::{Item, Params, Transfer};
use plan_text::StreamPlan;
use std::alloc::Global;
use tydi_base::{List, Memory};

// How many transfers a plan makes of items. Memory comes where no number counts them.
fn count_transfers(
    p: &Params,
    items: &[Item],
    plan: &StreamPlan,
    blank: &Transfer,
    into: &mut Transfer,
) -> Result<usize, Memory>
    requires can { CanGoOn p.now items.now plan.now.wishes plan.now.users }
    requires blank { blank.now ≡ zero_transfer p.now }
    requires room { Fits p.now into.old }
    ensures { IfOk result (λ count. count ≡ length (plan_of p.now plan.now.wishes plan.now.users items.now)) }
{
    let mut count: usize = 0;
    let mut place = 0;
    'transfers: while place < items.len() {
        place = pass_transfer(p, items, plan, blank, place, count, into);
        match count.checked_add(1) {
            Some(next) => count = next,
            None => return Err(Memory),
        }
    }
    Ok(count)
}

impl Planner {
    /// The transfers that this plan makes of the items of a stream, of which none was given. Its elements have the stream's width, its
    /// Closes are of the stream's dimensions, each mask has no one at or above the lanes, and each user word has the stream's width.
    /// CountNotMultiple comes exactly where the stream has no dimension, its level is below 5, and its lanes do not divide the
    /// elements. Memory comes where there was none for two transfers. No later call takes memory.
    pub fn new(
        alloc: Global,
        p: Params,
        items: List<Item>,
        plan: StreamPlan,
    ) -> Result<Planner, ScheduleFault>
        requires fit { AreItems p items }
        requires masks { MasksFit p plan.wishes }
        requires users { UsersFit p plan.users }
        ensures { MatchResult result (IsPlannerOf p items plan) (IsFaultOf p items) }
    {
        if !is_multiple(&p, items.as_slice()) {
            return Err(ScheduleFault::CountNotMultiple(items.len(), p.lanes));
        }
        let blank = Transfer::zero(alloc, &p)?;
        let mut first = Transfer::zero(alloc, &p)?;
        let count = count_transfers(&p, items.as_slice(), &plan, &blank, &mut first)?;
        Ok(Planner {
            params: p,
            items,
            plan,
            blank,
            count,
            left: count,
            place: 0,
        })
    }
}

impl TransferFeed for Planner {
    ghost params = { λ planner. planner.params };

    ghost whole = { whole_of };

    ghost rest = { rest_of };

    fn left(&self) -> usize {
        self.left
    }

    fn next(&mut self, into: &mut Transfer) -> bool {
        if self.left == 0 {
            return false;
        }
        self.place = next_transfer(
            &self.params,
            self.items.as_slice(),
            &self.plan,
            &self.blank,
            self.place,
            self.count - self.left,
            into,
        );
        self.left -= 1;
        true
    }
}

impl Rewind for Planner {
    fn rewind(&mut self) {
        self.place = 0;
        self.left = self.count;
    }
}
