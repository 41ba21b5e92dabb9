ghost use Rattle.std.specs.Prelude.{◌≡◌, IfOk, MatchResult};
ghost use Rattle.physical_stream.specs.Signals.{Fits, zero_transfer};
ghost use Rattle.scheduler.specs.Laws.{AreItems, UsersFit};
ghost use Rattle.scheduler.specs.Planned.{MasksFit, plan_of};
ghost use Rattle.scheduler.specs.Schedules.{IsFaultOf, IsScheduleOf};
ghost use Rattle.scheduler.specs.Stepping.{CanGoOn};

use crate::fault::ScheduleFault;
use crate::multiple::is_multiple;
use crate::stepping::next_transfer;
use physical_stream::{Item, Params, Transfer};
use plan_text::StreamPlan;
use std::alloc::Global;
use tydi_base::{List, Memory, TryClone};

// The transfers that a plan makes of items.
fn all_transfers(
    alloc: Global,
    p: &Params,
    items: &[Item],
    plan: &StreamPlan,
    blank: &Transfer,
    into: &mut Transfer,
) -> Result<List<Transfer>, Memory>
    requires can { CanGoOn p.now items.now plan.now.wishes plan.now.users }
    requires blank { blank.now ≡ zero_transfer p.now }
    requires room { Fits p.now into.old }
    ensures { IfOk result (λ list. list ≡ plan_of p.now plan.now.wishes plan.now.users items.now) }
{
    let mut list = List::new(alloc);
    let mut place = 0;
    'transfers: while place < items.len() {
        place = next_transfer(p, items, plan, blank, place, list.len(), into);
        list.push(into.try_clone(alloc)?)?;
    }
    Ok(list)
}

/// The transfers that this plan makes of the items of a stream, in order: what a `Planner` gives, as a list. Past the end of a list of
/// the plan a wish is all lanes with neither flag, and a user word is zero. The conditions are those of `Planner::new`, and so is when
/// CountNotMultiple comes. Memory comes where there was none for the transfers.
pub fn schedule(
    alloc: Global,
    p: &Params,
    items: &[Item],
    plan: &StreamPlan,
) -> Result<List<Transfer>, ScheduleFault>
    requires fit { AreItems p.now items.now }
    requires masks { MasksFit p.now plan.now.wishes }
    requires users { UsersFit p.now plan.now.users }
    ensures { MatchResult result (IsScheduleOf p.now items.now plan.now) (IsFaultOf p.now items.now) }
{
    if !is_multiple(p, items) {
        return Err(ScheduleFault::CountNotMultiple(items.len(), p.lanes));
    }
    let blank = Transfer::zero(alloc, p)?;
    let mut first = Transfer::zero(alloc, p)?;
    let list = all_transfers(alloc, p, items, plan, &blank, &mut first)?;
    Ok(list)
}
