//! The run through a reshaper, before its first cycle.

ghost use Rattle.std.specs.Prelude.{◌≡◌, IfOk};
ghost use Rattle.tydi_base.specs.Reading.{Gives};
ghost use Rattle.scheduler.specs.Laws.{AreItems, UsersFit};
ghost use Rattle.scheduler.specs.Planned.{MasksFit};
ghost use Rattle.port_drive.specs.Faults.{reason_in, reason_of};
ghost use Rattle.port_drive.specs.Starting.{Starts};
ghost use Rattle.reshape.specs.Standing.{to_of};
ghost use Rattle.port_reshape.specs.Reshapes.{source_of};
ghost use Rattle.port_reshape.specs.Starting.{CanPass, IsFarOf, IsReshaperOf, source_in};

use crate::far_items::FarItems;
use handshake::Cursor;
use physical_stream::{Item, Params};
use plan_text::StreamPlan;
use port_drive::DriveFault;
use reshape::{ReshapeRun, Reshaper, far_count, is_multiple};
use scheduler::{Planner, ScheduleFault};
use std::alloc::Global;
use tydi_base::List;

/// The run through a reshaper from one side to the other, where a plan sends these items to the near side, and its ready bits are those of
/// the far side. `CountNotMultiple` comes exactly where each transfer of a side has an element in every lane, and its lanes do not divide
/// the items: those of the near side first.
pub(crate) fn run_between(
    alloc: Global,
    from: Params,
    to: Params,
    items: List<Item>,
    plan: StreamPlan,
) -> Result<ReshapeRun<Planner>, DriveFault>
    requires { CanPass from to items plan }
    ensures run { Gives reason_in source_in result (source_of from to items plan) }
    ensures to { IfOk result (λ run. to_of run.reshaper ≡ to) }
    ensures number { IfOk result (λ run. run.number ≡ 0) }
{
    let StreamPlan {
        gaps,
        ready,
        wishes,
        users,
    } = plan;
    let rest = StreamPlan {
        gaps: List::new(alloc),
        ready: List::new(alloc),
        wishes,
        users,
    };
    let far = far_items(&to, items.as_slice());
    let near = source_run(alloc, from, items, rest, gaps)?;
    let reshaper = reshaper_between(alloc, from, to, far)?;
    Ok(ReshapeRun::new(alloc, near, reshaper, ready, far.planned)?)
}

/// What these items are at the far side.
fn far_items(to: &Params, items: &[Item]) -> FarItems
    requires { AreItems to.now items.now }
    ensures { IsFarOf to.now items.now result }
{
    FarItems {
        divides: is_multiple(to, items),
        count: items.len(),
        planned: far_count(to, items),
    }
}

/// The reshaper between two sides, where the lanes of the far side divide the items.
fn reshaper_between(
    alloc: Global,
    from: Params,
    to: Params,
    far: FarItems,
) -> Result<Reshaper, DriveFault>
    requires dims { from.dims ≡ to.dims }
    requires element { from.element ≡ to.element }
    requires no_user { to.user ≡ 0 }
    ensures { IsReshaperOf from to far.divides far.count result }
{
    if !far.divides {
        return Err(DriveFault::CountNotMultiple {
            stream: 0,
            count: far.count,
            lanes: to.lanes,
        });
    }
    Ok(Reshaper::new(alloc, from, to)?)
}

/// The run of the source, before its first cycle.
fn source_run(
    alloc: Global,
    p: Params,
    items: List<Item>,
    plan: StreamPlan,
    gaps: List<u32>,
) -> Result<Cursor<Planner>, DriveFault>
    requires fit { AreItems p items }
    requires masks { MasksFit p plan.wishes }
    requires users { UsersFit p plan.users }
    ensures { Starts 0 p items gaps plan.wishes plan.users result }
{
    let _lanes = p.lanes;
    match Planner::new(alloc, p, items, plan) {
        Ok(planner) => Ok(Cursor::new(alloc, p, planner, gaps)?),
        Err(fault) => Err(undriven(fault)),
    }
}

/// Why a port is not driven whose first stream has no schedule.
fn undriven(fault: ScheduleFault) -> DriveFault
    ensures { reason_in result ≡ reason_of 0 fault }
{
    match fault {
        ScheduleFault::CountNotMultiple(count, lanes) => DriveFault::CountNotMultiple {
            stream: 0,
            count,
            lanes,
        },
        ScheduleFault::Memory => DriveFault::Memory,
    }
}
