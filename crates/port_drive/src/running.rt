//! The runs of all streams of a port, before their first cycle.

ghost use Rattle.std.specs.Prelude.{◌≡◌, true, slice_get, Some, IfOk};
ghost use Rattle.logical_value.specs.Fits.{fits_split};
ghost use Rattle.logical_value.specs.Tree.{plain_port};
ghost use Rattle.type_split.specs.Streams.{IsPortSplit, plain_split};
ghost use Rattle.plan_text.specs.Laws.{FitsPort};
ghost use Rattle.scheduler.specs.Laws.{UsersFit};
ghost use Rattle.scheduler.specs.Planned.{MasksFit};
ghost use Rattle.tydi_base.specs.Reading.{Gives};
ghost use Rattle.port_drive.specs.Drives as spec;
ghost use Rattle.port_drive.specs.Drives.{runs_of};
ghost use Rattle.port_drive.specs.Faults.{reason_in};
ghost use Rattle.port_drive.specs.Starting.{StandsAtStart, Starts, runs_of_port};

use crate::fault::DriveFault;
use crate::starting::{items_on, run_of_items};
use handshake::{Cursor, PortRun};
use logical_value::PortValue;
use plan_text::{Plan, StreamPlan};
use scheduler::Planner;
use std::alloc::Global;
use tydi_base::List;
use type_split::{Phys, Split};

/// The runs that a value and a plan make of the physical streams of a port, before their first cycle. `CountNotMultiple` comes exactly
/// where a stream has no schedule, with the first such stream. Runs that do not finish are made all the same, so `NotFinished` never
/// comes. `Memory` comes where there is none for the runs.
pub fn port_run(
    alloc: Global,
    split: &Split<'_>,
    value: &PortValue,
    plan: Plan,
) -> Result<PortRun<Planner>, DriveFault>
    requires split { IsPortSplit (plain_split split.now) }
    requires value { fits_split (plain_split split.now) (plain_port value.now) ≡ true }
    requires plan { FitsPort split.now.streams plan }
    ensures runs { Gives reason_in runs_of_port result (runs_of (plain_split split.now) (plain_port value.now) plan.streams) }
    ensures start { IfOk result (StandsAtStart plan.cycles) }
{
    let Plan { cycles, streams } = plan;
    let mut cursors = List::new(alloc);
    let mut ready = List::new(alloc);
    let mut number = 0;
    'plans: for one in streams.into_vec() {
        let StreamPlan {
            gaps,
            ready: bits,
            wishes,
            users,
        } = one;
        let rest = StreamPlan {
            gaps: List::new(alloc),
            ready: List::new(alloc),
            wishes,
            users,
        };
        let stream = &split.streams.as_slice()[number];
        let cursor = stream_run(alloc, split, value, number, stream, rest, gaps)?;
        cursors.push(cursor)?;
        ready.push(bits)?;
        number += 1;
    }
    Ok(PortRun::new(cursors, ready, cycles))
}

/// The run of the stream of this number, by the wishes and user words of a plan, and gaps.
fn stream_run(
    alloc: Global,
    split: &Split<'_>,
    value: &PortValue,
    number: usize,
    stream: &Phys,
    plan: StreamPlan,
    gaps: List<u32>,
) -> Result<Cursor<Planner>, DriveFault>
    requires split { IsPortSplit (plain_split split.now) }
    requires value { fits_split (plain_split split.now) (plain_port value.now) ≡ true }
    requires there { slice_get split.now.streams number ≡ Some stream.now }
    requires masks { MasksFit stream.now.params plan.wishes }
    requires users { UsersFit stream.now.params plan.users }
    ensures { Starts number stream.now.params (spec.items_on (plain_split split.now) (plain_port value.now) number stream.now) gaps plan.wishes plan.users result }
{
    let items = items_on(alloc, split, value, number)?;
    run_of_items(alloc, number, stream.params, items, plan, gaps)
}
