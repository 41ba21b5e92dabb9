//! The chains of all streams of a port, before their first cycle.

ghost use Rattle.std.specs.Prelude.{◌≡◌, ◌<◌, true, length, slice_get, Some, IfOk};
ghost use Rattle.tydi_base.specs.Reading.{Gives};
ghost use Rattle.logical_value.specs.Fits.{fits_split};
ghost use Rattle.logical_value.specs.Tree.{plain_port};
ghost use Rattle.type_split.specs.Streams.{IsPortSplit, plain_split};
ghost use Rattle.type_split.specs.declared.split.Phys.{Phys};
ghost use Rattle.plan_text.specs.Laws.{FitsPort};
ghost use Rattle.net_text.specs.Laws.{FitsNet};
ghost use Rattle.scheduler.specs.Laws.{AreItems, UsersFit};
ghost use Rattle.scheduler.specs.Planned.{MasksFit};
ghost use Rattle.port_drive.specs.Drives as drives;
ghost use Rattle.port_drive.specs.Drives.{runs_of};
ghost use Rattle.port_drive.specs.Faults.{reason_in, reason_of};
ghost use Rattle.port_elastic.specs.Starting.{Plans, StandsAtStart, runs_of_net, stages_of_net};

use elastic_net::{Chain, ElasticRun};
use logical_value::PortValue;
use net_text::NetPlan;
use physical_stream::{Item, Params};
use plan_text::{Plan, StreamPlan};
use port_drive::DriveFault;
use scheduler::{Planner, ScheduleFault};
use std::alloc::Global;
use tydi_base::{List, Memory};
use type_split::{Phys, Split};
use value_views::view_items;

/// The chains that a value, a plan and a net make of the physical streams of a port, before their first cycle. `CountNotMultiple` comes
/// exactly where a stream has no schedule, with the first such stream. Chains that do not finish are made all the same, so `NotFinished`
/// never comes. `Memory` comes where there is none for the chains.
pub(crate) fn elastic_run(
    alloc: Global,
    split: &Split<'_>,
    value: &PortValue,
    plan: Plan,
    net: NetPlan,
) -> Result<ElasticRun<Planner>, DriveFault>
    requires split { IsPortSplit (plain_split split.now) }
    requires value { fits_split (plain_split split.now) (plain_port value.now) ≡ true }
    requires plan { FitsPort split.now.streams plan }
    requires net { FitsNet (length split.now.streams) plan.cycles net }
    ensures runs { Gives reason_in runs_of_net result (runs_of (plain_split split.now) (plain_port value.now) plan.streams) }
    ensures net { IfOk result (λ run. (stages_of_net run ≡ net.stages) × (run.orders ≡ net.orders)) }
    ensures start { IfOk result (StandsAtStart plan.cycles) }
{
    let Plan { cycles, streams } = plan;
    let NetPlan { stages, orders } = net;
    let mut chains = List::new(alloc);
    let mut ready = List::new(alloc);
    let mut number = 0;
    'plans: for one in streams.into_vec() {
        let StreamPlan {
            gaps,
            ready: bits,
            wishes,
            users,
        } = one;
        let rest = StreamPlan {
            gaps: List::new(alloc),
            ready: List::new(alloc),
            wishes,
            users,
        };
        let stream = &split.streams.as_slice()[number];
        let planner = stream_planner(alloc, split, value, number, stream, rest)?;
        let own = stages.as_slice()[number].as_slice();
        chains.push(Chain::new(alloc, stream.params, planner, gaps, own)?)?;
        ready.push(bits)?;
        number += 1;
    }
    Ok(ElasticRun::new(chains, ready, orders, cycles))
}

/// The transfers of the stream of this number, by the wishes and user words of a plan.
fn stream_planner(
    alloc: Global,
    split: &Split<'_>,
    value: &PortValue,
    number: usize,
    stream: &Phys,
    plan: StreamPlan,
) -> Result<Planner, DriveFault>
    requires split { IsPortSplit (plain_split split.now) }
    requires value { fits_split (plain_split split.now) (plain_port value.now) ≡ true }
    requires there { slice_get split.now.streams number ≡ Some stream.now }
    requires masks { MasksFit stream.now.params plan.wishes }
    requires users { UsersFit stream.now.params plan.users }
    ensures { Plans number stream.now.params (drives.items_on (plain_split split.now) (plain_port value.now) number stream.now) plan.wishes plan.users result }
{
    let items = items_on(alloc, split, value, number)?;
    planner_of_items(alloc, number, stream.params, items, plan)
}

/// The items of a value on the stream of this number.
fn items_on(
    alloc: Global,
    split: &Split<'_>,
    value: &PortValue,
    number: usize,
) -> Result<List<Item>, Memory>
    requires split { IsPortSplit (plain_split split.now) }
    requires fits { fits_split (plain_split split.now) (plain_port value.now) ≡ true }
    requires number { number < length split.now.streams }
    ensures { IfOk result (λ items. (stream : Phys) → slice_get split.now.streams number ≡ Some stream
        → items ≡ drives.items_on (plain_split split.now) (plain_port value.now) number stream) }
{
    view_items(alloc, split, value, number)
}

/// The transfers of these items in a stream of this number, by wishes and user words.
fn planner_of_items(
    alloc: Global,
    number: usize,
    p: Params,
    items: List<Item>,
    plan: StreamPlan,
) -> Result<Planner, DriveFault>
    requires fit { AreItems p items }
    requires masks { MasksFit p plan.wishes }
    requires users { UsersFit p plan.users }
    ensures { Plans number p items plan.wishes plan.users result }
{
    let _lanes = p.lanes;
    match Planner::new(alloc, p, items, plan) {
        Ok(planner) => Ok(planner),
        Err(fault) => Err(undriven(number, fault)),
    }
}

/// Why a port is not driven whose stream of this number has no schedule.
fn undriven(number: usize, fault: ScheduleFault) -> DriveFault
    ensures { reason_in result ≡ reason_of number fault }
{
    match fault {
        ScheduleFault::CountNotMultiple(count, lanes) => DriveFault::CountNotMultiple {
            stream: number,
            count,
            lanes,
        },
        ScheduleFault::Memory => DriveFault::Memory,
    }
}
