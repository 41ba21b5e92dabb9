//! The run of one stream, before its first cycle.

ghost use Rattle.std.specs.Prelude.{◌≡◌, ◌<◌, true, length, slice_get, Some, IfOk};
ghost use Rattle.logical_value.specs.Fits.{fits_split};
ghost use Rattle.logical_value.specs.Tree.{plain_port};
ghost use Rattle.type_split.specs.Streams.{IsPortSplit, plain_split};
ghost use Rattle.type_split.specs.declared.split.Phys.{Phys};
ghost use Rattle.scheduler.specs.Laws.{AreItems, UsersFit};
ghost use Rattle.scheduler.specs.Planned.{MasksFit};
ghost use Rattle.port_drive.specs.Drives as spec;
ghost use Rattle.port_drive.specs.Faults.{reason_in, reason_of};
ghost use Rattle.port_drive.specs.Starting.{Starts};

use crate::fault::DriveFault;
use handshake::Cursor;
use logical_value::PortValue;
use physical_stream::{Item, Params};
use plan_text::{StreamPlan, Wish};
use scheduler::{Planner, ScheduleFault};
use std::alloc::Global;
use tydi_base::{Bits, List, Memory};
use type_split::Split;
use value_views::view_items;

/// The items of a value on the stream of this number.
pub(crate) fn items_on(
    alloc: Global,
    split: &Split<'_>,
    value: &PortValue,
    number: usize,
) -> Result<List<Item>, Memory>
    requires split { IsPortSplit (plain_split split.now) }
    requires fits { fits_split (plain_split split.now) (plain_port value.now) ≡ true }
    requires number { number < length split.now.streams }
    ensures { IfOk result (λ items. (stream : Phys) → slice_get split.now.streams number ≡ Some stream
        → items ≡ spec.items_on (plain_split split.now) (plain_port value.now) number stream) }
{
    view_items(alloc, split, value, number)
}

/// The run of these items in a stream of this number, by wishes, user words and gaps.
pub(crate) fn run_of_items(
    alloc: Global,
    number: usize,
    p: Params,
    items: List<Item>,
    plan: StreamPlan,
    gaps: List<u32>,
) -> Result<Cursor<Planner>, DriveFault>
    requires fit { AreItems p items }
    requires masks { MasksFit p plan.wishes }
    requires users { UsersFit p plan.users }
    ensures { Starts number p items gaps plan.wishes plan.users result }
{
    let _lanes = p.lanes;
    match Planner::new(alloc, p, items, plan) {
        Ok(planner) => Ok(Cursor::new(alloc, p, planner, gaps)?),
        Err(fault) => Err(undriven(number, fault)),
    }
}

/// Why a port is not driven whose stream of this number has no schedule.
fn undriven(number: usize, fault: ScheduleFault) -> DriveFault
    ensures { reason_in result ≡ reason_of number fault }
{
    match fault {
        ScheduleFault::CountNotMultiple(count, lanes) => DriveFault::CountNotMultiple {
            stream: number,
            count,
            lanes,
        },
        ScheduleFault::Memory => DriveFault::Memory,
    }
}
