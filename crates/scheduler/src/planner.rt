ghost use Rattle.scheduler.specs.Schedules.{IsReady};
ghost use Rattle.scheduler.specs.Widths.{plan_props};

use physical_stream::{Item, Params, Transfer};
use plan_text::StreamPlan;
use tydi_base::List;

/// The transfers that a plan makes of the items of a stream, one after another, and as often as they are wanted. It keeps the items, and
/// no list of transfers. The gaps and ready bits of the plan are for the run of a `Cursor`.
#[derive(Drop)]
pub struct Planner {
    pub(crate) params: Params,
    pub(crate) items: List<Item>,
    pub(crate) plan: StreamPlan,
    // The transfer that is zero, from which each other begins.
    pub(crate) blank: Transfer,
    // How many transfers there are.
    pub(crate) count: usize,
    // How many of them are left.
    pub(crate) left: usize,
    // The place of the first item that is left.
    pub(crate) place: usize,
    ghost ready: { IsReady params items plan.wishes plan.users blank count left place } by { Prim.hlevel plan_props },
}
