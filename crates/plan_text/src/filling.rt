//! The plans of all streams, with ready bits for all cycles.

ghost use Rattle.std.specs.Prelude.{◌≡◌, map, replicate, true, IfOk};
ghost use Rattle.plan_text.specs.Blocks as spec;

use crate::plan::StreamPlan;
use std::alloc::Global;
use tydi_base::{List, Memory};

/// Ready in each of so many cycles.
fn all_ready(alloc: Global, cycles: u32) -> Result<List<bool>, Memory>
    ensures { IfOk result (λ ready. ready ≡ replicate cycles true) }
{
    let mut ready = Vec::new(alloc);
    ready.resize(cycles as usize, true)?;
    Ok(List::from_vec(ready))
}

/// The plan of a stream, where it has a block and where it has none.
fn plan_in(alloc: Global, cycles: u32, block: Option<StreamPlan>) -> Result<StreamPlan, Memory>
    ensures { IfOk result (λ plan. plan ≡ spec.plan_in cycles block) }
{
    let mut plan = match block {
        Some(plan) => plan,
        None => StreamPlan::empty(alloc),
    };
    if plan.ready.is_empty() {
        plan.ready = all_ready(alloc, cycles)?;
    }
    Ok(plan)
}

/// The plans of all streams.
pub(crate) fn plans_in(
    alloc: Global,
    cycles: u32,
    blocks: Vec<Option<StreamPlan>>,
) -> Result<List<StreamPlan>, Memory>
    ensures { IfOk result (λ plans. plans ≡ map (spec.plan_in cycles) blocks.items) }
{
    let mut plans = List::with_capacity(alloc, blocks.len())?;
    'blocks: for block in blocks {
        plans.push(plan_in(alloc, cycles, block)?)?;
    }
    Ok(plans)
}
