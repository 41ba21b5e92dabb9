//! The plan of a job.

ghost use Rattle.std.specs.Prelude.{◌≡◌, map, replicate, true, IfOk};
ghost use Rattle.type_split.specs.declared.split.Phys.{Phys};
ghost use Rattle.port_gen.specs.Plans as spec;

use plan_text::{Plan, StreamPlan};
use std::alloc::Global;
use tydi_base::{List, Memory};
use type_split::Phys;

/// The plan of these streams in a job without cycles. Its runs have the transfers of the job, and have done none of them.
pub(crate) fn resting_plan(alloc: Global, streams: &[Phys]) -> Result<Plan, Memory>
    ensures { IfOk result (λ plan. plan ≡ spec.plan_over 0 streams.now) }
{
    let mut plans = List::with_capacity(alloc, streams.len())?;
    'streams: for _stream in streams {
        plans.push(resting(alloc))?;
    }
    Ok(Plan {
        cycles: 0,
        streams: plans,
    })
}

/// The plan of a stream in a job without cycles.
fn resting(alloc: Global) -> StreamPlan
    ensures { result ≡ spec.ready_plan 0 }
{
    StreamPlan {
        gaps: List::new(alloc),
        ready: List::new(alloc),
        wishes: List::new(alloc),
        users: List::new(alloc),
    }
}

/// The ready bits of so many streams, each of which is ready in each of so many cycles.
pub(crate) fn ready_in_all(
    alloc: Global,
    streams: usize,
    cycles: u32,
) -> Result<List<List<bool>>, Memory>
    ensures { IfOk result (λ ready. ready ≡ replicate streams (replicate cycles true)) }
{
    let mut ready = List::with_capacity(alloc, streams)?;
    let mut left = streams;
    'streams: while left > 0 {
        ready.push(always_ready(alloc, cycles)?)?;
        left -= 1;
    }
    Ok(ready)
}

/// Ready in each of so many cycles.
fn always_ready(alloc: Global, cycles: u32) -> Result<List<bool>, Memory>
    ensures { IfOk result (λ ready. ready ≡ replicate cycles true) }
{
    let mut ready = Vec::new(alloc);
    ready.resize(cycles as usize, true)?;
    Ok(List::from_vec(ready))
}
