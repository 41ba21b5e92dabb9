//! The bench of a port.

ghost use Rattle.std.specs.Prelude.{◌≡◌, ◌≤◌, length, map, IfOk};
ghost use Rattle.type_split.specs.Streams.{IsPortSplit, plain_split};
ghost use Rattle.plan_text.specs.Laws.{FitsPort};
ghost use Rattle.testbench.specs.Driving.{driving, processes_from};
ghost use Rattle.testbench.specs.Given.{FitLists, driven_by, head_of};

use crate::process::process_of;
use physical_stream::{Head, Transfer};
use plan_text::{Plan, StreamPlan};
use std::alloc::Global;
use tydi_base::{List, Memory, TryClone};
use type_split::{Phys, Split};
use vhdl_text::{Bench, Stmt};

/// The head of a physical stream.
fn head_of(alloc: Global, stream: &Phys) -> Result<Head, Memory>
    ensures { IfOk result (λ head. head ≡ head_of stream.now) }
{
    Ok(Head {
        path: stream.path.try_clone(alloc)?,
        params: stream.params,
        reversed: stream.reversed,
    })
}

/// The heads of physical streams.
fn heads_of(alloc: Global, streams: &[Phys]) -> Result<List<Head>, Memory>
    ensures { IfOk result (λ heads. heads ≡ map head_of streams.now) }
{
    let mut heads = List::new(alloc);
    'streams: for stream in streams {
        heads.push(head_of(alloc, stream)?)?;
    }
    Ok(heads)
}

/// The processes of physical streams, one for each.
fn processes_of(
    alloc: Global,
    streams: &[Phys],
    lists: &[List<Transfer>],
    plans: &[StreamPlan],
) -> Result<List<List<Stmt>>, Memory>
    requires few { length streams.now ≤ 65536 }
    requires fit { FitLists streams.now lists.now }
    requires plans { length plans.now ≡ length streams.now }
    ensures { IfOk result (λ processes. processes ≡ processes_from 0 (driven_by streams.now lists.now plans.now)) }
{
    let mut processes = List::new(alloc);
    'streams: for number in 0..streams.len() {
        let p = &streams[number].params;
        let transfers = lists[number].as_slice();
        let gaps = plans[number].gaps.as_slice();
        processes.push(process_of(alloc, number as u32, p, transfers, gaps)?)?;
    }
    Ok(processes)
}

/// The bench that drives these transfers on the physical streams of a split, with a list of them for each stream, and each transfer as
/// wide as its stream. Each stream has a process, in the order of the split. Before a transfer it pauses for the gap of the plan, in cycles,
/// where the stream's level lets valid be low there. The plan is one that was read for the split. Want of memory is the one error.
pub fn bench(
    alloc: Global,
    split: &Split<'_>,
    transfers: &[List<Transfer>],
    plan: &Plan,
) -> Result<Bench, Memory>
    requires split { IsPortSplit (plain_split split.now) }
    requires fit { FitLists split.now.streams transfers.now }
    requires plan { FitsPort split.now.streams plan.now }
    ensures { IfOk result (λ bench. bench ≡ driving (driven_by split.now.streams transfers.now plan.now.streams)) }
{
    let streams = split.streams.as_slice();
    let heads = heads_of(alloc, streams)?;
    let procs = processes_of(alloc, streams, transfers, plan.streams.as_slice())?;
    Ok(Bench { heads, procs })
}
