//! The text of the bench of a port, before any of it is written.

ghost use Rattle.std.specs.Prelude.{◌≡◌, ◌≤◌, ◌+◌, true, length, map, min, IfOk};
ghost use Rattle.tydi_base.specs.Lengths.{most_bytes};
ghost use Rattle.tydi_base.specs.Reading.{Gives};
ghost use Rattle.logical_value.specs.Fits.{fits_split};
ghost use Rattle.logical_value.specs.Tree.{plain_port};
ghost use Rattle.type_split.specs.Streams.{IsPortSplit, plain_split};
ghost use Rattle.plan_text.specs.Laws.{FitsPort};
ghost use Rattle.cycle_trace.specs.Trace.{params_of_heads};
ghost use Rattle.handshake.specs.Rows.{StreamRun, undone_in};
ghost use Rattle.scheduler.specs.Planners.{rest_of, whole_of};
ghost use Rattle.port_drive.specs.Faults.{reason_in};
ghost use Rattle.port_drive.specs.Finishing.{unfinished_from};
ghost use Rattle.port_drive.specs.Starting.{runs_of_port};
ghost use Rattle.testbench.specs.TextLeft.{text_left};
ghost use Rattle.port_bench.specs.Benches.{bench_text_of, driven_runs, text_unless};
ghost use Rattle.testbench.specs.Driving.{driving};
ghost use Rattle.vhdl_text.specs.Text.{bench_text};

use crate::finishing::finished;
use handshake::{PortRun, rewind_all};
use logical_value::PortValue;
use physical_stream::Head;
use plan_text::Plan;
use port_drive::{DriveFault, finished_runs_drive, heads_of, heads_stand_together, port_run};
use scheduler::Planner;
use std::alloc::Global;
use testbench::{BenchText, bench_text};
use tydi_base::List;
use type_split::Split;

/// The text of the bench that drives a port with a value by a plan. It is there exactly where the value and the plan drive the port:
/// `CountNotMultiple` comes exactly where a stream has no schedule, with the first such stream; `NotFinished` exactly where each stream
/// has one and a run leaves transfers, with the first such stream. `Memory` comes where there is none for the runs, or for one part of
/// the text. No list of transfers or statements is kept.
pub fn port_bench(
    alloc: Global,
    split: &Split<'_>,
    value: &PortValue,
    plan: Plan,
) -> Result<BenchText<Planner>, DriveFault>
    requires split { IsPortSplit (plain_split split.now) }
    requires value { fits_split (plain_split split.now) (plain_port value.now) ≡ true }
    requires plan { FitsPort split.now.streams plan }
    ensures text { Gives reason_in (λ bench. text_left rest_of whole_of bench.pieces) result
        (bench_text_of (plain_split split.now) (plain_port value.now) plan) }
    ensures length { IfOk result (λ bench. bench.length ≡ min (length (text_left rest_of whole_of bench.pieces)) most_bytes) }
{
    finished_runs_drive();
    heads_stand_together(split);
    let heads = heads_of(alloc, split.streams.as_slice())?;
    let run = port_run(alloc, split, value, plan)?;
    bench_of_run(alloc, heads, run)
}

/// The text of the bench that drives the streams with these heads, where their runs finish.
fn bench_of_run(
    alloc: Global,
    heads: List<Head>,
    run: PortRun<Planner>,
) -> Result<BenchText<Planner>, DriveFault>
    requires few { length (runs_of_port run) ≤ 65536 }
    requires params { params_of_heads heads ≡ map (λ (one : StreamRun). one.params) (runs_of_port run) }
    requires cycles { run.number + run.many ≤ 1000000 }
    ensures text { Gives reason_in (λ bench. text_left rest_of whole_of bench.pieces) result
        (text_unless (unfinished_from 0 (undone_in (runs_of_port run))) (bench_text (driving (driven_runs heads (runs_of_port run))))) }
    ensures length { IfOk result (λ bench. bench.length ≡ min (length (text_left rest_of whole_of bench.pieces)) most_bytes) }
{
    let (cursors, ready) = run.into_parts();
    let mut cursors = cursors.into_vec();
    rewind_all(cursors.as_mut_slice());
    finished(cursors.as_mut_slice(), ready.as_slice())?;
    let text = bench_text(alloc, heads, List::from_vec(cursors))?;
    Ok(text)
}
