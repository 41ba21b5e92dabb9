//! The runs of a job, before their first row.

ghost use Rattle.std.specs.Prelude.{◌≡◌, ◌<◌, length, true, option_map, IfOk};
ghost use Rattle.logical_value.specs.Fits.{fits_split};
ghost use Rattle.logical_value.specs.Tree.{plain_port};
ghost use Rattle.type_split.specs.Streams.{IsPortSplit, plain_split};
ghost use Rattle.tydi_base.specs.Reading.{Gives};
ghost use Rattle.port_drive.specs.Starting.{StandsAtStart, runs_of_port};
ghost use Rattle.port_drive.specs.Faults as driving;
ghost use Rattle.port_gen.specs.Jobs.{NotDriven, job_of, or_no_job, reason_in, resting_runs, runs_at_rest};
ghost use Rattle.port_gen.specs.Starting.{IsOfRuns, IsReadied, job_in};

use crate::fault::JobFault;
use crate::longest::most_left;
use crate::plans::{ready_in_all, resting_plan};
use handshake::PortRun;
use logical_value::PortValue;
use port_drive::{DriveFault, port_run};
use scheduler::Planner;
use std::alloc::Global;
use tydi_base::Memory;
use type_split::Split;
use value_gen::{GenFault, generate};

/// The most cycles of a job.
const MOST_CYCLES: usize = 1_000_000;

/// The runs of a job before their first row, and how many cycles it has.
#[derive(Drop)]
pub(crate) struct JobRun {
    pub(crate) run: PortRun<Planner>,
    pub(crate) cycles: u32,
}

/// The job that a seed and a count make of a port, before its first row. The errors are those of `job_summary`.
pub(crate) fn job_run(
    alloc: Global,
    split: &Split<'_>,
    seed: u32,
    count: u32,
) -> Result<JobRun, JobFault>
    requires split { IsPortSplit (plain_split split.now) }
    requires seed { seed < 65536 }
    ensures job { Gives reason_in job_in result (job_of (plain_split split.now) seed count) }
    ensures start { IfOk result (λ job. StandsAtStart job.cycles job.run) }
{
    let resting = resting_run(alloc, split, seed, count)?;
    let streams = split.streams.len();
    let most = most_left(streams, &resting);
    if most > MOST_CYCLES {
        return Err(JobFault::TooManyCycles);
    }
    let cycles = most as u32;
    let run = readied(alloc, resting, streams, cycles)?;
    Ok(JobRun { run, cycles })
}

/// The runs of a job without cycles: they have its transfers, and have done none of them.
fn resting_run(
    alloc: Global,
    split: &Split<'_>,
    seed: u32,
    count: u32,
) -> Result<PortRun<Planner>, JobFault>
    requires split { IsPortSplit (plain_split split.now) }
    requires seed { seed < 65536 }
    ensures runs { Gives reason_in runs_of_port result (resting_runs (plain_split split.now) seed count) }
    ensures start { IfOk result (StandsAtStart 0) }
    ensures many { IfOk result (λ run. length split.now.streams ≡ length (runs_of_port run)) }
{
    match generate(alloc, split, seed, count) {
        Ok(value) => driven_at_rest(alloc, split, &value),
        Err(GenFault::TooManyLeaves) => Err(JobFault::TooManyLeaves),
        Err(GenFault::Memory) => Err(JobFault::Memory),
    }
}

/// The runs of this value by a plan without cycles.
fn driven_at_rest(
    alloc: Global,
    split: &Split<'_>,
    value: &PortValue,
) -> Result<PortRun<Planner>, JobFault>
    requires split { IsPortSplit (plain_split split.now) }
    requires value { fits_split (plain_split split.now) (plain_port value.now) ≡ true }
    ensures runs { Gives reason_in runs_of_port result (or_no_job (runs_at_rest (plain_split split.now) (plain_port value.now))) }
    ensures start { IfOk result (StandsAtStart 0) }
    ensures many { IfOk result (λ run. length split.now.streams ≡ length (runs_of_port run)) }
{
    let plan = resting_plan(alloc, split.streams.as_slice())?;
    match port_run(alloc, split, value, plan) {
        Ok(run) => Ok(run),
        Err(fault) => Err(undriven(fault)),
    }
}

/// Why there is no job where the runs are not made for this reason, which is not that one of them is not finished.
fn undriven(fault: DriveFault) -> JobFault
    requires { IsOfRuns fault }
    ensures { reason_in result ≡ option_map NotDriven (driving.reason_in fault) }
{
    match fault {
        DriveFault::CountNotMultiple {
            stream,
            count,
            lanes,
        } => JobFault::CountNotMultiple {
            stream,
            count,
            lanes,
        },
        DriveFault::NotFinished { stream: _, left: _ } => unreachable!(),
        DriveFault::Memory => JobFault::Memory,
    }
}

/// These runs of so many streams, which have no cycles yet, over so many cycles, in each of which each stream is ready.
fn readied(
    alloc: Global,
    resting: PortRun<Planner>,
    streams: usize,
    cycles: u32,
) -> Result<PortRun<Planner>, Memory>
    requires start { StandsAtStart 0 resting }
    requires many { streams ≡ length (runs_of_port resting) }
    ensures runs { IfOk result (IsReadied cycles resting) }
    ensures start { IfOk result (StandsAtStart cycles) }
{
    let (cursors, _resting) = resting.into_parts();
    let ready = ready_in_all(alloc, streams, cycles)?;
    Ok(PortRun::new(cursors, ready, cycles))
}
