//! The command that makes a job of a port. It asks for the project, and ends with the summary of the job that two numbers make of the port.

ghost use Rattle.std.specs.Prelude.{◌≡◌, ◌<◌, ◌++◌, length, IfOk, IfSome, IsTrue, OnOk, option_map};
ghost use Rattle.til_resolve.specs.PlainProject.{plain_project};
ghost use Rattle.til_resolve.specs.SoundProject.{IsSoundProject};
ghost use Rattle.trace_decode.specs.Standing.{CanDecode};
ghost use Rattle.tydi_io.specs.Faults.{Rose};
ghost use Rattle.type_split.specs.Streams.{IsPortSplit, plain_split};
ghost use Rattle.port_gen.specs.Jobs.{reason_in};
ghost use Rattle.port_gen.specs.Summaries.{summary_in};
ghost use Rattle.tydi_tool.specs.Ask.{Decides, Judges, TellsOf};
ghost use Rattle.tydi_tool.specs.Commands.{gen_ask};
ghost use Rattle.tydi_tool.specs.Drives.{carried};
ghost use Rattle.tydi_tool.specs.Jobs.{NamesStreamOf, TellsJob, refusal_of_job, summary_text, totals_text};
ghost use Rattle.tydi_tool.specs.Ports.{split_at};
ghost use Rattle.tydi_tool.specs.Reading.{IsRefusedBy};

use crate::answer::Reply;
use crate::commands::ask_project;
use crate::drive::check_carried;
use crate::driving::undriven;
use crate::ending::answered;
use crate::ports::split_of_port;
use crate::refusal::refused;
use crate::reports::push_all_counts;
use port_drive::{DriveFault, heads_of};
use port_gen::{JobFault, JobSummary, job_summary};
use std::alloc::Global;
use til_resolve::Project;
use tydi_base::{List, Memory, Text, emit};
use tydi_io::Store;
use type_split::Split;

/// `gen PROJECT PORT SEED COUNT`.
pub(crate) fn generate<S: Store>(
    alloc: Global,
    project: &Text,
    port: &Text,
    seed: u16,
    count: u32,
    store: &mut S,
) -> Reply
    requires { IsTrue (S.allowed store.old project.now) }
    ensures decided { Decides (S.files store.old) (S.started store.old) (S.started store.new) (Rose (S.faults store.old) (S.faults store.new))
        (gen_ask project.now port.now seed count) result }
{
    match ask_project(alloc, project, store) {
        Ok(read) => generate_named(alloc, &read, port, seed as u32, count),
        Err(reply) => reply,
    }
}

/// The same, with the project.
fn generate_named(alloc: Global, project: &Project, port: &Text, seed: u32, count: u32) -> Reply
    requires sound { IsSoundProject (plain_project project.now) }
    requires seed { seed < 65536 }
    ensures { Judges (TellsOf (split_at (plain_project project.now) port.now) (λ split. TellsOf (carried split) (λ done. TellsJob split seed count))) result }
{
    match split_of_port(alloc, project, port) {
        Ok(split) => generate_carried(alloc, &split, seed, count),
        Err(reply) => reply,
    }
}

/// The same, with the split of the port.
fn generate_carried(alloc: Global, split: &Split<'_>, seed: u32, count: u32) -> Reply
    requires port { IsPortSplit (plain_split split.now) }
    requires seed { seed < 65536 }
    ensures { Judges (TellsOf (carried (plain_split split.now)) (λ done. TellsJob (plain_split split.now) seed count)) result }
{
    match check_carried(alloc, split) {
        Ok(()) => generated(alloc, split, seed, count),
        Err(reply) => reply,
    }
}

/// The same, where all nodes are carried.
fn generated(alloc: Global, split: &Split<'_>, seed: u32, count: u32) -> Reply
    requires can { CanDecode (plain_split split.now) }
    requires seed { seed < 65536 }
    ensures { Judges (TellsJob (plain_split split.now) seed count) result }
{
    match job_summary(alloc, split, seed, count) {
        Ok(summary) => answered(alloc, text_of_summary(alloc, split, &summary)),
        Err(fault) => no_job(alloc, split, fault),
    }
}

/// The reply where a port has no job, for this reason.
fn no_job(alloc: Global, split: &Split<'_>, fault: JobFault) -> Reply
    requires { IfSome (reason_in fault) (NamesStreamOf (length split.now.streams)) }
    ensures { IsRefusedBy (option_map (refusal_of_job (plain_split split.now)) (reason_in fault)) result }
{
    match fault {
        JobFault::TooManyLeaves => refused(alloc, "TooManyLeaves", &[]),
        JobFault::CountNotMultiple {
            stream,
            count,
            lanes,
        } => {
            let fault = DriveFault::CountNotMultiple {
                stream,
                count,
                lanes,
            };
            undriven(alloc, split, fault)
        }
        JobFault::TooManyCycles => refused(alloc, "TooManyCycles", &[]),
        JobFault::Memory => Reply::Memory,
    }
}

/// The text of a summary.
fn text_of_summary(
    alloc: Global,
    split: &Split<'_>,
    summary: &JobSummary,
) -> Result<List<u8>, Memory>
    ensures { IfOk result (λ text. text ≡ summary_text (plain_split split.now) (summary_in summary.now)) }
{
    let heads = heads_of(alloc, split.streams.as_slice())?;
    let mut text = List::new(alloc);
    push_all_counts(
        heads.as_slice(),
        summary.counts.streams.as_slice(),
        &mut text,
    )?;
    push_totals(summary.cycles, summary.text, summary.trace, &mut text)?;
    Ok(text)
}

/// Adds the lines behind those of the streams.
fn push_totals(cycles: u32, length: u64, trace: u32, text: &mut List<u8>) -> Result<(), Memory>
    ensures { OnOk result (text.new ≡ text.old ++ totals_text cycles length trace) }
{
    emit!(text; "cycles ", u64::from(cycles), "\ntext ", length, "\ntrace ", u64::from(trace), "\n")
}
