//! The text of a port that a value and a plan drive, as the answer: its trace, or its testbench.

ghost use Rattle.std.specs.Prelude.{◌≡◌, ◌<◌, ◌⊎◌, IfSome, length, min, option_map, true};
ghost use Rattle.logical_value.specs.Fits.{fits_split};
ghost use Rattle.logical_value.specs.Tree.{plain_port};
ghost use Rattle.plan_text.specs.Laws.{FitsPort};
ghost use Rattle.port_drive.specs.Faults.{reason_in};
ghost use Rattle.port_drive.specs.PortText.{text_left};
ghost use Rattle.type_split.specs.Streams.{IsPortSplit, plain_split};
ghost use Rattle.tydi_base.specs.Lengths.{most_bytes};
ghost use Rattle.tydi_tool.specs.Ask.{Judges};
ghost use Rattle.tydi_tool.specs.Drives.{TellsBench, TellsDriven, TellsText, refusal_of_driving, stream_of};
ghost use Rattle.tydi_tool.specs.Outcome.{output_answer};
ghost use Rattle.tydi_tool.specs.Output.{lines_left};
ghost use Rattle.tydi_tool.specs.Reading.{IsRefusedBy};
ghost use Rattle.tydi_tool.specs.declared.answer.Reply.TheVariants as replies;

use crate::answer::{Answer, Reply};
use crate::driven_text::DrivenText;
use crate::ending::OUTPUT_LIMIT;
use crate::output::Output;
use crate::refusal::{Detail, refused};
use logical_value::PortValue;
use plan_text::Plan;
use port_bench::port_bench;
use port_drive::{DriveFault, PortTrace, port_trace};
use scheduler::Planner;
use std::alloc::Global;
use testbench::BenchText;
use type_split::Split;

/// This text of a port that a value and a plan drive. The refusal says why the port is not driven, or that the text is too long. It is
/// known before any of the text is written.
pub(crate) fn driven(
    alloc: Global,
    text: DrivenText,
    split: &Split<'_>,
    value: &PortValue,
    plan: Plan,
) -> Reply
    requires port { IsPortSplit (plain_split split.now) }
    requires value { fits_split (plain_split split.now) (plain_port value.now) ≡ true }
    requires plan { FitsPort split.now.streams plan }
    ensures { Judges (TellsText text (plain_split split.now) value.now plan) result }
{
    match text {
        DrivenText::Trace => driven_trace(alloc, split, value, plan),
        DrivenText::Bench => driven_bench(alloc, split, value, plan),
    }
}

/// The text of the trace that drives a port.
fn driven_trace(alloc: Global, split: &Split<'_>, value: &PortValue, plan: Plan) -> Reply
    requires port { IsPortSplit (plain_split split.now) }
    requires value { fits_split (plain_split split.now) (plain_port value.now) ≡ true }
    requires plan { FitsPort split.now.streams plan }
    ensures { Judges (TellsDriven (plain_split split.now) value.now plan) result }
{
    match port_trace(alloc, split, value, plan) {
        Ok(trace) => traced(alloc, trace),
        Err(fault) => undriven(alloc, split, fault),
    }
}

/// The text of a trace as the answer, where it is not too long.
fn traced(alloc: Global, trace: PortTrace) -> Reply
    requires { trace.length ≡ min (length (text_left trace.pieces)) most_bytes }
    ensures { (result ≡ replies.Says (output_answer (text_left trace.pieces))) ⊎ (result ≡ replies.Memory) }
{
    let PortTrace { pieces, length } = trace;
    if length <= OUTPUT_LIMIT {
        return Reply::Says(Answer::Done(Output::rows(pieces, length)));
    }
    refused(alloc, "OutputTooLong", &[])
}

/// The text of the testbench that drives a port.
fn driven_bench(alloc: Global, split: &Split<'_>, value: &PortValue, plan: Plan) -> Reply
    requires port { IsPortSplit (plain_split split.now) }
    requires value { fits_split (plain_split split.now) (plain_port value.now) ≡ true }
    requires plan { FitsPort split.now.streams plan }
    ensures { Judges (TellsBench (plain_split split.now) value.now plan) result }
{
    match port_bench(alloc, split, value, plan) {
        Ok(bench) => benched(alloc, bench),
        Err(fault) => undriven(alloc, split, fault),
    }
}

/// The text of a testbench as the answer, where it is not too long.
fn benched(alloc: Global, bench: BenchText<Planner>) -> Reply
    requires { bench.length ≡ min (length (lines_left bench.pieces)) most_bytes }
    ensures { (result ≡ replies.Says (output_answer (lines_left bench.pieces))) ⊎ (result ≡ replies.Memory) }
{
    let BenchText { pieces, length } = bench;
    if length > OUTPUT_LIMIT {
        return refused(alloc, "OutputTooLong", &[]);
    }
    Reply::Says(Answer::Done(Output::lines(pieces, length)))
}

/// The reply to a value and a plan that do not drive a port, for this reason.
pub(crate) fn undriven(alloc: Global, split: &Split<'_>, fault: DriveFault) -> Reply
    requires { IfSome (reason_in fault) (λ reason. stream_of reason < length split.now.streams) }
    ensures { IsRefusedBy (option_map (refusal_of_driving (plain_split split.now)) (reason_in fault)) result }
{
    let streams = split.streams.as_slice();
    match fault {
        DriveFault::CountNotMultiple {
            stream,
            count,
            lanes,
        } => {
            let details = [
                Detail::Stream(&streams[stream].path),
                Detail::Number(count as u64),
                Detail::Number(lanes as u64),
            ];
            refused(alloc, "CountNotMultiple", &details)
        }
        DriveFault::NotFinished { stream, left } => {
            let details = [
                Detail::Stream(&streams[stream].path),
                Detail::Number(left as u64),
            ];
            refused(alloc, "NotFinished", &details)
        }
        DriveFault::Memory => Reply::Memory,
    }
}
