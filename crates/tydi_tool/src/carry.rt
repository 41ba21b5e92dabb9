//! The command that carries a trace from one end of a chain of nets to the other. It asks for the project and for the trace.

ghost use Rattle.std.specs.Prelude.{IsTrue, Some};
ghost use Rattle.cycle_trace.specs.Trace.{TraceText};
ghost use Rattle.link_check.specs.Carriers.{CanRise};
ghost use Rattle.link_check.specs.declared.end_heads.EndHeads.{EndHeads};
ghost use Rattle.tydi_io.specs.Faults.{Rose};
ghost use Rattle.tydi_tool.specs.Arrivals.{IsArrival, IsNewArrival, TellsArrived, other_header};
ghost use Rattle.tydi_tool.specs.Ask.{Decides, Judges};
ghost use Rattle.tydi_tool.specs.Commands.{arrival_ask, carry_ask};
ghost use Rattle.tydi_tool.specs.Designs.{design_words};
ghost use Rattle.tydi_tool.specs.Reading.{IsRefusedBy};

use crate::answer::{Answer, Reply};
use crate::arrivals::{Arrival, ArrivalFile};
use crate::asking::{ask, ask_text};
use crate::commands::{PROJECT_LIMIT, TRACE_LIMIT};
use crate::designs::DesignText;
use crate::output::Output;
use crate::refusal::{Detail, refused};
use link_check::{EndHeads, compatible_ports_carry};
use std::alloc::Global;
use tydi_base::{Memory, Text};
use tydi_io::Store;

/// `carry PROJECT TOP FROM TO TRACE`.
pub(crate) fn carry<S: Store>(
    alloc: Global,
    words: DesignText<'_>,
    trace: &Text,
    store: &mut S,
) -> Reply
    requires project { IsTrue (S.allowed store.old (design_words words).project) }
    requires trace { IsTrue (S.allowed store.old trace.now) }
    ensures decided { Decides (S.files store.old) (S.started store.old) (S.started store.new) (Rose (S.faults store.old) (S.faults store.new))
        (carry_ask (design_words words.entry) trace.now) result }
{
    compatible_ports_carry();
    match ask_text(alloc, store, words.project, PROJECT_LIMIT, words) {
        Ok(heads) => carry_between(alloc, heads, trace, store),
        Err(reply) => reply,
    }
}

/// The same, with the heads at both ends.
fn carry_between<S: Store>(alloc: Global, heads: EndHeads, trace: &Text, store: &mut S) -> Reply
    requires rise { CanRise heads.from heads.to }
    requires trace { IsTrue (S.allowed store.old trace.now) }
    ensures decided { Decides (S.files store.old) (S.started store.old) (S.started store.new) (Rose (S.faults store.old) (S.faults store.new))
        (arrival_ask trace.now heads) result }
{
    match ArrivalFile::new(alloc, trace, heads) {
        Ok(file) => carry_with(alloc, trace, file, store),
        Err(Memory) => Reply::Memory,
    }
}

/// The same, with a new reader of the trace.
fn carry_with<S: Store>(alloc: Global, trace: &Text, file: ArrivalFile<'_>, store: &mut S) -> Reply
    requires trace { IsTrue (S.allowed store.old trace.now) }
    requires new { (heads : EndHeads) × IsNewArrival trace.now heads file }
    ensures decided { (heads : EndHeads) → IsNewArrival trace.now heads file.entry →
        Decides (S.files store.old) (S.started store.old) (S.started store.new) (Rose (S.faults store.old) (S.faults store.new))
        (arrival_ask trace.now heads) result }
{
    match ask(alloc, store, trace, TRACE_LIMIT, file) {
        Ok(arrival) => told(alloc, trace, arrival),
        Err(reply) => reply,
    }
}

/// The answer where this arrives of the trace of this word.
fn told(alloc: Global, word: &Text, arrival: Arrival) -> Reply
    ensures { (heads : EndHeads) (t : TraceText) → IsArrival heads t arrival → Judges (TellsArrived word.now heads t) result }
{
    match arrival {
        Arrival::Other(stream) => other_header(alloc, word, stream),
        Arrival::Arrived(Some(text)) => Reply::Says(Answer::Done(Output::whole(text))),
        Arrival::Arrived(None) => refused(alloc, "OutputTooLong", &[]),
    }
}

/// The reply to a trace with other heads, first at this stream.
fn other_header(alloc: Global, word: &Text, stream: usize) -> Reply
    ensures { IsRefusedBy (Some (other_header word.now stream)) result }
{
    let details = [Detail::Word(word), Detail::Number(stream as u64)];
    refused(alloc, "OtherHeader", &details)
}
