//! The command that decodes a port. It asks for the project and the trace, one after another, and ends with the value that the trace carries.

ghost use Rattle.std.specs.Prelude.{◌≡◌, ◌<◌, length, min, IfOk, IsTrue};
ghost use Rattle.til_resolve.specs.PlainProject.{plain_project};
ghost use Rattle.til_resolve.specs.SoundProject.{IsSoundProject};
ghost use Rattle.trace_decode.specs.Standing.{CanDecode};
ghost use Rattle.tydi_io.specs.Faults.{Rose};
ghost use Rattle.type_split.specs.Streams.{IsPortSplit, plain_split};
ghost use Rattle.tydi_base.specs.Lengths.{most_bytes};
ghost use Rattle.tydi_tool.specs.Ask.{Decides, Judges, goes_on};
ghost use Rattle.tydi_tool.specs.Commands.{decode_ask, outcome_ask};
ghost use Rattle.tydi_tool.specs.DecodeFiles.{IsNewFor};
ghost use Rattle.tydi_tool.specs.Decodes.{NamesStream, TellsOutcome, disagree_line, outcome_in};
ghost use Rattle.tydi_tool.specs.Drives.{carried, path_of};
ghost use Rattle.tydi_tool.specs.Outcome.{output_answer};
ghost use Rattle.tydi_tool.specs.Ports.{split_at};
ghost use Rattle.logical_value.specs.Tree.{plain_port};
ghost use Rattle.value_text.specs.Canonical.{canonical};

use crate::answer::{Answer, Reply};
use crate::asking::ask;
use crate::commands::{TRACE_LIMIT, ask_project};
use crate::decode_file::DecodeFile;
use crate::decoding::Decoding;
use crate::drive::check_carried;
use crate::ending::{OUTPUT_LIMIT, verdict};
use crate::output::Output;
use crate::ports::split_of_port;
use crate::refusal::{Detail, refused};
use crate::reports::{offence, unfinished};
use logical_value::PortValue;
use std::alloc::Global;
use til_resolve::Project;
use trace_decode::Decoded;
use tydi_base::{Bits, List, Memory, Path, Text, emit};
use tydi_io::Store;
use type_split::Split;
use value_text::{ValuePieces, text_length};

/// `decode PROJECT PORT TRACE`.
pub(crate) fn decode<S: Store>(
    alloc: Global,
    project: &Text,
    port: &Text,
    trace: &Text,
    store: &mut S,
) -> Reply
    requires project { IsTrue (S.allowed store.old project.now) }
    requires trace { IsTrue (S.allowed store.old trace.now) }
    ensures decided { Decides (S.files store.old) (S.started store.old) (S.started store.new) (Rose (S.faults store.old) (S.faults store.new))
        (decode_ask project.now port.now trace.now) result }
{
    match ask_project(alloc, project, store) {
        Ok(read) => decode_named(alloc, &read, port, trace, store),
        Err(reply) => reply,
    }
}

/// The same, with the project.
fn decode_named<S: Store>(
    alloc: Global,
    project: &Project,
    port: &Text,
    trace: &Text,
    store: &mut S,
) -> Reply
    requires sound { IsSoundProject (plain_project project.now) }
    requires trace { IsTrue (S.allowed store.old trace.now) }
    ensures decided { Decides (S.files store.old) (S.started store.old) (S.started store.new) (Rose (S.faults store.old) (S.faults store.new))
        (goes_on (split_at (plain_project project.now) port.now) (λ split. goes_on (carried split) (λ done. outcome_ask trace.now split))) result }
{
    match split_of_port(alloc, project, port) {
        Ok(split) => decode_carried(alloc, &split, trace, store),
        Err(reply) => reply,
    }
}

/// The same, with the split of the port.
fn decode_carried<S: Store>(alloc: Global, split: &Split<'_>, trace: &Text, store: &mut S) -> Reply
    requires port { IsPortSplit (plain_split split.now) }
    requires trace { IsTrue (S.allowed store.old trace.now) }
    ensures decided { Decides (S.files store.old) (S.started store.old) (S.started store.new) (Rose (S.faults store.old) (S.faults store.new))
        (goes_on (carried (plain_split split.now)) (λ done. outcome_ask trace.now (plain_split split.now))) result }
{
    match check_carried(alloc, split) {
        Ok(()) => decode_trace(alloc, split, trace, store),
        Err(reply) => reply,
    }
}

/// The same, where all nodes are carried.
fn decode_trace<S: Store>(alloc: Global, split: &Split<'_>, trace: &Text, store: &mut S) -> Reply
    requires can { CanDecode (plain_split split.now) }
    requires trace { IsTrue (S.allowed store.old trace.now) }
    ensures decided { Decides (S.files store.old) (S.started store.old) (S.started store.new) (Rose (S.faults store.old) (S.faults store.new))
        (outcome_ask trace.now (plain_split split.now)) result }
{
    let reader = DecodeFile::new(alloc, trace, split);
    decode_with(alloc, split, trace, reader, store)
}

/// The same, with a new reader of the trace.
fn decode_with<S: Store>(
    alloc: Global,
    split: &Split<'_>,
    trace: &Text,
    reader: DecodeFile<'_>,
    store: &mut S,
) -> Reply
    requires trace { IsTrue (S.allowed store.old trace.now) }
    requires new { IsNewFor (plain_split split.now) trace.now reader }
    ensures decided { Decides (S.files store.old) (S.started store.old) (S.started store.new) (Rose (S.faults store.old) (S.faults store.new))
        (outcome_ask trace.now (plain_split split.now)) result }
{
    match ask(alloc, store, trace, TRACE_LIMIT, reader) {
        Ok(found) => told(alloc, split, trace, found),
        Err(reply) => reply,
    }
}

/// The answer to the trace of this word, of which this was found.
fn told(alloc: Global, split: &Split<'_>, trace: &Text, found: Decoding) -> Reply
    requires { NamesStream (length (plain_split split.now).streams) (outcome_in found) }
    ensures { Judges (TellsOutcome (plain_split split.now) trace.now (outcome_in found)) result }
{
    match found {
        Decoding::OtherHeader(place) => {
            let details = [Detail::Word(trace), Detail::Number(place as u64)];
            refused(alloc, "OtherHeader", &details)
        }
        Decoding::Offence {
            cycle,
            stream,
            rule,
        } => verdict(offence(alloc, cycle, stream_path(split, stream), rule)),
        Decoding::Unfinished { stream, end } => {
            verdict(unfinished(alloc, stream_path(split, stream), end))
        }
        Decoding::Disagree(path, packet) => verdict(disagreement(alloc, &path, packet)),
        Decoding::Carried(decoded) => value_text(alloc, split, decoded),
    }
}

/// The path of the physical stream of this number.
pub(crate) fn stream_path<'s>(split: &'s Split<'_>, stream: usize) -> &'s Path
    requires { stream < length split.now.streams }
    ensures { result.now ≡ path_of (plain_split split.now) stream }
{
    &split.streams.as_slice()[stream].path
}

fn disagreement(alloc: Global, path: &Path, packet: u64) -> Result<List<u8>, Memory>
    ensures { IfOk result (λ line. line ≡ disagree_line path.now packet) }
{
    let mut line = List::new(alloc);
    emit!(line; "disagree stream ", path, " packet ", packet, "\n")?;
    Ok(line)
}

/// The text of a value and of the user words of the transfers done, where it is not too long. Its length is known before any of it is
/// written.
fn value_text(alloc: Global, split: &Split<'_>, decoded: Decoded) -> Reply
    ensures { Judges (λ a. a ≡ output_answer (canonical (plain_split split.now) (plain_port decoded.value) decoded.users)) result }
{
    let Decoded { value, users } = decoded;
    match text_length(alloc, &value, split, users.as_slice()) {
        Ok(bytes) => value_of_length(alloc, split, value, users, bytes),
        Err(Memory) => Reply::Memory,
    }
}

/// The same, where the text has so many bytes.
fn value_of_length(
    alloc: Global,
    split: &Split<'_>,
    value: PortValue,
    users: List<List<Bits>>,
    bytes: u64,
) -> Reply
    requires { bytes ≡ min (length (canonical (plain_split split.now) (plain_port value) users)) most_bytes }
    ensures { Judges (λ a. a ≡ output_answer (canonical (plain_split split.now) (plain_port value) users)) result }
{
    if bytes > OUTPUT_LIMIT {
        return refused(alloc, "OutputTooLong", &[]);
    }
    match ValuePieces::new(alloc, value, split, users) {
        Ok(pieces) => Reply::Says(Answer::Done(Output::value(pieces, bytes))),
        Err(Memory) => Reply::Memory,
    }
}
