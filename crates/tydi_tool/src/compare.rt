//! The command that compares a trace of a port with a value. It asks for the project, the value and the trace, one after another, and ends
//! with the first difference of each stream that has one.

ghost use Rattle.std.specs.Prelude.{◌≡◌, IfOk, IsTrue, length, true};
ghost use Rattle.logical_value.specs.Fits.{fits_split};
ghost use Rattle.logical_value.specs.Tree.{plain_port};
ghost use Rattle.til_resolve.specs.PlainProject.{plain_project};
ghost use Rattle.til_resolve.specs.SoundProject.{IsSoundProject};
ghost use Rattle.tydi_io.specs.Faults.{Rose};
ghost use Rattle.trace_compare.specs.Texts.{wants_of};
ghost use Rattle.type_split.specs.Streams.{IsPortSplit, plain_split};
ghost use Rattle.tydi_tool.specs.Ask.{Decides, Judges, goes_on};
ghost use Rattle.tydi_tool.specs.Commands.{against_ask, compare_ask, compared_ask, valued_ask};
ghost use Rattle.tydi_tool.specs.Comparisons.{IsNewBeside, NameStreams, NamesStreams, TellsComparison, TellsDifferences, comparison_in, items_of_value};
ghost use Rattle.tydi_tool.specs.Drives.{carried};
ghost use Rattle.tydi_tool.specs.Ports.{split_at};

use crate::answer::Reply;
use crate::asking::ask;
use crate::commands::{TRACE_LIMIT, ask_project};
use crate::compare_file::{CompareFile, Comparing};
use crate::compare_lines::difference_lines;
use crate::drive::{ask_value, check_carried};
use crate::ending::{answered, verdict};
use crate::ports::split_of_port;
use crate::refusal::{Detail, refused};
use logical_value::PortValue;
use physical_stream::Item;
use std::alloc::Global;
use til_resolve::Project;
use trace_compare::Difference;
use tydi_base::{List, Memory, Text};
use tydi_io::Store;
use type_split::Split;
use value_views::view_items;

/// `compare PROJECT PORT VALUE TRACE`.
pub(crate) fn compare<S: Store>(
    alloc: Global,
    project: &Text,
    port: &Text,
    value: &Text,
    trace: &Text,
    store: &mut S,
) -> Reply
    requires project { IsTrue (S.allowed store.old project.now) }
    requires value { IsTrue (S.allowed store.old value.now) }
    requires trace { IsTrue (S.allowed store.old trace.now) }
    ensures decided { Decides (S.files store.old) (S.started store.old) (S.started store.new) (Rose (S.faults store.old) (S.faults store.new))
        (compare_ask project.now port.now value.now trace.now) result }
{
    match ask_project(alloc, project, store) {
        Ok(read) => compare_named(alloc, &read, port, value, trace, store),
        Err(reply) => reply,
    }
}

/// The same, with the project.
fn compare_named<S: Store>(
    alloc: Global,
    project: &Project,
    port: &Text,
    value: &Text,
    trace: &Text,
    store: &mut S,
) -> Reply
    requires sound { IsSoundProject (plain_project project.now) }
    requires value { IsTrue (S.allowed store.old value.now) }
    requires trace { IsTrue (S.allowed store.old trace.now) }
    ensures decided { Decides (S.files store.old) (S.started store.old) (S.started store.new) (Rose (S.faults store.old) (S.faults store.new))
        (goes_on (split_at (plain_project project.now) port.now)
        (λ split. goes_on (carried split) (λ done. valued_ask value.now split (compared_ask trace.now split)))) result }
{
    match split_of_port(alloc, project, port) {
        Ok(split) => compare_carried(alloc, &split, value, trace, store),
        Err(reply) => reply,
    }
}

/// The same, with the split of the port.
fn compare_carried<S: Store>(
    alloc: Global,
    split: &Split<'_>,
    value: &Text,
    trace: &Text,
    store: &mut S,
) -> Reply
    requires port { IsPortSplit (plain_split split.now) }
    requires value { IsTrue (S.allowed store.old value.now) }
    requires trace { IsTrue (S.allowed store.old trace.now) }
    ensures decided { Decides (S.files store.old) (S.started store.old) (S.started store.new) (Rose (S.faults store.old) (S.faults store.new))
        (goes_on (carried (plain_split split.now)) (λ done. valued_ask value.now (plain_split split.now) (compared_ask trace.now (plain_split split.now)))) result }
{
    match check_carried(alloc, split) {
        Ok(()) => compare_value(alloc, split, value, trace, store),
        Err(reply) => reply,
    }
}

/// The same, where all nodes are carried.
fn compare_value<S: Store>(
    alloc: Global,
    split: &Split<'_>,
    value: &Text,
    trace: &Text,
    store: &mut S,
) -> Reply
    requires port { IsPortSplit (plain_split split.now) }
    requires value { IsTrue (S.allowed store.old value.now) }
    requires trace { IsTrue (S.allowed store.old trace.now) }
    ensures decided { Decides (S.files store.old) (S.started store.old) (S.started store.new) (Rose (S.faults store.old) (S.faults store.new))
        (valued_ask value.now (plain_split split.now) (compared_ask trace.now (plain_split split.now))) result }
{
    match ask_value(alloc, split, value, store) {
        Ok(read) => compare_trace(alloc, split, read, trace, store),
        Err(reply) => reply,
    }
}

/// The same, with the value, of which only the items are kept.
fn compare_trace<S: Store>(
    alloc: Global,
    split: &Split<'_>,
    value: PortValue,
    trace: &Text,
    store: &mut S,
) -> Reply
    requires port { IsPortSplit (plain_split split.now) }
    requires fits { fits_split (plain_split split.now) (plain_port value) ≡ true }
    requires trace { IsTrue (S.allowed store.old trace.now) }
    ensures decided { Decides (S.files store.old) (S.started store.old) (S.started store.new) (Rose (S.faults store.old) (S.faults store.new))
        (compared_ask trace.now (plain_split split.now) value) result }
{
    match items_of_value(alloc, split, value) {
        Ok(wants) => compare_items(alloc, split, wants, trace, store),
        Err(Memory) => Reply::Memory,
    }
}

/// The items that a value has on each stream of its port.
pub(crate) fn items_of_value(
    alloc: Global,
    split: &Split<'_>,
    value: PortValue,
) -> Result<List<List<Item>>, Memory>
    requires port { IsPortSplit (plain_split split.now) }
    requires fits { fits_split (plain_split split.now) (plain_port value) ≡ true }
    ensures { IfOk result (λ wants. wants ≡ items_of_value (plain_split split.now) value) }
{
    let mut wants = List::new(alloc);
    'streams: for stream in 0..split.streams.len() {
        wants.push(view_items(alloc, split, &value, stream)?)?;
    }
    Ok(wants)
}

/// The same, with the items that are expected on each stream.
fn compare_items<S: Store>(
    alloc: Global,
    split: &Split<'_>,
    wants: List<List<Item>>,
    trace: &Text,
    store: &mut S,
) -> Reply
    requires lists { length wants ≡ length split.now.streams }
    requires trace { IsTrue (S.allowed store.old trace.now) }
    ensures decided { Decides (S.files store.old) (S.started store.old) (S.started store.new) (Rose (S.faults store.old) (S.faults store.new))
        (against_ask trace.now (plain_split split.now) wants) result }
{
    let reader = CompareFile::new(alloc, trace, split, wants);
    compare_with(alloc, split, trace, reader, store)
}

/// The same, with a new reader of the trace.
fn compare_with<S: Store>(
    alloc: Global,
    split: &Split<'_>,
    trace: &Text,
    reader: CompareFile<'_>,
    store: &mut S,
) -> Reply
    requires trace { IsTrue (S.allowed store.old trace.now) }
    requires lists { length (wants_of reader.comparer) ≡ length split.now.streams }
    requires new { IsNewBeside (plain_split split.now) (wants_of reader.comparer) trace.now reader }
    ensures decided { Decides (S.files store.old) (S.started store.old) (S.started store.new) (Rose (S.faults store.old) (S.faults store.new))
        (against_ask trace.now (plain_split split.now) (wants_of reader.entry.comparer)) result }
{
    match ask(alloc, store, trace, TRACE_LIMIT, reader) {
        Ok(found) => told(alloc, split, trace, found),
        Err(reply) => reply,
    }
}

/// The answer to the trace of this word, of which this was found.
fn told(alloc: Global, split: &Split<'_>, trace: &Text, found: Comparing) -> Reply
    requires { NamesStreams (length split.now.streams) (comparison_in found) }
    ensures { Judges (TellsComparison (plain_split split.now) trace.now (comparison_in found)) result }
{
    match found {
        Comparing::OtherHeader(place) => {
            let details = [Detail::Word(trace), Detail::Number(place as u64)];
            refused(alloc, "OtherHeader", &details)
        }
        Comparing::Differences(differences) => differing(alloc, split, differences.as_slice()),
    }
}

/// The answer to these differences: that there is none, or a line for each.
fn differing(alloc: Global, split: &Split<'_>, differences: &[Difference]) -> Reply
    requires { NameStreams (length split.now.streams) differences.now }
    ensures { Judges (TellsDifferences (plain_split split.now) differences.now) result }
{
    if differences.is_empty() {
        return answered(alloc, List::from_slice(alloc, b"same\n"));
    }
    verdict(difference_lines(alloc, split, differences))
}
