//! The command that writes the monitor of a port for a value. It asks for the project and the value, one after the other, and ends with the text
//! of the monitor, which is made as it is written.

ghost use Rattle.std.specs.Prelude.{◌≡◌, ◌⊎◌, IfOk, IsTrue, length, min, true};
ghost use Rattle.logical_value.specs.Fits.{fits_split};
ghost use Rattle.logical_value.specs.Tree.{plain_port};
ghost use Rattle.monitor_bench.specs.Monitors.{monitor_of};
ghost use Rattle.til_resolve.specs.PlainProject.{plain_project};
ghost use Rattle.til_resolve.specs.SoundProject.{IsSoundProject};
ghost use Rattle.tydi_base.specs.Lengths.{most_bytes};
ghost use Rattle.tydi_io.specs.Faults.{Rose};
ghost use Rattle.type_split.specs.Streams.{IsPortSplit, plain_split};
ghost use Rattle.watch_text.specs.Pieces.{text_left};
ghost use Rattle.watch_text.specs.Statements.{plain_watch};
ghost use Rattle.watch_text.specs.Text.{watch_text};
ghost use Rattle.tydi_tool.specs.Ask.{Decides, Judges, goes_on};
ghost use Rattle.tydi_tool.specs.Commands.{expect_ask, expected_ask};
ghost use Rattle.tydi_tool.specs.Comparisons.{items_of_value};
ghost use Rattle.tydi_tool.specs.Drives.{carried};
ghost use Rattle.tydi_tool.specs.Outcome.{output_answer};
ghost use Rattle.tydi_tool.specs.Ports.{split_at};
ghost use Rattle.tydi_tool.specs.Watches.{TellsExpected};
ghost use Rattle.tydi_tool.specs.declared.answer.Reply.TheVariants as replies;

use crate::answer::{Answer, Reply};
use crate::commands::ask_project;
use crate::compare::items_of_value;
use crate::drive::{ask_value, check_carried};
use crate::ending::OUTPUT_LIMIT;
use crate::output::Output;
use crate::ports::split_of_port;
use crate::refusal::refused;
use logical_value::PortValue;
use monitor_bench::monitor_of;
use std::alloc::Global;
use til_resolve::Project;
use tydi_base::{Memory, Text};
use tydi_io::Store;
use type_split::Split;
use watch_text::{Watch, WatchPieces, watch_length};

/// `expect PROJECT PORT VALUE`.
pub(crate) fn expect<S: Store>(
    alloc: Global,
    project: &Text,
    port: &Text,
    value: &Text,
    store: &mut S,
) -> Reply
    requires project { IsTrue (S.allowed store.old project.now) }
    requires value { IsTrue (S.allowed store.old value.now) }
    ensures decided { Decides (S.files store.old) (S.started store.old) (S.started store.new) (Rose (S.faults store.old) (S.faults store.new))
        (expect_ask project.now port.now value.now) result }
{
    match ask_project(alloc, project, store) {
        Ok(read) => expect_named(alloc, &read, port, value, store),
        Err(reply) => reply,
    }
}

/// The same, with the project.
fn expect_named<S: Store>(
    alloc: Global,
    project: &Project,
    port: &Text,
    value: &Text,
    store: &mut S,
) -> Reply
    requires sound { IsSoundProject (plain_project project.now) }
    requires value { IsTrue (S.allowed store.old value.now) }
    ensures decided { Decides (S.files store.old) (S.started store.old) (S.started store.new) (Rose (S.faults store.old) (S.faults store.new))
        (goes_on (split_at (plain_project project.now) port.now)
        (λ split. goes_on (carried split) (λ done. expected_ask value.now split))) result }
{
    match split_of_port(alloc, project, port) {
        Ok(split) => expect_carried(alloc, &split, value, store),
        Err(reply) => reply,
    }
}

/// The same, with the split of the port.
fn expect_carried<S: Store>(alloc: Global, split: &Split<'_>, value: &Text, store: &mut S) -> Reply
    requires port { IsPortSplit (plain_split split.now) }
    requires value { IsTrue (S.allowed store.old value.now) }
    ensures decided { Decides (S.files store.old) (S.started store.old) (S.started store.new) (Rose (S.faults store.old) (S.faults store.new))
        (goes_on (carried (plain_split split.now)) (λ done. expected_ask value.now (plain_split split.now))) result }
{
    match check_carried(alloc, split) {
        Ok(()) => expect_value(alloc, split, value, store),
        Err(reply) => reply,
    }
}

/// The same, where all nodes are carried.
fn expect_value<S: Store>(alloc: Global, split: &Split<'_>, value: &Text, store: &mut S) -> Reply
    requires port { IsPortSplit (plain_split split.now) }
    requires value { IsTrue (S.allowed store.old value.now) }
    ensures decided { Decides (S.files store.old) (S.started store.old) (S.started store.new) (Rose (S.faults store.old) (S.faults store.new))
        (expected_ask value.now (plain_split split.now)) result }
{
    match ask_value(alloc, split, value, store) {
        Ok(read) => expected(alloc, split, read),
        Err(reply) => reply,
    }
}

/// The text of the monitor of a port for a value, as the answer.
fn expected(alloc: Global, split: &Split<'_>, value: PortValue) -> Reply
    requires port { IsPortSplit (plain_split split.now) }
    requires fits { fits_split (plain_split split.now) (plain_port value) ≡ true }
    ensures { Judges (TellsExpected (plain_split split.now) value) result }
{
    match monitor_of_value(alloc, split, value) {
        Ok(watch) => monitored(alloc, watch),
        Err(Memory) => Reply::Memory,
    }
}

/// The monitor of a port for a value, of which only the items are kept.
fn monitor_of_value(alloc: Global, split: &Split<'_>, value: PortValue) -> Result<Watch, Memory>
    requires port { IsPortSplit (plain_split split.now) }
    requires fits { fits_split (plain_split split.now) (plain_port value) ≡ true }
    ensures { IfOk result (λ watch. plain_watch watch ≡ monitor_of (plain_split split.now) (items_of_value (plain_split split.now) value)) }
{
    let wants = items_of_value(alloc, split, value)?;
    monitor_of(alloc, split, wants)
}

/// The text of a monitor as the answer, where it is not too long.
fn monitored(alloc: Global, watch: Watch) -> Reply
    ensures { (result ≡ replies.Says (output_answer (watch_text (plain_watch watch)))) ⊎ (result ≡ replies.Memory) }
{
    let bytes = watch_length(&watch);
    written(alloc, WatchPieces::new(watch), bytes)
}

/// The same, with the length of the text.
fn written(alloc: Global, pieces: WatchPieces, bytes: u64) -> Reply
    requires { bytes ≡ min (length (text_left pieces)) most_bytes }
    ensures { (result ≡ replies.Says (output_answer (text_left pieces))) ⊎ (result ≡ replies.Memory) }
{
    if bytes <= OUTPUT_LIMIT {
        return Reply::Says(Answer::Done(Output::watch(pieces, bytes)));
    }
    refused(alloc, "OutputTooLong", &[])
}
