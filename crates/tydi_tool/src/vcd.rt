//! The command that samples a dump. It asks for the project and the dump, one after another, and ends with the trace that the dump shows of a
//! port.

ghost use Rattle.std.specs.Prelude.{◌≡◌, ℕ, List, IsTrue};
ghost use Rattle.cycle_trace.specs.Trace.{TraceText};
ghost use Rattle.port_drive.specs.Text.{written_text};
ghost use Rattle.til_resolve.specs.PlainProject.{plain_project};
ghost use Rattle.til_resolve.specs.SoundProject.{IsSoundProject};
ghost use Rattle.tydi_io.specs.Faults.{Rose};
ghost use Rattle.type_split.specs.Streams.{IsPortSplit, PlainSplit, plain_split};
ghost use Rattle.tydi_tool.specs.Ask.{Decides, Judges, goes_on};
ghost use Rattle.tydi_tool.specs.Commands.{dump_ask, vcd_ask};
ghost use Rattle.tydi_tool.specs.Dumps.{IsKeptText, IsNewDump};
ghost use Rattle.tydi_tool.specs.Outcome.{output_answer};
ghost use Rattle.tydi_tool.specs.Ports.{split_at};

use crate::answer::Reply;
use crate::asking::ask;
use crate::commands::{TRACE_LIMIT, ask_project};
use crate::ending::{output, too_long};
use crate::output::Output;
use crate::ports::split_of_port;
use crate::vcd_file::VcdFile;
use std::alloc::Global;
use til_resolve::Project;
use tydi_base::{Memory, Text};
use tydi_io::Store;
use type_split::Split;
use vcd_read::DumpText;

/// `vcd PROJECT PORT SCOPE FILE`.
pub(crate) fn vcd<S: Store>(
    alloc: Global,
    project: &Text,
    port: &Text,
    scope: &Text,
    file: &Text,
    store: &mut S,
) -> Reply
    requires project { IsTrue (S.allowed store.old project.now) }
    requires file { IsTrue (S.allowed store.old file.now) }
    ensures decided { Decides (S.files store.old) (S.started store.old) (S.started store.new) (Rose (S.faults store.old) (S.faults store.new))
        (vcd_ask project.now port.now scope.now file.now) result }
{
    match ask_project(alloc, project, store) {
        Ok(read) => vcd_named(alloc, &read, port, scope, file, store),
        Err(reply) => reply,
    }
}

/// The same, with the project.
fn vcd_named<S: Store>(
    alloc: Global,
    project: &Project,
    port: &Text,
    scope: &Text,
    file: &Text,
    store: &mut S,
) -> Reply
    requires sound { IsSoundProject (plain_project project.now) }
    requires file { IsTrue (S.allowed store.old file.now) }
    ensures decided { Decides (S.files store.old) (S.started store.old) (S.started store.new) (Rose (S.faults store.old) (S.faults store.new))
        (goes_on (split_at (plain_project project.now) port.now) (dump_ask scope.now file.now)) result }
{
    match split_of_port(alloc, project, port) {
        Ok(split) => vcd_of_port(alloc, &split, scope, file, store),
        Err(reply) => reply,
    }
}

/// The same, with the split of the port.
fn vcd_of_port<S: Store>(
    alloc: Global,
    split: &Split<'_>,
    scope: &Text,
    file: &Text,
    store: &mut S,
) -> Reply
    requires port { IsPortSplit (plain_split split.now) }
    requires file { IsTrue (S.allowed store.old file.now) }
    ensures decided { Decides (S.files store.old) (S.started store.old) (S.started store.new) (Rose (S.faults store.old) (S.faults store.new))
        (dump_ask scope.now file.now (plain_split split.now)) result }
{
    match VcdFile::new(alloc, file, scope, split) {
        Ok(reader) => vcd_with(alloc, file, reader, store),
        Err(Memory) => Reply::Memory,
    }
}

/// The same, with a new reader of the dump.
fn vcd_with<S: Store>(alloc: Global, file: &Text, reader: VcdFile<'_>, store: &mut S) -> Reply
    requires file { IsTrue (S.allowed store.old file.now) }
    requires new { (scope : List ℕ) × ((split : PlainSplit) × IsNewDump scope file.now split reader) }
    ensures decided { (scope : List ℕ) (split : PlainSplit) → IsNewDump scope file.now split reader.entry →
        Decides (S.files store.old) (S.started store.old) (S.started store.new) (Rose (S.faults store.old) (S.faults store.new))
        (dump_ask scope file.now split) result }
{
    match ask(alloc, store, file, TRACE_LIMIT, reader) {
        Ok(kept) => told(alloc, kept),
        Err(reply) => reply,
    }
}

/// The text of a trace as the answer, where it is not too long.
fn told(alloc: Global, kept: Option<DumpText>) -> Reply
    ensures { (t : TraceText) → IsKeptText t kept → Judges (λ a. a ≡ output_answer (written_text t)) result }
{
    match kept {
        Some(text) => output(alloc, Output::dump(text)),
        None => too_long(alloc),
    }
}
