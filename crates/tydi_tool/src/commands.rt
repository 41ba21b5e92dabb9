//! The commands. Each asks for its files one after another, and ends with what is said of them.

ghost use Rattle.std.specs.Prelude.{◌≡◌, ◌≤◌, IfOk, IsTrue};
ghost use Rattle.std.specs.List.{AllByRecursion};
ghost use Rattle.til_parser.specs.Canonical.{canonical};
ghost use Rattle.tydi_io.specs.Faults.{Rose};
ghost use Rattle.split_text.specs.Text.{split_text};
ghost use Rattle.til_resolve.specs.PlainProject.{plain_project};
ghost use Rattle.til_resolve.specs.SoundProject.{IsSoundProject};
ghost use Rattle.type_split.specs.Streams.{IsPortSplit, plain_split};
ghost use Rattle.tydi_tool.specs.Ask.{Decides, IsAsked, Judges, TellsOf};
ghost use Rattle.tydi_tool.specs.Commands.{ask_of, check_ask, read_ask, split_ask};
ghost use Rattle.tydi_tool.specs.Outcome.{output_answer};
ghost use Rattle.tydi_tool.specs.Ports.{split_at};
ghost use Rattle.tydi_tool.specs.Projects.{ReadsProject};
ghost use Rattle.tydi_tool.specs.Reading.{Seen};
ghost use Rattle.tydi_tool.specs.TraceFiles.{IsNew};
ghost use Rattle.tydi_tool.specs.Words.{request_from, file_words, project_file};

use crate::answer::Reply;
use crate::asking::{ask, ask_text};
use crate::carry::carry;
use crate::compare::compare;
use crate::declared_test::testbench;
use crate::decode::decode;
use crate::designs::DesignText;
use crate::drive::{bench, drive};
use crate::ending::{OUTPUT_LIMIT, answered, answered_front, too_long};
use crate::entities::design;
use crate::expect::expect;
use crate::jobs::generate;
use crate::link::link;
use crate::ports::split_of_port;
use crate::projects::ProjectText;
use crate::reports::report;
use crate::sim::sim;
use crate::traces::TraceFile;
use crate::trees::TreeText;
use crate::vcd::vcd;
use crate::watch::watch;
use crate::words::Command;
use split_text::{split_fits, split_text};
use std::alloc::Global;
use til_parser::{Ast, print};
use til_resolve::Project;
use tydi_base::{Memory, Text};
use tydi_io::Store;
use type_split::Split;
use vhdl_text::Language;

/// The most bytes of a trace: 64 MiB.
pub(crate) const TRACE_LIMIT: usize = 67_108_864;

/// The most bytes of a project: 4 MiB.
pub(crate) const PROJECT_LIMIT: usize = 4_194_304;

/// The reply of the tool to this command.
pub(crate) fn reply_to<S: Store>(alloc: Global, command: Command<'_>, store: &mut S) -> Reply
    requires { AllByRecursion (λ file. IsTrue (S.allowed store.old file.word)) (file_words (request_from command)) }
    ensures decided { Decides (S.files store.old) (S.started store.old) (S.started store.new) (Rose (S.faults store.old) (S.faults store.new))
        (ask_of (request_from command.entry)) result }
{
    match command {
        Command::Check { trace } => check(alloc, trace, store),
        Command::Read { project } => read(alloc, project, store),
        Command::Split { project, port } => split(alloc, project, port, store),
        Command::Drive {
            project,
            port,
            value,
            plan,
        } => drive(alloc, project, port, value, plan, store),
        Command::Decode {
            project,
            port,
            trace,
        } => decode(alloc, project, port, trace, store),
        Command::Sim { bench, run } => sim(alloc, bench, run, store),
        Command::Link { project } => link(alloc, project, store),
        Command::Carry {
            project,
            top,
            from,
            to,
            trace,
        } => {
            let words = DesignText {
                project,
                top,
                from,
                to,
            };
            carry(alloc, words, trace, store)
        }
        Command::Vhdl { project } => design(alloc, Language::Vhdl, project, store),
        Command::Verilog { project } => design(alloc, Language::Verilog, project, store),
        Command::Bench {
            project,
            port,
            value,
            plan,
        } => bench(alloc, project, port, value, plan, store),
        Command::Testbench { project, test } => testbench(alloc, project, test, store),
        Command::Vcd {
            project,
            port,
            scope,
            file,
        } => vcd(alloc, project, port, scope, file, store),
        Command::Gen {
            project,
            port,
            seed,
            count,
        } => generate(alloc, project, port, seed, count, store),
        Command::Compare {
            project,
            port,
            value,
            trace,
        } => compare(alloc, project, port, value, trace, store),
        Command::Expect {
            project,
            port,
            value,
        } => expect(alloc, project, port, value, store),
        Command::Watch { monitor, trace } => watch(alloc, monitor, trace, store),
    }
}

/// `check TRACE`.
fn check<S: Store>(alloc: Global, trace: &Text, store: &mut S) -> Reply
    requires { IsTrue (S.allowed store.old trace.now) }
    ensures decided { Decides (S.files store.old) (S.started store.old) (S.started store.new) (Rose (S.faults store.old) (S.faults store.new))
        (check_ask trace.now) result }
{
    check_with(alloc, trace, TraceFile::new(alloc, trace), store)
}

/// `check TRACE`, with a new reader of the trace.
fn check_with<S: Store>(alloc: Global, trace: &Text, reader: TraceFile<'_>, store: &mut S) -> Reply
    requires allowed { IsTrue (S.allowed store.old trace.now) }
    requires new { IsNew trace.now reader }
    ensures decided { Decides (S.files store.old) (S.started store.old) (S.started store.new) (Rose (S.faults store.old) (S.faults store.new))
        (check_ask trace.now) result }
{
    match ask(alloc, store, trace, TRACE_LIMIT, reader) {
        Ok(survey) => report(alloc, &survey),
        Err(reply) => reply,
    }
}

/// `read PROJECT`.
fn read<S: Store>(alloc: Global, project: &Text, store: &mut S) -> Reply
    requires { IsTrue (S.allowed store.old project.now) }
    ensures decided { Decides (S.files store.old) (S.started store.old) (S.started store.new) (Rose (S.faults store.old) (S.faults store.new))
        (read_ask project.now) result }
{
    let text = TreeText { word: project };
    match ask_text(alloc, store, project, PROJECT_LIMIT, text) {
        Ok(ast) => canonical_text(alloc, &ast),
        Err(reply) => reply,
    }
}

/// The canonical text of a tree.
fn canonical_text(alloc: Global, ast: &Ast) -> Reply
    ensures { Judges (λ a. a ≡ output_answer (canonical ast.now)) result }
{
    answered(alloc, print(alloc, ast))
}

/// The project of this word, with which a command begins; it stands. The error is the reply where its file is lacking, a call fails
/// or its text is refused.
pub(crate) fn ask_project<S: Store>(
    alloc: Global,
    project: &Text,
    store: &mut S,
) -> Result<Project, Reply>
    requires { IsTrue (S.allowed store.old project.now) }
    ensures allowed { S.allowed store.new ≡ S.allowed store.old }
    ensures files { S.files store.new ≡ S.files store.old }
    ensures asked { IsAsked (S.files store.old) (project_file project.now) (λ bytes. Seen plain_project (ReadsProject project.now bytes))
        (S.started store.old) (S.started store.new) (Rose (S.faults store.old) (S.faults store.new)) result }
    ensures later { S.faults store.old ≤ S.faults store.new }
    ensures sound { IfOk result (λ read. IsSoundProject (plain_project read)) }
{
    let text = ProjectText { word: project };
    ask_text(alloc, store, project, PROJECT_LIMIT, text)
}

/// `split PROJECT PORT`.
fn split<S: Store>(alloc: Global, project: &Text, port: &Text, store: &mut S) -> Reply
    requires { IsTrue (S.allowed store.old project.now) }
    ensures decided { Decides (S.files store.old) (S.started store.old) (S.started store.new) (Rose (S.faults store.old) (S.faults store.new))
        (split_ask project.now port.now) result }
{
    match ask_project(alloc, project, store) {
        Ok(read) => split_in(alloc, &read, port),
        Err(reply) => reply,
    }
}

/// The physical streams of the port of this word in a project.
fn split_in(alloc: Global, project: &Project, port: &Text) -> Reply
    requires { IsSoundProject (plain_project project.now) }
    ensures { Judges (TellsOf (split_at (plain_project project.now) port.now) (λ split a. a ≡ output_answer (split_text split))) result }
{
    match split_of_port(alloc, project, port) {
        Ok(split) => streams_text(alloc, &split),
        Err(reply) => reply,
    }
}

/// The text of the physical streams of a split, which is made only where it is not too long.
fn streams_text(alloc: Global, split: &Split<'_>) -> Reply
    requires { IsPortSplit (plain_split split.now) }
    ensures { Judges (λ a. a ≡ output_answer (split_text (plain_split split.now))) result }
{
    match split_fits(alloc, split, OUTPUT_LIMIT) {
        Ok(true) => made_text(alloc, split),
        Ok(false) => too_long(alloc),
        Err(Memory) => Reply::Memory,
    }
}

/// The text of the physical streams of a split.
fn made_text(alloc: Global, split: &Split<'_>) -> Reply
    requires { IsPortSplit (plain_split split.now) }
    ensures { Judges (λ a. a ≡ output_answer (split_text (plain_split split.now))) result }
{
    match split_text(alloc, split, OUTPUT_LIMIT) {
        Ok(front) => answered_front(alloc, front),
        Err(Memory) => Reply::Memory,
    }
}
