//! The command that makes the testbench of a declared test. It asks for the project, and reads the value and the plan that the test holds.

ghost use Rattle.std.specs.Prelude.{◌≡◌, ◌++◌, IfOk, IsTrue, Some, find, option_map, true};
ghost use Rattle.std.specs.Option.{option_copied};
ghost use Rattle.std.specs.Str.{bytes_eq};
ghost use Rattle.logical_value.specs.Fits.{fits_split};
ghost use Rattle.logical_value.specs.Tree.{plain_port as plain_value};
ghost use Rattle.plan_text.specs.Laws.{FitsPort};
ghost use Rattle.til_resolve.specs.PlainProject.{plain_port, plain_project};
ghost use Rattle.til_resolve.specs.SoundProject.{DrivesPort, IsSoundProject};
ghost use Rattle.tydi_io.specs.Faults.{Rose};
ghost use Rattle.type_split.specs.Streams.{IsPortSplit, plain_split};
ghost use Rattle.tydi_tool.specs.Ask.{Decides, Judges};
ghost use Rattle.tydi_tool.specs.Commands.{testbench_ask};
ghost use Rattle.tydi_tool.specs.Reading.{ReadsAs};
ghost use Rattle.tydi_tool.specs.Tests.{
  AreShort,
  HasShortTests,
  TellsPlanned,
  TellsPort,
  TellsSplit,
  TellsTest,
  TellsTexts,
  plan_word,
  test_named,
  tested_port,
  value_word,
};
ghost use Rattle.tydi_tool.specs.Texts.{ReadsPlan, ReadsValue};

use crate::answer::Reply;
use crate::commands::ask_project;
use crate::drive::check_carried;
use crate::driven_text::DrivenText;
use crate::driving::driven;
use crate::gather::TextReader;
use crate::ports::split_apart;
use crate::refusal::{Detail, refused};
use crate::texts::{PlanText, ValueText};
use logical_value::PortValue;
use plan_text::Plan;
use std::alloc::Global;
use til_resolve::{Port, Project, Streamlet, Test};
use tydi_base::{Memory, Name, Path, Text};
use tydi_io::Store;
use type_split::Split;

/// `testbench PROJECT TEST`.
pub(crate) fn testbench<S: Store>(
    alloc: Global,
    project: &Text,
    test: &Text,
    store: &mut S,
) -> Reply
    requires { IsTrue (S.allowed store.old project.now) }
    ensures decided { Decides (S.files store.old) (S.started store.old) (S.started store.new) (Rose (S.faults store.old) (S.faults store.new))
        (testbench_ask project.now test.now) result }
{
    match ask_project(alloc, project, store) {
        Ok(read) => testbench_in(alloc, &read, test),
        Err(reply) => reply,
    }
}

/// The testbench of the test of this word in a project.
fn testbench_in(alloc: Global, project: &Project, word: &Text) -> Reply
    requires sound { IsSoundProject (plain_project project.now) }
    requires short { HasShortTests (plain_project project.now) }
    ensures { Judges (TellsTest (plain_project project.now) word.now) result }
{
    match test_of(alloc, project, word) {
        Ok(Some(test)) => bench_of_test(alloc, project, test, word),
        Ok(None) => refused(alloc, "NoTest", &[Detail::Word(word)]),
        Err(Memory) => Reply::Memory,
    }
}

/// The test of a project that a word names.
fn test_of<'p>(alloc: Global, project: &'p Project, word: &Text) -> Result<Option<&'p Test>, Memory>
    ensures { IfOk result (λ found. option_copied found ≡ test_named (plain_project project.now) word.now) }
{
    match Path::read(alloc, word.as_bytes(), true)? {
        Some(path) => Ok(project.test(&path)),
        None => Ok(None),
    }
}

/// The testbench of a test of a project, whose word is this.
fn bench_of_test(alloc: Global, project: &Project, test: &Test, word: &Text) -> Reply
    requires sound { IsSoundProject (plain_project project.now) }
    requires drives { DrivesPort (plain_project project.now) test.now }
    requires short { AreShort test.now }
    ensures { Judges (TellsPort word.now test.now (tested_port (plain_project project.now) test.now)) result }
{
    let port = port_of_test(project, test);
    match split_apart(alloc, &port.ltype) {
        Ok(split) => bench_of_split(alloc, &split, test, word),
        Err(reply) => reply,
    }
}

/// The port that a test of a project drives.
fn port_of_test<'p>(project: &'p Project, test: &Test) -> &'p Port
    requires { DrivesPort (plain_project project.now) test.now }
    ensures { tested_port (plain_project project.now) test.now ≡ Some (plain_port result.now) }
{
    match tested(project, test) {
        Some(port) => port,
        None => unreachable!(),
    }
}

/// The port of the name that a test has, of its streamlet, if it is there.
fn tested<'p>(project: &'p Project, test: &Test) -> Option<&'p Port>
    ensures { option_map plain_port (option_copied result) ≡ tested_port (plain_project project.now) test.now }
{
    match project.streamlets.as_slice().get(test.streamlet as usize) {
        Some(streamlet) => port_named(streamlet, &test.port),
        None => None,
    }
}

/// The first port of this name of a streamlet.
fn port_named<'p>(streamlet: &'p Streamlet, name: &Name) -> Option<&'p Port>
    ensures { option_copied result ≡ find (λ port. bytes_eq port.name name.now) streamlet.now.ports }
{
    streamlet.ports.iter().find(|port| port.name == *name)
}

/// The testbench of a test whose port has this split.
fn bench_of_split(alloc: Global, split: &Split<'_>, test: &Test, word: &Text) -> Reply
    requires port { IsPortSplit (plain_split split.now) }
    requires short { AreShort test.now }
    ensures { Judges (TellsSplit word.now test.now (plain_split split.now)) result }
{
    match check_carried(alloc, split) {
        Ok(()) => bench_of_texts(alloc, split, test, word),
        Err(reply) => reply,
    }
}

/// The testbench of the texts of a test, each node of whose port is carried.
fn bench_of_texts(alloc: Global, split: &Split<'_>, test: &Test, word: &Text) -> Reply
    requires port { IsPortSplit (plain_split split.now) }
    requires short { AreShort test.now }
    ensures { Judges (TellsTexts word.now (plain_split split.now) test.now) result }
{
    match value_of_test(alloc, split, test, word) {
        Ok(value) => bench_of_value(alloc, split, &value, test, word),
        Err(reply) => reply,
    }
}

/// The value that a test declares. The error is the reply where its text is refused.
fn value_of_test(
    alloc: Global,
    split: &Split<'_>,
    test: &Test,
    word: &Text,
) -> Result<PortValue, Reply>
    requires { AreShort test.now }
    ensures reads { ReadsAs (ReadsValue (value_word word.now) (plain_split split.now) test.now.value) result }
    ensures fits { IfOk result (λ value. fits_split (plain_split split.now) (plain_value value) ≡ true) }
{
    match extended(alloc, word, " value") {
        Ok(word) => ValueText { word: &word, split }.read(alloc, test.value.as_bytes()),
        Err(Memory) => Err(Reply::Memory),
    }
}

/// The testbench of a test with this value.
fn bench_of_value(
    alloc: Global,
    split: &Split<'_>,
    value: &PortValue,
    test: &Test,
    word: &Text,
) -> Reply
    requires port { IsPortSplit (plain_split split.now) }
    requires fits { fits_split (plain_split split.now) (plain_value value.now) ≡ true }
    requires short { AreShort test.now }
    ensures { Judges (TellsPlanned word.now (plain_split split.now) test.now value.now) result }
{
    match plan_of_test(alloc, split, test, word) {
        Ok(plan) => driven(alloc, DrivenText::Bench, split, value, plan),
        Err(reply) => reply,
    }
}

/// The plan that a test declares. The error is the reply where its text is refused.
fn plan_of_test(alloc: Global, split: &Split<'_>, test: &Test, word: &Text) -> Result<Plan, Reply>
    requires { AreShort test.now }
    ensures reads { ReadsAs (ReadsPlan (plan_word word.now) (plain_split split.now) test.now.plan) result }
    ensures fits { IfOk result (λ plan. FitsPort split.now.streams plan) }
{
    match extended(alloc, word, " plan") {
        Ok(word) => PlanText { word: &word, split }.read(alloc, test.plan.as_bytes()),
        Err(Memory) => Err(Reply::Memory),
    }
}

/// A word with this end behind it.
fn extended(alloc: Global, word: &Text, end: &str) -> Result<Text, Memory>
    ensures { IfOk result (λ made. made ≡ word.now ++ end.now) }
{
    let mut string = String::from_str(alloc, word.as_str())?;
    string.push_str(end)?;
    Ok(Text::from_string(string))
}
