//! The commands that drive a port. They ask for the project, the value and the plan, one after another, and end with the trace, or with the
//! testbench that drives it.

ghost use Rattle.std.specs.Prelude.{◌≡◌, ◌≤◌, IfOk, IsTrue, true};
ghost use Rattle.logical_value.specs.Fits.{fits_split};
ghost use Rattle.logical_value.specs.Tree.{plain_port};
ghost use Rattle.plan_text.specs.Laws.{FitsPort};
ghost use Rattle.til_resolve.specs.PlainProject.{plain_project};
ghost use Rattle.til_resolve.specs.SoundProject.{IsSoundProject};
ghost use Rattle.tydi_io.specs.Faults.{Rose};
ghost use Rattle.type_split.specs.Streams.{IsPortSplit, plain_split};
ghost use Rattle.tydi_tool.specs.Ask.{Decides, IsAsked, goes_on};
ghost use Rattle.tydi_tool.specs.Commands.{bench_ask, drive_ask, driven_ask, plan_ask, planned_ask};
ghost use Rattle.tydi_tool.specs.Drives.{TellsText, carried};
ghost use Rattle.tydi_tool.specs.Ports.{split_at};
ghost use Rattle.tydi_tool.specs.Reading.{Gives};
ghost use Rattle.tydi_tool.specs.Texts.{ReadsPlan, ReadsValue};
ghost use Rattle.tydi_tool.specs.Words.{text_file};

use crate::answer::Reply;
use crate::asking::ask_text;
use crate::commands::ask_project;
use crate::driven_text::DrivenText;
use crate::driving::driven;
use crate::ports::split_of_port;
use crate::refusal::{Detail, refused};
use crate::texts::{PlanText, ValueText};
use logical_value::PortValue;
use plan_text::Plan;
use std::alloc::Global;
use til_resolve::Project;
use tydi_base::Text;
use tydi_io::Store;
use type_split::{Split, uncarried};

/// The most bytes of a value or a plan: 16 MiB.
const TEXT_LIMIT: usize = 16_777_216;

/// `drive PROJECT PORT VALUE PLAN`.
pub(crate) fn drive<S: Store>(
    alloc: Global,
    project: &Text,
    port: &Text,
    value: &Text,
    plan: &Text,
    store: &mut S,
) -> Reply
    requires project { IsTrue (S.allowed store.old project.now) }
    requires value { IsTrue (S.allowed store.old value.now) }
    requires plan { IsTrue (S.allowed store.old plan.now) }
    ensures decided { Decides (S.files store.old) (S.started store.old) (S.started store.new) (Rose (S.faults store.old) (S.faults store.new))
        (drive_ask project.now port.now value.now plan.now) result }
{
    drive_port(alloc, DrivenText::Trace, project, port, value, plan, store)
}

/// `bench PROJECT PORT VALUE PLAN`.
pub(crate) fn bench<S: Store>(
    alloc: Global,
    project: &Text,
    port: &Text,
    value: &Text,
    plan: &Text,
    store: &mut S,
) -> Reply
    requires project { IsTrue (S.allowed store.old project.now) }
    requires value { IsTrue (S.allowed store.old value.now) }
    requires plan { IsTrue (S.allowed store.old plan.now) }
    ensures decided { Decides (S.files store.old) (S.started store.old) (S.started store.new) (Rose (S.faults store.old) (S.faults store.new))
        (bench_ask project.now port.now value.now plan.now) result }
{
    drive_port(alloc, DrivenText::Bench, project, port, value, plan, store)
}

/// This text of a port that is driven.
fn drive_port<S: Store>(
    alloc: Global,
    text: DrivenText,
    project: &Text,
    port: &Text,
    value: &Text,
    plan: &Text,
    store: &mut S,
) -> Reply
    requires project { IsTrue (S.allowed store.old project.now) }
    requires value { IsTrue (S.allowed store.old value.now) }
    requires plan { IsTrue (S.allowed store.old plan.now) }
    ensures decided { Decides (S.files store.old) (S.started store.old) (S.started store.new) (Rose (S.faults store.old) (S.faults store.new))
        (driven_ask text project.now port.now value.now plan.now) result }
{
    match ask_project(alloc, project, store) {
        Ok(read) => drive_named(alloc, text, &read, port, value, plan, store),
        Err(reply) => reply,
    }
}

/// The same, with the project.
fn drive_named<S: Store>(
    alloc: Global,
    text: DrivenText,
    project: &Project,
    port: &Text,
    value: &Text,
    plan: &Text,
    store: &mut S,
) -> Reply
    requires sound { IsSoundProject (plain_project project.now) }
    requires value { IsTrue (S.allowed store.old value.now) }
    requires plan { IsTrue (S.allowed store.old plan.now) }
    ensures decided { Decides (S.files store.old) (S.started store.old) (S.started store.new) (Rose (S.faults store.old) (S.faults store.new))
        (goes_on (split_at (plain_project project.now) port.now)
        (λ split. goes_on (carried split) (λ done. planned_ask value.now plan.now split (TellsText text split)))) result }
{
    match split_of_port(alloc, project, port) {
        Ok(split) => drive_carried(alloc, text, &split, value, plan, store),
        Err(reply) => reply,
    }
}

/// The same, with the split of the port.
fn drive_carried<S: Store>(
    alloc: Global,
    text: DrivenText,
    split: &Split<'_>,
    value: &Text,
    plan: &Text,
    store: &mut S,
) -> Reply
    requires port { IsPortSplit (plain_split split.now) }
    requires value { IsTrue (S.allowed store.old value.now) }
    requires plan { IsTrue (S.allowed store.old plan.now) }
    ensures decided { Decides (S.files store.old) (S.started store.old) (S.started store.new) (Rose (S.faults store.old) (S.faults store.new))
        (goes_on (carried (plain_split split.now)) (λ done. planned_ask value.now plan.now (plain_split split.now) (TellsText text (plain_split split.now)))) result }
{
    match check_carried(alloc, split) {
        Ok(()) => drive_value(alloc, text, split, value, plan, store),
        Err(reply) => reply,
    }
}

/// Whether all nodes of a split are carried. The error is the reply where one is not.
pub(crate) fn check_carried(alloc: Global, split: &Split<'_>) -> Result<(), Reply>
    ensures { Gives (λ done. done) (carried (plain_split split.now)) result }
{
    match uncarried(split) {
        Some(path) => Err(refused(alloc, "NoCarrier", &[Detail::Stream(path)])),
        None => Ok(()),
    }
}

/// The same, where all nodes are carried.
fn drive_value<S: Store>(
    alloc: Global,
    text: DrivenText,
    split: &Split<'_>,
    value: &Text,
    plan: &Text,
    store: &mut S,
) -> Reply
    requires port { IsPortSplit (plain_split split.now) }
    requires value { IsTrue (S.allowed store.old value.now) }
    requires plan { IsTrue (S.allowed store.old plan.now) }
    ensures decided { Decides (S.files store.old) (S.started store.old) (S.started store.new) (Rose (S.faults store.old) (S.faults store.new))
        (planned_ask value.now plan.now (plain_split split.now) (TellsText text (plain_split split.now))) result }
{
    match ask_value(alloc, split, value, store) {
        Ok(read) => drive_planned(alloc, text, split, &read, plan, store),
        Err(reply) => reply,
    }
}

/// The value of this word, of the port that was split. The error is the reply where its file is lacking, a call fails or its text is
/// refused.
pub(crate) fn ask_value<S: Store>(
    alloc: Global,
    split: &Split<'_>,
    value: &Text,
    store: &mut S,
) -> Result<PortValue, Reply>
    requires { IsTrue (S.allowed store.old value.now) }
    ensures allowed { S.allowed store.new ≡ S.allowed store.old }
    ensures files { S.files store.new ≡ S.files store.old }
    ensures asked { IsAsked (S.files store.old) (text_file value.now) (ReadsValue value.now (plain_split split.now))
        (S.started store.old) (S.started store.new) (Rose (S.faults store.old) (S.faults store.new)) result }
    ensures later { S.faults store.old ≤ S.faults store.new }
    ensures fits { IfOk result (λ read. fits_split (plain_split split.now) (plain_port read) ≡ true) }
{
    ask_text(
        alloc,
        store,
        value,
        TEXT_LIMIT,
        ValueText { word: value, split },
    )
}

/// The same, with the value.
fn drive_planned<S: Store>(
    alloc: Global,
    text: DrivenText,
    split: &Split<'_>,
    value: &PortValue,
    plan: &Text,
    store: &mut S,
) -> Reply
    requires port { IsPortSplit (plain_split split.now) }
    requires fits { fits_split (plain_split split.now) (plain_port value.now) ≡ true }
    requires plan { IsTrue (S.allowed store.old plan.now) }
    ensures decided { Decides (S.files store.old) (S.started store.old) (S.started store.new) (Rose (S.faults store.old) (S.faults store.new))
        (plan_ask plan.now (plain_split split.now) (TellsText text (plain_split split.now) value.now)) result }
{
    match ask_plan(alloc, split, plan, store) {
        Ok(read) => driven(alloc, text, split, value, read),
        Err(reply) => reply,
    }
}

/// The plan of this word, of the port that was split. The error is the reply where its file is lacking, a call fails or its text is
/// refused.
fn ask_plan<S: Store>(
    alloc: Global,
    split: &Split<'_>,
    plan: &Text,
    store: &mut S,
) -> Result<Plan, Reply>
    requires { IsTrue (S.allowed store.old plan.now) }
    ensures allowed { S.allowed store.new ≡ S.allowed store.old }
    ensures files { S.files store.new ≡ S.files store.old }
    ensures asked { IsAsked (S.files store.old) (text_file plan.now) (ReadsPlan plan.now (plain_split split.now))
        (S.started store.old) (S.started store.new) (Rose (S.faults store.old) (S.faults store.new)) result }
    ensures later { S.faults store.old ≤ S.faults store.new }
    ensures fits { IfOk result (λ read. FitsPort split.now.streams read) }
{
    ask_text(
        alloc,
        store,
        plan,
        TEXT_LIMIT,
        PlanText { word: plan, split },
    )
}
