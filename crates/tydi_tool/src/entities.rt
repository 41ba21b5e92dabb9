//! The commands that write a project in VHDL and in Verilog. Each asks for the project, and ends with its entities and architectures.

ghost use Rattle.std.specs.Prelude.{◌≡◌, IsTrue, None, Some};
ghost use Rattle.link_check.specs.Checked.{linked};
ghost use Rattle.til_resolve.specs.PlainProject.{HasPortTypes, plain_project};
ghost use Rattle.tydi_io.specs.Faults.{Rose};
ghost use Rattle.vhdl_writer.specs.PortClashes.{first_clash};
ghost use Rattle.tydi_tool.specs.Ask.{Decides, Judges};
ghost use Rattle.tydi_tool.specs.Commands.{design_ask};
ghost use Rattle.tydi_tool.specs.Entities.{TellsDesign, refusal_of_clash, text_of_nets};
ghost use Rattle.tydi_tool.specs.Links.{TellsChecked};
ghost use Rattle.tydi_tool.specs.Outcome.{output_answer};
ghost use Rattle.tydi_tool.specs.Reading.{IsRefusedBy};

use crate::answer::{Answer, Reply};
use crate::commands::ask_project;
use crate::ending::OUTPUT_LIMIT;
use crate::link::unlinked;
use crate::output::Output;
use crate::refusal::{Detail, refused};
use link_check::{Nets, check};
use std::alloc::Global;
use til_resolve::Project;
use tydi_base::{Memory, Text};
use tydi_io::Store;
use vhdl_text::Language;
use vhdl_writer::{
    ArchFault, Clash, DesignText, design_text, first_clash, first_clash_is_reported,
};

/// `vhdl PROJECT` or `verilog PROJECT`, by the language.
pub(crate) fn design<S: Store>(
    alloc: Global,
    language: Language,
    project: &Text,
    store: &mut S,
) -> Reply
    requires { IsTrue (S.allowed store.old project.now) }
    ensures decided { Decides (S.files store.old) (S.started store.old) (S.started store.new) (Rose (S.faults store.old) (S.faults store.new))
        (design_ask language project.now) result }
{
    match ask_project(alloc, project, store) {
        Ok(read) => designed(alloc, language, project, &read),
        Err(reply) => reply,
    }
}

/// The entities and architectures of the project of this word, or the refusal of its first port whose type is not split, or else of its
/// first link error.
fn designed(alloc: Global, language: Language, word: &Text, project: &Project) -> Reply
    requires { HasPortTypes (plain_project project.now) }
    ensures { Judges (TellsDesign language word.now (plain_project project.now)) result }
{
    match first_clash(alloc, project) {
        Ok(None) => wired(alloc, language, word, project),
        Ok(Some(clash)) => clashing(alloc, &clash),
        Err(Memory) => Reply::Memory,
    }
}

/// The reply to a project with this port, two physical streams of which have one path.
fn clashing(alloc: Global, clash: &Clash) -> Reply
    ensures { IsRefusedBy (Some (refusal_of_clash clash.now)) result }
{
    let details = [
        Detail::Port(&clash.streamlet, &clash.port),
        Detail::Stream(&clash.path),
    ];
    refused(alloc, "NameClash", &details)
}

/// The entities and architectures of a project each port of which is split, or the refusal of its first link error.
fn wired(alloc: Global, language: Language, word: &Text, project: &Project) -> Reply
    requires types { HasPortTypes (plain_project project.now) }
    requires apart { first_clash (plain_project project.now).streamlets ≡ None }
    ensures { Judges (TellsChecked word.now (text_of_nets language (plain_project project.now).streamlets) (linked (plain_project project.now).streamlets)) result }
{
    match check(alloc, project) {
        Ok(nets) => written(alloc, language, project, &nets),
        Err(fault) => unlinked(alloc, word, fault),
    }
}

/// The entities and architectures of a project with these nets, as the answer where their text is not too long.
fn written(alloc: Global, language: Language, project: &Project, nets: &Nets) -> Reply
    requires types { HasPortTypes (plain_project project.now) }
    requires apart { first_clash (plain_project project.now).streamlets ≡ None }
    ensures { Judges (λ a. a ≡ output_answer (text_of_nets language (plain_project project.now).streamlets nets.now)) result }
{
    first_clash_is_reported();
    match design_text(alloc, project, nets, language, OUTPUT_LIMIT) {
        Ok(Some(DesignText { pieces, length })) => {
            Reply::Says(Answer::Done(Output::design(pieces, length)))
        }
        Ok(None) => refused(alloc, "OutputTooLong", &[]),
        Err(ArchFault::NameClash(_)) => unreachable!(),
        Err(ArchFault::Memory) => Reply::Memory,
    }
}
