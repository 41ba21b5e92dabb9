//! The command that checks the links of a project. It asks for the project, and ends with its nets.

ghost use Rattle.std.specs.Prelude.{◌≡◌, IsTrue};
ghost use Rattle.link_check.specs.Text as texts;
ghost use Rattle.link_check.specs.declared.fault.LinkFault.TheVariants as linking;
ghost use Rattle.til_resolve.specs.PlainProject.{plain_project};
ghost use Rattle.tydi_io.specs.Faults.{Rose};
ghost use Rattle.tydi_tool.specs.Ask.{Decides, Judges};
ghost use Rattle.tydi_tool.specs.Commands.{link_ask};
ghost use Rattle.tydi_tool.specs.Links as spec;
ghost use Rattle.tydi_tool.specs.Links.{TellsLinked, refusal_of_linking};
ghost use Rattle.tydi_tool.specs.Outcome.{output_answer};
ghost use Rattle.tydi_tool.specs.Reading.{IsRefusedBy};

use crate::answer::{Answer, Reply};
use crate::commands::ask_project;
use crate::ending::OUTPUT_LIMIT;
use crate::output::Output;
use crate::refusal::{Detail, refused};
use link_check::{Difference, LinkFault, Nets, Why, check, nets_text};
use std::alloc::Global;
use til_resolve::Project;
use tydi_base::{Memory, Place, Text};
use tydi_io::Store;

/// `link PROJECT`.
pub(crate) fn link<S: Store>(alloc: Global, project: &Text, store: &mut S) -> Reply
    requires { IsTrue (S.allowed store.old project.now) }
    ensures decided { Decides (S.files store.old) (S.started store.old) (S.started store.new) (Rose (S.faults store.old) (S.faults store.new))
        (link_ask project.now) result }
{
    match ask_project(alloc, project, store) {
        Ok(read) => link_in(alloc, project, &read),
        Err(reply) => reply,
    }
}

/// The nets of the project of this word, or the refusal of its first link error.
fn link_in(alloc: Global, word: &Text, project: &Project) -> Reply
    ensures { Judges (TellsLinked word.now (plain_project project.now)) result }
{
    match check(alloc, project) {
        Ok(nets) => written(alloc, project, &nets),
        Err(fault) => unlinked(alloc, word, fault),
    }
}

/// The text of the nets of a project, as the answer where it is not too long.
fn written(alloc: Global, project: &Project, nets: &Nets) -> Reply
    ensures { Judges (λ a. a ≡ output_answer (texts.nets_text (plain_project project.now).streamlets nets.now)) result }
{
    match nets_text(alloc, project, nets, OUTPUT_LIMIT) {
        Ok(Some(text)) => Reply::Says(Answer::Done(Output::whole(text))),
        Ok(None) => refused(alloc, "OutputTooLong", &[]),
        Err(Memory) => Reply::Memory,
    }
}

/// The reply to a project whose links have this error.
pub(crate) fn unlinked(alloc: Global, word: &Text, fault: LinkFault) -> Reply
    ensures { IsRefusedBy (refusal_of_linking word.now fault) result }
{
    let file = Detail::Word(word);
    let (name, place) = match fault {
        LinkFault::UnknownEnd(place) => ("UnknownEnd", place),
        LinkFault::SameSide(place) => ("SameSide", place),
        LinkFault::NotCompatible(place, difference) => {
            return incompatible(alloc, word, place, &difference);
        }
        LinkFault::LinkedTwice(place) => ("LinkedTwice", place),
        LinkFault::Unlinked(place) => ("Unlinked", place),
        LinkFault::DesignTooLarge => return refused(alloc, "DesignTooLarge", &[file]),
        LinkFault::Memory => return Reply::Memory,
    };
    refused(alloc, name, &[file, Detail::At(place)])
}

/// The reply to a link at this place, the types of whose ends differ so.
fn incompatible<'x>(
    alloc: Global,
    word: &'x Text,
    place: Place,
    difference: &'x Difference,
) -> Reply
    ensures { IsRefusedBy (refusal_of_linking word.now (linking.NotCompatible place difference.now)) result }
{
    let details = [
        Detail::Word(word),
        Detail::At(place),
        Detail::Stream(&difference.path),
        Detail::Name(why(difference.why)),
    ];
    refused(alloc, "NotCompatible", &details)
}

/// The name of a difference of two types.
fn why(difference: Why) -> &'static str
    ensures { result.now ≡ spec.why_name difference }
{
    match difference {
        Why::Shape => "Shape",
        Why::Throughput => "Throughput",
        Why::Dims => "Dims",
        Why::Sync => "Sync",
        Why::Level => "Level",
        Why::Direction => "Direction",
        Why::User => "User",
        Why::Keep => "Keep",
    }
}
