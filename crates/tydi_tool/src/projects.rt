//! How the text of a project is read as the project.

ghost use Rattle.std.specs.Prelude.{◌≡◌, ◌<◌, ◌-◌, ◌^◌, length};
ghost use Rattle.til_resolve.specs.PlainProject.{plain_project};
ghost use Rattle.tydi_tool.specs.Projects.{ReadsProject, Resolves};
ghost use Rattle.tydi_tool.specs.Reading.{IsRefusedBy, ReadsAs, Seen};
ghost use Rattle.tydi_tool.specs.Refusals.{refusal_of_resolving, type_fault_name};

use crate::answer::Reply;
use crate::gather::TextReader;
use crate::refusal::{Detail, refused};
use crate::trees::read_tree;
use logical_types::TypeFault;
use std::alloc::Global;
use til_parser::Ast;
use til_resolve::{Project, ResolveFault, resolve};
use tydi_base::Text;

/// Reads the text of the project of this word.
#[derive(Clone, Copy, Drop)]
pub(crate) struct ProjectText<'a> {
    pub(crate) word: &'a Text,
}

impl<'a> TextReader<Project> for ProjectText<'a> {
    ghost reads = { λ project bytes. Seen plain_project (ReadsProject project.word.now bytes) };

    fn read(&self, alloc: Global, bytes: &[u8]) -> Result<Project, Reply> {
        let ast = read_tree(alloc, self.word, bytes)?;
        project_of(alloc, self.word, &ast)
    }
}

/// The project of a tree.
fn project_of(alloc: Global, word: &Text, ast: &Ast) -> Result<Project, Reply>
    ensures { ReadsAs (Seen plain_project (Resolves word.now ast.now)) result }
{
    match resolve(alloc, ast) {
        Ok(project) => Ok(project),
        Err(fault) => Err(unresolved(alloc, word, fault)),
    }
}

/// The reply to a project whose tree has this error.
fn unresolved(alloc: Global, word: &Text, fault: ResolveFault) -> Reply
    ensures { IsRefusedBy (refusal_of_resolving word.now fault) result }
{
    let file = Detail::Word(word);
    let (name, place) = match fault {
        ResolveFault::DeclaredTwice(place) => ("DeclaredTwice", place),
        ResolveFault::UnknownName(place) => ("UnknownName", place),
        ResolveFault::WrongKind(place) => ("WrongKind", place),
        ResolveFault::CyclicType(place) => ("CyclicType", place),
        ResolveFault::TypeTooLarge(place) => ("TypeTooLarge", place),
        ResolveFault::BadType(place, fault) => {
            let details = [file, Detail::At(place), Detail::Name(type_fault(fault))];
            return refused(alloc, "BadType", &details);
        }
        ResolveFault::PortNotStream(place) => ("PortNotStream", place),
        ResolveFault::CyclicInstance(place) => ("CyclicInstance", place),
        ResolveFault::Memory => return Reply::Memory,
    };
    refused(alloc, name, &[file, Detail::At(place)])
}

/// The name of an error of a type.
fn type_fault(fault: TypeFault) -> &'static str
    ensures { result.now ≡ type_fault_name fault }
{
    match fault {
        TypeFault::ZeroBits => "ZeroBits",
        TypeFault::ElementTooWide => "ElementTooWide",
        TypeFault::BadThroughput => "BadThroughput",
        TypeFault::TooManyLanes => "TooManyLanes",
        TypeFault::TooManyDims => "TooManyDims",
        TypeFault::UserHasStream => "UserHasStream",
        TypeFault::NameTwice => "NameTwice",
        TypeFault::EmptyUnion => "EmptyUnion",
    }
}
