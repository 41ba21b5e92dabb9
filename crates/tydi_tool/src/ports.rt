//! The ports of projects that words name, and their splits.

ghost use Rattle.std.specs.Prelude.{◌≡◌, true, IfOk, Some};
ghost use Rattle.logical_types.specs.Tree.{plain_of_stream};
ghost use Rattle.til_resolve.specs.PlainProject.{plain_project};
ghost use Rattle.til_resolve.specs.PortTypes.{IsPortType};
ghost use Rattle.til_resolve.specs.SoundProject.{IsSoundProject};
ghost use Rattle.type_split.specs.Streams.{IsPortSplit, clash_of, plain_split};
ghost use Rattle.tydi_base.specs.Path.{path_at};
ghost use Rattle.tydi_tool.specs.Ports as spec;
ghost use Rattle.tydi_tool.specs.Ports.{port_path, split_unless, with_name};
ghost use Rattle.tydi_tool.specs.Reading.{Gives, IsRefusedBy};
ghost use Rattle.tydi_tool.specs.Refusals.{no_port};

use crate::answer::Reply;
use crate::refusal::{Detail, refused};
use logical_types::StreamType;
use std::alloc::Global;
use til_resolve::Project;
use tydi_base::{Memory, Name, Path, Text, first_piece};
use type_split::{Split, SplitFault, split_type};

/// The split of the port of this word in a project. The error is the reply where the word names no port, or two physical streams of
/// its type clash.
pub(crate) fn split_of_port<'p>(
    alloc: Global,
    project: &'p Project,
    port: &Text,
) -> Result<Split<'p>, Reply>
    requires { IsSoundProject (plain_project project.now) }
    ensures split { Gives plain_split (spec.split_at (plain_project project.now) port.now) result }
    ensures whole { IfOk result (λ split. IsPortSplit (plain_split split)) }
{
    match port_path(alloc, port.as_bytes()) {
        Ok(Some(path)) => split_at(alloc, project, port, &path),
        Ok(None) => Err(no_port(alloc, port)),
        Err(Memory) => Err(Reply::Memory),
    }
}

/// The split of the port of this path, which its word is.
fn split_at<'p>(
    alloc: Global,
    project: &'p Project,
    port: &Text,
    path: &Path,
) -> Result<Split<'p>, Reply>
    requires sound { IsSoundProject (plain_project project.now) }
    requires path { port_path port.now ≡ Some path.now }
    ensures split { Gives plain_split (spec.split_at (plain_project project.now) port.now) result }
    ensures whole { IfOk result (λ split. IsPortSplit (plain_split split)) }
{
    match project.port(path) {
        Some(found) => split_apart(alloc, &found.ltype),
        None => Err(no_port(alloc, port)),
    }
}

/// The reply to a word that names no port.
fn no_port(alloc: Global, port: &Text) -> Reply
    ensures { IsRefusedBy (Some (no_port port.now)) result }
{
    refused(alloc, "NoPort", &[Detail::Word(port)])
}

/// The split of a port's type, unless two of its physical streams clash.
pub(crate) fn split_apart(alloc: Global, ltype: &StreamType) -> Result<Split<'_>, Reply>
    requires { IsPortType (plain_of_stream ltype.now) }
    ensures split { Gives plain_split (split_unless (plain_of_stream ltype.now) (clash_of (plain_of_stream ltype.now))) result }
    ensures whole { IfOk result (λ split. IsPortSplit (plain_split split)) }
{
    match split_type(alloc, ltype) {
        Ok(split) => Ok(split),
        Err(SplitFault::NameClash(path)) => {
            Err(refused(alloc, "NameClash", &[Detail::Stream(&path)]))
        }
        Err(SplitFault::Memory) => Err(Reply::Memory),
    }
}

/// The path that the word of a port is: a streamlet's with `::` between its names, and after a point the port's name.
fn port_path(alloc: Global, word: &[u8]) -> Result<Option<Path>, Memory>
    ensures { IfOk result (λ path. path ≡ port_path word.now) }
{
    match first_piece(word, b'.') {
        Some((streamlet, name)) => named_path(alloc, streamlet, name),
        None => Ok(None),
    }
}

/// A path with a name behind it, where the two texts are these.
fn named_path(alloc: Global, front: &[u8], name: &[u8]) -> Result<Option<Path>, Memory>
    ensures { IfOk result (λ path. path ≡ with_name (path_at true front.now) name.now) }
{
    let Some(mut path) = Path::read(alloc, front, true)? else {
        return Ok(None);
    };
    let Some(name) = Name::read(alloc, name)? else {
        return Ok(None);
    };
    path.push(name)?;
    Ok(Some(path))
}
