//! The text of nets.

ghost use Rattle.std.specs.Prelude.{◌≡◌, ◌++◌, map, slice_get, IfOk, OnOk};
ghost use Rattle.std.specs.List.{flat_map};
ghost use Rattle.til_resolve.specs.PlainProject.{plain_project, plain_streamlet};
ghost use Rattle.link_check.specs.Text as spec;
ghost use Rattle.link_check.specs.Text.{within};

use crate::nets::{ImplNets, Net, Nets};
use std::alloc::Global;
use til_resolve::{LinkEnd, Project, Streamlet};
use tydi_base::{Colons, Each, List, Memory, Written, emit};

/// The text of the nets of a project: for each implementation the line `impl PATH` of its streamlet, and then for each net the line
/// `net SOURCE SINK`. None exactly where it has more than `limit` bytes. Memory comes where there is none for the text.
pub fn nets_text(
    alloc: Global,
    project: &Project,
    nets: &Nets,
    limit: u64,
) -> Result<Option<List<u8>>, Memory>
    ensures { IfOk result (λ text. text ≡ within limit (spec.nets_text (plain_project project.now).streamlets nets.now)) }
{
    let streamlets = project.streamlets.as_slice();
    let mut text = List::new(alloc);
    'impls: for one in nets.impls.as_slice() {
        write_impl(streamlets, one, &mut text)?;
        if text.len() as u64 > limit {
            return Ok(None);
        }
    }
    Ok(Some(text))
}

/// Adds the lines of an implementation at the end.
fn write_impl(streamlets: &[Streamlet], one: &ImplNets, text: &mut List<u8>) -> Result<(), Memory>
    ensures { OnOk result (text.new ≡ text.old ++ spec.impl_text (map plain_streamlet streamlets.now) one.now) }
{
    write_streamlet(streamlets, one.streamlet, text)?;
    text.emit(&Each(one.nets.as_slice()))
}

/// Adds the line of a streamlet, by its number, at the end.
fn write_streamlet(streamlets: &[Streamlet], number: u32, text: &mut List<u8>) -> Result<(), Memory>
    ensures { OnOk result (text.new ≡ text.old ++ spec.impl_line (slice_get (map plain_streamlet streamlets.now) number)) }
{
    match streamlets.get(number as usize) {
        Some(streamlet) => emit!(text; "impl ", Colons(&streamlet.path), "\n"),
        None => Ok(()),
    }
}

impl Written for Net {
    ghost text = { spec.net_line };

    fn write_to(&self, out: &mut List<u8>) -> Result<(), Memory> {
        emit!(out; "net ", EndText(&self.source), " ", EndText(&self.sink), "\n")
    }
}

/// An end of a link: the name of a port, behind that of its instance if it has one, as `i.a`.
#[derive(Clone, Copy)]
struct EndText<'a>(&'a LinkEnd);

impl Written for EndText<'_> {
    ghost text = { λ end. spec.end_text end.0.now };

    fn write_to(&self, out: &mut List<u8>) -> Result<(), Memory> {
        match &self.0.instance {
            None => emit!(out; &self.0.port),
            Some(instance) => emit!(out; instance, ".", &self.0.port),
        }
    }
}
