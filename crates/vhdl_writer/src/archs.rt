//! The entities and architectures of a project.

ghost use Rattle.std.specs.Prelude.{◌≡◌, ◌<◌, IfOk, map};
ghost use Rattle.tydi_base.specs.Lengths.{most_bytes};
ghost use Rattle.til_resolve.specs.PlainProject.{HasPortTypes, plain_project, plain_streamlet};
ghost use Rattle.til_resolve.specs.SoundProject.{instances_inside};
ghost use Rattle.link_check.specs.Chains.{is_structural};
ghost use Rattle.vhdl_writer.specs.Architecture as spec;
ghost use Rattle.vhdl_writer.specs.Clashes.{AreArchitectures};
ghost use Rattle.vhdl_writer.specs.Designs.{AreWithin, IsDesignText};

use crate::component::Component;
use crate::design::Design;
use crate::directives::directives_length;
use crate::entity::entity_ports;
use crate::fault::ArchFault;
use crate::inside::Inside;
use crate::instances::{all_parts, all_wires, signals_at};
use crate::least::is_over;
use crate::measured::Measured;
use crate::pieces::{DesignPieces, DesignText};
use crate::sets::all_sets;
use crate::splitting::components_of;
use crate::tables::{instances_by_name, nets_by_number, ports_by_name};
use link_check::{ImplNets, Net, Nets};
use std::alloc::Global;
use til_resolve::{Impl, Instance, Project, Streamlet};
use tydi_base::{List, Memory, TryClone};
use vhdl_text::{Arch, Language, length_in};

/// The entity of each streamlet in text order, with the architecture that these nets, which `link_check::check` gives, make of its
/// instances and links. NameClash comes exactly where the type of some port has two physical streams of one path; it names the path of the
/// first such port. Memory comes where there is none for them.
pub fn architecture(alloc: Global, project: &Project, nets: &Nets) -> Result<List<Arch>, ArchFault>
    requires { HasPortTypes (plain_project project.now) }
    ensures { AreArchitectures (plain_project project.now).streamlets nets.now.impls result }
{
    let streamlets = project.streamlets.as_slice();
    let components = components_of(alloc, streamlets)?;
    let made = archs_within(
        alloc,
        streamlets,
        components.as_slice(),
        nets.impls.as_slice(),
        Language::Vhdl,
        u64::MAX - 1,
    )?;
    match made {
        Some(made) => Ok(made.archs),
        None => Err(ArchFault::Memory),
    }
}

/// The text of the entities and architectures that `architecture` gives, in this language, in pieces that are made one after another, and
/// how many bytes it has. None where it has more bytes than the limit: no text is made then, and no architecture whose signals and port
/// maps alone pass it. NameClash comes exactly where `architecture` has it. Memory comes where there is none for the entities and
/// architectures.
pub fn design_text(
    alloc: Global,
    project: &Project,
    nets: &Nets,
    language: Language,
    limit: u64,
) -> Result<Option<DesignText>, ArchFault>
    requires types { HasPortTypes (plain_project project.now) }
    requires limit { limit < most_bytes }
    ensures { IsDesignText (plain_project project.now).streamlets nets.now.impls language limit result }
{
    let streamlets = project.streamlets.as_slice();
    let components = components_of(alloc, streamlets)?;
    let made = archs_within(
        alloc,
        streamlets,
        components.as_slice(),
        nets.impls.as_slice(),
        language,
        limit,
    )?;
    match made {
        Some(Measured { archs, length }) => Ok(Some(DesignText {
            pieces: DesignPieces::new(language, archs),
            length,
        })),
        None => Ok(None),
    }
}

/// The entities and architectures of streamlets that have these components and nets, where their text in this language has at most so
/// many bytes.
fn archs_within(
    alloc: Global,
    streamlets: &[Streamlet],
    components: &[Component],
    impls: &[ImplNets],
    language: Language,
    limit: u64,
) -> Result<Option<Measured>, Memory>
    requires { limit < most_bytes }
    ensures { IfOk result (AreWithin language limit (spec.archs_from (map plain_streamlet streamlets.now) components.now impls.now 0 (map plain_streamlet streamlets.now))) }
{
    let mut length = directives_length(language);
    if length > limit {
        return Ok(None);
    }
    let design = Design {
        streamlets,
        components,
        impls,
        ports_by_name: ports_by_name(alloc, components)?,
        nets_by_number: nets_by_number(alloc, impls)?,
    };
    let mut archs = List::new(alloc);
    'streamlets: for (number, streamlet) in streamlets.iter().enumerate() {
        if is_over(components, instances_of(streamlet), limit - length) {
            return Ok(None);
        }
        let arch = arch_of(alloc, &design, number, streamlet)?;
        length = length.saturating_add(length_in(language, &arch));
        if length > limit {
            return Ok(None);
        }
        archs.push(arch)?;
    }
    Ok(Some(Measured { archs, length }))
}

/// The entity of a streamlet of this number, and its architecture if it has one.
fn arch_of<'d>(
    alloc: Global,
    design: &Design<'d>,
    number: usize,
    streamlet: &'d Streamlet,
) -> Result<Arch, Memory>
    ensures { IfOk result (λ arch. arch ≡ spec.arch_of (map plain_streamlet design.now.streamlets.now) design.now.components.now design.now.impls.now number (plain_streamlet streamlet.now)) }
{
    let instances = instances_of(streamlet);
    let inside = Inside {
        components: design.components,
        home: number,
        instances,
        ports_by_name: &design.ports_by_name,
        instances_by_name: instances_by_name(alloc, instances)?,
    };
    Ok(Arch {
        name: streamlet.path.try_clone(alloc)?,
        ports: entity_ports(alloc, signals_at(design.components, number))?,
        has_body: is_structural(streamlet),
        wires: all_wires(alloc, design.components, instances)?,
        parts: all_parts(alloc, design.streamlets, design.components, instances)?,
        sets: all_sets(alloc, &inside, nets_of(design, number))?,
    })
}

/// The nets of the implementation of a streamlet; none where it has no implementation of instances and links.
fn nets_of<'d>(design: &Design<'d>, number: usize) -> &'d [Net]
    ensures { result.now ≡ spec.nets_of design.now.impls.now number }
{
    match design.nets_by_number.get(&number).copied() {
        Some(one) => one.nets.as_slice(),
        None => &[],
    }
}

/// Whether a streamlet has an implementation of instances and links.
fn is_structural(streamlet: &Streamlet) -> bool
    ensures { result ≡ is_structural streamlet.now.body }
{
    match &streamlet.body {
        None => false,
        Some(Impl::Linked(_)) => false,
        Some(Impl::Structural { .. }) => true,
    }
}

/// The instances in the implementation of a streamlet.
fn instances_of(streamlet: &Streamlet) -> &[Instance]
    ensures { result.now ≡ instances_inside streamlet.now.body }
{
    match &streamlet.body {
        None => &[],
        Some(Impl::Linked(_)) => &[],
        Some(Impl::Structural { instances, .. }) => instances.as_slice(),
    }
}
