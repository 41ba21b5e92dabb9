//! Chains of nets: where the nets of a design lead from a leaf source.

ghost use Rattle.std.specs.Prelude.{◌≡◌, IfOk, Decides, map, nat_eq, find, option_map, slice_get};
ghost use Rattle.std.specs.Option.{option_copied};
ghost use Rattle.til_resolve.specs.PlainProject.{plain_port, plain_project, plain_streamlet};
ghost use Rattle.link_check.specs.Chains as spec;
ghost use Rattle.link_check.specs.CarryLaws.{port_at};
ghost use Rattle.link_check.specs.Chains.{IsLeafSource, IsSinkOf, LeadsToSink};
ghost use Rattle.link_check.specs.Checked.{AreNets};
ghost use Rattle.link_check.specs.Ends.{instance_named, is_same_end};
ghost use Rattle.link_check.specs.Sizes.{instances_at};
ghost use Rattle.link_check.specs.Tables.{port_in, ports_there};
ghost use Rattle.link_check.specs.Steps.{
  IsLedOutside,
  IsNext,
  inward_at,
  led,
  instance_at,
  sink_among,
  sink_at,
};

use crate::leaf::LeafPort;
use crate::nets::{ImplNets, Nets};
use std::alloc::Global;
use til_resolve::{Impl, Instance, LinkEnd, Port, Project, Streamlet};
use tydi_base::{List, Memory, Name, TryClone};

impl Nets {
    /// The leaf sink at the end of the chain of nets that begins at a leaf source of the project that the nets are of. None exactly where
    /// the port is no leaf source. `Memory` also where a chain has 2^64 nets: no text has so many.
    pub fn sink_of(
        &self,
        alloc: Global,
        project: &Project,
        leaf: &LeafPort,
    ) -> Result<Option<LeafPort>, Memory>
        requires { AreNets (plain_project project.now).streamlets self.now }
        ensures { IfOk result (IsSinkOf (plain_project project.now).streamlets self.now.impls leaf.now) }
    {
        let streamlets = project.streamlets.as_slice();
        if !is_leaf_source(streamlets, leaf) {
            return Ok(None);
        }
        Ok(Some(self.end_of(alloc, streamlets, leaf)?))
    }

    /// The leaf sink at the end of the chain from a leaf source.
    fn end_of(
        &self,
        alloc: Global,
        streamlets: &[Streamlet],
        source: &LeafPort,
    ) -> Result<LeafPort, Memory>
        requires nets { AreNets (map plain_streamlet streamlets.now) self.now }
        requires source { IsLeafSource (map plain_streamlet streamlets.now) source.now }
        ensures { IfOk result (LeadsToSink (map plain_streamlet streamlets.now) self.now.impls source.now) }
    {
        let mut at = source.try_clone(alloc)?;
        'nets: for _net in 0..u64::MAX {
            match self.next(alloc, streamlets, &at)? {
                None => return Ok(at),
                Some(next) => at = next,
            }
        }
        Err(Memory)
    }

    /// The port to which a net leads from this one, if one does.
    fn next(
        &self,
        alloc: Global,
        streamlets: &[Streamlet],
        at: &LeafPort,
    ) -> Result<Option<LeafPort>, Memory>
        requires { AreNets (map plain_streamlet streamlets.now) self.now }
        ensures { IfOk result (IsNext (map plain_streamlet streamlets.now) self.now.impls at.now) }
    {
        match self.next_inside(alloc, streamlets, at)? {
            None => self.next_outside(alloc, streamlets, at),
            Some(next) => Ok(Some(next)),
        }
    }

    /// The port to which a net leads inside the implementation of the port's streamlet.
    fn next_inside(
        &self,
        alloc: Global,
        streamlets: &[Streamlet],
        at: &LeafPort,
    ) -> Result<Option<LeafPort>, Memory>
        ensures { IfOk result (λ next. next ≡ led (map plain_streamlet streamlets.now) self.now.impls at.now.top at.now.instances (record { instance = None; port = at.now.port })) }
    {
        let end = LinkEnd {
            instance: None,
            port: at.port.try_clone(alloc)?,
        };
        let instances = at.instances.try_clone(alloc)?;
        self.lead(alloc, streamlets, at.top, instances, &end)
    }

    /// The port to which a net leads outside of the port's instance.
    fn next_outside(
        &self,
        alloc: Global,
        streamlets: &[Streamlet],
        at: &LeafPort,
    ) -> Result<Option<LeafPort>, Memory>
        ensures { IfOk result (IsLedOutside (map plain_streamlet streamlets.now) self.now.impls at.now) }
    {
        let mut outer = at.instances.try_clone(alloc)?;
        let Some(name) = outer.pop() else {
            return Ok(None);
        };
        let end = LinkEnd {
            instance: Some(name),
            port: at.port.try_clone(alloc)?,
        };
        self.lead(alloc, streamlets, at.top, outer, &end)
    }

    /// The port to which a net leads from a source end of the implementation down these instances.
    fn lead(
        &self,
        alloc: Global,
        streamlets: &[Streamlet],
        top: u32,
        instances: List<Name>,
        end: &LinkEnd,
    ) -> Result<Option<LeafPort>, Memory>
        ensures { IfOk result (λ next. next ≡ led (map plain_streamlet streamlets.now) self.now.impls top instances end.now) }
    {
        let Some(number) = streamlet_under(streamlets, top, instances.as_slice()) else {
            return Ok(None);
        };
        match self.sink_from(number, end) {
            None => Ok(None),
            Some(sink) => Ok(Some(port_of_end(alloc, top, instances, sink)?)),
        }
    }

    /// The sink of the net of a source end in the implementation of a streamlet.
    fn sink_from(&self, number: u32, end: &LinkEnd) -> Option<&LinkEnd>
        ensures { option_copied result ≡ sink_at self.now.impls number end.now }
    {
        match self.impl_of(number) {
            None => None,
            Some(one) => one.sink_from(end),
        }
    }

    /// The nets of the implementation of a streamlet.
    fn impl_of(&self, number: u32) -> Option<&ImplNets>
        ensures { option_copied result ≡ find (λ one. nat_eq one.streamlet number) self.now.impls }
    {
        self.impls.iter().find(|one| one.streamlet == number)
    }
}

impl LeafPort {
    /// Whether it is a leaf source of a project.
    pub fn is_source(&self, project: &Project) -> bool
        ensures { Decides result (IsLeafSource (plain_project project.now).streamlets self.now) }
    {
        is_leaf_source(project.streamlets.as_slice(), self)
    }

    /// The port of a project that stands there. None exactly where none does.
    pub fn find_port<'p>(&self, project: &'p Project) -> Option<&'p Port>
        ensures { option_map plain_port (option_copied result) ≡ port_at (plain_project project.now).streamlets self.now }
    {
        let streamlets = project.streamlets.as_slice();
        match streamlet_under(streamlets, self.top, self.instances.as_slice()) {
            None => None,
            Some(number) => named_port(ports_in(streamlets, number), &self.port),
        }
    }
}

impl ImplNets {
    /// The sink of the net of a source end.
    fn sink_from(&self, end: &LinkEnd) -> Option<&LinkEnd>
        ensures { option_copied result ≡ sink_among self.now.nets end.now }
    {
        match self.nets.iter().find(|net| is_same_end(&net.source, end)) {
            None => None,
            Some(net) => Some(&net.sink),
        }
    }
}

/// Two ends have the same names.
fn is_same_end(one: &LinkEnd, other: &LinkEnd) -> bool
    ensures { result ≡ is_same_end one.now other.now }
{
    one.instance == other.instance && one.port == other.port
}

/// The port that an end names inside the implementation down these instances.
fn port_of_end(
    alloc: Global,
    top: u32,
    instances: List<Name>,
    end: &LinkEnd,
) -> Result<LeafPort, Memory>
    ensures { IfOk result (λ port. port ≡ spec.port_of_end top instances end.now) }
{
    let port = end.port.try_clone(alloc)?;
    let instances = instances_of_end(alloc, instances, end)?;
    Ok(LeafPort {
        top,
        instances,
        port,
    })
}

/// The names of instances that lead to what an end names.
fn instances_of_end(
    alloc: Global,
    mut instances: List<Name>,
    end: &LinkEnd,
) -> Result<List<Name>, Memory>
    ensures { IfOk result (λ names. names ≡ spec.instances_of_end instances end.now.instance) }
{
    match &end.instance {
        None => Ok(instances),
        Some(name) => {
            instances.push(name.try_clone(alloc)?)?;
            Ok(instances)
        }
    }
}

/// A port is a leaf source.
fn is_leaf_source(streamlets: &[Streamlet], leaf: &LeafPort) -> bool
    ensures { Decides result (IsLeafSource (map plain_streamlet streamlets.now) leaf.now) }
{
    let Some(number) = streamlet_under(streamlets, leaf.top, leaf.instances.as_slice()) else {
        return false;
    };
    let Some(inward) = inward_of(streamlets, number, &leaf.port) else {
        return false;
    };
    let is_design = is_design(streamlets, number);
    if leaf.instances.is_empty() {
        inward & is_design
    } else {
        !inward & !is_design
    }
}

/// The streamlet under a top to which these names of instances lead down. None where they lead to none.
fn streamlet_under(streamlets: &[Streamlet], top: u32, instances: &[Name]) -> Option<u32>
    ensures { result ≡ spec.streamlet_under (map plain_streamlet streamlets.now) top instances.now }
{
    let mut number = top;
    'names: for name in instances {
        number = instance_of(streamlets, number, name)?;
    }
    Some(number)
}

/// The streamlet of the instance of a name in the implementation of a streamlet. None where there is no such instance.
fn instance_of(streamlets: &[Streamlet], number: u32, name: &Name) -> Option<u32>
    ensures { result ≡ instance_at (map plain_streamlet streamlets.now) number name.now }
{
    match instance_in(instances_in(streamlets, number), name) {
        None => None,
        Some(one) => Some(one.streamlet),
    }
}

/// The first instance of a name.
fn instance_in<'p>(instances: &'p [Instance], name: &Name) -> Option<&'p Instance>
    ensures { option_copied result ≡ instance_named instances.now name.now }
{
    instances.iter().find(|one| one.name == *name)
}

/// The instances in the implementation of a streamlet, if it has one of instances and links.
fn instances_in(streamlets: &[Streamlet], number: u32) -> &[Instance]
    ensures { result.now ≡ instances_at (map plain_streamlet streamlets.now) number }
{
    match streamlets.get(number as usize) {
        None => &[],
        Some(streamlet) => match &streamlet.body {
            None => &[],
            Some(Impl::Linked(_)) => &[],
            Some(Impl::Structural { instances, .. }) => instances.as_slice(),
        },
    }
}

/// The direction of the port of a name: whether it is an `in` port. None where there is no such port.
fn inward_of(streamlets: &[Streamlet], number: u32, name: &Name) -> Option<bool>
    ensures { result ≡ inward_at (map plain_streamlet streamlets.now) number name.now }
{
    match named_port(ports_in(streamlets, number), name) {
        None => None,
        Some(port) => Some(port.inward),
    }
}

/// The first port of a name.
fn named_port<'p>(ports: &'p [Port], name: &Name) -> Option<&'p Port>
    ensures { option_copied result ≡ port_in ports.now name.now }
{
    ports.iter().find(|port| port.name == *name)
}

/// The ports of a streamlet.
fn ports_in(streamlets: &[Streamlet], number: u32) -> &[Port]
    ensures { result.now ≡ ports_there (slice_get streamlets.now number) }
{
    match streamlets.get(number as usize) {
        None => &[],
        Some(streamlet) => streamlet.ports.as_slice(),
    }
}

/// A streamlet has instances and links.
fn is_design(streamlets: &[Streamlet], number: u32) -> bool
    ensures { result ≡ spec.is_design (map plain_streamlet streamlets.now) number }
{
    match streamlets.get(number as usize) {
        None => false,
        Some(streamlet) => match &streamlet.body {
            None => false,
            Some(Impl::Linked(_)) => false,
            Some(Impl::Structural { .. }) => true,
        },
    }
}
