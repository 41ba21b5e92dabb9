//! The check of all links.

ghost use Rattle.std.specs.Prelude.{◌≡◌, map};
ghost use Rattle.std.specs.BTreeMap.{get};
ghost use Rattle.til_resolve.specs.PlainProject.{plain_project, plain_streamlet};
ghost use Rattle.link_check.specs.Bodies.{bodies_lent, body_lent};
ghost use Rattle.link_check.specs.Checked.{IsChecked, fault_of_bodies, impl_of};
ghost use Rattle.link_check.specs.Linking.{Judges};
ghost use Rattle.link_check.specs.Links.{fault_of_body};
ghost use Rattle.link_check.specs.Order.{bodies_in_text};
ghost use Rattle.til_resolve.specs.NumberedTypes.{AreNumbered};
ghost use Rattle.til_resolve.specs.Ordered.{by_key};
ghost use Rattle.link_check.specs.Tables.{FindsPorts};

use crate::fault::LinkFault;
use crate::nets::{ImplNets, Nets};
use crate::order::{Body, bodies_in_order};
use crate::sizes::is_too_large;
use crate::tables::{Ports, instances_by_name, ports_by_name};
use crate::wiring::Wiring;
use std::alloc::Global;
use til_resolve::{Project, Streamlet};
use tydi_base::{List, Memory};

/// The nets of each implementation that has instances and links, or the first fault: implementations come in text order, in each the
/// links, and then its ends. The size of designs is looked at last. `Memory` also where there are 2^32 streamlets: no text has so many.
pub fn check(alloc: Global, project: &Project) -> Result<Nets, LinkFault>
    ensures { IsChecked (plain_project project.now).streamlets result }
{
    let streamlets = project.streamlets.as_slice();
    let impls = nets_in_order(alloc, streamlets)?;
    if is_too_large(alloc, streamlets)? {
        return Err(LinkFault::DesignTooLarge);
    }
    Ok(Nets { impls })
}

/// The nets of all implementations, or the first fault of one.
fn nets_in_order(alloc: Global, streamlets: &[Streamlet]) -> Result<List<ImplNets>, LinkFault>
    requires { ∥ AreNumbered streamlets.now ∥₁ }
    ensures { Judges (fault_of_bodies (map plain_streamlet streamlets.now) (bodies_in_text (map plain_streamlet streamlets.now)))
        (λ impls. impls ≡ map (impl_of (map plain_streamlet streamlets.now)) (bodies_in_text (map plain_streamlet streamlets.now))) result }
{
    let ports = ports_by_name(alloc, streamlets)?;
    let bodies = bodies_in_order(alloc, streamlets)?;
    all_nets(alloc, streamlets, &ports, bodies.as_slice())
}

/// The nets of these implementations, or the first fault of one.
fn all_nets<'p>(
    alloc: Global,
    streamlets: &'p [Streamlet],
    ports: &Ports<'p>,
    bodies: &[Body<'p>],
) -> Result<List<ImplNets>, LinkFault>
    requires found { FindsPorts (get by_key ports.now) streamlets.now }
    requires numbered { ∥ AreNumbered streamlets.now ∥₁ }
    ensures { Judges (fault_of_bodies (map plain_streamlet streamlets.now) (bodies_lent (map plain_streamlet streamlets.now) bodies.now))
        (λ impls. impls ≡ map (impl_of (map plain_streamlet streamlets.now)) (bodies_lent (map plain_streamlet streamlets.now) bodies.now)) result }
{
    let mut impls = List::new(alloc);
    'bodies: for body in bodies {
        impls.push(nets_of(alloc, streamlets, ports, body)?)?;
    }
    Ok(impls)
}

/// The nets of an implementation, or its first fault.
fn nets_of<'p>(
    alloc: Global,
    streamlets: &'p [Streamlet],
    ports: &Ports<'p>,
    body: &Body<'p>,
) -> Result<ImplNets, LinkFault>
    requires found { FindsPorts (get by_key ports.now) streamlets.now }
    requires numbered { ∥ AreNumbered streamlets.now ∥₁ }
    ensures { Judges (fault_of_body (map plain_streamlet streamlets.now) (body_lent (map plain_streamlet streamlets.now) body.now))
        (λ nets. nets ≡ impl_of (map plain_streamlet streamlets.now) (body_lent (map plain_streamlet streamlets.now) body.now)) result }
{
    let wiring = Wiring {
        streamlets,
        home: body.number,
        instances: body.instances,
        ports_by_name: ports,
        instances_by_name: instances_by_name(alloc, body.instances)?,
    };
    let nets = wiring.nets(alloc, body.links, body.place)?;
    let Ok(streamlet) = u32::try_from(body.number) else {
        return Err(LinkFault::Memory);
    };
    Ok(ImplNets { streamlet, nets })
}
