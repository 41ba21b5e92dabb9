//! The implementations of a project, in text order.

ghost use Rattle.std.specs.Prelude.{◌≡◌, ◌++◌, map, IfOk, OnOk, List};
ghost use Rattle.til_resolve.specs.PlainProject.{PlainStreamlet, plain_port, plain_streamlet};
ghost use Rattle.link_check.specs.Bodies.{bodies_lent, body_there};
ghost use Rattle.link_check.specs.Ends.{ports_at};
ghost use Rattle.link_check.specs.Order.{bodies_from, bodies_in_text};

use std::alloc::Global;
use til_resolve::{Impl, Instance, Link, Streamlet};
use tydi_base::{List, Memory, Place};

/// An implementation with instances and links. The place is that of the path after `of`.
#[derive(Clone, Copy)]
pub(crate) struct Body<'p> {
    /// The number of the streamlet that it implements.
    pub(crate) number: usize,
    pub(crate) place: Place,
    pub(crate) instances: &'p [Instance],
    pub(crate) links: &'p [Link],
}

/// The implementations of a project, in text order.
pub(crate) fn bodies_in_order<'p>(
    alloc: Global,
    streamlets: &'p [Streamlet],
) -> Result<List<Body<'p>>, Memory>
    ensures { IfOk result (λ bodies. bodies_lent (map plain_streamlet streamlets.now) bodies ≡ bodies_in_text (map plain_streamlet streamlets.now)) }
{
    let mut bodies = all_bodies(alloc, streamlets)?.into_vec();
    bodies.sort_unstable_by_key(|body| (body.place.offset, body.number));
    Ok(List::from_vec(bodies))
}

/// The implementations of a project, in the order of the streamlets.
fn all_bodies<'p>(alloc: Global, streamlets: &'p [Streamlet]) -> Result<List<Body<'p>>, Memory>
    ensures { IfOk result (λ bodies. bodies_lent (map plain_streamlet streamlets.now) bodies ≡ bodies_from 0 (map plain_streamlet streamlets.now)) }
{
    let mut bodies = List::new(alloc);
    'streamlets: for (number, streamlet) in streamlets.iter().enumerate() {
        add_body(&mut bodies, number, streamlet)?;
    }
    Ok(bodies)
}

/// The implementation of a streamlet, if it has one of instances and links.
fn add_body<'p>(
    bodies: &mut List<Body<'p>>,
    number: usize,
    streamlet: &'p Streamlet,
) -> Result<(), Memory>
    ensures { OnOk result ((all : List PlainStreamlet) → ports_at all number ≡ map plain_port streamlet.now.ports
        → bodies_lent all bodies.new ≡ bodies_lent all bodies.old ++ body_there number streamlet.now) }
{
    match &streamlet.body {
        None => Ok(()),
        Some(Impl::Linked(_)) => Ok(()),
        Some(
            Impl::Structural {
                place,
                instances,
                links,
            },
        ) => bodies.push(Body {
            number,
            place: *place,
            instances: instances.as_slice(),
            links: links.as_slice(),
        }),
    }
}
