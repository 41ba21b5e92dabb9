//! The ends inside an implementation, by their names.

ghost use Rattle.std.specs.Prelude.{◌≡◌, option_map, slice_get, Some, IfSome};
ghost use Rattle.logical_types.specs.Tree.{plain_of_stream};
ghost use Rattle.link_check.specs.Ends as spec;
ghost use Rattle.link_check.specs.Tables.{lent_instance, lent_port, port_in, ports_there};
ghost use Rattle.link_check.specs.Wirings.{HasTypeIn, IsTypedIn, side_lent, inside_lent, streamlets_lent};

use crate::wiring::Wiring;
use logical_types::StreamType;
use til_resolve::{Instance, LinkEnd, OrderedName, Port};
use tydi_base::Name;

/// An end: whether it gives data to a link, the type of its port, and the number of the declaration that the port names, if it names one.
#[derive(Clone, Copy)]
pub(crate) struct Side<'p> {
    pub(crate) is_source: bool,
    pub(crate) ltype: &'p StreamType,
    pub(crate) declared: Option<usize>,
}

impl<'p> Wiring<'_, 'p> {
    /// The side of an end. None exactly where there is no such end.
    pub(crate) fn side_of(&self, end: &'p LinkEnd) -> Option<Side<'p>>
        ensures value { option_map side_lent result ≡ spec.side_of (streamlets_lent self.now) (inside_lent self.now) end.now }
        ensures typed { IfSome result (IsTypedIn self.now.streamlets.now) }
    {
        match &end.instance {
            None => self.own_side(&end.port),
            Some(instance) => self.instance_side(instance, &end.port),
        }
    }

    /// The side of an own port: an `in` port gives data to what is inside.
    fn own_side(&self, name: &'p Name) -> Option<Side<'p>>
        ensures value { option_map side_lent result ≡ option_map spec.own_side (spec.port_named (inside_lent self.now).own name.now) }
        ensures typed { IfSome result (IsTypedIn self.now.streamlets.now) }
    {
        match self.port(self.home, name) {
            None => None,
            Some(port) => Some(side_with(port.inward, port)),
        }
    }

    /// The side of a port of an instance: an `out` port gives data.
    fn instance_side(&self, instance: &'p Name, name: &'p Name) -> Option<Side<'p>>
        ensures value { option_map side_lent result ≡ spec.side_named (streamlets_lent self.now) (inside_lent self.now) (Some instance.now) name.now }
        ensures typed { IfSome result (IsTypedIn self.now.streamlets.now) }
    {
        match self.instance(instance) {
            None => None,
            Some(one) => self.side_in(one, name),
        }
    }

    /// The side of a port of this instance.
    fn side_in(&self, one: &'p Instance, name: &'p Name) -> Option<Side<'p>>
        ensures value { option_map side_lent result ≡ option_map spec.instance_side (spec.port_named (spec.ports_at (streamlets_lent self.now) one.now.streamlet) name.now) }
        ensures typed { IfSome result (IsTypedIn self.now.streamlets.now) }
    {
        match self.port(one.streamlet as usize, name) {
            None => None,
            Some(port) => Some(side_with(!port.inward, port)),
        }
    }

    /// The instance of a name.
    fn instance(&self, name: &'p Name) -> Option<&'p Instance>
        ensures { lent_instance result ≡ spec.instance_named self.now.instances.now name.now }
    {
        self.instances_by_name.get(&OrderedName::new(name)).copied()
    }

    /// The port of a name in the streamlet of a number.
    fn port(&self, home: usize, name: &'p Name) -> Option<&'p Port>
        ensures value { lent_port result ≡ port_in (ports_there (slice_get self.now.streamlets.now home)) name.now }
        ensures typed { IfSome result (λ port. HasTypeIn self.now.streamlets.now port.now) }
    {
        self.ports_by_name
            .get(&(home, OrderedName::new(name)))
            .copied()
    }
}

/// The side of a port that is a source end or not.
fn side_with<'p>(is_source: bool, port: &'p Port) -> Side<'p>
    ensures value { side_lent result ≡ record { is_source = is_source; ltype = plain_of_stream port.now.ltype.value } }
    ensures declared { result.declared ≡ port.now.declared }
{
    Side {
        is_source,
        ltype: &port.ltype,
        declared: port.declared,
    }
}
