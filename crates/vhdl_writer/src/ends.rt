//! The physical streams at the ends inside an implementation.

ghost use Rattle.std.specs.Prelude.{◌≡◌};
ghost use Rattle.std.specs.Option.{option_copied};
ghost use Rattle.std.specs.BTreeMap.{get};
ghost use Rattle.link_check.specs.Ends.{instance_named};
ghost use Rattle.vhdl_writer.specs.Architecture as spec;
ghost use Rattle.vhdl_writer.specs.Finding.{port_named};

use crate::component::{PortStream, SplitPort};
use crate::inside::Inside;
use til_resolve::{Instance, LinkEnd, OrderedName};
use tydi_base::Name;

impl<'d> Inside<'_, 'd> {
    /// The streams at an end; none where there is no such end.
    pub(crate) fn streams_at(&self, end: &'d LinkEnd) -> &'d [PortStream]
        ensures { result.now ≡ spec.streams_at self.now.components.now self.now.home self.now.instances.now end.now }
    {
        match &end.instance {
            None => self.streams_named(self.home, &end.port),
            Some(instance) => self.streams_inside(self.instance(instance), &end.port),
        }
    }

    /// The streams of a port of an instance; none where there is no such instance.
    fn streams_inside(&self, instance: Option<&'d Instance>, name: &'d Name) -> &'d [PortStream]
        ensures { result.now ≡ spec.streams_inside self.now.components.now (option_copied instance.entry) name.now }
    {
        match instance {
            None => &[],
            Some(one) => self.streams_named(one.streamlet as usize, name),
        }
    }

    /// The instance of a name.
    fn instance(&self, name: &'d Name) -> Option<&'d Instance>
        ensures { option_copied result ≡ instance_named self.now.instances.now name.now }
    {
        self.instances_by_name.get(&OrderedName::new(name)).copied()
    }

    /// The streams of the port of a name in the component of a number; none where there is no such port.
    fn streams_named(&self, home: usize, name: &'d Name) -> &'d [PortStream]
        ensures { result.now ≡ spec.streams_named (spec.ports_at self.now.components.now home) name.now }
    {
        match self.port(home, name) {
            None => &[],
            Some(port) => port.streams.as_slice(),
        }
    }

    /// The port of a name in the component of a number.
    fn port(&self, home: usize, name: &'d Name) -> Option<&'d SplitPort>
        ensures { option_copied result ≡ port_named (spec.ports_at self.now.components.now home) name.now }
    {
        self.ports_by_name
            .get(&(home, OrderedName::new(name)))
            .copied()
    }
}
