//! The ends that stand in links.

ghost use Rattle.std.specs.Prelude.{◌≡◌, ◌||◌, OnOk, List, []};
ghost use Rattle.std.specs.List.{list_all};
ghost use Rattle.std.specs.BTreeSet.{contains};
ghost use Rattle.til_resolve.specs.declared.project.Link.{Link};
ghost use Rattle.til_resolve.specs.declared.project.Port.{Port};
ghost use Rattle.link_check.specs.Ends.{is_same_end};
ghost use Rattle.link_check.specs.Links.{is_linked};
ghost use Rattle.link_check.specs.Linked.{EndKey, Sees, end_named, end_of_key, by_end};

use std::alloc::Global;
use std::collections::BTreeSet;
use til_resolve::{LinkEnd, OrderedName, Port, note};
use tydi_base::{Memory, Name};

/// An end, by the name of its instance, if it has one, and the name of its port.
type EndKey<'p> = (Option<OrderedName<'p>>, OrderedName<'p>);

/// Ends by their names.
#[derive(Drop)]
pub(crate) struct LinkedEnds<'p> {
    pub(crate) names: BTreeSet<EndKey<'p>>,
}

impl<'p> LinkedEnds<'p> {
    /// No end.
    pub(crate) fn new(alloc: Global) -> LinkedEnds<'p>
        ensures { Sees (contains by_end result.names) [] }
    {
        LinkedEnds {
            names: BTreeSet::new(alloc),
        }
    }

    /// Whether this end is among them.
    pub(crate) fn has(&self, end: &'p LinkEnd) -> bool
        ensures { (links : List Link) → Sees (contains by_end self.now.names) links → result ≡ is_linked links end.now }
    {
        self.has_named(end.instance.as_ref(), &end.port)
    }

    /// Whether the end of these names is among them.
    fn has_named(&self, instance: Option<&'p Name>, port: &'p Name) -> bool
        ensures { (links : List Link) → Sees (contains by_end self.now.names) links → result ≡ is_linked links (end_named instance.entry port.now) }
    {
        self.names.contains(&key_of(instance, port))
    }

    /// Whether these ports, all of one instance or all own ports, are among them.
    pub(crate) fn have_all(&self, instance: Option<&'p Name>, ports: &'p [Port]) -> bool
        ensures { (links : List Link) → Sees (contains by_end self.now.names) links
            → result ≡ list_all (λ (port : Port). is_linked links (end_named instance.entry port.name)) ports.now }
    {
        'ports: for port in ports {
            if !self.has_named(instance, &port.name) {
                return false;
            }
        }
        true
    }

    /// Adds an end.
    pub(crate) fn add(&mut self, end: &'p LinkEnd) -> Result<(), Memory>
        ensures { OnOk result ((key : EndKey) → contains by_end self.new.names key ≡ (contains by_end self.old.names key || is_same_end end.now (end_of_key key))) }
    {
        note(&mut self.names, key_of(end.instance.as_ref(), &end.port))?;
        Ok(())
    }
}

/// The key of the end of these names.
fn key_of<'p>(instance: Option<&'p Name>, port: &'p Name) -> EndKey<'p>
    ensures { end_of_key result ≡ end_named instance.entry port.now }
{
    let instance = match instance {
        None => None,
        Some(name) => Some(OrderedName::new(name)),
    };
    (instance, OrderedName::new(port))
}
