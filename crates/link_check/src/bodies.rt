//! The links of one implementation.

ghost use Rattle.std.specs.Prelude.{◌≡◌, List, [], map, slice_get};
ghost use Rattle.std.specs.List.{list_all};
ghost use Rattle.std.specs.BTreeSet.{contains};
ghost use Rattle.til_resolve.specs.declared.project.Link.{Link};
ghost use Rattle.link_check.specs.Ends.{ends_of};
ghost use Rattle.link_check.specs.Links as spec;
ghost use Rattle.link_check.specs.Linked.{AddsLink, Sees, instance_linked, by_end};
ghost use Rattle.link_check.specs.Linking.{Judges};
ghost use Rattle.link_check.specs.Tables.{ports_there};
ghost use Rattle.link_check.specs.Wirings.{inside_lent, streamlets_lent};

use crate::fault::LinkFault;
use crate::linked::LinkedEnds;
use crate::nets::Net;
use crate::wiring::Wiring;
use std::alloc::Global;
use til_resolve::{Link, Port};
use tydi_base::{List, Place};

/// Links without a fault: their nets, and the ends that stand in them.
#[derive(Drop)]
pub(crate) struct Linked<'p> {
    pub(crate) nets: List<Net>,
    pub(crate) ends: LinkedEnds<'p>,
}

impl<'p> Wiring<'_, 'p> {
    /// The nets of an implementation with these links, whose path after `of` stands at this place, or its first fault.
    pub(crate) fn nets(
        &self,
        alloc: Global,
        links: &'p [Link],
        place: Place,
    ) -> Result<List<Net>, LinkFault>
        ensures { Judges (spec.fault_of_body (streamlets_lent self.now) (record { streamlet = self.now.home; place = place; inside = inside_lent self.now; links = links.now }))
            (λ nets. nets ≡ map (spec.net_of (streamlets_lent self.now) (inside_lent self.now)) links.now) result }
    {
        let linked = self.link_all(alloc, links)?;
        if !self.all_linked(&linked.ends) {
            return Err(LinkFault::Unlinked(place));
        }
        Ok(linked.nets)
    }

    /// All links, or the first fault of one.
    fn link_all(&self, alloc: Global, links: &'p [Link]) -> Result<Linked<'p>, LinkFault>
        ensures { Judges (spec.fault_of_links (streamlets_lent self.now) (inside_lent self.now) [] links.now)
            (λ linked. (linked.nets ≡ map (spec.net_of (streamlets_lent self.now) (inside_lent self.now)) links.now) × Sees (contains by_end linked.ends.names) links.now) result }
    {
        let mut linked = Linked {
            nets: List::new(alloc),
            ends: LinkedEnds::new(alloc),
        };
        'links: for link in links {
            self.link_one(alloc, &mut linked, link)?;
        }
        Ok(linked)
    }

    /// One link more, or its first fault.
    fn link_one(
        &self,
        alloc: Global,
        linked: &mut Linked<'p>,
        link: &'p Link,
    ) -> Result<(), LinkFault>
        ensures { (earlier : List Link) → Sees (contains by_end linked.old.ends.names) earlier
            → Judges (spec.fault_of_link (streamlets_lent self.now) (inside_lent self.now) earlier link.now)
            (λ _. AddsLink (streamlets_lent self.now) (inside_lent self.now) earlier link.now linked.old.nets linked.new.nets (contains by_end linked.new.ends.names)) result }
    {
        let is_linked = linked.ends.has(&link.first) | linked.ends.has(&link.second);
        let net = self.net(alloc, link, is_linked)?;
        linked.nets.push(net)?;
        linked.ends.add(&link.first)?;
        linked.ends.add(&link.second)?;
        Ok(())
    }

    /// Whether each end is one of these.
    fn all_linked(&self, ends: &LinkedEnds<'p>) -> bool
        ensures { (links : List Link) → Sees (contains by_end ends.now.names) links
            → result ≡ list_all (spec.is_linked links) (ends_of (streamlets_lent self.now) (inside_lent self.now)) }
    {
        ends.have_all(None, self.ports_at(self.home)) && self.instances_linked(ends)
    }

    /// Whether each end of an instance is one of these.
    fn instances_linked(&self, ends: &LinkedEnds<'p>) -> bool
        ensures { (links : List Link) → Sees (contains by_end ends.now.names) links
            → result ≡ list_all (instance_linked (streamlets_lent self.now) links) self.now.instances.now }
    {
        'instances: for one in self.instances {
            if !ends.have_all(Some(&one.name), self.ports_at(one.streamlet as usize)) {
                return false;
            }
        }
        true
    }

    /// The ports of the streamlet of a number.
    fn ports_at(&self, home: usize) -> &'p [Port]
        ensures { result.now ≡ ports_there (slice_get self.now.streamlets.now home) }
    {
        match self.streamlets.get(home) {
            Some(streamlet) => streamlet.ports.as_slice(),
            None => &[],
        }
    }
}
