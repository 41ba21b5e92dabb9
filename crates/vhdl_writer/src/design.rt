ghost use Rattle.std.specs.Ordering.{nat_cmp};
ghost use Rattle.std.specs.BTreeMap.{get};
ghost use Rattle.til_resolve.specs.Ordered.{by_key};
ghost use Rattle.vhdl_writer.specs.Finding.{FindsNets, FindsPorts};

use crate::component::Component;
use crate::tables::{NetsOf, Ports};
use link_check::ImplNets;
use til_resolve::Streamlet;

/// Streamlets with their components and their nets, and tables that find ports by their names and nets by the numbers of streamlets.
#[derive(Drop)]
pub(crate) struct Design<'d> {
    pub(crate) streamlets: &'d [Streamlet],
    pub(crate) components: &'d [Component],
    pub(crate) impls: &'d [ImplNets],
    pub(crate) ports_by_name: Ports<'d>,
    pub(crate) nets_by_number: NetsOf<'d>,
    ghost ports: { FindsPorts (get by_key ports_by_name) components.now },
    ghost nets: { FindsNets (get nat_cmp nets_by_number) impls.now },
}
