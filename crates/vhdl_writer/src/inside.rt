ghost use Rattle.std.specs.BTreeMap.{get};
ghost use Rattle.til_resolve.specs.Ordered.{by_key, by_name};
ghost use Rattle.vhdl_writer.specs.Finding.{AreFound};

use crate::component::Component;
use crate::tables::{Instances, Ports};
use til_resolve::Instance;

/// The inside of an implementation, with tables that find its ports and instances by their names.
#[derive(Drop)]
pub(crate) struct Inside<'i, 'd> {
    pub(crate) components: &'d [Component],
    /// The number of the streamlet that it implements.
    pub(crate) home: usize,
    pub(crate) instances: &'d [Instance],
    pub(crate) ports_by_name: &'i Ports<'d>,
    pub(crate) instances_by_name: Instances<'d>,
    ghost found: { AreFound components.now instances.now (get by_key ports_by_name.now) (get by_name instances_by_name) },
}
