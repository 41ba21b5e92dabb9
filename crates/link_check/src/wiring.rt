ghost use Rattle.std.specs.BTreeMap.{get};
ghost use Rattle.til_resolve.specs.NumberedTypes.{AreNumbered};
ghost use Rattle.til_resolve.specs.Ordered.{by_key, by_name};
ghost use Rattle.link_check.specs.Tables.{IsWired};

use crate::tables::{Instances, Ports};
use til_resolve::{Instance, Streamlet};

/// The inside of an implementation, with tables that find its ports and instances by their names.
#[derive(Drop)]
pub(crate) struct Wiring<'w, 'p> {
    pub(crate) streamlets: &'p [Streamlet],
    /// The number of the streamlet that it implements.
    pub(crate) home: usize,
    pub(crate) instances: &'p [Instance],
    pub(crate) ports_by_name: &'w Ports<'p>,
    pub(crate) instances_by_name: Instances<'p>,
    ghost found: { IsWired streamlets.now instances.now (get by_key ports_by_name.now) (get by_name instances_by_name) },
    ghost numbered: { ∥ AreNumbered streamlets.now ∥₁ },
}
