//! Leaf ports: where a design meets what has no instances and links inside.

use std::alloc::Global;
use tydi_base::{List, Memory, Name, TryClone};

/// A port under a top, which is a streamlet of the project, counted from 0: a port of the top itself where no instance is named, else
/// a port of the instance that these names lead down to.
#[derive(Debug, Drop)]
pub struct LeafPort {
    pub top: u32,
    pub instances: List<Name>,
    pub port: Name,
}

impl TryClone for LeafPort {
    fn try_clone(&self, alloc: Global) -> Result<LeafPort, Memory> {
        Ok(LeafPort {
            top: self.top,
            instances: self.instances.try_clone(alloc)?,
            port: self.port.try_clone(alloc)?,
        })
    }
}
