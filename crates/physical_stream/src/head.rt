use crate::params::Params;
use std::alloc::Global;
use tydi_base::{List, Memory, Path, TryClone};

/// The head of a stream in a trace: its path, its parameters and its direction.
#[derive(Debug, PartialEq, Eq, Drop)]
pub struct Head {
    pub path: Path,
    pub params: Params,
    /// Whether its transfers go against the direction of the port.
    pub reversed: bool,
}

/// The header of a trace: its number of cycles, and the heads of its streams.
#[derive(Debug, PartialEq, Eq, Drop)]
pub struct Header {
    pub cycles: u32,
    pub heads: List<Head>,
}

impl TryClone for Head {
    fn try_clone(&self, alloc: Global) -> Result<Head, Memory> {
        Ok(Head {
            path: self.path.try_clone(alloc)?,
            params: self.params,
            reversed: self.reversed,
        })
    }
}

impl TryClone for Header {
    fn try_clone(&self, alloc: Global) -> Result<Header, Memory> {
        Ok(Header {
            cycles: self.cycles,
            heads: self.heads.try_clone(alloc)?,
        })
    }
}
