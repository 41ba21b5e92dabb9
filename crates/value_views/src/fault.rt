//! Why views are not those of a value.

ghost use Rattle.std.specs.Prelude.{◌≡◌};
ghost use Rattle.value_views.specs.declared.fault.JoinFault.TheVariants as faults;

use tydi_base::{Memory, Path};

/// Why views are not joined to a value.
#[derive(Debug, Drop)]
pub enum JoinFault {
    /// The node of this path is the first in preorder that disagrees with the node around it, and this packet of it is the first at which it
    /// does, counted from 0.
    Disagree(Path, u64),
    /// There was no memory for the value.
    Memory,
}

impl From<Memory> for JoinFault {
    ghost from_gives = { λ _ e. e ≡ faults.Memory };

    fn from(_error: Memory) -> JoinFault {
        JoinFault::Memory
    }
}
