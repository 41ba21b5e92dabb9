//! Traces that are not carried.

ghost use Rattle.std.specs.Prelude.{◌≡◌};
ghost use Rattle.link_check.specs.declared.carry_fault.CarryFault.TheVariants as faults;

use tydi_base::Memory;

/// A trace cannot be carried to its other end. Streams are counted from 0.
#[derive(Debug, Drop)]
pub enum CarryFault {
    /// The level of this stream falls; it is the first.
    NotLevel(usize),

    /// There was no memory.
    Memory,
}

impl From<Memory> for CarryFault {
    ghost from_gives = { λ _ e. e ≡ faults.Memory };

    fn from(_error: Memory) -> CarryFault {
        CarryFault::Memory
    }
}
