ghost use Rattle.std.specs.Prelude.{◌≡◌};
ghost use Rattle.value_gen.specs.declared.fault.GenFault.TheVariants as faults;

use tydi_base::Memory;

/// Why no value is generated.
#[derive(Clone, Copy, Debug, PartialEq, Eq)]
pub enum GenFault {
    /// The value has over 1,000,000 leaves.
    TooManyLeaves,
    /// There was no memory for it.
    Memory,
}

impl From<Memory> for GenFault {
    ghost from_gives = { λ _ e. e ≡ faults.Memory };

    fn from(_error: Memory) -> GenFault {
        GenFault::Memory
    }
}
