ghost use Rattle.std.specs.Prelude.{◌≡◌};
ghost use Rattle.logical_value.specs.declared.fault.UnpackFault.TheVariants as faults;

use tydi_base::{Memory, Path};

/// Why a word stands for no value of a type.
#[derive(Debug, Drop)]
pub enum UnpackFault {
    /// The tag of the Union at this path is the first, of those that are read, that names no variant.
    BadTag(Path),
    /// There was no memory for the value.
    Memory,
}

impl From<Memory> for UnpackFault {
    ghost from_gives = { λ _ e. e ≡ faults.Memory };

    fn from(_error: Memory) -> UnpackFault {
        UnpackFault::Memory
    }
}
