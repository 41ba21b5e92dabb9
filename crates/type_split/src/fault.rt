ghost use Rattle.std.specs.Prelude.{◌≡◌};
ghost use Rattle.type_split.specs.declared.fault.SplitFault.TheVariants as faults;

use tydi_base::{Memory, Path};

/// Why a type is not split. The rule that two physical streams may not have one path is this project's own.
#[derive(Debug, Drop)]
pub enum SplitFault {
    /// Two physical streams have this path: it is that of the second of the first such two.
    NameClash(Path),
    /// There was no memory.
    Memory,
}

impl From<Memory> for SplitFault {
    ghost from_gives = { λ _ e. e ≡ faults.Memory };

    fn from(_error: Memory) -> SplitFault {
        SplitFault::Memory
    }
}
