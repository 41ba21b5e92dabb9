ghost use Rattle.std.specs.Prelude.{◌≡◌};
ghost use Rattle.vhdl_writer.specs.declared.fault.ArchFault.TheVariants as faults;

use tydi_base::{Memory, Path};

/// Why a project has no architectures.
#[derive(Debug, Drop)]
pub enum ArchFault {
    /// Two physical streams of a port have this path: it is that of the first such port, and of the second of its first such two streams.
    NameClash(Path),
    /// There was no memory.
    Memory,
}

impl From<Memory> for ArchFault {
    ghost from_gives = { λ _ e. e ≡ faults.Memory };

    fn from(_error: Memory) -> ArchFault {
        ArchFault::Memory
    }
}
