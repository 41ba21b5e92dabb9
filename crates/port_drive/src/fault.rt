ghost use Rattle.std.specs.Prelude.{◌≡◌};
ghost use Rattle.port_drive.specs.declared.fault.DriveFault.TheVariants as faults;

use tydi_base::Memory;

/// Why a port is not driven. Streams count from 0.
#[derive(Clone, Copy, Debug, PartialEq, Eq)]
pub enum DriveFault {
    /// The stream has no dimension and a level below 5, so each transfer has an element in every lane; and its lanes do not divide the
    /// elements of the value. It is the first such stream.
    CountNotMultiple {
        stream: usize,
        count: usize,
        lanes: u16,
    },
    /// This many transfers of the stream are not done when the cycles of the plan are over. It is the first such stream.
    NotFinished {
        stream: usize,
        left: usize,
    },
    /// There was no memory for it.
    Memory,
}

impl From<Memory> for DriveFault {
    ghost from_gives = { λ _ e. e ≡ faults.Memory };

    fn from(_error: Memory) -> DriveFault {
        DriveFault::Memory
    }
}
