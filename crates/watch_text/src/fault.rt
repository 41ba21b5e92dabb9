ghost use Rattle.std.specs.Prelude.{◌≡◌};
ghost use Rattle.watch_text.specs.declared.fault.WatchFault.TheVariants as faults;

use tydi_base::Memory;

/// Why a text was not read as a monitor.
#[derive(Clone, Copy, Debug, PartialEq, Eq)]
pub enum WatchFault {
    /// The first line that cannot stand there, by the offset of its first byte, counted from 0; or the end of a text that ends early.
    NotForm(usize),
    /// There was no memory.
    Memory,
}

impl From<Memory> for WatchFault {
    ghost from_gives = { λ _ e. e ≡ faults.Memory };

    fn from(_error: Memory) -> WatchFault {
        WatchFault::Memory
    }
}
