ghost use Rattle.std.specs.Prelude.{◌≡◌};
ghost use Rattle.scheduler.specs.declared.fault.ScheduleFault.TheVariants as faults;

use tydi_base::Memory;

/// Why items have no schedule.
#[derive(Clone, Copy, Debug, PartialEq, Eq)]
pub enum ScheduleFault {
    /// The stream has no dimension and a level below 5, so each transfer has an element in every lane. Its lanes, the second number,
    /// do not divide the elements, the first.
    CountNotMultiple(usize, u16),
    /// There was no memory for it.
    Memory,
}

impl From<Memory> for ScheduleFault {
    ghost from_gives = { λ _ e. e ≡ faults.Memory };

    fn from(_error: Memory) -> ScheduleFault {
        ScheduleFault::Memory
    }
}
