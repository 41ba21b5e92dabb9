ghost use Rattle.std.specs.Prelude.{◌≡◌};
ghost use Rattle.port_gen.specs.declared.fault.JobFault.TheVariants as faults;

use tydi_base::Memory;

/// Why there is no job. Streams count from 0. The errors are looked for in this order.
#[derive(Clone, Copy, Debug, PartialEq, Eq)]
pub enum JobFault {
    /// The value has over 1,000,000 leaves.
    TooManyLeaves,
    /// The stream has no dimension and a level below 5, so each transfer has an element in every lane; and its lanes do not divide the
    /// elements of the value. It is the first such stream.
    CountNotMultiple {
        stream: usize,
        count: usize,
        lanes: u16,
    },
    /// A stream has over 1,000,000 transfers.
    TooManyCycles,
    /// There was no memory for it.
    Memory,
}

impl From<Memory> for JobFault {
    ghost from_gives = { λ _ e. e ≡ faults.Memory };

    fn from(_error: Memory) -> JobFault {
        JobFault::Memory
    }
}
