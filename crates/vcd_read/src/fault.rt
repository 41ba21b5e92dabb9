ghost use Rattle.std.specs.Prelude.{◌≡◌};
ghost use Rattle.vcd_read.specs.declared.fault.VcdFault.TheVariants as faults;

use signal_layout::Signal;
use tydi_base::Memory;

/// Why a dump is refused. Places are in bytes from the start; cycles and streams are numbered from 0.
#[derive(Clone, Copy, Debug, PartialEq, Eq)]
pub enum VcdFault {
    /// The token at this place is the first one against the profile; or the text ends early, at this place.
    Syntax(u64),
    /// The time stamp at this place is the first one below the one before it.
    TimeBack(u64),
    /// No signal of the scope has the name `clk` and width 1.
    NoClock,
    /// The scope has no signal of the name of this signal of this stream.
    NoSignal(usize, Signal),
    /// The first signal of the scope with the name of this signal of this stream has another width.
    OtherWidth(usize, Signal),
    /// The clock rises more than 1,000,000 times.
    TooManyCycles,
    /// In this cycle, valid or ready of this stream is neither 0 nor 1; or its valid is 1 and a bit of its payload is neither.
    NotBit(u32, usize),
    /// Memory was needed and there was none.
    Memory,
}

impl From<Memory> for VcdFault {
    ghost from_gives = { λ _ e. e ≡ faults.Memory };

    fn from(_error: Memory) -> VcdFault {
        VcdFault::Memory
    }
}
