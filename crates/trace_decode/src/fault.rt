ghost use Rattle.std.specs.Prelude.{◌≡◌};
ghost use Rattle.trace_decode.specs.declared.fault.DecodeFault.TheVariants as faults;

use physical_stream::{End, Rule};
use tydi_base::{Memory, Path};

/// Why a trace has no value of a port's type. Cycles, streams and packets are numbered from 0. The errors are looked for in this order.
#[derive(Debug, Drop)]
pub enum DecodeFault {
    /// The heads of the trace are not those of the port's streams. This is the first place at which they differ; where one list is a
    /// front of the other, it is the length of the shorter one.
    OtherHeader(usize),
    /// The first offence by rules 1 to 11: the least cycle, in it the least stream, and of that the lowest rule.
    Offence {
        cycle: u32,
        stream: usize,
        rule: Rule,
    },
    /// There is no offence, and this is the first stream that does not end whole.
    Unfinished {
        stream: usize,
        end: End,
    },
    /// There is no offence, each stream ends whole, and no value has the items done: the node of this path is the first in preorder that
    /// disagrees with the node around it, and this packet of it is the first at which it does.
    Disagree(Path, u64),
    /// There was no memory.
    Memory,
}

impl From<Memory> for DecodeFault {
    ghost from_gives = { λ _ e. e ≡ faults.Memory };

    fn from(_error: Memory) -> DecodeFault {
        DecodeFault::Memory
    }
}
