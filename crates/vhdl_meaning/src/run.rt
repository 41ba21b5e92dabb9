ghost use Rattle.std.specs.Prelude.{◌≡◌};
ghost use Rattle.vhdl_meaning.specs.declared.run.RunFault.TheVariants as faults;

use tydi_base::{List, Memory, Place};

/// The inputs of a bench for some cycles.
#[derive(Debug, Drop)]
pub struct SimRun {
    pub cycles: u32,
    /// For each stream, its ready bit in each cycle.
    pub ready: List<List<bool>>,
    /// For each cycle, the order of the processes at the edge that ends it.
    pub orders: List<List<u32>>,
}

/// Why a text spells no run. The first line that has an error is reported, and for several errors of that line the one that comes first
/// here. The place is that of the line's first byte.
#[derive(Clone, Copy, Debug, PartialEq, Eq)]
pub enum RunFault {
    /// The line does not have the form of a line that may stand there. Where the text ends before its second line, the place is that of
    /// its end.
    Syntax(Place),
    /// No stream has the path of this `ready` line.
    UnknownStream(Place),
    /// A stream has a second `ready` line.
    StreamTwice(Place),
    /// The ready word does not have one bit for each cycle.
    ReadyLength(Place),
    /// An `order` line does not have each process once, or has another number.
    NotOrder(Place),
    /// There are more than 1,000,000 cycles.
    TooManyCycles(Place),
    /// There are more `order` lines than cycles.
    TooManyOrders(Place),
    /// There was no memory.
    Memory,
}

impl From<Memory> for RunFault {
    ghost from_gives = { λ _ e. e ≡ faults.Memory };

    fn from(_error: Memory) -> RunFault {
        RunFault::Memory
    }
}
