ghost use Rattle.std.specs.Prelude.{◌≡◌};
ghost use Rattle.net_text.specs.declared.net.NetFault.TheVariants as faults;

use tydi_base::{List, Memory, Place};

/// The stages of the streams of a port, and the orders in which they act (this project's own). The components of a net are numbered from
/// 0: for each stream its source, and then its stages.
#[derive(Debug, Drop)]
pub struct NetPlan {
    /// For each stream, the capacities of its stages in transfers, from the source on: at most 16 stages, each of 1 to 64. A stage of
    /// capacity 1 is a register slice.
    pub stages: List<List<u16>>,
    /// For each of the first cycles, the order in which all components act. A cycle past them has the order 0, 1, 2 and so on.
    pub orders: List<List<u32>>,
}

/// Why a text spells no net. The first line that has a fault is told, and of several faults of that line the one that comes first here. The
/// place is that of the line's first byte.
#[derive(Clone, Copy, Debug, PartialEq, Eq)]
pub enum NetFault {
    /// The line does not have the form of a line that may stand there, or lacks its LF. An empty text has this fault at its end.
    Syntax(Place),
    /// No stream has the path of this `stages` line.
    UnknownStream(Place),
    /// A stream has a second `stages` line.
    StreamTwice(Place),
    /// A capacity is not 1 to 64.
    CapacityRange(Place),
    /// The stream has more than 16 stages.
    TooManyStages(Place),
    /// An `order` line does not have each component once, or has another number, or none.
    NotOrder(Place),
    /// There are more `order` lines than cycles.
    TooManyOrders(Place),
    /// There was no memory.
    Memory,
}

impl From<Memory> for NetFault {
    ghost from_gives = { λ _ e. e ≡ faults.Memory };

    fn from(_error: Memory) -> NetFault {
        NetFault::Memory
    }
}
