ghost use Rattle.std.specs.Prelude.{◌≡◌};
ghost use Rattle.plan_text.specs.declared.fault.PlanFault.TheVariants as faults;

use tydi_base::{Memory, Place};

/// Why a text spells no plan. The first line at which a fault stands is told, and of several faults of that line the one that comes
/// first here. The place is that of the line's first byte.
#[derive(Clone, Copy, Debug, PartialEq, Eq)]
pub enum PlanFault {
    /// The line does not have the form of a line that may stand there. Where the text ends before its second line, the place is
    /// that of its end.
    Syntax(Place),
    /// No stream has the path of this `stream` line.
    UnknownStream(Place),
    /// A stream has a second `stream` line.
    StreamTwice(Place),
    /// The ready word does not have one bit for each cycle.
    ReadyLength(Place),
    /// The mask of a wish has a one at or above the lanes of the stream.
    MaskTooWide(Place),
    /// A user word has a one at or above the user width of the stream.
    UserTooWide(Place),
    /// There are more than 1,000,000 cycles.
    TooManyCycles(Place),
    /// There was no memory.
    Memory,
}

impl From<Memory> for PlanFault {
    ghost from_gives = { λ _ e. e ≡ faults.Memory };

    fn from(_error: Memory) -> PlanFault {
        PlanFault::Memory
    }
}
