ghost use Rattle.cycle_trace.specs.declared.surveying.counts.SurveyFault.TheVariants as faults;
ghost use Rattle.std.specs.Prelude.{◌≡◌};

use physical_stream::{End, Rule};
use tydi_base::{List, Memory};

/// The numbers of transfers and of packets that each stream of a trace has done.
#[derive(Debug, Drop)]
pub struct Counts {
    /// The transfers and the packets of each stream, in the order of the header.
    pub streams: List<(u64, u64)>,
}

/// Why a trace has no counts. Cycles and streams are numbered from 0.
#[derive(Clone, Copy, Debug, PartialEq, Eq)]
pub enum SurveyFault {
    /// The first offence: the least cycle, in it the least stream, and of that the lowest rule.
    Offence {
        cycle: u32,
        stream: usize,
        rule: Rule,
    },
    /// There is no offence, and this is the first stream that does not end whole.
    Unfinished {
        stream: usize,
        end: End,
    },
    /// There was no memory.
    Memory,
}

impl From<Memory> for SurveyFault {
    ghost from_gives = { λ _ e. e ≡ faults.Memory };

    fn from(_error: Memory) -> SurveyFault {
        SurveyFault::Memory
    }
}
