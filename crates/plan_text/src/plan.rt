use tydi_base::{Bits, List};

/// A wish for one transfer (this project's own): which lanes it may use, and when it leaves ends of sequences to a later one.
#[derive(Clone, Copy, Debug, PartialEq, Eq)]
pub struct Wish {
    /// One bit for each lane, lane 0 lowest. It has no one at or above the lanes of the stream.
    pub mask: u128,
    /// The ends of sequences behind its elements go with a later transfer, where the level allows that.
    pub late: bool,
    /// At level 8 each lane carries the ends of sequences behind its own element.
    pub laned: bool,
}

/// How the items of one stream are sent (this project's own). Past the end of a list a gap is 0, a wish is all lanes with neither
/// flag, and a user word is zero.
#[derive(Debug, Drop)]
pub struct StreamPlan {
    /// The cycles of low valid before each transfer, where the rules on pauses allow any.
    pub gaps: List<u32>,
    /// The ready bit of each cycle.
    pub ready: List<bool>,
    /// The wish for each transfer.
    pub wishes: List<Wish>,
    /// The user word of each transfer, as wide as the stream's.
    pub users: List<Bits>,
}

/// The plan of a port (this project's own): how long it runs, and how each of its streams moves.
#[derive(Debug, Drop)]
pub struct Plan {
    /// How many cycles the run has, at most 1,000,000.
    pub cycles: u32,
    /// The plan of each stream, in the order of the split. It has a ready bit for each cycle.
    pub streams: List<StreamPlan>,
}
