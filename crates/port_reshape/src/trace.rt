use reshape::ReshapeRun;
use scheduler::Planner;
use trace_pieces::TracePieces;

/// The trace at the far side of a port that is reshaped.
#[derive(Drop)]
pub struct ReshapedTrace {
    /// Its text, whose rows are made as they are asked for.
    pub pieces: TracePieces<ReshapeRun<Planner>>,
    /// The bytes of its text, or the greatest number of 64 bits where there are more.
    pub length: u64,
}
