use handshake::PortRun;
use scheduler::Planner;
use trace_pieces::TracePieces;

/// The trace of a port that is driven.
#[derive(Drop)]
pub struct PortTrace {
    /// Its text, whose rows are made as they are asked for.
    pub pieces: TracePieces<PortRun<Planner>>,
    /// The bytes of its text, or the greatest number of 64 bits where there are more.
    pub length: u64,
}
