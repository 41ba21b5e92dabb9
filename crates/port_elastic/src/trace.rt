use elastic_net::ElasticRun;
use scheduler::Planner;
use trace_pieces::TracePieces;

/// The trace of a port that is driven through stages.
#[derive(Drop)]
pub struct ElasticTrace {
    /// Its text, whose rows are made as they are asked for.
    pub pieces: TracePieces<ElasticRun<Planner>>,
    /// The bytes of its text, or the greatest number of 64 bits where there are more.
    pub length: u64,
}
