ghost use Rattle.bench_run.specs.Places.{IsAt};

use vhdl_meaning::{Sim, SimRun};

/// The rows of a bench under a run, by cycle and then by stream. They take no memory.
#[derive(Drop)]
pub struct BenchRows {
    pub(crate) sim: Sim,
    pub(crate) run: SimRun,
    /// The ready bits of the cycle of the next row, kept for the streams before that of the row.
    pub(crate) kept: Vec<bool>,
    /// The cycle of the next row, from 0.
    pub(crate) number: usize,
    /// The stream of the next row, from 0. Where it is the number of streams, the edge that ends the cycle is still to come.
    pub(crate) stream: usize,
    ghost at: { IsAt sim run kept.items number stream },
}
