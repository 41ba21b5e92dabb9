//! Traces of benches: a bench under a run of ready bits and orders of its processes makes a trace, by the meaning of the bench.
//! `specs/Traces.antt` says which trace. `bench_trace` makes its text row by row, so that no row is kept. It says how long the text is before
//! any part is written. `traces_of_benches` is the law that this is a trace, in which each stream shows its signals after each edge. It also
//! says that the orders of the processes do not matter. The crate stands on `vhdl_meaning`, which has the meaning of a bench and simulates
//! it, and on `trace_pieces`, which writes the rows.
#![tactic(auto)]

mod bench_rows;
mod feeding;
mod laws;
mod tracing;
mod turn;
mod turning;

pub use bench_rows::BenchRows;
pub use laws::traces_of_benches;
pub use tracing::{BenchTrace, bench_trace};
