//! The bench of a port that is driven (this project's own): a value and a plan make the runs of `port_drive`, and their transfers and
//! gaps the driving bench of `testbench`. `port_bench` gives its text, and its length before any of it is written, exactly where the
//! runs drive the port: `specs/Benches.antt` says which text. `benches_show_their_runs` is the law of bytes: under the cycles and ready
//! bits of the plan, and under any orders of the processes, the trace of the bench has the text that `port_drive` gives.
#![tactic(auto)]

mod finishing;
mod laws;
mod making;

pub use laws::benches_show_their_runs;
pub use making::port_bench;
