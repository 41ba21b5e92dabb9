//! The bench that drives transfers with gaps (this project's own). `specs/Driving.antt` has the statements of its processes. `bench` makes
//! it for the streams of a port, with the gaps of a plan where the streams may pause. `driving_runs` is the law of every stall and every
//! order: under any ready bits and orders it shows on each stream the run of its transfers. The crate stands on `type_split` and
//! `plan_text`, whose splits and plans it takes, on `vhdl_meaning`, which has the meaning of a bench, and on `handshake`, which has the run.
#![tactic(auto)]

mod bench_pieces;
mod filling;
mod laws;
mod making;
mod pieces;
mod process;
mod spot;
mod statements;
mod words;
mod writing;

pub use bench_pieces::{BenchPieces, BenchText};
pub use laws::{driving_is_well_formed, driving_runs, port_benches_keep_their_laws};
pub use making::bench;
pub use pieces::bench_text;
