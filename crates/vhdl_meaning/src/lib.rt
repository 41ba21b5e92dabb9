//! The meaning of a bench, cycle by cycle, after the delta cycles of IEEE 1076. `specs/Meaning.antt` says which rows a bench shows under
//! ready bits and orders of its processes. `benches_are_confluent` is the law that the orders do not matter. `Sim` gives the rows one after
//! another, and `read_run` reads ready bits and orders from a text, by `specs/RunText.antt`. The crate stands on `vhdl_text`, which has the
//! type of benches.
#![tactic(auto)]

mod draft;
mod laws;
mod lines;
mod ordering;
mod process;
mod run;
mod run_filling;
mod run_lines;
mod run_reading;
mod running;
mod sim;
mod simulating;
mod starting;
mod turn;

pub use laws::{benches_are_confluent, meaning_goes_on, orders_are_told, rows_are_shown, runs_fit};
pub use run::{RunFault, SimRun};
pub use run_reading::read_run;
pub use sim::Sim;
