//! Driven ports: a value and a plan make a run of transfers for each physical stream of a port. `specs/Drives.antt` says which runs, and
//! why there may be none. `port_trace` gives the text of their trace and its length before any row is written, as `specs/Text.antt` says it:
//! `port_run` makes the runs, and `measured` says whether they finish and how long their rows are. `driven_ports_are_legal` says that the
//! rows are then a trace that breaks no rule, ends whole on each stream and carries the value, and `driven_texts_are_traces` that the text
//! is read as this trace alone. The crate stands on `value_views`, which says what a stream carries, on `scheduler` and `handshake`, which
//! make its run, and on `trace_pieces`, which writes the rows.
#![tactic(auto)]

mod driving;
mod fault;
mod heads;
mod laws;
mod measuring;
mod running;
mod starting;
mod trace;

pub use driving::port_trace;
pub use fault::DriveFault;
pub use heads::{heads_of, heads_stand_together};
pub use laws::{driven_ports_are_legal, driven_texts_are_traces, finished_runs_drive};
pub use measuring::measured;
pub use running::port_run;
pub use trace::PortTrace;
