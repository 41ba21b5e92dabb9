//! Reshaped ports: a value and a plan drive the one stream of a port through a component that gives it other lanes and another level.
//! `specs/Reshapes.antt` says which text the trace at the far side has, and why there may be none. `reshape_port` gives this text and its
//! length before any row is written. `reshaped_ports_are_driven` says that the text is what the same value drives at a port that differs
//! only in the lanes and the level of its stream. The crate stands on `port_drive`, which makes items and measures rows, and on
//! `reshape`, which makes the cycles of the far side.
#![tactic(auto)]

mod far_items;
mod far_side;
mod laws;
mod reshaping;
mod starting;
mod trace;

pub use laws::{rates_leave_values, reshaped_ports_are_driven};
pub use reshaping::reshape_port;
pub use trace::ReshapedTrace;
