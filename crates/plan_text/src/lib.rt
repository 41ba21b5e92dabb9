//! Plans: when each stream of a port moves, and how its items become transfers (this project's own). `read` gives exactly the plan that a
//! text spells for the streams of a split, or the first fault with its place; `specs/Text.antt` defines it over the list of the lines.
//! `StreamPlan` is the plan of one stream, as `scheduler` and `handshake` follow it. The crate stands on `tydi_base`, `physical_stream`
//! and `type_split`.
#![tactic(auto)]

mod block;
mod draft;
mod fault;
mod filling;
mod laws;
mod lines;
mod plan;
mod reading;
mod streams;
mod words;

pub use fault::PlanFault;
pub use laws::plans_fit_their_streams;
pub use plan::{Plan, StreamPlan, Wish};
pub use reading::read;
