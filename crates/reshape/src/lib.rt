//! Reshaping: a stream goes through a component that gives it other lanes and another level. `specs/Reshaping.antt` says which cycles the
//! two sides have, as lists. A `Reshaper` is that component, cycle by cycle; a `ReshapeRun` gives the cycles of the far side, where a
//! `Cursor` of `handshake` runs the source. The crate stands on `handshake` and on `scheduler`, which says what a transfer takes of items.
#![tactic(auto)]

mod buffer;
mod buffering;
mod counting;
mod crossing;
mod entering;
mod extending;
mod filling;
mod front;
mod reshape_run;
mod reshaper;
mod reshaping;
mod run_feed;
mod running;
mod turn;

pub use counting::{far_count, is_multiple};
pub use reshape_run::ReshapeRun;
pub use reshaper::Reshaper;
