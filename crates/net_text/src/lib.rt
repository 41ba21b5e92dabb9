//! Nets: the register slices and queues through which the streams of a port go, and the orders in which they act (this project's own).
//! `read_net` gives exactly the net that a text spells for the streams of a split, or the first fault with its place; `specs/Text.antt`
//! defines it over the list of the lines. `nets_fit` is the law of what holds of each net that is read. The crate stands on `tydi_base`,
//! `type_split`, and `plan_text`, whose way to find streams by their paths it shares.
#![tactic(auto)]

mod capacities;
mod draft;
mod laws;
mod lines;
mod net;
mod ordering;
mod reading;
mod streams;

pub use laws::nets_fit;
pub use net::{NetFault, NetPlan};
pub use reading::read_net;
