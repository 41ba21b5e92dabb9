//! The values that a trace carries from one end of a chain of nets to the other. `specs/WithoutLevels.antt` says what a type is but for its
//! levels: compatible types are one type so. So the items done carry the same values by the types of both ends, and what arrives is decoded
//! as what was sent. The crate has laws alone. It stands on `link_check`, for traces that are carried, and on `trace_decode`, for the values
//! that a trace carries.
#![tactic(auto)]

mod laws;

pub use laws::{compatible_types_are_one, traces_arrive_whole};
