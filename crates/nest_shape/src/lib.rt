//! Nested lists, and the items of a stream that stand for them. `flatten` makes items from lists, `build` lists from items, and a
//! `Builder` takes the items one at a time. `specs/Flat.antt` has flat forms, and `specs/Shape.antt` says which items are one. The crate
//! stands on `physical_stream`, whose definitions say which items are nested and whole. Each call is linear in the items and goes as
//! deep as the lists nest.
#![tactic(auto)]

mod builder;
mod building;
mod fault;
mod flattening;
mod laws;
mod nest;

pub use builder::{Builder, Unclosed};
pub use building::build;
pub use fault::NestFault;
pub use flattening::flatten;
pub use laws::{flat_forms_are_whole, items_nest_one_by_one, series_have_one_flat_form};
pub use nest::Nest;
