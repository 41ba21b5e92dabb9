//! The text that `split` writes: the physical streams of a port, each with its root, its signals and the fields of its elements.
//! `specs/Text.antt` defines it, and `specs/Fields.antt` the fields of an element with their places. The crate stands on `logical_types`,
//! `type_split`, `signal_layout`, and `physical_stream`, whose head line begins each stream.
#![tactic(auto)]

mod fields;
mod fitting;
mod lines;
mod streams;

pub use fields::{Field, fields_fill_the_element, fields_of};
pub use fitting::split_fits;
pub use streams::split_text;
