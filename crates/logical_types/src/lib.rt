//! Logical types: the form of the data that a stream carries. `check` finds the first error of a type, `width` the bits of an element,
//! and a `Summary`, made from those of a type's parts, shows that a type is valid without a look at its nodes. `specs/Tree.antt` has a
//! type as plain data, over which all definitions recur: `Width.antt`, `Size.antt`, `Faults.antt` and `Summary.antt`. The crate stands
//! on `tydi_base`. No call takes memory, and each goes as deep as types nest.
#![tactic(auto)]

mod checking;
mod counts;
mod dims;
mod fault;
mod ltype;
mod names;
mod rates;
mod shared;
mod streams;
mod summary;
mod widths;

pub use checking::check;
pub use counts::number_of_nodes;
pub use dims::Dims;
pub use fault::TypeFault;
pub use ltype::{LType, Part, StreamType, Sync};
pub use names::{Named, has_name_twice};
pub use rates::Rates;
pub use shared::Shared;
pub use streams::{Around, around_outermost, inside};
pub use summary::{
    PartsSummary, Summary, summaries_are_of_the_type, summary_of_bits, summary_of_no_parts,
    summary_of_null, summary_of_stream, valid_types_are_shown,
};
pub use widths::{saturated_width, union_width, width};
