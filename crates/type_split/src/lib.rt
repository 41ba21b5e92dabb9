//! From a port's type to its physical streams. `split_type` makes its Streams into nodes, each with the physical stream that it has, and
//! finds the roots, or the path on which two physical streams clash. `node_ends` says where the nodes inside a node end, and `uncarried`
//! which node is not carried. `specs/Streams.antt` defines them by recursion on the type, and `specs/Standing.antt` says how nodes stand
//! by their numbers. The crate stands on `logical_types` and `physical_stream`.
#![tactic(auto)]

mod carried;
mod counts;
mod ends;
mod fault;
mod found;
mod laws;
mod place;
mod split;
mod splitting;
mod streams;
mod whole;

pub use carried::uncarried;
pub use counts::number_of_streams;
pub use ends::node_ends;
pub use fault::SplitFault;
pub use laws::{
    carried_nodes_are_told, nodes_have_dims, nodes_have_elements, nodes_stand_as_their_types,
    roots_stand_in_order,
};
pub use split::{Node, Phys, Split};
pub use whole::split_type;
