//! Links between ports of components. `check` gives the nets of each implementation that has instances and links, or the first fault: an
//! end that is not there, two ends of one side, types that are not compatible, an end in two links or in none, or too many instances.
//! `specs/Compatible.antt` says which types are compatible, as a relation on two types, `specs/Differences.antt` where two types first
//! differ, and `specs/Links.antt` which fault comes first. `Nets::sink_of` gives the leaf sink to which the nets lead from a leaf source;
//! `specs/Chains.antt` says which that is, and `laws.rt` that there is always one and only one. A `Carrier` hands the rows of a trace on
//! from one end of a chain to the other; `specs/Carry.antt` says which trace arrives. The crate stands on `til_resolve`, whose projects it
//! checks, on `type_split`, and on `cycle_trace` for traces.
#![tactic(auto)]

mod bodies;
mod carrier;
mod carry_fault;
mod carrying;
mod chain;
mod checking;
mod difference;
mod differences;
mod end_heads;
mod ends;
mod fault;
mod heads;
mod kept_text;
mod kinds;
mod laws;
mod leaf;
mod linked;
mod linking;
mod nets;
mod order;
mod same_types;
mod sizes;
mod tables;
mod text;
mod wiring;

pub use carrier::Carrier;
pub use carry_fault::CarryFault;
pub use carrying::carry;
pub use checking::check;
pub use difference::{Difference, Why};
pub use differences::first_difference;
pub use end_heads::{EndHeads, heads_between};
pub use fault::LinkFault;
pub use kept_text::KeptText;
pub use laws::{
    carried_traces_keep_their_laws, chains_end_in_one_sink, compatible_ports_carry,
    projects_have_one_answer, types_without_difference_are_compatible,
};
pub use leaf::LeafPort;
pub use nets::{ImplNets, Net, Nets};
pub use text::nets_text;
