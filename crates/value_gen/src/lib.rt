//! Values of a port's type that are made from two numbers, a seed and a count. `generate` makes one, of at most 1,000,000 leaves.
//! `specs/Draws.antt` says which draws follow a seed, `specs/Made.antt` which value they make, and `specs/Leaves.antt` which leaves it has. The
//! crate stands on `type_split` and `logical_value`, and on `value_text` for the leaves of a text.
#![tactic(auto)]

mod drawing;
mod fault;
mod generating;
mod making;

pub use fault::GenFault;
pub use generating::generate;
