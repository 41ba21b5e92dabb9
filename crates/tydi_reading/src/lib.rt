//! The steps that readers are made of, over things of any type: tokens, lines, words, bytes. `specs/` has each step as a reader on
//! lists and as a form, and `proofs/` has the facts of a rule, which each step has from its parts. The crate stands on `tydi_base`.
#![tactic(auto)]

mod arguments;
mod cursor;
mod fault;
mod lists;
mod pieces;
mod source;
mod things;

pub use arguments::{argument, named};
pub use cursor::Cursor;
pub use fault::Fault;
pub use lists::{followed, joined, listed, one_more, repeated, separated, steps};
pub use pieces::Pieces;
pub use source::Source;
pub use things::{beginning, leaf, mark, optional};
