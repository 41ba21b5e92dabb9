//! The tree of a project in the Tydi Intermediate Language, and its canonical text. `parse` makes the tree of a text's tokens, and
//! `print` the canonical text of a tree. `specs/Grammar.antt` says which tokens spell which tree, by recursion on the tree,
//! `specs/Faults.antt` which error tokens have, and `specs/Canonical.antt` the canonical text. The crate stands on `tydi_base`, on
//! `til_lexer` for tokens, and on `tydi_reading` for the steps of reading.
#![tactic(auto)]

mod arguments;
mod compared;
mod declarations;
mod fault;
mod keyword;
mod laws;
mod leaves;
mod lists;
mod ltype;
mod parser;
mod parsing;
mod printing;
mod refusal;
mod tree;
mod types;
mod written;

pub use fault::ParseFault;
pub use laws::{
    places_are_left_out, trees_are_apart, trees_are_read_as_printed, trees_have_their_form,
    trees_have_their_places, trees_or_faults,
};
pub use ltype::{AstPart, AstStream, AstSync, AstType};
pub use parsing::parse;
pub use printing::print;
pub use tree::{
    Ast, AstBody, AstDecl, AstEnd, AstKind, AstName, AstNamespace, AstPath, AstPort, AstPorts,
    AstStmt,
};
