//! The tokens of a text in the Tydi Intermediate Language. `lex` gives the tokens, each with its place, or the first error with its
//! place. `specs/Tokens.antt` says which tokens a text has, and `specs/Spelling.antt` which form each kind has. The crate stands on
//! `tydi_base`, and on `unicode_ident` for the characters of a word.
#![tactic(auto)]

mod fault;
mod laws;
mod lexing;
mod marks;
mod numbers;
mod piece;
mod pieces;
mod spans;
mod symbols;
mod token;
mod words;

pub use fault::LexFault;
pub use laws::{spelled_tokens_are_read, tokens_are_of_the_text, tokens_have_their_form};
pub use lexing::lex;
pub use spans::digits_at;
pub use token::{Token, TokenKind};
