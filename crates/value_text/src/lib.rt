//! Values of a port's type as texts. `read` gives the value that a text is, or the first fault with its place, and `print` writes the
//! canonical text of a value. `specs/Grammar.antt` says which texts have the form of a value, `Typed.antt` and `Port.antt` which value of
//! the type that was split such a text is, `Reading.antt` when which fault comes, and `Canonical.antt` the text of a value. The crate
//! stands on `tydi_reading`, `type_split` and `logical_value`.
#![tactic(auto)]

mod beginning;
mod block;
mod fault;
mod filling;
mod form;
mod inside;
mod items;
mod laws;
mod leaves;
mod lexing;
mod listed_words;
mod opening;
mod pending;
mod pieces;
mod port;
mod printing;
mod reading;
mod runs;
mod starting;
mod stepping;
mod steps;
mod stops;
mod syntax;
mod token;
mod tokens;
mod typed;
mod word;
mod words;

pub use fault::ValueFault;
pub use laws::{values_are_read_as_printed, values_that_are_read_fit};
pub use pieces::ValuePieces;
pub use printing::{print, text_length};
pub use reading::read;
