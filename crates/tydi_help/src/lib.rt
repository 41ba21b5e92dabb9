//! The texts of `tydi help`, `tydi help NAME` and `tydi version`: for each command its words, a sentence and a page. `Command` has the
//! commands by name, and `specs/Texts.antt` says what is written of them. The crate stands on `tydi_base`, whose `emit!` writes a text.
#![tactic(auto)]

mod command;
mod of_benches;
mod of_designs;
mod of_itself;
mod of_monitors;
mod of_traces;
mod of_values;
mod version;
mod writing;

pub use command::Command;
pub use version::{KIT, VERSION, version_text};
pub use writing::{help_text, page_text};
