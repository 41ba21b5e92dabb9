//! The signals of a physical stream with their widths. `Signals::of` follows the table in `specs/Layout.antt`, which also has the value of
//! an absent signal. The crate stands on `physical_stream`, whose definitions say which signals are present.
#![tactic(auto)]

mod layout;
mod signal;

pub use layout::Signals;
pub use signal::{Signal, SignalDefault, default_of, defaults_stand};
