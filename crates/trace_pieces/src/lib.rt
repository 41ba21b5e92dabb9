//! The text of a trace, made row by row as it is written, so that no row is kept. `TracePieces` gives the text in pieces; `count_rows`
//! says how long it is before any of it is written. `rows_keep_their_laws` says that the rows of a port's runs are a trace, whose
//! streams have these runs. The crate stands on `handshake`, which makes the rows, and on `cycle_trace`, which writes one.
#![tactic(auto)]

mod counting;
mod filling;
mod laws;
mod pieces;
mod rowing;

pub use counting::count_rows;
pub use laws::rows_keep_their_laws;
pub use pieces::TracePieces;
