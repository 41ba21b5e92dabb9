//! Monitors: components in VHDL of a few fixed forms that watch the streams of a port, and raise a fault at the first item that is not the
//! expected one (this project's own). `specs/WellFormed.antt` says which monitors have a text, and `specs/Text.antt` is the text. `print_watch`
//! writes it, and `read_watch` reads it again: `specs/Reading.antt` says which texts are monitors, and which line makes a text none.
//! `WatchPieces` makes the text piece by piece, with its length known before. The crate stands on `vhdl_text` for what monitors share with
//! benches. What a monitor means is said in `monitor_bench`.
#![tactic(auto)]

mod begun;
mod conditions;
mod entity;
mod entry;
mod fault;
mod forms;
mod items;
mod laws;
mod line_parts;
mod marks;
mod nest;
mod opening;
mod pieces;
mod printing;
mod processes;
mod reading;
mod reading_laws;
mod shape;
mod shaping;
mod so_far;
mod stage;
mod statement_reading;
mod statements;
mod table_reading;
mod tables;
mod watch;

pub use fault::WatchFault;
pub use laws::tables_are_shorter_than_their_text;
pub use pieces::WatchPieces;
pub use printing::{print_watch, watch_length};
pub use reading::read_watch;
pub use reading_laws::monitors_are_read_as_printed;
pub use watch::{WStmt, Watch};
