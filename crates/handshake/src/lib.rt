//! Transfers in cycles. A `Cursor` shows the transfers of a `TransferFeed` cycle by cycle, under pauses and by the ready bits of the sink;
//! a `PortRun` does so for the streams of a port, row by row; `finish_cycle` says after which cycle no transfer is left.
//! `specs/Run.antt` says which cycles a run has. The crate stands on `physical_stream` and on `complexity_rules`, which says where a
//! stream may pause.
#![tactic(auto)]

mod advancing;
mod cursor;
mod cycle_feed;
mod cycling;
mod feed;
mod finishing;
mod laws;
mod list_feed;
mod list_feeding;
mod offering;
mod port_feed;
mod port_run;
mod running;
mod turn;

pub use cursor::Cursor;
pub use cycle_feed::CycleFeed;
pub use feed::{Rewind, TransferFeed};
pub use finishing::finish_cycle;
pub use laws::runs_keep_their_laws;
pub use list_feed::ListFeed;
pub use port_run::PortRun;
pub use running::rewind_all;
