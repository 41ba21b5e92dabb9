//! Monitors, as they run. `specs/Meaning.antt` says what the process of a monitor does at each edge: where it stands after the cycles of its
//! stream, and the cycle in which it raises its fault. A `ProcessSim` runs one process, `Processes` all of them beside a monitor that is lent,
//! and a `WatchSim` a monitor of its own. An edge takes no memory. `monitor` makes the monitor of a port and of the items that are expected of
//! its streams. A law says what it reports: the first cycle by whose end the items done are no front of the expected ones. The crate stands on
//! `watch_text` for the types of monitors, and on `port_drive` for the heads of a port.
#![tactic(auto)]

mod laws;
mod making;
mod process_sim;
mod processes;
mod running;
mod watch_sim;

pub use laws::monitors_report_the_first_difference;
pub use making::{monitor, monitor_of};
pub use process_sim::ProcessSim;
pub use processes::Processes;
pub use watch_sim::WatchSim;
pub use watch_text::{WStmt, Watch, WatchFault, print_watch, read_watch};
