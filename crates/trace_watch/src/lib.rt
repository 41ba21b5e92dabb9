//! Traces, watched by a monitor. A `TextWatcher` takes the text of a trace in pieces and runs the process of each stream of a monitor over the
//! cycles of the stream. It says of each how many items were as expected, and the cycle in which the process raised its fault. It keeps no rows
//! and no items of the trace, and takes no memory for a row. It looks for no violation of the protocol. `specs/Texts.antt` says what is said of a
//! text: its first error, the first head that is not the monitor's, or what each process says. A law says that exactly one thing is said of each
//! text. The crate stands on the reader of `cycle_trace` and on the processes of `monitor_bench`.
#![tactic(auto)]

mod fault;
mod heads;
mod laws;
mod text_watcher;
mod watch_run;
mod watched;
mod watcher;

pub use fault::WatchTraceFault;
pub use laws::texts_have_one_watching;
pub use text_watcher::TextWatcher;
pub use watched::StreamWatched;
