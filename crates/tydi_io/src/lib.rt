//! Files and outputs. A `Store` hands out the bytes of files by name, a `Sink` takes bytes, and the contract of each call says what a
//! call that fails leaves behind. Both stand here in memory, for tests, and over the system, whose content no contract can show. The
//! crate stands on `tydi_base`.
#![tactic(auto)]

mod calls;
mod failed;
mod file_store;
mod mem_sink;
mod mem_store;
mod sink;
mod started;
mod store;
mod stream_sink;

pub use failed::Failed;
pub use file_store::FileStore;
pub use mem_sink::MemSink;
pub use mem_store::MemStore;
pub use sink::Sink;
pub use store::Store;
pub use stream_sink::StreamSink;
