//! Jobs (this project's own): a port is driven with a value that two numbers make, over as many cycles as its longest stream has transfers,
//! always ready. `job_summary` runs a job once, and hands each row as it is made to three sinks: a sum of its text, a survey and a decoder. So
//! neither a text nor a list of transfers or rows is kept. `specs/Jobs.antt` says which job two numbers make, and why there may be none, and
//! `specs/Summaries.antt` what is said of it. The crate stands on `value_gen`, which makes the value, on `port_drive`, which makes its runs,
//! and on `cycle_trace` and `trace_decode`, whose sinks take the rows.
#![tactic(auto)]

mod both;
mod fault;
mod handing;
mod laws;
mod longest;
mod plans;
mod starting;
mod summary;
mod summing;
mod surveyed;
mod text_sum;

pub use fault::JobFault;
pub use laws::jobs_are_carried;
pub use summary::{JobSummary, job_summary};
