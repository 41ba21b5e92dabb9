//! Traces of physical streams, cycle by cycle, and their text. A `TraceReader` reads a text in pieces and hands the rows to a
//! `RowSink`; `read` reads a whole text; `write_header` and `write_row` write one, in version 1 where each level has one number, else
//! in version 2; `survey` names the first violation, or the first stream that does not end whole, or counts transfers and packets.
//! `specs/TraceText.antt` says which text is which trace. Modules: `header` and `row` read the parts of a text, `reader` reads the
//! whole, `writing` writes it, `trace` is the trace itself, and `surveying` its survey. The crate stands on `physical_stream`, on
//! `signal_layout` for widths, and on the checker of `complexity_rules`.
#![tactic(auto)]

mod fault;
mod header;
mod laws;
mod reader;
mod row;
mod surveying;
mod trace;
mod version;
mod writing;

pub use fault::TraceFault;
pub use laws::{heads_are_in_form, traces_are_read_as_spelled};
pub use reader::read;
pub use reader::sink::RowSink;
pub use reader::trace_reader::TraceReader;
pub use surveying::counts::{Counts, SurveyFault};
pub use surveying::outcome::{FoundOffence, with_offence};
pub use surveying::survey;
pub use surveying::surveyed::Surveyed;
pub use surveying::surveyor::Surveyor;
pub use trace::keep::Keep;
pub use trace::{OwnRow, Trace};
pub use version::Version;
pub use writing::lengths::{head_length, header_length, row_length};
pub use writing::{write_header, write_row};
