//! Traces of a port, compared with what they should carry. A `TextComparer` takes the text of a trace in pieces, and says of each physical
//! stream where the items done first differ from those that are expected: the number of the item, its place among the sequences, the cycle,
//! and both items. It keeps no rows and no items of the trace: of each stream it keeps how many items were as expected, and the first that
//! was not. It looks for no violation of the protocol. `specs/Differences.antt` and `specs/Places.antt` say what a difference is, and
//! `specs/Texts.antt` what is said of a text. Laws say that exactly one thing is said of each text, and that there are no differences
//! exactly where the items done are the expected ones. The crate stands on the reader of `cycle_trace`, and on `trace_decode` for the heads.
#![tactic(auto)]

mod compare_run;
mod comparer;
mod difference;
mod fault;
mod laws;
mod places;
mod same_items;
mod stream_compared;
mod stream_told;
mod telling;
mod text_comparer;

pub use difference::Difference;
pub use fault::CompareFault;
pub use laws::{no_differences_where_same, texts_have_one_comparison};
pub use text_comparer::TextComparer;
