//! Traces that are read back as values. `decode` gives the value of a port's type that a trace carries, or the first place at which the
//! trace is not the port's, not legal, not whole or not that of one value. A `Decoder` takes the rows as they come, and keeps of them only
//! nests and user words; a `TextDecoder` takes the text of a trace in pieces. `specs/Outcome.antt` says which outcome a trace has,
//! `specs/Texts.antt` which a text has, and `specs/Tags.antt` has the rule on tags, which needs the types of elements. Laws say that each
//! trace and each text has one outcome, and that the rows that drive a port with a value are read as this value. The crate stands on the
//! survey of `cycle_trace`, on `nest_shape`, which builds the series of each stream, and on `value_views`, which joins them to a value;
//! the law of driven values stands on `port_drive`.
#![tactic(auto)]

mod decode_run;
mod decoded;
mod decoder;
mod decoding;
mod fault;
mod finishing;
mod heads;
mod laws;
mod stream_kept;
mod tags;
mod text_decoder;
mod text_fault;

pub use decoded::Decoded;
pub use decoder::Decoder;
pub use decoding::decode;
pub use fault::DecodeFault;
pub use heads::other_head;
pub use laws::{
    driven_values_are_carried, offences_fall_with_tags, texts_have_one_outcome,
    traces_have_one_outcome,
};
pub use text_decoder::TextDecoder;
pub use text_fault::TextFault;
