//! The row of a stream in a cycle, as text: its bytes, which signals it shows, how far a line has the form of one, and its reading.

pub(crate) mod bytes;
pub(crate) mod fields;
pub(crate) mod form;
pub(crate) mod layout;
