//! A trace. In its folder: its rows, whose row comes next, and a sink that keeps a trace.

ghost use Rattle.cycle_trace.specs.Trace.{IsTrace, text_of};

use physical_stream::{Header, Transfer};
use tydi_base::List;

pub(crate) mod keep;
pub(crate) mod rows;
pub(crate) mod turn;

/// A trace: the heads of its streams, and a row for each cycle and stream, by cycle and in each cycle by stream. Each shown
/// transfer fits its stream, and a signal that the stream lacks stands at its default.
#[derive(Debug, Drop)]
pub struct Trace {
    pub(crate) header: Header,
    pub(crate) rows: List<OwnRow>,
    ghost whole: { IsTrace (text_of header rows) },
}

/// One stream in one cycle, as it was read.
#[derive(Debug, Drop)]
pub struct OwnRow {
    pub ready: bool,
    /// The transfer that is offered, where valid is 1.
    pub shown: Option<Transfer>,
}
