//! The text of a trace, read: as a whole, or in pieces. In its folder: the reader of pieces, how far it has come, the line that is begun,
//! the taking of a line, the rows, and the sink that the rows go into.

ghost use Rattle.std.specs.Prelude.{◌≡◌};
ghost use Rattle.tydi_base.specs.Reading.{Gives};
ghost use Rattle.cycle_trace.specs.Faults.{fault_in};
ghost use Rattle.cycle_trace.specs.TraceText.{trace_of};
ghost use Rattle.cycle_trace.specs.TraceView.{trace_view};

use crate::fault::TraceFault;
use crate::reader::trace_reader::TraceReader;
use crate::trace::Trace;
use crate::trace::keep::Keep;
use std::alloc::Global;

pub(crate) mod line_begun;
pub(crate) mod lines;
pub(crate) mod rows;
pub(crate) mod sink;
pub(crate) mod text;
pub(crate) mod trace_reader;

/// The trace that a text of either version spells. Apart from `Memory`, it fails with the first error, at its line
/// where it has one: see `TraceFault`.
pub fn read(alloc: Global, text: &[u8]) -> Result<Trace, TraceFault>
    ensures { Gives fault_in trace_view result (trace_of text.now) }
{
    let mut reader = TraceReader::new(alloc, Keep::new());
    reader.feed(alloc, text)?;
    match reader.finish(alloc)?.trace() {
        Some(trace) => Ok(trace),
        None => unreachable!(),
    }
}
