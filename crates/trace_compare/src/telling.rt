//! The differences that were found.

ghost use Rattle.std.specs.Prelude.{IfOk};
ghost use Rattle.type_split.specs.Streams.{plain_split};
ghost use Rattle.cycle_trace.specs.Trace.{TraceText, streams_of};
ghost use Rattle.trace_compare.specs.Differences.{AreDifferences};
ghost use Rattle.trace_compare.specs.Standing.{HasStream, RunsOver, TellsStream};

use crate::compare_run::CompareRun;
use crate::difference::Difference;
use crate::stream_compared::StreamCompared;
use crate::stream_told::{first_difference, push_some};
use physical_stream::Item;
use std::alloc::Global;
use tydi_base::{List, Memory};
use type_split::Split;

impl CompareRun {
    /// The first difference of each stream that has one, in their order. `Memory` comes where there is none for them.
    pub(crate) fn differences(
        &self,
        alloc: Global,
        split: &Split<'_>,
        wants: &[List<Item>],
    ) -> Result<List<Difference>, Memory>
        requires { (t : TraceText) × RunsOver (plain_split split.now) wants.now t self.now }
        ensures { (t : TraceText) → RunsOver (plain_split split.now) wants.now t self.now → IfOk result (AreDifferences wants.now (streams_of t)) }
    {
        let mut found = List::new(alloc);
        'streams: for stream in 0..self.states.len() {
            let first = difference_at(alloc, split, wants, &self.states, stream)?;
            push_some(&mut found, first)?;
        }
        Ok(found)
    }
}

/// The first difference of the stream of this number; None where it has none.
fn difference_at(
    alloc: Global,
    split: &Split<'_>,
    wants: &[List<Item>],
    states: &[StreamCompared],
    stream: usize,
) -> Result<Option<Difference>, Memory>
    requires { HasStream (plain_split split.now) wants.now states.now stream }
    ensures { IfOk result (TellsStream (plain_split split.now) wants.now states.now stream) }
{
    let phys = &split.streams.as_slice()[stream];
    let want = wants[stream].as_slice();
    first_difference(alloc, stream, phys.params.dims, want, &states[stream])
}
