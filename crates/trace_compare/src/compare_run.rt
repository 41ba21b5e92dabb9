//! The state that a comparer keeps of the rows of a trace whose header is the port's.

ghost use Rattle.std.specs.Prelude.{◌≡◌, IfOk, OnOk};
ghost use Rattle.physical_stream.specs.Cycles.{cycle_in};
ghost use Rattle.type_split.specs.Streams.{plain_split};
ghost use Rattle.cycle_trace.specs.RowSink.{CanTake, IsHeader, begun_by, with_row};
ghost use Rattle.cycle_trace.specs.Trace.{TraceText};
ghost use Rattle.port_drive.specs.Drives.{heads_of};
ghost use Rattle.trace_compare.specs.Standing.{AreFresh, CanTakeRow, OneForEach, RunsOver, TakesRow};

use crate::stream_compared::StreamCompared;
use physical_stream::{Header, Item, Row};
use std::alloc::Global;
use tydi_base::{List, Memory};
use type_split::Split;

/// A comparer that has begun.
#[derive(Drop)]
pub(crate) struct CompareRun {
    /// The state of each stream.
    pub(crate) states: Vec<StreamCompared>,
    /// How many rows were taken.
    pub(crate) rows: usize,
}

impl CompareRun {
    /// The state before the first row of a trace with this header, which is that of the port.
    pub(crate) fn of(
        alloc: Global,
        split: &Split<'_>,
        wants: &[List<Item>],
        header: &Header,
    ) -> Result<CompareRun, Memory>
        requires lists { OneForEach (plain_split split.now) wants.now }
        requires header { IsHeader header.now }
        requires same { header.now.heads ≡ heads_of (plain_split split.now) }
        ensures { IfOk result (RunsOver (plain_split split.now) wants.now (begun_by header.now)) }
    {
        let states = fresh_states(alloc, wants.len())?;
        Ok(CompareRun { states, rows: 0 })
    }

    /// Takes the next row.
    #[inline(always)]
    pub(crate) fn see(
        &mut self,
        alloc: Global,
        split: &Split<'_>,
        wants: &[List<Item>],
        row: Row<'_>,
    ) -> Result<(), Memory>
        requires { (t : TraceText) × (RunsOver (plain_split split.now) wants.now t self.old × CanTake t (cycle_in row)) }
        ensures { (t : TraceText) → RunsOver (plain_split split.now) wants.now t self.old → CanTake t (cycle_in row.entry)
            → OnOk result (RunsOver (plain_split split.now) wants.now (with_row t (cycle_in row.entry)) self.new) }
    {
        let streams = self.states.len();
        let stream = self.rows % streams;
        let cycle = (self.rows / streams) as u32;
        take_row(alloc, &mut self.states, split, wants, stream, cycle, row)?;
        self.rows += 1;
        Ok(())
    }
}

/// The state of each of so many streams before its first cycle.
fn fresh_states(alloc: Global, streams: usize) -> Result<Vec<StreamCompared>, Memory>
    ensures { IfOk result (λ states. AreFresh streams states.items) }
{
    let mut states = Vec::with_capacity(alloc, streams)?;
    'streams: for _stream in 0..streams {
        states.push(StreamCompared::new())?;
    }
    Ok(states)
}

/// Takes the row of the stream of this number in this cycle.
#[inline(always)]
fn take_row(
    alloc: Global,
    states: &mut Vec<StreamCompared>,
    split: &Split<'_>,
    wants: &[List<Item>],
    stream: usize,
    cycle: u32,
    row: Row<'_>,
) -> Result<(), Memory>
    requires { CanTakeRow (plain_split split.now) wants.now stream states.old.items (cycle_in row) }
    ensures { OnOk result (TakesRow (plain_split split.now) wants.now stream cycle (cycle_in row.entry) states.old.items states.new.items) }
{
    let phys = &split.streams.as_slice()[stream];
    let want = wants[stream].as_slice();
    states[stream].see(alloc, &phys.params, want, cycle, row)
}
