//! The state that a decoder keeps of the rows of a trace whose header is the port's.

ghost use Rattle.std.specs.Prelude.{◌≡◌, ℕ, ◌+◌, ◌*◌, ◌/◌, ◌%◌, ◌<◌, ◌≤◌, List, [], ◌∷◌, ◌++◌, length, map, slice_get, Option, Some, None, IfOk, OnOk, MatchOption, MatchResult};
ghost use Rattle.physical_stream.specs.Cycles.{cycle_in};
ghost use Rattle.type_split.specs.Streams.{IsPortSplit, plain_split};
ghost use Rattle.cycle_trace.specs.RowSink.{CanTake, IsHeader, begun_by, with_row};
ghost use Rattle.cycle_trace.specs.Trace.{TraceText, most_cycles};
ghost use Rattle.port_drive.specs.Drives.{heads_of};
ghost use Rattle.trace_decode.specs.Running.{AreFresh, CanTakeRow, IsTagWith, TakesRow};
ghost use Rattle.trace_decode.specs.Standing.{RunsOver};
ghost use Rattle.trace_decode.specs.Tagged.{AreTagged, has_tags};
ghost use Rattle.trace_decode.specs.Tags.{element_at};

use crate::stream_kept::StreamKept;
use crate::tags::has_tags;
use cycle_trace::{FoundOffence, RowSink, Surveyor};
use physical_stream::{Header, Row, Rule};
use std::alloc::Global;
use tydi_base::Memory;
use type_split::{Phys, Split};

/// A decoder that has begun.
#[derive(Drop)]
pub(crate) struct DecodeRun {
    /// The survey by rules 1 to 10.
    pub(crate) surveyor: Surveyor,
    /// The items done and the user words of each stream.
    pub(crate) kept: Vec<StreamKept>,
    /// How many rows were taken.
    pub(crate) rows: usize,
    /// The first violation of the rule on tags.
    pub(crate) tag: Option<FoundOffence>,
    /// For each stream, whether its elements have tags.
    pub(crate) tagged: Vec<bool>,
}

impl DecodeRun {
    /// The state before the first row of a trace with this header, which is that of the port.
    pub(crate) fn of(alloc: Global, split: &Split<'_>, header: &Header) -> Result<DecodeRun, Memory>
        requires split { IsPortSplit (plain_split split.now) }
        requires header { IsHeader header.now }
        requires same { header.now.heads ≡ heads_of (plain_split split.now) }
        ensures { IfOk result (RunsOver (plain_split split.now) (begun_by header.now)) }
    {
        let mut surveyor = Surveyor::new();
        surveyor.start(alloc, header)?;
        let kept = fresh_streams(alloc, split.streams.as_slice())?;
        let tagged = tagged_streams(alloc, split)?;
        Ok(DecodeRun {
            surveyor,
            kept,
            rows: 0,
            tag: None,
            tagged,
        })
    }

    /// Takes the next row.
    #[inline(always)]
    pub(crate) fn see(
        &mut self,
        alloc: Global,
        split: &Split<'_>,
        row: Row<'_>,
    ) -> Result<(), Memory>
        requires split { IsPortSplit (plain_split split.now) }
        requires stands { (t : TraceText) × (RunsOver (plain_split split.now) t self.old × CanTake t (cycle_in row)) }
        ensures { (t : TraceText) → RunsOver (plain_split split.now) t self.old → CanTake t (cycle_in row.entry)
            → OnOk result (RunsOver (plain_split split.now) (with_row t (cycle_in row.entry)) self.new) }
    {
        self.surveyor.row(alloc, row)?;
        let streams = self.kept.len();
        let stream = self.rows % streams;
        let tagged = self.tagged[stream];
        let named = take_row(alloc, &mut self.kept, split, stream, tagged, row)?;
        note_tag(&mut self.tag, named, self.rows, streams);
        self.rows += 1;
        Ok(())
    }
}

/// The state kept of each of these streams before its first cycle.
fn fresh_streams(alloc: Global, streams: &[Phys]) -> Result<Vec<StreamKept>, Memory>
    ensures { IfOk result (λ kept. AreFresh streams.now kept.items) }
{
    let mut kept = Vec::with_capacity(alloc, streams.len())?;
    'streams: for stream in streams {
        kept.push(StreamKept::new(alloc, &stream.params))?;
    }
    Ok(kept)
}

/// For each stream of a split, whether its elements have tags.
fn tagged_streams(alloc: Global, split: &Split<'_>) -> Result<Vec<bool>, Memory>
    requires { IsPortSplit (plain_split split.now) }
    ensures { IfOk result (λ tagged. AreTagged (plain_split split.now) tagged.items) }
{
    let streams = split.streams.as_slice();
    let mut tagged = Vec::with_capacity(alloc, streams.len())?;
    'streams: for stream in streams {
        let node = &split.nodes.as_slice()[stream.node as usize];
        tagged.push(has_tags(node.element))?;
    }
    Ok(tagged)
}

/// Takes the next row of the stream of this number. False exactly where a tag that is read in it names no variant.
#[inline(always)]
fn take_row(
    alloc: Global,
    kept: &mut Vec<StreamKept>,
    split: &Split<'_>,
    stream: usize,
    tagged: bool,
    row: Row<'_>,
) -> Result<bool, Memory>
    requires split { IsPortSplit (plain_split split.now) }
    requires tagged { tagged ≡ has_tags (element_at (plain_split split.now) stream) }
    requires can { CanTakeRow (plain_split split.now) stream kept.old.items (cycle_in row) }
    ensures { TakesRow (plain_split split.now) stream (cycle_in row.entry) kept.old.items kept.new.items result }
{
    let phys = &split.streams.as_slice()[stream];
    let node = &split.nodes.as_slice()[phys.node as usize];
    kept[stream].see(alloc, node.element, &phys.params, tagged, row)
}

/// Notes the first violation of the rule on tags: that of the rows before, or that of the row of this number. The rows are those of so
/// many streams.
fn note_tag(tag: &mut Option<FoundOffence>, named: bool, row: usize, streams: usize)
    requires some { 0 < streams }
    requires few { row < most_cycles * streams }
    ensures { IsTagWith tag.old named row streams tag.new }
{
    if named || tag.is_some() {
        return;
    }
    *tag = Some(FoundOffence {
        cycle: (row / streams) as u32,
        stream: row % streams,
        rule: Rule::Tag,
    });
}
