//! The sum of the text of a trace, row by row.

ghost use Rattle.std.specs.Prelude.{◌≡◌, ◌<◌, ◌+◌, ◌==◌, if◌then◌else◌, false, None, Some, IfOk, OnOk};
ghost use Rattle.physical_stream.specs.Cycles.{cycle_in};
ghost use Rattle.cycle_trace.specs.RowSink.{CanTake, IsHeader, begun_by, with_row};
ghost use Rattle.cycle_trace.specs.Trace.{TraceText, params_of_heads};
ghost use Rattle.port_gen.specs.Sums.{SumStands, SumsTo, text_sum_of};

use crate::summing::with_bytes;
use cycle_trace::{RowSink, write_header, write_row};
use physical_stream::{Head, Header, Params, Row};
use std::alloc::Global;
use tydi_base::{List, Memory};

/// The sum of all bytes of the text of a trace, modulo 2^32. The text of each row is written into the room of the last one. It is no fixed sink.
#[derive(Drop)]
pub(crate) struct TextSum {
    run: Option<SumRun>,
}

/// A sum that has begun.
#[derive(Drop)]
pub(crate) struct SumRun {
    /// The parameters of each stream.
    pub(crate) streams: List<Params>,
    /// The stream of the next row, from 0.
    pub(crate) stream: usize,
    /// The text of the last row.
    pub(crate) room: List<u8>,
    /// The sum of the bytes so far.
    pub(crate) total: u32,
}

impl TextSum {
    /// A sum that has not begun.
    pub(crate) fn new() -> TextSum
        ensures { SumStands result None }
    {
        TextSum { run: None }
    }

    /// The sum of the text of all rows that came.
    pub(crate) fn total(&self) -> u32
        requires { (t : TraceText) × SumStands self.now (Some t) }
        ensures { (t : TraceText) → SumStands self.now (Some t) → result ≡ text_sum_of t }
    {
        match &self.run {
            Some(run) => run.total,
            None => unreachable!(),
        }
    }
}

impl SumRun {
    /// The sum of the text of a header.
    fn of(alloc: Global, header: &Header) -> Result<SumRun, Memory>
        requires { IsHeader header.now }
        ensures { IfOk result (λ run. SumsTo run (begun_by header.now)) }
    {
        let mut room = List::new(alloc);
        write_header(alloc, &mut room, header)?;
        let total = with_bytes(0, room.as_slice());
        Ok(SumRun {
            streams: params_of(alloc, header.heads.as_slice())?,
            stream: 0,
            room,
            total,
        })
    }

    /// Adds the text of the next row.
    #[inline(always)]
    fn see(&mut self, alloc: Global, row: Row<'_>) -> Result<(), Memory>
        requires { (t : TraceText) × (SumsTo self.old t × CanTake t (cycle_in row)) }
        ensures { (t : TraceText) → SumsTo self.old t → CanTake t (cycle_in row.entry) → OnOk result (SumsTo self.new (with_row t (cycle_in row.entry))) }
    {
        self.room.truncate(0);
        write_row(
            alloc,
            &mut self.room,
            &self.streams.as_slice()[self.stream],
            row,
        )?;
        self.total = with_bytes(self.total, self.room.as_slice());
        self.stream = stream_behind(self.streams.len(), self.stream);
        Ok(())
    }
}

/// The stream whose row comes after the row of this one, among so many streams.
fn stream_behind(many: usize, stream: usize) -> usize
    requires { stream < many }
    ensures { result ≡ (if stream + 1 == many then 0 else stream + 1) }
{
    if stream + 1 == many { 0 } else { stream + 1 }
}

/// The parameters of the streams with these heads.
fn params_of(alloc: Global, heads: &[Head]) -> Result<List<Params>, Memory>
    ensures { IfOk result (λ params. params ≡ params_of_heads heads.now) }
{
    let mut params = List::with_capacity(alloc, heads.len())?;
    'heads: for head in heads {
        params.push(head.params)?;
    }
    Ok(params)
}

impl RowSink for TextSum {
    ghost stands_for = { SumStands };

    ghost fixed = { λ _. false };

    ghost Setting = { Unit {0} };

    ghost setting = { λ _. tt };

    fn start(&mut self, alloc: Global, header: &Header) -> Result<(), Memory> {
        self.run = Some(SumRun::of(alloc, header)?);
        Ok(())
    }

    fn row(&mut self, alloc: Global, row: Row<'_>) -> Result<(), Memory> {
        match &mut self.run {
            Some(run) => run.see(alloc, row),
            None => Ok(()),
        }
    }
}
