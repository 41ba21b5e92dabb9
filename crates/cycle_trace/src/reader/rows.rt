//! The rows of a trace text, read line by line.

ghost use Rattle.std.specs.Prelude.{◌≡◌, ◌≢◌, ◌↔◌, ◌+◌, ◌*◌, ◌<◌, ◌≤◌, [], map, length, slice_get, IfOk, Some, None, IfSome, IsTrue, IsSome, IfErr};
ghost use Rattle.tydi_base.specs.Reading.{Gives};
ghost use Rattle.physical_stream.specs.Cycles.{Cycle, cycle_in};
ghost use Rattle.physical_stream.specs.Params.{Parameters};
ghost use Rattle.physical_stream.specs.declared.head.Head.{Head};
ghost use Rattle.cycle_trace.specs.Faults.{fault_in};
ghost use Rattle.cycle_trace.specs.ReaderView.{ReadsRows, cycle_read};
ghost use Rattle.cycle_trace.specs.RowLayout.{row_room, rows_room};
ghost use Rattle.cycle_trace.specs.RowSink.{CanTake, IsHeader, begun_by, with_row};
ghost use Rattle.cycle_trace.specs.RowText as rows;
ghost use Rattle.cycle_trace.specs.Trace.{TraceText, owed, params_of_heads};

use crate::fault::TraceFault;
use crate::row::fields::{RowBits, StreamRows};
use crate::trace::turn::next_stream;
use physical_stream::{Head, Header, Params, Row};
use std::alloc::Global;
use tydi_base::Memory;

/// How far the rows of a trace text are read.
#[derive(Drop)]
pub(crate) struct RowsRead {
    /// For each stream, its rows.
    pub(crate) streams: Vec<StreamRows>,
    /// How many rows the trace has.
    pub(crate) want: u64,
    /// How many are read.
    pub(crate) got: u64,
    /// The stream of the next row, from 0.
    pub(crate) stream: usize,
    /// No row has more bytes.
    pub(crate) room: usize,
}

impl RowsRead {
    /// No rows of no streams.
    pub(crate) fn none(alloc: Global) -> RowsRead
        ensures streams { result.streams.items ≡ [] }
        ensures rows { (result.want ≡ 0) × (result.got ≡ 0) }
        ensures next { (result.stream ≡ 0) × (result.room ≡ 0) }
    {
        RowsRead {
            streams: Vec::new(alloc),
            want: 0,
            got: 0,
            stream: 0,
            room: 0,
        }
    }

    /// The rows after this header, of which none is read. All the memory that they need is taken here.
    pub(crate) fn of(alloc: Global, header: &Header) -> Result<RowsRead, Memory>
        requires { IsHeader header.now }
        ensures { IfOk result (λ rows. ReadsRows rows (begun_by header.now)) }
    {
        let streams = streams_of(alloc, header.heads.as_slice())?;
        let want = u64::from(header.cycles) * streams.len() as u64;
        Ok(RowsRead {
            streams,
            want,
            got: 0,
            stream: 0,
            room: room_for(header.heads.as_slice()),
        })
    }

    /// Whether all rows are read.
    pub(crate) fn is_whole(&self) -> bool
        ensures { IsTrue result ↔ (self.now.got ≡ self.now.want) }
    {
        self.got == self.want
    }

    /// The number of the line of the next row, from 1.
    pub(crate) fn line_number(&self) -> u64
        requires { (t : TraceText) × ReadsRows self.now t }
        ensures { (t : TraceText) → ReadsRows self.now t → result ≡ 3 + length t.heads + length t.rows }
    {
        3 + self.streams.len() as u64 + self.got
    }

    /// Reads the next row from its line, for a sink of this type.
    // Each sink has a copy of what reads a row, which then becomes one function with what takes it. One copy for all would be called.
    #[inline(always)]
    pub(crate) fn read_row<K>(&mut self, line: &[u8]) -> Result<RowBits, TraceFault>
        requires { (t : TraceText) × (ReadsRows self.old t × (self.old.got < self.old.want)) }
        ensures reads { (t : TraceText) → ReadsRows self.old t → ReadsRows self.new t }
        ensures whole { (self.new.got ≡ self.old.got) × (self.new.want ≡ self.old.want) }
        ensures room { self.new.room ≡ self.old.room }
        ensures gives { (t : TraceText) (p : Parameters) → ReadsRows self.old t → slice_get (owed (params_of_heads t.heads) t.cycles) (length t.rows) ≡ Some p
            → Gives fault_in (cycle_read self.new) result (rows.row_at (3 + length t.heads + length t.rows) p line.now) }
        ensures calm { IfErr result (λ e. IsSome (fault_in e)) }
    {
        let number = self.line_number();
        self.streams[self.stream].read::<K>(number, line)
    }

    /// The row that was read last, whose bits are these.
    pub(crate) fn row(&self, bits: RowBits) -> Row<'_>
        requires { self.now.stream < length self.now.streams.items }
        ensures { cycle_in result ≡ cycle_read self.now bits }
    {
        let kept = &self.streams[self.stream].kept;
        Row {
            ready: bits.ready,
            shown: if bits.valid { Some(kept) } else { None },
        }
    }

    /// Goes on to the next row.
    pub(crate) fn advance(&mut self)
        requires { (t : TraceText) × ((row : Cycle) × (ReadsRows self.old t × CanTake t row)) }
        ensures reads { (t : TraceText) (row : Cycle) → ReadsRows self.old t → CanTake t row → ReadsRows self.new (with_row t row) }
        ensures room { self.new.room ≡ self.old.room }
    {
        self.got += 1;
        self.stream = next_stream(self.stream, self.streams.len());
    }
}

/// For each stream, its rows, of which none is read.
fn streams_of(alloc: Global, heads: &[Head]) -> Result<Vec<StreamRows>, Memory>
    ensures { IfOk result (λ streams. map (λ rows. rows.layout.params) streams.items ≡ params_of_heads heads.now) }
{
    let mut streams = Vec::with_capacity(alloc, heads.len())?;
    'heads: for head in heads {
        streams.push(StreamRows::of(alloc, &head.params)?)?;
    }
    Ok(streams)
}

/// As many bytes as the longest of the rows of these streams may have.
fn room_for(heads: &[Head]) -> usize
    ensures { result ≡ rows_room heads.now }
{
    let mut room: usize = 0;
    'heads: for head in heads {
        room = room.max(row_room(&head.params));
    }
    room
}

/// As many bytes as no row of this stream exceeds.
fn row_room(p: &Params) -> usize
    ensures { result ≡ row_room p.now }
{
    let lanes = usize::from(p.lanes);
    let content = (lanes * p.element as usize).div_ceil(4);
    let last = (lanes * usize::from(p.dims)).div_ceil(4);
    29 + content + last + lanes.div_ceil(4) + (p.user as usize).div_ceil(4)
}
