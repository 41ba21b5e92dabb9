//! A decoder of traces.

ghost use Rattle.std.specs.Prelude.{◌≡◌, false, None, Some, OnOk};
ghost use Rattle.physical_stream.specs.Cycles.{cycle_in};
ghost use Rattle.type_split.specs.Streams.{PlainSplit, plain_split};
ghost use Rattle.cycle_trace.specs.RowSink.{CanTake, IsHeader, begun_by, with_row};
ghost use Rattle.cycle_trace.specs.Trace.{TraceText};
ghost use Rattle.trace_decode.specs.Outcome.{IsDecoded};
ghost use Rattle.trace_decode.specs.Standing.{CanDecode, DecoderStands, split_in};

use crate::decode_run::DecodeRun;
use crate::decoded::Decoded;
use crate::fault::DecodeFault;
use crate::heads::other_head;
use cycle_trace::RowSink;
use physical_stream::{Header, Row};
use std::alloc::Global;
use tydi_base::Memory;
use type_split::Split;

/// Reads the rows of a trace back as a value of a port's type, as they come. It keeps of them the nests of each stream and the user words of
/// the transfers done. A stream without user bits has no user words here. It is no fixed sink: it takes memory for each element and each
/// user word.
#[derive(Drop)]
pub struct Decoder<'s, 't> {
    pub(crate) split: &'s Split<'t>,
    pub(crate) stage: Stage,
}

/// How far a decoder has come.
#[derive(Drop)]
pub(crate) enum Stage {
    /// No header came.
    Fresh,
    /// The heads of the trace are not the port's, first at this place.
    Other(usize),
    /// The heads are the port's, and rows came.
    Rows(DecodeRun),
}

impl<'s, 't> Decoder<'s, 't> {
    /// A decoder for the port of this split, each of whose nodes is carried. It stands for nothing yet. It takes no memory.
    pub fn new(split: &'s Split<'t>) -> Decoder<'s, 't>
        requires { CanDecode (plain_split split.now) }
        ensures stands { DecoderStands result None }
        ensures split { split_in result ≡ plain_split split.now }
    {
        Decoder {
            split,
            stage: Stage::Fresh,
        }
    }

    /// Begins with the header of a trace. `Memory` comes where there is none for the state of each stream.
    pub fn begin(&mut self, alloc: Global, header: &Header) -> Result<(), Memory>
        requires fresh { DecoderStands self.old None }
        requires header { IsHeader header.now }
        ensures begun { OnOk result (DecoderStands self.new (Some (begun_by header.now))) }
        ensures split { split_in self.new ≡ split_in self.old }
    {
        match other_head(header.heads.as_slice(), self.split.streams.as_slice()) {
            Some(place) => self.stage = Stage::Other(place),
            None => self.stage = Stage::Rows(DecodeRun::of(alloc, self.split, header)?),
        }
        Ok(())
    }

    /// Takes the next row. `Memory` comes where there is none for its elements or its user word.
    #[inline(always)]
    pub fn take(&mut self, alloc: Global, row: Row<'_>) -> Result<(), Memory>
        requires { (t : TraceText) × (DecoderStands self.old (Some t) × CanTake t (cycle_in row)) }
        ensures taken { (t : TraceText) → DecoderStands self.old (Some t) → CanTake t (cycle_in row.entry) → OnOk result (DecoderStands self.new (Some (with_row t (cycle_in row.entry)))) }
        ensures split { split_in self.new ≡ split_in self.old }
    {
        match &mut self.stage {
            Stage::Rows(run) => run.see(alloc, self.split, row),
            _ => Ok(()),
        }
    }

    /// The outcome of the rows that it was given, by the errors in their order. `Memory` comes where there is none for it.
    pub fn finish(self, alloc: Global) -> Result<Decoded, DecodeFault>
        requires { (t : TraceText) × DecoderStands self (Some t) }
        ensures { (t : TraceText) → DecoderStands self.entry (Some t) → IsDecoded (split_in self.entry) t result }
    {
        let Decoder { split, stage } = self;
        match stage {
            Stage::Fresh => unreachable!(),
            Stage::Other(place) => Err(DecodeFault::OtherHeader(place)),
            Stage::Rows(run) => run.finish(alloc, split),
        }
    }
}

impl RowSink for Decoder<'_, '_> {
    ghost stands_for = { DecoderStands };

    ghost fixed = { λ _. false };

    ghost Setting = { PlainSplit };

    ghost setting = { split_in };

    fn start(&mut self, alloc: Global, header: &Header) -> Result<(), Memory> {
        self.begin(alloc, header)
    }

    fn row(&mut self, alloc: Global, row: Row<'_>) -> Result<(), Memory> {
        self.take(alloc, row)
    }
}
