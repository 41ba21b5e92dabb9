//! How the text of a trace is read as the text of the trace that arrives at the other end of a chain of nets.

ghost use Rattle.std.specs.Prelude.{◌≡◌, ℕ, List, IfOk, None, Some};
ghost use Rattle.cycle_trace.specs.ReaderView.{Finishes};
ghost use Rattle.cycle_trace.specs.Trace.{TraceText};
ghost use Rattle.cycle_trace.specs.TraceText.{trace_of};
ghost use Rattle.link_check.specs.Carriers.{CanRise};
ghost use Rattle.link_check.specs.declared.end_heads.EndHeads.{EndHeads};
ghost use Rattle.tydi_tool.specs.Arrivals.{HasRows, IsArrival, IsNewArrival, Keeps, ReadsArrival, StandsForTrace, arrives_after, ends_of};
ghost use Rattle.tydi_tool.specs.Reading.{ReadsAs};

use crate::answer::Reply;
use crate::reader::Reader;
use crate::traces::faulted;
use cycle_trace::{TraceFault, TraceReader};
use link_check::{Carrier, CarryFault, EndHeads, KeptText};
use std::alloc::Global;
use tydi_base::{List, Memory, Text};

/// What arrives of a trace.
#[derive(Drop)]
pub enum Arrival {
    /// The trace has other heads than those where its streams come from, first at this stream.
    Other(usize),
    /// The text of the trace that arrives; none where it has over 64 MiB.
    Arrived(Option<List<u8>>),
}

/// Reads the text of the trace of this word as it comes, and keeps the text of what arrives.
#[derive(Drop)]
pub(crate) struct ArrivalFile<'a> {
    word: &'a Text,
    reader: TraceReader<Carrier<KeptText>>,
    fed: u64,
}

impl<'a> ArrivalFile<'a> {
    /// A reader of a trace that is carried between these heads.
    pub(crate) fn new(
        alloc: Global,
        word: &'a Text,
        heads: EndHeads,
    ) -> Result<ArrivalFile<'a>, Memory>
        requires { CanRise heads.from heads.to }
        ensures { IfOk result (IsNewArrival word.now heads) }
    {
        match carrier_of(alloc, heads) {
            Ok(carrier) => Ok(ArrivalFile {
                word,
                reader: TraceReader::new(alloc, carrier),
                fed: 0,
            }),
            Err(Memory) => Err(Memory),
        }
    }
}

/// Hands rows on between these heads, of which no level falls, to a text that is kept.
fn carrier_of(alloc: Global, heads: EndHeads) -> Result<Carrier<KeptText>, Memory>
    requires { CanRise heads.from heads.to }
    ensures stands { IfOk result (λ carrier. Keeps carrier None) }
    ensures ends { IfOk result (λ carrier. ends_of carrier ≡ heads) }
{
    let EndHeads { from, to } = heads;
    match Carrier::new(from, to, KeptText::new(alloc)) {
        Ok(carrier) => Ok(carrier),
        Err(CarryFault::NotLevel(_)) => unreachable!(),
        Err(CarryFault::Memory) => Err(Memory),
    }
}

impl Reader<Arrival> for ArrivalFile<'_> {
    ghost reads = { arrives_after };

    ghost fed = { λ file. file.fed };

    ghost stands = { StandsForTrace };

    fn feed(&mut self, alloc: Global, piece: &[u8]) -> Result<(), Memory> {
        self.fed += piece.len() as u64;
        self.reader.feed(alloc, piece)
    }

    fn finish(self, alloc: Global) -> Result<Arrival, Reply> {
        let ArrivalFile { word, reader, .. } = self;
        arrival_of(alloc, word, reader.finish(alloc))
    }
}

/// What arrives of a text that was read to its end, or the reply to its error.
fn arrival_of(
    alloc: Global,
    word: &Text,
    finished: Result<Carrier<KeptText>, TraceFault>,
) -> Result<Arrival, Reply>
    requires { (heads : EndHeads) × HasRows heads finished }
    ensures { (heads : EndHeads) (bytes : List ℕ) → HasRows heads finished → Finishes Keeps (trace_of bytes) finished
        → ReadsAs (ReadsArrival heads word.now bytes) result }
{
    match finished {
        Ok(carrier) => Ok(arrived(carrier)),
        Err(fault) => Err(faulted(alloc, word, fault)),
    }
}

/// What arrives by a carrier.
fn arrived(carrier: Carrier<KeptText>) -> Arrival
    ensures { (t : TraceText) → Keeps carrier (Some t) → IsArrival (ends_of carrier) t result }
{
    match carrier.finish() {
        Ok(kept) => Arrival::Arrived(kept.text()),
        Err(stream) => Arrival::Other(stream),
    }
}
