//! The rows of the rising edges.

ghost use Rattle.std.specs.Prelude.{IfOk, IsTrue, OnOk};
ghost use Rattle.std.specs.List.{All};
ghost use Rattle.cycle_trace.specs.Trace.{are_heads};
ghost use Rattle.vcd_read.specs.Probes.{CanSample, words_before};
ghost use Rattle.vcd_read.specs.Samples.{AddsEdge, AreAtStart, TellsRows, WritesRows};

use crate::dump_text::{DumpText, dump_text};
use crate::fault::VcdFault;
use crate::kept_rows::KeptRows;
use crate::place::Place;
use crate::probe::Probe;
use crate::wires::Wires;
use physical_stream::Head;
use std::alloc::Global;
use tydi_base::{List, Memory};

/// The most cycles of a trace.
pub(crate) const MOST_CYCLES: u32 = 1_000_000;

/// The rows of the rising edges so far.
#[derive(Drop)]
pub(crate) struct Samples {
    /// How many edges there are; one more than the most of a trace where they are too many.
    pub(crate) cycles: u32,
    /// The first row that is not of bits.
    pub(crate) not_bit: Option<Place>,
    /// The text of the rows, where they are of bits.
    pub(crate) rows: KeptRows,
}

impl Samples {
    /// No edges.
    pub(crate) fn new(alloc: Global) -> Samples
        ensures { AreAtStart result }
    {
        Samples {
            cycles: 0,
            not_bit: None,
            rows: KeptRows::new(alloc),
        }
    }

    /// The clock rises in the block.
    pub(crate) fn add(
        &mut self,
        alloc: Global,
        probes: &[Probe],
        wires: &Wires,
    ) -> Result<(), Memory>
        requires { All (CanSample (words_before wires.now)) probes.now }
        ensures { OnOk result (AddsEdge (words_before wires.now) probes.now self.old self.new) }
    {
        if self.cycles > MOST_CYCLES {
            return Ok(());
        }
        let cycle = self.cycles;
        self.cycles = cycle + 1;
        if cycle == MOST_CYCLES {
            return Ok(());
        }
        if self.not_bit.is_some() {
            return Ok(());
        }
        self.not_bit = write_rows(alloc, &mut self.rows, cycle, probes, wires)?;
        Ok(())
    }

    /// The text of the trace, none where it has over 64 MiB; or the first error of the rows.
    pub(crate) fn tell(self, alloc: Global, heads: List<Head>) -> Result<Option<DumpText>, VcdFault>
        requires { IsTrue (are_heads heads) }
        ensures { TellsRows self heads result }
    {
        if self.cycles > MOST_CYCLES {
            return Err(VcdFault::TooManyCycles);
        }
        match self.not_bit {
            Some(place) => Err(VcdFault::NotBit(place.cycle, place.stream)),
            None => Ok(dump_text(alloc, heads, self.cycles, self.rows)?),
        }
    }
}

/// Adds the rows of these streams in this cycle; or the first of them that is not of bits is the answer.
fn write_rows(
    alloc: Global,
    rows: &mut KeptRows,
    cycle: u32,
    probes: &[Probe],
    wires: &Wires,
) -> Result<Option<Place>, Memory>
    requires { All (CanSample (words_before wires.now)) probes.now }
    ensures { IfOk result (WritesRows (words_before wires.now) cycle probes.now rows.old rows.new) }
{
    'streams: for stream in 0..probes.len() {
        let probe = &probes[stream];
        if !probe.makes_row(wires) {
            return Ok(Some(Place { cycle, stream }));
        }
        probe.write_row(alloc, wires, rows)?;
    }
    Ok(None)
}
