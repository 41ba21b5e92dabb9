//! The trace of the wanted streams, sampled at the rising edges of the clock.

ghost use Rattle.std.specs.Prelude.{◌≡◌, true, IfOk, IsTrue, OnOk, option_map};
ghost use Rattle.std.specs.List.{All};
ghost use Rattle.cycle_trace.specs.Trace.{are_heads};
ghost use Rattle.vcd_read.specs.History.{is_bit};
ghost use Rattle.vcd_read.specs.Probes.{CanSample, rises_by, words_before, words_now};
ghost use Rattle.vcd_read.specs.Sampling.{CanSampleAll, EndsBlock, EndsBlockBy, EndsSampling, IsNew, IsWired, IsWiringOf, Tells, is_wired};

use crate::dump_text::DumpText;
use crate::fault::VcdFault;
use crate::finder::Finder;
use crate::probe::Probe;
use crate::samples::Samples;
use crate::wires::Wires;
use physical_stream::Head;
use std::alloc::Global;
use tydi_base::{Bits, List, Memory};

/// Where the clock and the signals of the streams are found.
#[derive(Drop)]
pub(crate) struct Harness {
    /// The number of the clock's code.
    pub(crate) clock: usize,
    /// One for each stream.
    pub(crate) probes: List<Probe>,
}

/// What is known of the wanted signals.
#[derive(Drop)]
pub(crate) enum Wiring {
    /// The declarations have not ended.
    Open,
    /// This is the first thing that is wrong with them.
    Wrong(VcdFault),
    /// All are found.
    Found(Harness),
}

/// The wanted signals, and the rows that they made so far.
#[derive(Drop)]
pub(crate) struct Sampler {
    pub(crate) heads: List<Head>,
    pub(crate) wiring: Wiring,
    pub(crate) samples: Samples,
}

/// Whether a word is this bit alone.
#[inline(always)]
fn is_bit(bit: bool, word: Option<&Bits>) -> bool
    ensures { result ≡ is_bit bit (option_map (λ bits. bits.now) word.entry) }
{
    match word {
        Some(bits) => bits.len() == 1 && bits.get(0) == bit,
        None => false,
    }
}

/// Whether the clock rises in the block.
#[inline(always)]
fn rises(wires: &Wires, clock: usize) -> bool
    ensures { result ≡ rises_by (words_before wires.now) (words_now wires.now) clock }
{
    is_bit(false, wires.before(clock)) && is_bit(true, wires.now(clock))
}

/// What is known of the wanted signals after a search for them.
fn wiring_of(found: Result<Harness, VcdFault>) -> Result<Wiring, Memory>
    ensures { IfOk result (IsWiringOf found) }
{
    match found {
        Ok(harness) => Ok(Wiring::Found(harness)),
        Err(VcdFault::Memory) => Err(Memory),
        Err(fault) => Ok(Wiring::Wrong(fault)),
    }
}

/// Adds the rows of the block's end, where all signals are found and the clock rises in it.
fn sample(
    alloc: Global,
    samples: &mut Samples,
    wiring: &Wiring,
    wires: &Wires,
) -> Result<(), Memory>
    requires { CanSampleAll wiring.now (words_before wires.now) }
    ensures { OnOk result (EndsBlock wiring.now (words_before wires.now) (words_now wires.now) samples.old samples.new) }
{
    match wiring {
        Wiring::Found(harness) => sample_by(alloc, samples, harness, wires),
        _ => Ok(()),
    }
}

/// The same with this clock and these streams.
fn sample_by(
    alloc: Global,
    samples: &mut Samples,
    harness: &Harness,
    wires: &Wires,
) -> Result<(), Memory>
    requires { All (CanSample (words_before wires.now)) harness.now.probes }
    ensures { OnOk result (EndsBlockBy harness.now (words_before wires.now) (words_now wires.now) samples.old samples.new) }
{
    if rises(wires, harness.clock) {
        samples.add(alloc, harness.probes.as_slice(), wires)
    } else {
        Ok(())
    }
}

impl Sampler {
    /// Nothing is known of the signals of these streams.
    pub(crate) fn new(alloc: Global, heads: List<Head>) -> Sampler
        ensures { IsNew heads result }
    {
        Sampler {
            heads,
            wiring: Wiring::Open,
            samples: Samples::new(alloc),
        }
    }

    /// The declarations end.
    pub(crate) fn wire(&mut self, alloc: Global, finder: Finder<'_>) -> Result<(), Memory>
        ensures { OnOk result (IsWired finder.entry self.old self.new) }
    {
        if self.is_wired() {
            return Ok(());
        }
        let found = finder.harness(alloc, self.heads.as_slice());
        self.wiring = wiring_of(found)?;
        Ok(())
    }

    /// Whether the declarations have ended.
    fn is_wired(&self) -> bool
        ensures { result ≡ is_wired self.now.wiring }
    {
        match self.wiring {
            Wiring::Open => false,
            _ => true,
        }
    }

    /// The block ends.
    pub(crate) fn end_block(&mut self, alloc: Global, wires: &Wires) -> Result<(), Memory>
        requires { CanSampleAll self.old.wiring (words_before wires.now) }
        ensures { OnOk result (EndsSampling (words_before wires.now) (words_now wires.now) self.old self.new) }
    {
        sample(alloc, &mut self.samples, &self.wiring, wires)
    }

    /// The text of the trace, none where it has over 64 MiB; or what is wrong.
    pub(crate) fn tell(self, alloc: Global) -> Result<Option<DumpText>, VcdFault>
        requires wired { is_wired self.wiring ≡ true }
        requires apart { IsTrue (are_heads self.heads) }
        ensures { Tells self result }
    {
        let Sampler {
            heads,
            wiring,
            samples,
        } = self;
        match wiring {
            Wiring::Open => unreachable!(),
            Wiring::Wrong(fault) => Err(fault),
            Wiring::Found(_) => samples.tell(alloc, heads),
        }
    }
}
