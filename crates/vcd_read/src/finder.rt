//! Where the signals of the streams are found.

ghost use Rattle.std.specs.Prelude.{◌≡◌, ℕ, List, IfOk};
ghost use Rattle.vcd_read.specs.Finding.{Finds, FindsProbe, FindsProbes, FindsWiring, StandsFor, kept_by};
ghost use Rattle.vcd_read.specs.History.{Part, clock_in};
ghost use Rattle.vcd_read.specs.Variables.{HasNumber};
ghost use Rattle.vhdl_text.specs.Text.{plain_name};

use crate::fault::VcdFault;
use crate::probe::Probe;
use crate::sampler::Harness;
use crate::variables::Variables;
use crate::wires::Wires;
use physical_stream::Head;
use signal_layout::{Signal, Signals};
use std::alloc::Global;
use tydi_base::{List, Memory, emit};
use vhdl_text::signal_word;

/// The signals of the scope and their codes.
#[derive(Clone, Copy)]
pub(crate) struct Finder<'a> {
    pub(crate) variables: &'a Variables,
    pub(crate) wires: &'a Wires,
}

/// The name of a signal of a stream.
fn name_of(alloc: Global, head: &Head, signal: Signal) -> Result<List<u8>, Memory>
    ensures { IfOk result (λ name. name ≡ plain_name head.now signal) }
{
    let mut name = List::new(alloc);
    emit!(name; &head.path, ".", signal_word(signal))?;
    Ok(name)
}

impl Finder<'_> {
    /// The clock, and where the signals of the streams with these heads are found; or the first thing that is wrong with them.
    pub(crate) fn harness(self, alloc: Global, heads: &[Head]) -> Result<Harness, VcdFault>
        ensures { (scope : List (List ℕ)) (parts : List Part) → StandsFor scope parts self.entry → FindsWiring scope parts self.entry heads.now result }
    {
        match self.variables.clock {
            Some(clock) => self.harness_with(alloc, heads, clock),
            None => Err(VcdFault::NoClock),
        }
    }

    /// The same, with the clock.
    fn harness_with(self, alloc: Global, heads: &[Head], clock: usize) -> Result<Harness, VcdFault>
        ensures { (scope : List (List ℕ)) (parts : List Part) → StandsFor scope parts self.entry → HasNumber (kept_by self.entry) (clock_in scope parts) clock
            → FindsWiring scope parts self.entry heads.now result }
    {
        match self.probes(alloc, heads) {
            Ok(probes) => Ok(Harness { clock, probes }),
            Err(fault) => Err(fault),
        }
    }

    /// Where the signals of these streams are found; or the first thing that is wrong with them.
    fn probes(self, alloc: Global, heads: &[Head]) -> Result<List<Probe>, VcdFault>
        ensures { (scope : List (List ℕ)) (parts : List Part) → StandsFor scope parts self.entry → FindsProbes scope parts self.entry 0 heads.now result }
    {
        let mut probes = List::new(alloc);
        'streams: for stream in 0..heads.len() {
            match self.probe(alloc, stream, &heads[stream]) {
                Ok(probe) => probes.push(probe)?,
                Err(fault) => return Err(fault),
            }
        }
        Ok(probes)
    }

    /// Where the signals of the stream of this number are found.
    fn probe(self, alloc: Global, stream: usize, head: &Head) -> Result<Probe, VcdFault>
        ensures { (scope : List (List ℕ)) (parts : List Part) → StandsFor scope parts self.entry → FindsProbe scope parts self.entry stream head.now result }
    {
        let valid = self.number(alloc, stream, head, Signal::Valid)?;
        let ready = self.number(alloc, stream, head, Signal::Ready)?;
        let content = self.number(alloc, stream, head, Signal::Content)?;
        let last = self.number(alloc, stream, head, Signal::Last)?;
        let stai = self.number(alloc, stream, head, Signal::Stai)?;
        let endi = self.number(alloc, stream, head, Signal::Endi)?;
        let strb = self.number(alloc, stream, head, Signal::Strb)?;
        let user = self.number(alloc, stream, head, Signal::User)?;
        Ok(Probe {
            params: head.params,
            valid,
            ready,
            content,
            last,
            stai,
            endi,
            strb,
            user,
        })
    }

    /// The number of the code of a signal; none for a signal that the stream lacks.
    fn number(
        self,
        alloc: Global,
        stream: usize,
        head: &Head,
        signal: Signal,
    ) -> Result<Option<usize>, VcdFault>
        ensures { (scope : List (List ℕ)) (parts : List Part) → StandsFor scope parts self.entry → Finds scope parts self.entry stream head.now signal result }
    {
        let Some(width) = Signals::of(&head.params).width(signal) else {
            return Ok(None);
        };
        let name = name_of(alloc, head, signal)?;
        let Some(number) = self.variables.number(name.as_slice()) else {
            return Err(VcdFault::NoSignal(stream, signal));
        };
        if !self.wires.has_width(number, u64::from(width)) {
            return Err(VcdFault::OtherWidth(stream, signal));
        }
        Ok(Some(number))
    }
}
