ghost use Rattle.std.specs.Prelude.{◌≡◌, if◌then◌else◌, Some, None};
ghost use Rattle.physical_stream.specs.Cycles.{cycle_in};
ghost use Rattle.vhdl_meaning.specs.Lines.{row_in};

use crate::lines::Lines;
use crate::process::Process;
use crate::sim::Sim;
use crate::starting::{begin_all, clear_all, zero_all};
use crate::turn::edge_all;
use physical_stream::Row;
use std::alloc::Global;
use tydi_base::Memory;
use vhdl_text::Bench;

// The row of a stream with these signals and this ready bit.
fn row_of(lines: &Lines, ready: bool) -> Row<'_>
    ensures { cycle_in result ≡ row_in lines.now ready }
{
    if lines.valid {
        Row {
            ready,
            shown: Some(&lines.held),
        }
    } else {
        Row { ready, shown: None }
    }
}

impl Sim {
    ghost use Rattle.std.specs.Prelude.{◌≡◌, ◌<◌, ◌++◌, [], ◌∷◌, length, List, IfOk};
    ghost use Rattle.physical_stream.specs.Cycles.{cycle_in};
    ghost use Rattle.vhdl_text.specs.WellFormed.{IsWellFormed};
    ghost use Rattle.vhdl_text.specs.declared.bench.Bench.{Bench};
    ghost use Rattle.vhdl_meaning.specs.Meaning.{Edge, IsOrder};
    ghost use Rattle.vhdl_meaning.specs.Simulated.{StandsFor, IsRowOf};

    /// The bench before its first edge, each of its processes at its first wait. Memory where there is not enough for the places of
    /// the processes and the values of the signals.
    pub fn new(alloc: Global, b: Bench) -> Result<Sim, Memory>
        requires { IsWellFormed b }
        ensures { IfOk result (λ sim. StandsFor sim b []) }
    {
        let mut lines = zero_all(alloc, b.heads.as_slice())?;
        let mut places = Vec::new(alloc);
        places.resize(b.procs.len(), Process::at_start())?;
        begin_all(&b, places.as_mut_slice(), lines.as_mut_slice());
        Ok(Sim {
            bench: b,
            places,
            lines,
        })
    }

    /// Goes back to before the first edge. It takes no memory.
    pub fn restart(&mut self)
        ensures bench { self.new.bench ≡ self.old.bench }
        ensures stands { StandsFor self.new self.old.bench [] }
    {
        clear_all(self.bench.heads.as_slice(), self.lines.as_mut_slice());
        begin_all(
            &self.bench,
            self.places.as_mut_slice(),
            self.lines.as_mut_slice(),
        );
    }

    /// One edge, with a ready bit for each stream, and an order in which each process stands once. It takes no memory.
    pub fn edge(&mut self, ready: &[bool], order: &[u32])
        requires { IsOrder (length self.old.bench.procs) order.now }
        ensures bench { self.new.bench ≡ self.old.bench }
        ensures stands { (bench : Bench) (edges : List Edge) → StandsFor self.old bench edges → StandsFor self.new bench (edges ++ record { ready = ready.now; order = order.now } ∷ []) }
    {
        edge_all(
            &self.bench,
            self.places.as_mut_slice(),
            self.lines.as_mut_slice(),
            ready,
            order,
        );
    }

    /// The current row of the stream of this number, with this ready bit.
    pub fn row(&self, stream: usize, ready: bool) -> Row<'_>
        requires { stream < length self.now.bench.heads }
        ensures { (bench : Bench) (edges : List Edge) → StandsFor self.now bench edges → IsRowOf bench edges stream ready (cycle_in result) }
    {
        row_of(&self.lines[stream], ready)
    }
}
