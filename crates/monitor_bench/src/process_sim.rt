//! One process of a monitor, as it runs.

ghost use Rattle.std.specs.Prelude.{◌≡◌, ◌<◌, ◌-◌, ◌^◌, ◌++◌, ◌∷◌, [], List, IfOk, IfSome, length};
ghost use Rattle.physical_stream.specs.Cycles.{Cycle, cycle_in};
ghost use Rattle.physical_stream.specs.Signals.{Fits};
ghost use Rattle.monitor_bench.specs.Meaning.{Process, place_of, report_of};
ghost use Rattle.monitor_bench.specs.Running.{process_with, reported};
ghost use Rattle.monitor_bench.specs.Standing.{IsAfter};

use crate::running::Running;
use physical_stream::{Item, Params, Row};
use std::alloc::Global;
use tydi_base::{Bits, Memory};
use watch_text::WStmt;

/// Where one process of a monitor stands.
#[derive(Drop)]
pub struct ProcessSim {
    pub(crate) running: Running,
    /// How many edges it made.
    pub(crate) edges: u32,
    /// The edge at which it raised its fault, counted from 0.
    pub(crate) report: Option<u32>,
}

impl ProcessSim {
    /// A process of a stream with these parameters, before its first edge. `Memory` comes where there is none for the word of an element.
    pub fn new(alloc: Global, p: &Params) -> Result<ProcessSim, Memory>
        ensures { (process : Process) → process.params ≡ p.now → IfOk result (IsAfter process []) }
    {
        let word = Bits::zeros(alloc, p.element as usize)?;
        let running = Running {
            place: 0,
            stopped: false,
            word,
        };
        Ok(ProcessSim {
            running,
            edges: 0,
            report: None,
        })
    }

    /// Makes one edge, at which the stream has this row. It takes no memory.
    pub fn edge(&mut self, p: &Params, want: &[Item], process: &[WStmt], row: Row<'_>)
        requires few { length want.now < 2 ^ 32 - 1 }
        requires shown { IfSome (cycle_in row).shown (Fits p.now) }
        requires after { (cycles : List Cycle) × (IsAfter (process_with p.now want.now process.now) cycles self.old × (length cycles < 2 ^ 32 - 1)) }
        ensures { (cycles : List Cycle) → IsAfter (process_with p.now want.now process.now) cycles self.old
            → IsAfter (process_with p.now want.now process.now) (cycles ++ cycle_in row.entry ∷ []) self.new }
    {
        self.running.row(p, want, process, row);
        self.report = reported(self.report, self.running.stopped, self.edges);
        self.edges += 1;
    }

    /// The edge at which it raised its fault, counted from 0. None exactly where it has not.
    pub fn report(&self) -> Option<u32>
        ensures { (process : Process) (cycles : List Cycle) → IsAfter process cycles self.now → result ≡ report_of process cycles }
    {
        self.report
    }

    /// How many items were as expected, up to the first that was not.
    pub fn place(&self) -> u32
        ensures { (process : Process) (cycles : List Cycle) → IsAfter process cycles self.now → result ≡ place_of process cycles }
    {
        self.running.place
    }
}

/// The report after this edge.
fn reported(report: Option<u32>, stopped: bool, edge: u32) -> Option<u32>
    ensures { result ≡ reported report stopped edge }
{
    match report {
        Some(first) => Some(first),
        None => stopped.then_some(edge),
    }
}
