//! A monitor, as it runs.

ghost use Rattle.std.specs.Prelude.{◌≡◌, ◌<◌, ℕ, List, [], Some, IfOk, length, slice_get};
ghost use Rattle.physical_stream.specs.Cycles.{Cycle, cycle_in};
ghost use Rattle.watch_text.specs.Statements.{PlainWatch, plain_watch};
ghost use Rattle.monitor_bench.specs.Meaning.{Process, place_of, processes_of, report_of};
ghost use Rattle.monitor_bench.specs.Standing.{CanTakeEdge, CanWatch, StandsFor, with_cycle};

use crate::processes::Processes;
use physical_stream::Row;
use std::alloc::Global;
use tydi_base::Memory;
use watch_text::Watch;

/// A monitor that runs, edge by edge. An edge takes no memory.
#[derive(Drop)]
pub struct WatchSim {
    pub(crate) watch: Watch,
    pub(crate) processes: Processes,
}

impl WatchSim {
    /// The monitor before the first edges of its processes. `Memory` comes where there is none for them.
    pub fn new(alloc: Global, watch: Watch) -> Result<WatchSim, Memory>
        requires { CanWatch (plain_watch watch) }
        ensures { IfOk result (λ sim. StandsFor sim (plain_watch watch) (λ stream. [])) }
    {
        let processes = Processes::new(alloc, &watch)?;
        Ok(WatchSim { watch, processes })
    }

    /// Makes one edge of the process of this number, at which its stream has this row. The others stay. It takes no memory.
    pub fn edge(&mut self, stream: usize, row: Row<'_>)
        requires { (watch : PlainWatch) × ((cycles : ℕ → List Cycle) × (StandsFor self.old watch cycles
            × CanTakeEdge watch cycles stream (cycle_in row))) }
        ensures { (watch : PlainWatch) (cycles : ℕ → List Cycle) → StandsFor self.old watch cycles
            → StandsFor self.new watch (with_cycle stream (cycle_in row.entry) cycles) }
    {
        self.processes.edge(&self.watch, stream, row);
    }

    /// The edge at which the process of this number raised its fault, counted from 0. None exactly where it has not.
    pub fn report(&self, stream: usize) -> Option<u32>
        requires { (watch : PlainWatch) × ((cycles : ℕ → List Cycle) × (StandsFor self.now watch cycles × (stream < length watch.heads))) }
        ensures { (watch : PlainWatch) (cycles : ℕ → List Cycle) (process : Process) → StandsFor self.now watch cycles
            → slice_get (processes_of watch) stream ≡ Some process → result ≡ report_of process (cycles stream) }
    {
        self.processes.report(stream)
    }

    /// How many items of the stream of this number were as expected, up to the first that was not.
    pub fn place(&self, stream: usize) -> u32
        requires { (watch : PlainWatch) × ((cycles : ℕ → List Cycle) × (StandsFor self.now watch cycles × (stream < length watch.heads))) }
        ensures { (watch : PlainWatch) (cycles : ℕ → List Cycle) (process : Process) → StandsFor self.now watch cycles
            → slice_get (processes_of watch) stream ≡ Some process → result ≡ place_of process (cycles stream) }
    {
        self.processes.place(stream)
    }
}
