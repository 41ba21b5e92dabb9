//! The processes of a monitor, beside the monitor.

ghost use Rattle.std.specs.Prelude.{◌≡◌, ◌<◌, ℕ, List, [], Some, IfOk, length, slice_get};
ghost use Rattle.physical_stream.specs.Cycles.{Cycle, cycle_in};
ghost use Rattle.watch_text.specs.Statements.{PlainWatch, plain_watch};
ghost use Rattle.monitor_bench.specs.Meaning.{Process, place_of, processes_of, report_of};
ghost use Rattle.monitor_bench.specs.Standing.{AreAfter, CanTakeEdge, CanWatch, with_cycle};

use crate::process_sim::ProcessSim;
use physical_stream::Row;
use std::alloc::Global;
use tydi_base::Memory;
use watch_text::Watch;

/// Where each process of a monitor stands. The monitor is lent to each call that needs it.
#[derive(Drop)]
pub struct Processes {
    pub(crate) each: Vec<ProcessSim>,
}

impl Processes {
    /// The processes of a monitor before their first edges. `Memory` comes where there is none for them.
    pub fn new(alloc: Global, watch: &Watch) -> Result<Processes, Memory>
        requires { CanWatch (plain_watch watch.now) }
        ensures { IfOk result (AreAfter (plain_watch watch.now) (λ stream. [])) }
    {
        let mut each = Vec::new(alloc);
        'streams: for head in watch.heads.as_slice() {
            each.push(ProcessSim::new(alloc, &head.params)?)?;
        }
        Ok(Processes { each })
    }

    /// Makes one edge of the process of this number, at which its stream has this row. The others stay. It takes no memory.
    pub fn edge(&mut self, watch: &Watch, stream: usize, row: Row<'_>)
        requires { (cycles : ℕ → List Cycle) × (AreAfter (plain_watch watch.now) cycles self.old
            × CanTakeEdge (plain_watch watch.now) cycles stream (cycle_in row)) }
        ensures { (cycles : ℕ → List Cycle) → AreAfter (plain_watch watch.now) cycles self.old
            → AreAfter (plain_watch watch.now) (with_cycle stream (cycle_in row.entry) cycles) self.new }
    {
        let head = &watch.heads.as_slice()[stream];
        let want = watch.want.as_slice()[stream].as_slice();
        let process = watch.procs.as_slice()[stream].as_slice();
        self.each[stream].edge(&head.params, want, process, row);
    }

    /// The edge at which the process of this number raised its fault, counted from 0. None exactly where it has not.
    pub fn report(&self, stream: usize) -> Option<u32>
        requires { stream < length self.now.each.items }
        ensures { (watch : PlainWatch) (cycles : ℕ → List Cycle) (process : Process) → AreAfter watch cycles self.now
            → slice_get (processes_of watch) stream ≡ Some process → result ≡ report_of process (cycles stream) }
    {
        self.each[stream].report()
    }

    /// How many items of the stream of this number were as expected, up to the first that was not.
    pub fn place(&self, stream: usize) -> u32
        requires { stream < length self.now.each.items }
        ensures { (watch : PlainWatch) (cycles : ℕ → List Cycle) (process : Process) → AreAfter watch cycles self.now
            → slice_get (processes_of watch) stream ≡ Some process → result ≡ place_of process (cycles stream) }
    {
        self.each[stream].place()
    }
}
