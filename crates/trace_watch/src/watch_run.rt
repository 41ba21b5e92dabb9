//! The processes of a monitor over the rows of a trace whose header is the monitor's.

ghost use Rattle.std.specs.Prelude.{◌≡◌, ◌<◌, ℕ, List, Some, IfOk, length, slice_get};
ghost use Rattle.physical_stream.specs.Cycles.{Cycle, cycle_in};
ghost use Rattle.cycle_trace.specs.RowSink.{CanTake, with_row};
ghost use Rattle.cycle_trace.specs.Trace.{TraceText, streams_of};
ghost use Rattle.watch_text.specs.Statements.{PlainWatch, plain_watch};
ghost use Rattle.monitor_bench.specs.Meaning.{Process, processes_of};
ghost use Rattle.monitor_bench.specs.Standing.{AreAfter, CanWatch};
ghost use Rattle.trace_watch.specs.Standing.{IsFresh, RunsOver};
ghost use Rattle.trace_watch.specs.Watched.{watched_by, watched_of};

use crate::watched::StreamWatched;
use monitor_bench::Processes;
use physical_stream::Row;
use std::alloc::Global;
use tydi_base::{List, Memory};
use watch_text::Watch;

/// Where the processes of a monitor stand.
#[derive(Drop)]
pub(crate) struct WatchRun {
    pub(crate) processes: Processes,
    /// How many rows were taken.
    pub(crate) rows: usize,
}

impl WatchRun {
    /// The processes of a monitor before the first row. `Memory` comes where there is none for them.
    pub(crate) fn new(alloc: Global, watch: &Watch) -> Result<WatchRun, Memory>
        requires { CanWatch (plain_watch watch.now) }
        ensures { IfOk result (IsFresh (plain_watch watch.now)) }
    {
        let processes = Processes::new(alloc, watch)?;
        Ok(WatchRun { processes, rows: 0 })
    }

    /// Takes the next row. It takes no memory.
    #[inline(always)]
    pub(crate) fn see(&mut self, watch: &Watch, row: Row<'_>)
        requires { (t : TraceText) × (RunsOver (plain_watch watch.now) t self.old × CanTake t (cycle_in row)) }
        ensures { (t : TraceText) → RunsOver (plain_watch watch.now) t self.old → CanTake t (cycle_in row.entry)
            → RunsOver (plain_watch watch.now) (with_row t (cycle_in row.entry)) self.new }
    {
        let streams = watch.heads.len();
        let stream = self.rows % streams;
        self.processes.edge(watch, stream, row);
        self.rows += 1;
    }

    /// The answer of each process for its stream. `Memory` comes where there is none for it.
    pub(crate) fn watched(
        &self,
        alloc: Global,
        watch: &Watch,
    ) -> Result<List<StreamWatched>, Memory>
        requires { (t : TraceText) × RunsOver (plain_watch watch.now) t self.now }
        ensures { (t : TraceText) → RunsOver (plain_watch watch.now) t self.now
            → IfOk result (λ found. found ≡ watched_of (plain_watch watch.now) (streams_of t)) }
    {
        let mut found = List::new(alloc);
        'streams: for stream in 0..watch.heads.len() {
            found.push(watched_at(&self.processes, stream))?;
        }
        Ok(found)
    }
}

/// The answer of the process of this number for its stream.
fn watched_at(processes: &Processes, stream: usize) -> StreamWatched
    requires { stream < length processes.now.each.items }
    ensures { (watch : PlainWatch) (cycles : ℕ → List Cycle) (process : Process) → AreAfter watch cycles processes.now
        → slice_get (processes_of watch) stream ≡ Some process → result ≡ watched_by process (cycles stream) }
{
    StreamWatched {
        place: processes.place(stream),
        report: processes.report(stream),
    }
}
