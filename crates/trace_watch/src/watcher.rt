//! A watcher of the rows of a trace.

ghost use Rattle.std.specs.Prelude.{◌≡◌, true, None, Some, IfOk};
ghost use Rattle.physical_stream.specs.Cycles.{cycle_in};
ghost use Rattle.cycle_trace.specs.RowSink.{CanTake, IsHeader, begun_by, with_row};
ghost use Rattle.cycle_trace.specs.Trace.{TraceText};
ghost use Rattle.watch_text.specs.Statements.{PlainWatch, plain_watch};
ghost use Rattle.monitor_bench.specs.Standing.{CanWatch};
ghost use Rattle.trace_watch.specs.Standing.{WatcherStands, watch_in};
ghost use Rattle.trace_watch.specs.Texts.{IsWatchedTrace};

use crate::fault::WatchTraceFault;
use crate::heads::other_head;
use crate::watch_run::WatchRun;
use crate::watched::StreamWatched;
use cycle_trace::RowSink;
use physical_stream::{Header, Row};
use std::alloc::Global;
use tydi_base::{List, Memory};
use watch_text::Watch;

/// Runs the processes of a monitor over the rows of a trace, as they come. It is a fixed sink: it takes all its memory when it is made.
#[derive(Drop)]
pub(crate) struct Watcher<'w> {
    pub(crate) watch: &'w Watch,
    pub(crate) run: WatchRun,
    pub(crate) stage: Stage,
}

/// How far a watcher has come.
#[derive(Clone, Copy)]
pub(crate) enum Stage {
    /// No header came.
    Fresh,
    /// The heads of the trace are not the monitor's, first at this place.
    Other(usize),
    /// The heads are the monitor's, and rows came.
    Rows,
}

impl<'w> Watcher<'w> {
    /// A watcher with this monitor. It stands for nothing yet. `Memory` comes where there is none for the processes.
    pub(crate) fn new(alloc: Global, watch: &'w Watch) -> Result<Watcher<'w>, Memory>
        requires { CanWatch (plain_watch watch.now) }
        ensures stands { IfOk result (λ watcher. WatcherStands watcher None) }
        ensures watch { IfOk result (λ watcher. watch_in watcher ≡ plain_watch watch.now) }
    {
        let run = WatchRun::new(alloc, watch)?;
        Ok(Watcher {
            watch,
            run,
            stage: Stage::Fresh,
        })
    }

    /// Begins with the header of a trace. It takes no memory.
    pub(crate) fn begin(&mut self, header: &Header)
        requires fresh { WatcherStands self.old None }
        requires header { IsHeader header.now }
        ensures begun { WatcherStands self.new (Some (begun_by header.now)) }
        ensures watch { watch_in self.new ≡ watch_in self.old }
    {
        match other_head(header.heads.as_slice(), self.watch.heads.as_slice()) {
            Some(place) => self.stage = Stage::Other(place),
            None => self.stage = Stage::Rows,
        }
    }

    /// Takes the next row. It takes no memory.
    #[inline(always)]
    pub(crate) fn take(&mut self, row: Row<'_>)
        requires { (t : TraceText) × (WatcherStands self.old (Some t) × CanTake t (cycle_in row)) }
        ensures taken { (t : TraceText) → WatcherStands self.old (Some t) → CanTake t (cycle_in row.entry)
            → WatcherStands self.new (Some (with_row t (cycle_in row.entry))) }
        ensures watch { watch_in self.new ≡ watch_in self.old }
    {
        match self.stage {
            Stage::Rows => self.run.see(self.watch, row),
            _ => {}
        }
    }

    /// The answer for the rows that it was given. `Memory` comes where there is none for it.
    pub(crate) fn finish(self, alloc: Global) -> Result<List<StreamWatched>, WatchTraceFault>
        requires { (t : TraceText) × WatcherStands self (Some t) }
        ensures { (t : TraceText) → WatcherStands self.entry (Some t) → IsWatchedTrace (watch_in self.entry) t result }
    {
        match self.stage {
            Stage::Fresh => unreachable!(),
            Stage::Other(place) => Err(WatchTraceFault::OtherHeader(place)),
            Stage::Rows => match self.run.watched(alloc, self.watch) {
                Ok(found) => Ok(found),
                Err(Memory) => Err(WatchTraceFault::Memory),
            },
        }
    }
}

impl RowSink for Watcher<'_> {
    ghost stands_for = { WatcherStands };

    ghost fixed = { λ _. true };

    ghost Setting = { PlainWatch };

    ghost setting = { watch_in };

    fn start(&mut self, _alloc: Global, header: &Header) -> Result<(), Memory> {
        self.begin(header);
        Ok(())
    }

    fn row(&mut self, _alloc: Global, row: Row<'_>) -> Result<(), Memory> {
        self.take(row);
        Ok(())
    }
}
