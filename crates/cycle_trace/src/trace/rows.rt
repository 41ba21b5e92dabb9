//! The header and the rows of a trace, one by one and all in turn.

ghost use Rattle.std.specs.Prelude.{◌≡◌, ◌<◌, ◌∷◌, [], length, Some, None, OnOk};
ghost use Rattle.physical_stream.specs.Cycles.{cycle_in};
ghost use Rattle.cycle_trace.specs.Trace.{IsTrace, row_in};
ghost use Rattle.cycle_trace.specs.TraceView.{trace_view, IsShownIn};

use crate::reader::sink::RowSink;
use crate::trace::Trace;
use physical_stream::{Header, Row};
use std::alloc::Global;
use tydi_base::Memory;

impl Trace {
    /// Its header: the number of cycles, and the heads of its streams.
    pub fn header(&self) -> &Header
        ensures cycles { result.now.cycles ≡ (trace_view self.now).cycles }
        ensures heads { result.now.heads ≡ (trace_view self.now).heads }
        ensures whole { IsTrace (trace_view self.now) }
    {
        &self.header
    }

    /// The row of a stream in a cycle. Both are numbered from 0.
    pub fn row(&self, cycle: u32, stream: usize) -> Row<'_>
        requires cycle_in { cycle < (trace_view self.now).cycles }
        requires stream_in { stream < length (trace_view self.now).heads }
        ensures row { row_in (trace_view self.now) stream cycle ≡ cycle_in result ∷ [] }
        ensures shown { IsShownIn (trace_view self.now) stream (cycle_in result) }
    {
        let row = &self.rows.as_slice()[cycle as usize * self.header.heads.len() + stream];
        Row {
            ready: row.ready,
            shown: row.shown.as_ref(),
        }
    }

    /// Gives a sink the header and all rows. It fails with `Memory` exactly where the sink does. The sink keeps its setting.
    pub fn replay<K: RowSink>(&self, alloc: Global, sink: &mut K) -> Result<(), Memory>
        requires { K.stands_for sink.old None }
        ensures replayed { OnOk result (K.stands_for sink.new (Some (trace_view self.now))) }
        ensures setting { K.setting sink.new ≡ K.setting sink.old }
    {
        sink.start(alloc, &self.header)?;
        'rows: for row in self.rows.as_slice() {
            let row = Row {
                ready: row.ready,
                shown: row.shown.as_ref(),
            };
            sink.row(alloc, row)?;
        }
        Ok(())
    }
}
