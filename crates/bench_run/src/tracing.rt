//! The text of the trace of a bench.

ghost use Rattle.std.specs.Prelude.{◌≡◌, ◌++◌, length, min, IfOk};
ghost use Rattle.tydi_base.specs.Lengths.{most_bytes};
ghost use Rattle.cycle_trace.specs.Trace.{params_of_heads};
ghost use Rattle.vhdl_text.specs.WellFormed.{IsWellFormed};
ghost use Rattle.vhdl_meaning.specs.RunLaws.{FitsBench};
ghost use Rattle.trace_pieces.specs.Rows.{AreShownFrom, rows_from};
ghost use Rattle.bench_run.specs.Traces.{rows_of, trace_text_of};
ghost use Rattle.bench_run.specs.TextLeft.{text_left};
ghost use Rattle.bench_run.specs.Turns.{rows_left};

use crate::bench_rows::BenchRows;
use cycle_trace::write_header;
use handshake::CycleFeed;
use physical_stream::{Head, Header, Params};
use std::alloc::Global;
use trace_pieces::{TracePieces, count_rows};
use tydi_base::{List, Memory};
use vhdl_meaning::SimRun;
use vhdl_text::Bench;

/// The text of the trace of a bench, none of which was given yet.
#[derive(Drop)]
pub struct BenchTrace {
    /// The text, which is made as it is asked for.
    pub pieces: TracePieces<BenchRows>,
    /// Its bytes, or the greatest number of 64 bits where there are more.
    pub length: u64,
}

/// The parameters of streams.
fn params_of(alloc: Global, heads: &[Head]) -> Result<List<Params>, Memory>
    ensures { IfOk result (λ streams. streams ≡ params_of_heads heads.now) }
{
    let mut streams = List::with_capacity(alloc, heads.len())?;
    'heads: for head in heads {
        streams.push(head.params)?;
    }
    Ok(streams)
}

/// The text of the trace of a bench under a run. Want of memory is the one error: of room for the header, for the values of the signals and for
/// the places of the processes. No edge takes memory, so no other can come later.
pub fn bench_trace(alloc: Global, bench: Bench, run: SimRun) -> Result<BenchTrace, Memory>
    requires bench { IsWellFormed bench }
    requires run { FitsBench bench run }
    ensures text { IfOk result (λ trace. text_left trace.pieces ≡ trace_text_of bench run) }
    ensures length { IfOk result (λ trace. trace.length ≡ min (length (text_left trace.pieces)) most_bytes) }
{
    let Bench { heads, procs } = bench;
    let header = Header {
        cycles: run.cycles,
        heads,
    };
    let streams = params_of(alloc, header.heads.as_slice())?;
    let mut text = List::new(alloc);
    write_header(alloc, &mut text, &header)?;
    let Header { heads, .. } = header;
    let rows = BenchRows::new(alloc, Bench { heads, procs }, run)?;
    Ok(measured(text, streams, rows))
}

/// The text of this header and of the rows of these streams, with its bytes.
fn measured(header: List<u8>, streams: List<Params>, rows: BenchRows) -> BenchTrace
    requires shown { AreShownFrom streams 0 (rows_left rows) }
    requires start { rows_left rows ≡ rows_of rows.sim.bench rows.run }
    ensures text { text_left result.pieces ≡ header ++ rows_from streams 0 (rows_left rows) }
    ensures length { result.length ≡ min (length (text_left result.pieces)) most_bytes }
{
    let mut rows = rows;
    let bytes = count_rows(streams.as_slice(), &mut rows);
    rows.rewind();
    let length = (header.len() as u64).saturating_add(bytes);
    BenchTrace {
        pieces: TracePieces::new(header, streams, rows),
        length,
    }
}
