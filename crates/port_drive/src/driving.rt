//! The trace of a port that is driven, before any of it is written.

ghost use Rattle.std.specs.Prelude.{◌≡◌, ◌++◌, true, length, min, IfOk};
ghost use Rattle.tydi_base.specs.Lengths.{most_bytes};
ghost use Rattle.tydi_base.specs.Reading.{Gives};
ghost use Rattle.logical_value.specs.Fits.{fits_split};
ghost use Rattle.logical_value.specs.Tree.{plain_port};
ghost use Rattle.type_split.specs.Streams.{IsPortSplit, plain_split};
ghost use Rattle.plan_text.specs.Laws.{FitsPort};
ghost use Rattle.handshake.specs.Rows.{undone_in};
ghost use Rattle.trace_pieces.specs.Rows.{AreShownFrom, rows_from};
ghost use Rattle.port_drive.specs.Faults.{reason_in};
ghost use Rattle.port_drive.specs.Finishing.{Finishes};
ghost use Rattle.port_drive.specs.PortText.{all_rows, rows_left, text_left};
ghost use Rattle.port_drive.specs.Starting.{runs_of_port};
ghost use Rattle.port_drive.specs.Text.{drive_text};

use crate::fault::DriveFault;
use crate::heads::{header_of, heads_stand_together, params_of};
use crate::measuring::measured;
use crate::running::port_run;
use crate::trace::PortTrace;
use handshake::PortRun;
use logical_value::PortValue;
use physical_stream::Params;
use plan_text::Plan;
use scheduler::Planner;
use std::alloc::Global;
use trace_pieces::TracePieces;
use tydi_base::List;
use type_split::Split;

/// The trace that drives a port with a value by a plan. `CountNotMultiple` comes exactly where a stream has no schedule, with the first
/// such stream; `NotFinished` exactly where each stream has one and a run leaves transfers, with the first such stream. `Memory` comes
/// where there is none for the header or the runs. Nothing is kept of the rows, which are gone over once to find the length.
pub fn port_trace(
    alloc: Global,
    split: &Split<'_>,
    value: &PortValue,
    plan: Plan,
) -> Result<PortTrace, DriveFault>
    requires split { IsPortSplit (plain_split split.now) }
    requires value { fits_split (plain_split split.now) (plain_port value.now) ≡ true }
    requires plan { FitsPort split.now.streams plan }
    ensures text { Gives reason_in (λ trace. text_left trace.pieces) result (drive_text (plain_split split.now) (plain_port value.now) plan) }
    ensures length { IfOk result (λ trace. trace.length ≡ min (length (text_left trace.pieces)) most_bytes) }
{
    heads_stand_together(split);
    let header = header_of(alloc, split.streams.as_slice(), plan.cycles)?;
    let streams = params_of(alloc, split.streams.as_slice())?;
    let run = port_run(alloc, split, value, plan)?;
    trace_of_run(header, streams, run)
}

/// The trace of these runs before their first row, where they finish.
fn trace_of_run(
    header: List<u8>,
    streams: List<Params>,
    run: PortRun<Planner>,
) -> Result<PortTrace, DriveFault>
    requires shown { AreShownFrom streams 0 (rows_left run) }
    requires many { length streams ≡ length (undone_in (runs_of_port run)) }
    requires start { rows_left run ≡ all_rows run }
    ensures finishes { Finishes (undone_in (runs_of_port run)) result }
    ensures text { IfOk result (λ trace. text_left trace.pieces ≡ header ++ rows_from streams 0 (rows_left run)) }
    ensures length { IfOk result (λ trace. trace.length ≡ min (length (text_left trace.pieces)) most_bytes) }
{
    let mut run = run;
    match measured(streams.as_slice(), &mut run) {
        Ok(bytes) => Ok(whole_trace(header, streams, run, bytes)),
        Err(fault) => Err(fault),
    }
}

/// The trace of these runs before their first row, whose rows have so many bytes.
fn whole_trace(
    header: List<u8>,
    streams: List<Params>,
    run: PortRun<Planner>,
    bytes: u64,
) -> PortTrace
    requires shown { AreShownFrom streams 0 (rows_left run) }
    requires bytes { bytes ≡ min (length (rows_from streams 0 (rows_left run))) most_bytes }
    ensures text { text_left result.pieces ≡ header ++ rows_from streams 0 (rows_left run) }
    ensures length { result.length ≡ min (length (text_left result.pieces)) most_bytes }
{
    let length = bytes.saturating_add(header.len() as u64);
    PortTrace {
        pieces: TracePieces::new(header, streams, run),
        length,
    }
}
