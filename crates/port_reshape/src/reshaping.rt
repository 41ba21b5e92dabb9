//! The trace at the far side of a port that is reshaped, before any of it is written.

ghost use Rattle.std.specs.Prelude.{◌≡◌, ◌≤◌, ◌++◌, ◌∷◌, [], true, length, min, slice_get, Some, IfOk};
ghost use Rattle.tydi_base.specs.Lengths.{most_bytes};
ghost use Rattle.tydi_base.specs.Reading.{Gives};
ghost use Rattle.logical_value.specs.Fits.{fits_split};
ghost use Rattle.logical_value.specs.Tree.{plain_port};
ghost use Rattle.type_split.specs.Streams.{IsPortSplit, plain_split};
ghost use Rattle.plan_text.specs.Laws.{FitsPort};
ghost use Rattle.trace_pieces.specs.Rows.{AreShownFrom, rows_from};
ghost use Rattle.port_drive.specs.Drives.{items_on};
ghost use Rattle.port_drive.specs.Faults.{reason_in};
ghost use Rattle.port_drive.specs.Finishing.{Finishes};
ghost use Rattle.reshape.specs.Standing.{to_of};
ghost use Rattle.port_reshape.specs.Far.{IsReshapable, far_params};
ghost use Rattle.port_reshape.specs.Reshapes.{reshape_text, source_of};
ghost use Rattle.port_reshape.specs.Starting.{left_in, rows_left, source_in, text_left};

use crate::far_side::{far_header, far_side, level_is_in_form, one_stream};
use crate::starting::run_between;
use crate::trace::ReshapedTrace;
use logical_value::PortValue;
use physical_stream::Params;
use plan_text::{Plan, StreamPlan};
use port_drive::{DriveFault, heads_stand_together, measured};
use reshape::ReshapeRun;
use scheduler::Planner;
use std::alloc::Global;
use trace_pieces::TracePieces;
use tydi_base::{Level, List};
use type_split::Split;
use value_views::view_items;

/// The trace at the far side of a port of one stream, with these lanes, 1 to 128, and this level: a value drives the stream by a plan,
/// whose ready bits are those of the far side. `CountNotMultiple` comes exactly where each transfer of the near side has an element in every
/// lane, and its lanes do not divide the elements; or else where this is so of the far side. `NotFinished` comes exactly where far transfers
/// are left, with their number. The stream of both is 0. `Memory` comes where there is none for the header or the run. Nothing is kept of
/// the rows, which are gone over once to find the length.
pub fn reshape_port(
    alloc: Global,
    split: &Split<'_>,
    value: &PortValue,
    plan: Plan,
    lanes: u16,
    level: Level,
) -> Result<ReshapedTrace, DriveFault>
    requires split { IsPortSplit (plain_split split.now) }
    requires value { fits_split (plain_split split.now) (plain_port value.now) ≡ true }
    requires plan { FitsPort split.now.streams plan }
    requires port { IsReshapable split.now.streams level }
    requires some { 1 ≤ lanes }
    requires most { lanes ≤ 128 }
    ensures text { Gives reason_in (λ trace. text_left trace.pieces) result (reshape_text (plain_split split.now) (plain_port value.now) plan lanes level) }
    ensures length { IfOk result (λ trace. trace.length ≡ min (length (text_left trace.pieces)) most_bytes) }
{
    heads_stand_together(split);
    level_is_in_form(level);
    let stream = &split.streams.as_slice()[0];
    let to = far_side(stream.params, lanes, level);
    let header = far_header(alloc, stream, to, plan.cycles)?;
    let streams = one_stream(alloc, to)?;
    let items = view_items(alloc, split, value, 0)?;
    let run = run_between(alloc, stream.params, to, items, only_plan(plan))?;
    trace_of_run(header, streams, run)
}

/// The plan of the one stream of a port.
fn only_plan(plan: Plan) -> StreamPlan
    requires { length plan.streams ≡ 1 }
    ensures { plan.streams ≡ result ∷ [] }
{
    let mut streams = plan.streams;
    match streams.pop() {
        Some(one) => one,
        None => unreachable!(),
    }
}

/// The trace of this run before its first row, where no far transfer is left.
fn trace_of_run(
    header: List<u8>,
    streams: List<Params>,
    run: ReshapeRun<Planner>,
) -> Result<ReshapedTrace, DriveFault>
    requires shown { AreShownFrom streams 0 (rows_left run) }
    requires many { length streams ≡ 1 }
    requires start { run.number ≡ 0 }
    ensures finishes { Finishes (left_in run) result }
    ensures text { IfOk result (λ trace. text_left trace.pieces ≡ header ++ rows_from streams 0 (rows_left run)) }
    ensures length { IfOk result (λ trace. trace.length ≡ min (length (text_left trace.pieces)) most_bytes) }
{
    let mut run = run;
    match measured(streams.as_slice(), &mut run) {
        Ok(bytes) => Ok(whole_trace(header, streams, run, bytes)),
        Err(fault) => Err(fault),
    }
}

/// The trace of this run before its first row, whose rows have so many bytes.
fn whole_trace(
    header: List<u8>,
    streams: List<Params>,
    run: ReshapeRun<Planner>,
    bytes: u64,
) -> ReshapedTrace
    requires shown { AreShownFrom streams 0 (rows_left run) }
    requires bytes { bytes ≡ min (length (rows_from streams 0 (rows_left run))) most_bytes }
    ensures text { text_left result.pieces ≡ header ++ rows_from streams 0 (rows_left run) }
    ensures length { result.length ≡ min (length (text_left result.pieces)) most_bytes }
{
    let length = bytes.saturating_add(header.len() as u64);
    ReshapedTrace {
        pieces: TracePieces::new(header, streams, run),
        length,
    }
}
