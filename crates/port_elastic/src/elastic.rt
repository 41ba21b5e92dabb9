//! The trace of a port that is driven through stages, before any of it is written.

ghost use Rattle.std.specs.Prelude.{◌≡◌, ◌++◌, true, length, min, IfOk};
ghost use Rattle.tydi_base.specs.Lengths.{most_bytes};
ghost use Rattle.tydi_base.specs.Reading.{Gives};
ghost use Rattle.logical_value.specs.Fits.{fits_split};
ghost use Rattle.logical_value.specs.Tree.{plain_port};
ghost use Rattle.type_split.specs.Streams.{IsPortSplit, plain_split};
ghost use Rattle.plan_text.specs.Laws.{FitsPort};
ghost use Rattle.net_text.specs.Laws.{FitsNet};
ghost use Rattle.elastic_net.specs.Nets.{left_of_chains};
ghost use Rattle.trace_pieces.specs.Rows.{AreShownFrom, rows_from};
ghost use Rattle.port_drive.specs.Faults.{reason_in};
ghost use Rattle.port_drive.specs.Finishing.{Finishes};
ghost use Rattle.port_elastic.specs.Elastic.{AreHigh, elastic_text};
ghost use Rattle.port_elastic.specs.PortText.{all_rows, rows_left, text_left};
ghost use Rattle.port_elastic.specs.Starting.{chains_of_net};

use crate::chains::elastic_run;
use crate::heads::{header_of, params_of};
use crate::trace::ElasticTrace;
use elastic_net::ElasticRun;
use logical_value::PortValue;
use net_text::NetPlan;
use physical_stream::Params;
use plan_text::Plan;
use port_drive::{DriveFault, heads_stand_together, measured};
use scheduler::Planner;
use std::alloc::Global;
use trace_pieces::TracePieces;
use tydi_base::List;
use type_split::Split;

/// The trace that drives a port with a value by a plan, through the stages of a net. `CountNotMultiple` comes exactly where a stream has no
/// schedule, with the first such stream; `NotFinished` exactly where each stream has one and not all transfers come to their sinks, with
/// the first such stream and how many of its transfers do not. `Memory` comes where there is none for the header or the chains. Nothing is
/// kept of the rows, which are gone over once to find the length.
pub fn elastic_port(
    alloc: Global,
    split: &Split<'_>,
    value: &PortValue,
    plan: Plan,
    net: NetPlan,
) -> Result<ElasticTrace, DriveFault>
    requires split { IsPortSplit (plain_split split.now) }
    requires value { fits_split (plain_split split.now) (plain_port value.now) ≡ true }
    requires plan { FitsPort split.now.streams plan }
    requires net { FitsNet (length split.now.streams) plan.cycles net }
    requires high { AreHigh split.now.streams }
    ensures text { Gives reason_in (λ trace. text_left trace.pieces) result (elastic_text (plain_split split.now) (plain_port value.now) plan net) }
    ensures length { IfOk result (λ trace. trace.length ≡ min (length (text_left trace.pieces)) most_bytes) }
{
    heads_stand_together(split);
    let header = header_of(alloc, split.streams.as_slice(), plan.cycles)?;
    let streams = params_of(alloc, split.streams.as_slice())?;
    let run = elastic_run(alloc, split, value, plan, net)?;
    trace_of_run(header, streams, run)
}

/// The trace of these chains before their first row, where all transfers come to their sinks.
fn trace_of_run(
    header: List<u8>,
    streams: List<Params>,
    run: ElasticRun<Planner>,
) -> Result<ElasticTrace, DriveFault>
    requires shown { AreShownFrom streams 0 (rows_left run) }
    requires many { length streams ≡ length (left_of_chains (chains_of_net run)) }
    requires start { rows_left run ≡ all_rows run }
    ensures finishes { Finishes (left_of_chains (chains_of_net run)) result }
    ensures text { IfOk result (λ trace. text_left trace.pieces ≡ header ++ rows_from streams 0 (rows_left run)) }
    ensures length { IfOk result (λ trace. trace.length ≡ min (length (text_left trace.pieces)) most_bytes) }
{
    let mut run = run;
    match measured(streams.as_slice(), &mut run) {
        Ok(bytes) => Ok(whole_trace(header, streams, run, bytes)),
        Err(fault) => Err(fault),
    }
}

/// The trace of these chains before their first row, whose rows have so many bytes.
fn whole_trace(
    header: List<u8>,
    streams: List<Params>,
    run: ElasticRun<Planner>,
    bytes: u64,
) -> ElasticTrace
    requires shown { AreShownFrom streams 0 (rows_left run) }
    requires bytes { bytes ≡ min (length (rows_from streams 0 (rows_left run))) most_bytes }
    ensures text { text_left result.pieces ≡ header ++ rows_from streams 0 (rows_left run) }
    ensures length { result.length ≡ min (length (text_left result.pieces)) most_bytes }
{
    let length = bytes.saturating_add(header.len() as u64);
    ElasticTrace {
        pieces: TracePieces::new(header, streams, run),
        length,
    }
}
