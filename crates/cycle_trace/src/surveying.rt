//! The survey of a trace: the first violation, or the first stream that does not end whole, or counts. In its folder: the result, the
//! state that a survey keeps, and a sink of rows that surveys them as they come.

ghost use Rattle.cycle_trace.specs.Survey.{Answers};
ghost use Rattle.cycle_trace.specs.Surveying.{offends_in};
ghost use Rattle.cycle_trace.specs.Trace.{streams_of};
ghost use Rattle.cycle_trace.specs.TraceView.{trace_view};

use crate::surveying::counts::{Counts, SurveyFault};
use crate::surveying::surveyor::Surveyor;
use crate::trace::Trace;
use std::alloc::Global;

pub(crate) mod counts;
pub(crate) mod outcome;
pub(crate) mod run;
pub(crate) mod surveyed;
pub(crate) mod surveyor;

/// The transfers and the packets that each stream of a trace has done. It fails with the first violation of rules 1 to 10; where
/// there is none, with the first stream that does not end whole; and with `Memory`.
pub fn survey(alloc: Global, trace: &Trace) -> Result<Counts, SurveyFault>
    ensures { Answers (offends_in (trace_view trace.now)) (streams_of (trace_view trace.now)) result }
{
    let mut surveyor = Surveyor::new();
    trace.replay(alloc, &mut surveyor)?;
    surveyor.finish(alloc)
}
