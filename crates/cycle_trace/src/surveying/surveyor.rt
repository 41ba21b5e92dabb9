//! The survey of rows as they come.

ghost use Rattle.std.specs.Prelude.{◌≡◌, ◌<◌, ◌≤◌, Bool, true, Option, Some, None, OnOk, IsOk, IfSome, ℕ};
ghost use Rattle.physical_stream.specs.Cycles.{Cycle, cycle_in};
ghost use Rattle.cycle_trace.specs.RowSink.{CanTake, with_row};
ghost use Rattle.cycle_trace.specs.SurveyorView.{AnswersTrace, RunStands, SurveyorStands};
ghost use Rattle.cycle_trace.specs.Survey.{Answers};
ghost use Rattle.cycle_trace.specs.Surveying.{offends_in};
ghost use Rattle.cycle_trace.specs.Trace.{TraceText, streams_of};

use crate::reader::sink::RowSink;
use crate::surveying::counts::{Counts, SurveyFault};
use crate::surveying::run::SurveyRun;
use crate::surveying::surveyed::Surveyed;
use physical_stream::{Header, Row};
use std::alloc::Global;
use tydi_base::Memory;

/// A survey of rows as they come: it keeps of them a checker for each stream, and the first offence. It is a fixed sink.
#[derive(Drop)]
pub struct Surveyor {
    run: Option<SurveyRun>,
}

impl Surveyor {
    /// A survey that has not begun.
    pub fn new() -> Surveyor
        ensures { SurveyorStands result None }
    {
        Surveyor { run: None }
    }

    /// The header, and what the survey finds.
    pub fn surveyed(self, alloc: Global) -> Surveyed
        requires { (t : TraceText) × SurveyorStands self (Some t) }
        ensures { (t : TraceText) → SurveyorStands self (Some t) → AnswersTrace t result }
    {
        match self.run {
            Some(run) => run.surveyed(alloc),
            None => unreachable!(),
        }
    }

    /// The counts of a whole trace. It fails with the first violation; where there is none, with the first stream that does not end
    /// whole; and with `Memory`.
    pub fn finish(self, alloc: Global) -> Result<Counts, SurveyFault>
        requires { (t : TraceText) × SurveyorStands self (Some t) }
        ensures { (t : TraceText) → SurveyorStands self (Some t) → Answers (offends_in t) (streams_of t) result }
    {
        self.surveyed(alloc).found
    }
}

impl RowSink for Surveyor {
    ghost stands_for = { SurveyorStands };

    ghost fixed = { λ _. true };

    ghost Setting = { Unit {0} };

    ghost setting = { λ _. tt };

    fn start(&mut self, alloc: Global, header: &Header) -> Result<(), Memory> {
        self.run = Some(SurveyRun::of(alloc, header)?);
        Ok(())
    }

    fn row(&mut self, _alloc: Global, row: Row<'_>) -> Result<(), Memory> {
        if let Some(run) = &mut self.run {
            run.see(row);
        }
        Ok(())
    }
}
