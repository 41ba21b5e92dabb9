ghost use Rattle.std.specs.Prelude.{◌≡◌, IfOk, None};
ghost use Rattle.physical_stream.specs.Cycles.{Cycle, cycle_in};
ghost use Rattle.cycle_trace.specs.RowSink.{CanTake, IsHeader, begun_by, with_row};
ghost use Rattle.cycle_trace.specs.SurveyorView.{AnswersTrace, IsSameBut, RunStands, SaysOf};
ghost use Rattle.cycle_trace.specs.Trace.{TraceText};

use crate::surveying::outcome::{FoundOffence, checkers_of, outcome_of};
use crate::surveying::surveyed::Surveyed;
use crate::trace::turn::{next_cycle, next_stream};
use complexity_rules::Checker;
use physical_stream::{Header, Row};
use std::alloc::Global;
use tydi_base::{Memory, TryClone};

/// A survey that has begun.
#[derive(Drop)]
pub(crate) struct SurveyRun {
    pub(crate) header: Header,
    pub(crate) checkers: Vec<Checker>,
    /// The cycle of the next row, from 0.
    pub(crate) cycle: u32,
    /// The stream of the next row, from 0.
    pub(crate) stream: usize,
    /// The first offence.
    pub(crate) found: Option<FoundOffence>,
}

impl SurveyRun {
    /// The survey of a trace with this header, of which no row has come.
    pub(crate) fn of(alloc: Global, header: &Header) -> Result<SurveyRun, Memory>
        requires { IsHeader header.now }
        ensures { IfOk result (λ run. RunStands run (begun_by header.now)) }
    {
        let checkers = checkers_of(alloc, header.heads.as_slice())?;
        Ok(SurveyRun {
            header: header.try_clone(alloc)?,
            checkers,
            cycle: 0,
            stream: 0,
            found: None,
        })
    }

    /// Sees the next row.
    #[inline(always)]
    pub(crate) fn see(&mut self, row: Row<'_>)
        requires { (t : TraceText) × (RunStands self.old t × CanTake t (cycle_in row)) }
        ensures { (t : TraceText) → RunStands self.old t → CanTake t (cycle_in row.entry) → RunStands self.new (with_row t (cycle_in row.entry)) }
    {
        self.judge(row);
        self.stream = next_stream(self.stream, self.header.heads.len());
        self.cycle = next_cycle(self.cycle, self.stream);
    }

    /// Looks for an offence in the next row, where none was found before.
    #[inline(always)]
    fn judge(&mut self, row: Row<'_>)
        requires { (t : TraceText) × (RunStands self.old t × CanTake t (cycle_in row)) }
        ensures says { (t : TraceText) → RunStands self.old t → CanTake t (cycle_in row.entry) → SaysOf (with_row t (cycle_in row.entry)) self.new }
        ensures same { IsSameBut self.old self.new }
    {
        match self.found {
            Some(_) => {}
            None => self.judge_first(row),
        }
    }

    /// Looks for the first offence in the next row.
    #[inline(always)]
    fn judge_first(&mut self, row: Row<'_>)
        requires none { self.old.found ≡ None }
        requires stands { (t : TraceText) × (RunStands self.old t × CanTake t (cycle_in row)) }
        ensures says { (t : TraceText) → RunStands self.old t → CanTake t (cycle_in row.entry) → SaysOf (with_row t (cycle_in row.entry)) self.new }
        ensures same { IsSameBut self.old self.new }
    {
        if let Some(rule) = self.checkers[self.stream].step(row) {
            self.found = Some(FoundOffence {
                cycle: self.cycle,
                stream: self.stream,
                rule,
            });
        }
    }

    /// The header, and what the survey finds.
    pub(crate) fn surveyed(self, alloc: Global) -> Surveyed
        ensures { (t : TraceText) → RunStands self t → AnswersTrace t result }
    {
        let found = outcome_of(alloc, self.found, self.checkers.as_slice());
        Surveyed {
            header: self.header,
            found,
        }
    }
}
