//! How the text of a trace is read: as what a survey of it finds.

ghost use Rattle.std.specs.Prelude.{◌≡◌, ◌++◌, ℕ, List, [], Ok, Err, IsOk, Result};
ghost use Rattle.cycle_trace.specs.ReaderView.{Finishes, StandsFor};
ghost use Rattle.cycle_trace.specs.SurveyorView.{AnswersTrace, SurveyorStands};
ghost use Rattle.cycle_trace.specs.Trace.{TraceText};
ghost use Rattle.cycle_trace.specs.TraceText.{trace_of};
ghost use Rattle.tydi_tool.specs.Reading.{IsRefusedBy, ReadsAs};
ghost use Rattle.tydi_tool.specs.Refusals.{refusal_of_trace};
ghost use Rattle.tydi_tool.specs.TraceFiles.{HasTrace, IsNew, StandsForBytes, reads_after};
ghost use Rattle.tydi_tool.specs.Traces.{ReadsTrace, IsKept};

use crate::answer::Reply;
use crate::reader::Reader;
use crate::refusal::{Detail, refused};
use cycle_trace::{Counts, SurveyFault, Surveyed, Surveyor, TraceFault, TraceReader};
use physical_stream::Head;
use std::alloc::Global;
use tydi_base::{List, Memory, Text};

/// The heads of a trace, and what a survey of it finds.
#[derive(Debug, Drop)]
pub struct Survey {
    pub heads: List<Head>,
    pub found: Result<Counts, SurveyFault>,
}

/// Reads the text of the trace of this word as it comes.
#[derive(Drop)]
pub(crate) struct TraceFile<'a> {
    word: &'a Text,
    reader: TraceReader<Surveyor>,
    fed: u64,
}

impl<'a> TraceFile<'a> {
    pub(crate) fn new(alloc: Global, word: &'a Text) -> TraceFile<'a>
        ensures { IsNew word.now result }
    {
        TraceFile {
            word,
            reader: TraceReader::new(alloc, Surveyor::new()),
            fed: 0,
        }
    }
}

impl Reader<Survey> for TraceFile<'_> {
    ghost reads = { reads_after };

    ghost fed = { λ file. file.fed };

    ghost stands = { StandsForBytes };

    fn feed(&mut self, alloc: Global, piece: &[u8]) -> Result<(), Memory> {
        self.fed += piece.len() as u64;
        self.reader.feed(alloc, piece)
    }

    fn finish(self, alloc: Global) -> Result<Survey, Reply> {
        let TraceFile { word, reader, .. } = self;
        survey_of(alloc, word, reader.finish(alloc))
    }
}

/// The survey of a text that was read to its end, or the reply to its error.
fn survey_of(
    alloc: Global,
    word: &Text,
    finished: Result<Surveyor, TraceFault>,
) -> Result<Survey, Reply>
    requires { HasTrace finished }
    ensures { (bytes : List ℕ) → Finishes SurveyorStands (trace_of bytes) finished → ReadsAs (ReadsTrace word.now bytes) result }
{
    match finished {
        Ok(surveyor) => found(surveyor.surveyed(alloc)),
        Err(fault) => Err(faulted(alloc, word, fault)),
    }
}

/// The heads and the result of a survey, or `Reply::Memory` where the survey ran out of memory.
fn found(surveyed: Surveyed) -> Result<Survey, Reply>
    ensures { IsKept surveyed.header.heads surveyed.found result }
{
    let Surveyed { header, found } = surveyed;
    if let Err(SurveyFault::Memory) = found {
        return Err(Reply::Memory);
    }
    Ok(Survey {
        heads: header.heads,
        found,
    })
}

/// The reply to a text with this error.
pub(crate) fn faulted(alloc: Global, word: &Text, fault: TraceFault) -> Reply
    ensures { IsRefusedBy (refusal_of_trace word.now fault) result }
{
    let file = Detail::Word(word);
    match fault {
        TraceFault::BadHeader(line) => refused(alloc, "BadHeader", &[file, Detail::Number(line)]),
        TraceFault::TooManyCycles => refused(alloc, "TooManyCycles", &[file]),
        TraceFault::BadRow(line) => refused(alloc, "BadRow", &[file, Detail::Number(line)]),
        TraceFault::WrongSignals(line) => {
            refused(alloc, "WrongSignals", &[file, Detail::Number(line)])
        }
        TraceFault::RowsMissing { want, got } => {
            let numbers = [file, Detail::Number(want), Detail::Number(got)];
            refused(alloc, "RowsMissing", &numbers)
        }
        TraceFault::RowsLeft(line) => refused(alloc, "RowsLeft", &[file, Detail::Number(line)]),
        TraceFault::Memory => Reply::Memory,
    }
}
