//! The state that a survey keeps of a trace: a checker for each stream, and the first violation.

ghost use Rattle.std.specs.Prelude.{◌≡◌, List, map, option_map, IfOk, None, Some};
ghost use Rattle.physical_stream.specs.Cycles.{StreamTrace};
ghost use Rattle.physical_stream.specs.First.{IsFirst};
ghost use Rattle.cycle_trace.specs.Survey.{Answers, counts_of, earlier_of, first_unfinished, found_with, is_not_after};
ghost use Rattle.cycle_trace.specs.declared.surveying.counts.SurveyFault.TheVariants as faults;
ghost use Rattle.cycle_trace.specs.Surveying.{AreChecked, RowsSay, offence_of, offends_in, unfinished_of, unseen};
ghost use Rattle.cycle_trace.specs.Trace.{TraceText, streams_of};

use crate::surveying::counts::{Counts, SurveyFault};
use complexity_rules::Checker;
use physical_stream::{End, Head, Rule};
use std::alloc::Global;
use tydi_base::{List, Memory};

/// A violation: a stream breaks a rule in a cycle.
#[derive(Clone, Copy)]
pub struct FoundOffence {
    /// The number of the cycle, from 0.
    pub cycle: u32,
    /// The number of the stream in the header, from 0.
    pub stream: usize,
    /// The rule that is broken.
    pub rule: Rule,
}

impl FoundOffence {
    /// The error of a survey that found it.
    pub(crate) fn fault(self) -> SurveyFault
        ensures { result ≡ faults.Offence self.cycle self.stream self.rule }
    {
        SurveyFault::Offence {
            cycle: self.cycle,
            stream: self.stream,
            rule: self.rule,
        }
    }

    /// Whether it stands no later than the other: by cycle, then by stream, then by the number of the rule.
    fn is_not_after(self, other: FoundOffence) -> bool
        ensures { result ≡ is_not_after (offence_of self) (offence_of other) }
    {
        if self.cycle != other.cycle {
            return self.cycle < other.cycle;
        }
        if self.stream != other.stream {
            return self.stream < other.stream;
        }
        self.rule.number() <= other.rule.number()
    }
}

/// The result of a survey with a second kind of rule beside its own, such as the rule on tags. `found` is the result of the survey
/// by its own rules, and `other` the first violation of the second kind. The answer is that of a survey by both kinds: the
/// earlier of the two violations, or `found` where there is no second one. Want of memory in `found` stays.
pub fn with_offence(
    found: Result<Counts, SurveyFault>,
    other: Option<FoundOffence>,
) -> Result<Counts, SurveyFault>
    ensures { result ≡ found_with found (option_map offence_of other) }
{
    match other {
        None => found,
        Some(other) => or_offence(found, other),
    }
}

/// The same, where there is a violation of the second kind.
fn or_offence(
    found: Result<Counts, SurveyFault>,
    other: FoundOffence,
) -> Result<Counts, SurveyFault>
    ensures { result ≡ found_with found (Some (offence_of other)) }
{
    match found {
        Err(SurveyFault::Memory) => Err(SurveyFault::Memory),
        Err(
            SurveyFault::Offence {
                cycle,
                stream,
                rule,
            },
        ) => Err(earlier(
            FoundOffence {
                cycle,
                stream,
                rule,
            },
            other,
        )
        .fault()),
        Err(SurveyFault::Unfinished { stream: _, end: _ }) => Err(other.fault()),
        Ok(_) => Err(other.fault()),
    }
}

/// The earlier of two violations.
fn earlier(one: FoundOffence, other: FoundOffence) -> FoundOffence
    ensures { offence_of result ≡ earlier_of (offence_of one) (offence_of other) }
{
    if one.is_not_after(other) { one } else { other }
}

/// A stream that does not end whole, by its number from 0, and how it ends.
#[derive(Clone, Copy)]
pub(crate) struct FoundUnfinished {
    pub stream: usize,
    pub end: End,
}

/// A checker for each stream, which has seen no row.
pub(crate) fn checkers_of(alloc: Global, heads: &[Head]) -> Result<Vec<Checker>, Memory>
    ensures { IfOk result (λ checkers. AreChecked (map unseen heads.now) checkers.items) }
{
    let mut checkers = Vec::with_capacity(alloc, heads.len())?;
    'heads: for head in heads {
        checkers.push(Checker::new(alloc, head.params)?)?;
    }
    Ok(checkers)
}

/// The result for the rows so far: the counts. It fails with the first violation; where there is none, with the first stream that
/// does not end whole; and with `Memory`.
pub(crate) fn outcome_of(
    alloc: Global,
    found: Option<FoundOffence>,
    checkers: &[Checker],
) -> Result<Counts, SurveyFault>
    ensures { (t : TraceText) → RowsSay (offends_in t) t checkers.now found → Answers (offends_in t) (streams_of t) result }
{
    match found {
        Some(found) => Err(found.fault()),
        None => count(alloc, checkers),
    }
}

/// The counts of all streams, or the first one that does not end whole, where no row breaks a rule.
fn count(alloc: Global, checkers: &[Checker]) -> Result<Counts, SurveyFault>
    ensures { (t : TraceText) → AreChecked (streams_of t) checkers.now → IsFirst (offends_in t) None → Answers (offends_in t) (streams_of t) result }
{
    match unfinished(checkers) {
        Some(FoundUnfinished { stream, end }) => Err(SurveyFault::Unfinished { stream, end }),
        None => Ok(counts_of(alloc, checkers)?),
    }
}

/// The first stream that does not end whole.
fn unfinished(checkers: &[Checker]) -> Option<FoundUnfinished>
    ensures { (streams : List StreamTrace) → AreChecked streams checkers.now → option_map unfinished_of result ≡ first_unfinished 0 streams }
{
    'checkers: for (stream, checker) in checkers.iter().enumerate() {
        match checker.end() {
            End::Whole => {}
            end => return Some(FoundUnfinished { stream, end }),
        }
    }
    None
}

/// The transfers and the packets that each stream has done.
fn counts_of(alloc: Global, checkers: &[Checker]) -> Result<Counts, Memory>
    ensures { IfOk result (λ counts. (streams : List StreamTrace) → AreChecked streams checkers.now → counts ≡ counts_of streams) }
{
    let mut streams = List::new(alloc);
    'checkers: for checker in checkers {
        streams.push((checker.transfers(), checker.packets()))?;
    }
    Ok(Counts { streams })
}
