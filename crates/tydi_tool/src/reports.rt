//! How a survey is reported.

ghost use Rattle.std.specs.Prelude.{◌≡◌, ◌<◌, ◌++◌, length, IfOk, OnOk};
ghost use Rattle.tydi_tool.specs.Ask.{Judges};
ghost use Rattle.tydi_tool.specs.Lines.{offence_line, pending_line, unclosed_line, counts_line, counts_text, legal_text};
ghost use Rattle.tydi_tool.specs.Reports.{Reports, ReportsEnd, IsFoundAmong, IsUnfinished, path_of_stream};
ghost use Rattle.tydi_tool.specs.declared.answer.Answer.TheVariants as answers;

use crate::answer::Reply;
use crate::ending::{answered, verdict};
use crate::traces::Survey;
use cycle_trace::SurveyFault;
use physical_stream::{End, Head, Rule};
use std::alloc::Global;
use tydi_base::{List, Memory, Path, emit};

/// The report of a survey.
pub(crate) fn report(alloc: Global, survey: &Survey) -> Reply
    requires { IsFoundAmong (length survey.now.heads) survey.now.found }
    ensures { Judges (Reports survey.now.heads survey.now.found) result }
{
    let heads = survey.heads.as_slice();
    match &survey.found {
        Ok(counts) => answered(alloc, legal(alloc, heads, counts.streams.as_slice())),
        Err(
            SurveyFault::Offence {
                cycle,
                stream,
                rule,
            },
        ) => verdict(offence(alloc, *cycle, path_of(heads, *stream), *rule)),
        Err(SurveyFault::Unfinished { stream, end }) => {
            verdict(unfinished(alloc, path_of(heads, *stream), *end))
        }
        Err(SurveyFault::Memory) => unreachable!(),
    }
}

/// The path of the stream of this number.
pub(crate) fn path_of(heads: &[Head], stream: usize) -> &Path
    requires { stream < length heads.now }
    ensures { result.now ≡ path_of_stream heads.now stream }
{
    &heads[stream].path
}

/// The text of a trace without offence whose streams end whole.
fn legal(alloc: Global, heads: &[Head], counts: &[(u64, u64)]) -> Result<List<u8>, Memory>
    ensures { IfOk result (λ text. text ≡ legal_text heads.now counts.now) }
{
    let mut text = List::from_slice(alloc, b"legal\n")?;
    push_all_counts(heads, counts, &mut text)?;
    Ok(text)
}

/// Adds the lines of the streams with these heads, each with its transfers and its packets.
pub(crate) fn push_all_counts(
    heads: &[Head],
    counts: &[(u64, u64)],
    text: &mut List<u8>,
) -> Result<(), Memory>
    ensures { OnOk result (text.new ≡ text.old ++ counts_text heads.now counts.now) }
{
    'streams: for (head, count) in heads.iter().zip(counts) {
        push_counts(&head.path, count.0, count.1, text)?;
    }
    Ok(())
}

/// Adds the line of a stream with its transfers and its packets.
fn push_counts(path: &Path, transfers: u64, packets: u64, text: &mut List<u8>) -> Result<(), Memory>
    ensures { OnOk result (text.new ≡ text.old ++ counts_line path.now transfers packets) }
{
    emit!(text; "stream ", path, " transfers ", transfers, " packets ", packets, "\n")
}

pub(crate) fn offence(
    alloc: Global,
    cycle: u32,
    path: &Path,
    rule: Rule,
) -> Result<List<u8>, Memory>
    ensures { IfOk result (λ line. line ≡ offence_line cycle path.now rule) }
{
    let mut line = List::new(alloc);
    emit!(line; "offence cycle ", cycle, " stream ", path, " rule ", rule.number(), " ", rule.name(), "\n")?;
    Ok(line)
}

/// The line of a stream that ends so, not whole.
pub(crate) fn unfinished(alloc: Global, path: &Path, end: End) -> Result<List<u8>, Memory>
    requires { IsUnfinished end }
    ensures { IfOk result (λ line. ReportsEnd path.now end (answers.Verdict line)) }
{
    match end {
        End::Whole => unreachable!(),
        End::Pending => pending(alloc, path),
        End::Unclosed(dimension) => unclosed(alloc, path, dimension),
    }
}

fn pending(alloc: Global, path: &Path) -> Result<List<u8>, Memory>
    ensures { IfOk result (λ line. line ≡ pending_line path.now) }
{
    let mut line = List::new(alloc);
    emit!(line; "unfinished stream ", path, " pending\n")?;
    Ok(line)
}

fn unclosed(alloc: Global, path: &Path, dimension: u8) -> Result<List<u8>, Memory>
    ensures { IfOk result (λ line. line ≡ unclosed_line path.now dimension) }
{
    let mut line = List::new(alloc);
    emit!(line; "unfinished stream ", path, " open ", dimension, "\n")?;
    Ok(line)
}
