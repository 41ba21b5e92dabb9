//! A run, read from its text.

ghost use Rattle.std.specs.Prelude.{◌≡◌, ◌<◌, ◌^◌, ◌-◌, length};
ghost use Rattle.tydi_base.specs.Reading.{Gives};
ghost use Rattle.vhdl_meaning.specs.RunFaults.{fault_in};
ghost use Rattle.vhdl_meaning.specs.RunDraft.{given_in};
ghost use Rattle.vhdl_meaning.specs.RunLinesView.{line_in};
ghost use Rattle.vhdl_meaning.specs.RunText as spec;

use crate::draft::Draft;
use crate::ordering::is_decimal;
use crate::run::{RunFault, SimRun};
use crate::run_filling::run_with;
use crate::run_lines::{RunLine, RunLines};
use physical_stream::Head;
use std::alloc::Global;
use tydi_base::{Place, read_decimal};
use vhdl_text::Bench;

/// The most cycles of a run.
const MOST_CYCLES: u64 = 1_000_000;

// Takes the next line.
fn next_line<'a>(text: &[u8], lines: &mut RunLines<'a>) -> Result<RunLine<'a>, RunFault>
    requires { length text.now < 2 ^ 32 - 1 }
    ensures { Gives fault_in (λ line. (line_in line, lines.new)) result (spec.next_of (spec.end_of text.now) lines.old) }
{
    match lines.take_line() {
        Some(line) => Ok(line),
        None => Err(RunFault::Syntax(Place::start().past(text))),
    }
}

// Whether the first line is that of a run.
#[tactic(auto, unfolding(crate::specs::RunText::title_of))]
fn read_title(line: RunLine<'_>) -> Result<(), RunFault>
    ensures { Gives fault_in (λ fine. fine) result (spec.title_of (line_in line.entry)) }
{
    if line.bytes == b"tydi-run 1".as_slice() {
        Ok(())
    } else {
        Err(RunFault::Syntax(line.place))
    }
}

// The number of cycles that the second line spells.
#[tactic(auto, unfolding(crate::specs::RunText::cycles_of))]
fn read_cycles(line: RunLine<'_>) -> Result<u32, RunFault>
    ensures { Gives fault_in (λ cycles. cycles) result (spec.cycles_of (line_in line.entry)) }
{
    if !line.bytes.starts_with(b"cycles ") {
        return Err(RunFault::Syntax(line.place));
    }
    let digits = &line.bytes[7..];
    if !is_decimal(digits) {
        return Err(RunFault::Syntax(line.place));
    }
    match read_decimal(digits) {
        Some(cycles) => {
            if cycles > MOST_CYCLES {
                Err(RunFault::TooManyCycles(line.place))
            } else {
                Ok(cycles as u32)
            }
        }
        None => Err(RunFault::TooManyCycles(line.place)),
    }
}

// The number of cycles that the first two lines spell.
#[tactic(auto, unfolding(crate::specs::RunText::header_of))]
fn read_header(text: &[u8], lines: &mut RunLines<'_>) -> Result<u32, RunFault>
    requires { length text.now < 2 ^ 32 - 1 }
    ensures { Gives fault_in (λ cycles. (cycles, lines.new)) result (spec.header_of (spec.end_of text.now) lines.old) }
{
    let first = next_line(text, lines)?;
    read_title(first)?;
    let second = next_line(text, lines)?;
    read_cycles(second)
}

// The lines after the first two.
fn read_lines(
    alloc: Global,
    cycles: u32,
    heads: &[Head],
    count: u32,
    lines: &mut RunLines<'_>,
) -> Result<Draft, RunFault>
    ensures { Gives fault_in (λ draft. given_in draft) result (spec.given_of cycles heads.now count (spec.nothing_given (length heads.now)) lines.old) }
{
    let mut draft = Draft::new(alloc, heads)?;
    'lines: while let Some(line) = lines.take_line() {
        draft.add_line(alloc, cycles, heads, count, line)?;
    }
    Ok(draft)
}

/// The run that a text spells for a bench, as one that is well formed: its ready bits for each stream, all ones where a stream has no line, and its orders
/// for each cycle, the order 0, 1, 2 and so on where a cycle has no line. A text has fewer than 2^32 - 1 bytes. Each error reports the
/// first line that has one: see `RunFault`.
#[tactic(auto, unfolding(crate::specs::RunText::run_in_lines))]
pub fn read_run(alloc: Global, b: &Bench, text: &[u8]) -> Result<SimRun, RunFault>
    requires few { length b.now.procs < 2 ^ 32 }
    requires text { length text.now < 2 ^ 32 - 1 }
    ensures { Gives fault_in (λ run. run) result (spec.run_of b.now text.now) }
{
    let heads = b.heads.as_slice();
    let count = b.procs.len() as u32;
    let mut lines = RunLines::new(text);
    let cycles = read_header(text, &mut lines)?;
    let draft = read_lines(alloc, cycles, heads, count, &mut lines)?;
    Ok(run_with(alloc, cycles, count, draft)?)
}
