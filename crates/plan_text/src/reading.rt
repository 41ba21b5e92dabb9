//! A plan, read from its text.

ghost use Rattle.std.specs.Prelude.{◌≡◌, ◌<◌, ◌^◌, ◌-◌, length};
ghost use Rattle.std.specs.Char as chars;
ghost use Rattle.std.specs.List.{list_all};
ghost use Rattle.tydi_base.specs.Decimal.{is_decimal};
ghost use Rattle.tydi_base.specs.Reading.{Gives};
ghost use Rattle.plan_text.specs.Blocks as blocks;
ghost use Rattle.plan_text.specs.Faults.{fault_in};
ghost use Rattle.plan_text.specs.Lines.{told};
ghost use Rattle.plan_text.specs.LinesView.{line_in};
ghost use Rattle.plan_text.specs.Text as spec;

use crate::draft::Draft;
use crate::fault::PlanFault;
use crate::lines::{Line, Lines};
use crate::plan::{Plan, StreamPlan};
use std::alloc::Global;
use tydi_base::{List, Place, read_decimal};
use type_split::{Phys, Split};

/// The most cycles of a plan.
const MOST_CYCLES: u64 = 1_000_000;

/// Takes the next line that says something.
fn next_line<'a>(text: &[u8], lines: &mut Lines<'a>) -> Result<Line<'a>, PlanFault>
    requires { length text.now < 2 ^ 32 - 1 }
    ensures { Gives fault_in (λ line. (line_in line, told lines.new)) result (spec.next_of (spec.end_of text.now) (told lines.old)) }
{
    match lines.next_told() {
        Some(line) => Ok(line),
        None => Err(PlanFault::Syntax(Place::start().past(text))),
    }
}

/// Whether the first line is that of a plan.
#[tactic(auto, unfolding(crate::specs::Text::title_of))]
fn read_title(line: Line<'_>) -> Result<(), PlanFault>
    ensures { Gives fault_in (λ fine. fine) result (spec.title_of (line_in line.entry)) }
{
    if line.bytes == b"tydi-plan 1".as_slice() {
        Ok(())
    } else {
        Err(PlanFault::Syntax(line.place))
    }
}

/// Whether these are the digits of a number without leading zeros.
fn is_decimal(digits: &[u8]) -> bool
    ensures { result ≡ is_decimal digits.now }
{
    let leading_zero = digits.len() > 1 && digits[0] == b'0';
    !digits.is_empty() && !leading_zero && are_digits(digits)
}

/// Whether each of these bytes is `0` to `9`.
fn are_digits(bytes: &[u8]) -> bool
    ensures { result ≡ list_all chars.is_ascii_digit bytes.now }
{
    bytes.iter().all(|byte| byte.is_ascii_digit())
}

/// The number of cycles that the second line spells.
#[tactic(auto, unfolding(crate::specs::Text::cycles_of))]
fn read_cycles(line: Line<'_>) -> Result<u32, PlanFault>
    ensures { Gives fault_in (λ cycles. cycles) result (spec.cycles_of (line_in line.entry)) }
{
    if !line.bytes.starts_with(b"cycles ") {
        return Err(PlanFault::Syntax(line.place));
    }
    let digits = &line.bytes[7..];
    if !is_decimal(digits) {
        return Err(PlanFault::Syntax(line.place));
    }
    match read_decimal(digits) {
        Some(cycles) => {
            if cycles > MOST_CYCLES {
                Err(PlanFault::TooManyCycles(line.place))
            } else {
                Ok(cycles as u32)
            }
        }
        None => Err(PlanFault::TooManyCycles(line.place)),
    }
}

/// The number of cycles that the first two lines tell.
#[tactic(auto, unfolding(crate::specs::Text::header_of))]
fn read_header(text: &[u8], lines: &mut Lines<'_>) -> Result<u32, PlanFault>
    requires { length text.now < 2 ^ 32 - 1 }
    ensures { Gives fault_in (λ cycles. (cycles, told lines.new)) result (spec.header_of (spec.end_of text.now) (told lines.old)) }
{
    let first = next_line(text, lines)?;
    read_title(first)?;
    let second = next_line(text, lines)?;
    read_cycles(second)
}

/// The plans of all streams that the lines after the first two tell.
fn read_plans(
    alloc: Global,
    cycles: u32,
    streams: &[Phys],
    lines: &mut Lines<'_>,
) -> Result<List<StreamPlan>, PlanFault>
    ensures { Gives fault_in (λ plans. plans) result (blocks.read_plans cycles streams.now (told lines.old)) }
{
    let mut draft = Draft::new(alloc, streams)?;
    'lines: while let Some(line) = lines.next_told() {
        draft.add_line(alloc, cycles, line)?;
    }
    Ok(draft.plans(alloc, cycles)?)
}

/// The plan that a text spells for the streams of a split. A text has fewer than 2^32 - 1 bytes. Each error tells the first line at which a
/// fault stands: see `PlanFault`.
#[tactic(auto, unfolding(crate::specs::Text::plan_in_lines))]
pub fn read(alloc: Global, split: &Split<'_>, text: &[u8]) -> Result<Plan, PlanFault>
    requires { length text.now < 2 ^ 32 - 1 }
    ensures { Gives fault_in (λ plan. plan) result (spec.plan_of split.now.streams text.now) }
{
    let mut lines = Lines::new(text);
    let cycles = read_header(text, &mut lines)?;
    let streams = read_plans(alloc, cycles, split.streams.as_slice(), &mut lines)?;
    Ok(Plan { cycles, streams })
}
