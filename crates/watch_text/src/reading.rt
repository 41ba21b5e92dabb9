//! The monitor that a text spells.

ghost use Rattle.std.specs.Prelude.{◌≡◌, ◌+◌, [], length, map};
ghost use Rattle.tydi_base.specs.Pieces.{pieces_of};
ghost use Rattle.tydi_base.specs.Reading.{Gives};
ghost use Rattle.tydi_reading.specs.Reading.{Reads, took};
ghost use Rattle.vhdl_text.specs.Reading as vhdl;
ghost use Rattle.vhdl_text.specs.Reading.{the_lines};
ghost use Rattle.watch_text.specs.Reading as spec;
ghost use Rattle.watch_text.specs.Text.{entity_text};
ghost use Rattle.watch_text.specs.Reading.{fault_in, watch_of};
ghost use Rattle.watch_text.specs.Statements.{plain_statements, plain_watch};

use crate::fault::WatchFault;
use crate::forms::Forms;
use crate::shaping::entity_of;
use crate::statement_reading::process_of;
use crate::table_reading::read_tables;
use crate::watch::{WStmt, Watch};
use physical_stream::{Head, Item};
use std::alloc::Global;
use tydi_base::{LINE_FEED, List};
use tydi_reading::{Pieces, Source};
use vhdl_text::{Fault, Lines, cut_last, expect_line, expect_lines, read_heads};

/// The monitor of which this is the text, as `print_watch` writes it. Else the first line that makes the text none, by the offset of its
/// first byte: a text has to be lines that end with an LF each, with no byte after the last one. Memory comes where there is none for the
/// monitor, or for what reading keeps beside it: the paths of the streams, and the lines that a stream is to have.
pub fn read_watch(alloc: Global, text: &[u8]) -> Result<Watch, WatchFault>
    ensures { Gives fault_in plain_watch result (watch_of text.now) }
{
    let Some((front, back)) = cut_last(text, LINE_FEED) else {
        return Err(WatchFault::NotForm(0));
    };
    let mut lines: Lines<'_> = Pieces::new(front);
    match watch_from(alloc, &mut lines) {
        Ok(watch) => whole(watch, front, &lines, back),
        Err(fault) => Err(told_at(offset_of(front, &lines), fault)),
    }
}

/// A monitor, where no line is left and no byte follows the last LF.
fn whole(watch: Watch, front: &[u8], lines: &Lines<'_>, back: &[u8]) -> Result<Watch, WatchFault>
    ensures { Gives fault_in plain_watch result (spec.whole (length front.now + 1) back.now (took (plain_watch watch) lines.now)) }
{
    if !lines.is_at_end() {
        return Err(WatchFault::NotForm(offset_of(front, lines)));
    }
    if !back.is_empty() {
        return Err(WatchFault::NotForm(offset_of(front, lines)));
    }
    Ok(watch)
}

/// Where the next of these lines begins, counted in bytes from 0. They are what is left of all lines of a text, which here lacks its last LF.
/// Where none is left, it is the place after that LF.
fn offset_of(text: &[u8], lines: &Lines<'_>) -> usize
    ensures { result ≡ vhdl.offset_of (length text.now + 1) lines.now }
{
    if lines.is_at_end() {
        text.len() + 1
    } else {
        text.len().saturating_sub(lines.bytes_left())
    }
}

/// The fault of a text that is refused so at the line of this offset.
fn told_at(offset: usize, fault: Fault) -> WatchFault
    ensures { result ≡ spec.told_at offset fault }
{
    match fault {
        Fault::Refused => WatchFault::NotForm(offset),
        Fault::Unfit(_) => WatchFault::NotForm(offset),
        Fault::Memory => WatchFault::Memory,
    }
}

/// The monitor that lines begin with.
#[tactic(auto, unfolding(crate::specs::Reading::watch_from))]
fn watch_from(alloc: Global, lines: &mut Lines<'_>) -> Result<Watch, Fault>
    ensures { spec.ReadsSeen plain_watch (spec.watch_from lines.old) result lines.new }
{
    expect_line(lines, b"-- tydi-watch 1")?;
    let heads = read_heads(alloc, lines)?;
    body_of(alloc, heads, lines)
}

/// A monitor of these streams, behind their comments.
#[tactic(auto, unfolding(crate::specs::Reading::body_of))]
fn body_of(alloc: Global, heads: List<Head>, lines: &mut Lines<'_>) -> Result<Watch, Fault>
    ensures { spec.ReadsSeen plain_watch (spec.body_of heads lines.old) result lines.new }
{
    expect_entity(alloc, heads.as_slice(), lines)?;
    let want = read_tables(alloc, heads.as_slice(), lines)?;
    processes_of(alloc, heads, want, lines)
}

/// A monitor behind its tables.
#[tactic(auto, unfolding(crate::specs::Reading::processes_of, crate::specs::Reading::closed))]
fn processes_of(
    alloc: Global,
    heads: List<Head>,
    want: List<List<Item>>,
    lines: &mut Lines<'_>,
) -> Result<Watch, Fault>
    ensures { spec.ReadsSeen plain_watch (spec.processes_of heads want lines.old) result lines.new }
{
    expect_line(lines, b"begin")?;
    let procs = read_processes(alloc, heads.as_slice(), lines)?;
    expect_line(lines, b"end architecture;")?;
    Ok(Watch { heads, want, procs })
}

/// The processes of these streams.
fn read_processes(
    alloc: Global,
    heads: &[Head],
    lines: &mut Lines<'_>,
) -> Result<List<List<WStmt>>, Fault>
    ensures { spec.ReadsSeen (map plain_statements) (spec.processes_from heads.now [] lines.old) result lines.new }
{
    let mut found = List::new(alloc);
    'heads: for head in heads {
        let forms = Forms::of(alloc, head)?;
        let process = process_of(alloc, &forms, lines)?;
        found.push(process)?;
    }
    Ok(found)
}

/// Takes the lines of the entity of a monitor of these streams.
fn expect_entity(alloc: Global, heads: &[Head], lines: &mut Lines<'_>) -> Result<(), Fault>
    ensures { Reads (the_lines (pieces_of 10 (entity_text heads.now)) lines.old) result lines.new }
{
    let entity = entity_of(alloc, heads)?;
    expect_lines(lines, entity.as_slice())
}
