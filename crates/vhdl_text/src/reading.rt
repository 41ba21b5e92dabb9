//! The bench that a text spells.

ghost use Rattle.std.specs.Prelude.{◌≡◌, ◌+◌, ◌≤◌, length};
ghost use Rattle.tydi_base.specs.Pieces.{pieces_of};
ghost use Rattle.tydi_base.specs.Reading.{Gives};
ghost use Rattle.tydi_reading.specs.Reading.{Reads, took};
ghost use Rattle.vhdl_text.specs.Reading as spec;
ghost use Rattle.vhdl_text.specs.Reading.{bench_of, fault_in, no_procs, the_lines};
ghost use Rattle.vhdl_text.specs.Streams.{AreNamed};
ghost use Rattle.vhdl_text.specs.Text.{frame_text};
ghost use Rattle.vhdl_text.specs.WellFormed.{AreApart};

use crate::bench::{Bench, Stmt};
use crate::cuts::cut_last;
use crate::fault::VhdlFault;
use crate::frame::Frame;
use crate::lines::{Lines, expect_line, expect_lines};
use crate::processes::Processes;
use crate::refusal::{Fault, Refusal};
use crate::stream_comments::read_heads;
use crate::streams::Streams;
use physical_stream::Head;
use std::alloc::Global;
use tydi_base::{LINE_FEED, List};
use tydi_reading::{Pieces, Source};

/// The bench of which this is the text, as `print_bench` writes it. Else the first line that makes the text none, by the offset of its first
/// byte: a text has to be lines that end with an LF each, with no byte after the last one. Memory comes where there is none for the bench,
/// or for what reading keeps beside it: the paths of the streams, and the frame that the text is to have.
pub fn read_bench(alloc: Global, text: &[u8]) -> Result<Bench, VhdlFault>
    ensures { Gives fault_in (λ bench. bench) result (bench_of text.now) }
{
    let Some((front, back)) = cut_last(text, LINE_FEED) else {
        return Err(VhdlFault::NotForm(0));
    };
    let mut lines: Lines<'_> = Pieces::new(front);
    match bench_from(alloc, &mut lines) {
        Ok(bench) => whole(bench, front, &lines, back),
        Err(fault) => Err(told_at(offset_of(front, &lines), fault)),
    }
}

/// A bench, where no line is left and no byte follows the last LF.
fn whole(bench: Bench, front: &[u8], lines: &Lines<'_>, back: &[u8]) -> Result<Bench, VhdlFault>
    ensures { Gives fault_in (λ found. found) result (spec.whole (length front.now + 1) back.now (took bench lines.now)) }
{
    if !lines.is_at_end() {
        return Err(VhdlFault::NotForm(offset_of(front, lines)));
    }
    if !back.is_empty() {
        return Err(VhdlFault::NotForm(offset_of(front, lines)));
    }
    Ok(bench)
}

/// Where the next of these lines begins, counted in bytes from 0. They are what is left of all lines of a text, which here lacks its last LF.
/// Where none is left, it is the place after that LF.
fn offset_of(text: &[u8], lines: &Lines<'_>) -> usize
    ensures { result ≡ spec.offset_of (length text.now + 1) lines.now }
{
    if lines.is_at_end() {
        text.len() + 1
    } else {
        text.len().saturating_sub(lines.bytes_left())
    }
}

/// The fault of a text that is refused so at the line of this offset.
fn told_at(offset: usize, fault: Fault) -> VhdlFault
    ensures { result ≡ spec.told_at offset fault }
{
    match fault {
        Fault::Refused => VhdlFault::NotForm(offset),
        Fault::Unfit(Refusal::UnknownSignal) => VhdlFault::UnknownSignal(offset),
        Fault::Unfit(Refusal::SecondDriver) => VhdlFault::TwoDrivers(offset),
        Fault::Memory => VhdlFault::Memory,
    }
}

/// The bench that lines begin with.
#[tactic(auto, unfolding(crate::specs::Reading::bench_from))]
fn bench_from(alloc: Global, lines: &mut Lines<'_>) -> Result<Bench, Fault>
    ensures { Reads (spec.bench_from lines.old) result lines.new }
{
    expect_line(lines, b"-- tydi-bench 1")?;
    let heads = read_heads(alloc, lines)?;
    body_of(alloc, heads, lines)
}

/// A bench of these streams, from the line after their comments.
#[tactic(auto, unfolding(crate::specs::Reading::body_of))]
fn body_of(alloc: Global, heads: List<Head>, lines: &mut Lines<'_>) -> Result<Bench, Fault>
    requires apart { AreApart heads }
    requires few { length heads ≤ 65536 }
    ensures { Reads (spec.body_of heads lines.old) result lines.new }
{
    expect_frame(alloc, heads.as_slice(), lines)?;
    let streams = Streams::new(alloc, heads)?;
    let procs = read_procs(alloc, &streams, lines)?;
    Ok(Bench {
        heads: streams.heads,
        procs,
    })
}

/// Takes the lines of the frame of a bench of these streams.
fn expect_frame(alloc: Global, heads: &[Head], lines: &mut Lines<'_>) -> Result<(), Fault>
    ensures { Reads (the_lines (pieces_of 10 (frame_text heads.now)) lines.old) result lines.new }
{
    let mut frame = List::new(alloc);
    frame.emit(&Frame(heads))?;
    expect_lines(lines, frame.as_slice())
}

/// The processes up to the end of the architecture.
fn read_procs(
    alloc: Global,
    streams: &Streams,
    lines: &mut Lines<'_>,
) -> Result<List<List<Stmt>>, Fault>
    requires { AreNamed streams.now }
    ensures { Reads (spec.procs_from streams.now.heads no_procs lines.old) result lines.new }
{
    let mut processes = Processes::none(alloc, streams.heads.len())?;
    'lines: while let Some(line) = lines.first() {
        if processes.ends(line) {
            lines.skip();
            return Ok(processes.procs);
        }
        processes.take(alloc, streams, line)?;
        lines.skip();
    }
    Err(Fault::Refused)
}
