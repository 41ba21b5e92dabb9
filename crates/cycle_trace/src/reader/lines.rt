//! One line more of a trace text, and its end.

ghost use Rattle.std.specs.Prelude.{◌≡◌, ◌↔◌, ◌++◌, ◌∷◌, [], ◌<◌, ◌≤◌, length, ℕ, List, true, false, IfErr, IfOk, IsSome, IsTrue, OnOk, Some, None, Err};
ghost use Rattle.tydi_base.specs.Pieces.{Lacks};
ghost use Rattle.tydi_base.specs.Reading.{Gives};
ghost use Rattle.cycle_trace.specs.Beginnings.{EndsIn, Fails, GoesOnLine};
ghost use Rattle.cycle_trace.specs.Faults.{fault_in};
ghost use Rattle.cycle_trace.specs.HeaderText.{is_head_line};
ghost use Rattle.cycle_trace.specs.LineBegun.{IsLong};
ghost use Rattle.cycle_trace.specs.ReaderView.{AfterLine, AfterRow, EndsInHeader, Finishes, Holds, MayLackMemory, OpensAt, OpensText, ReadsRows, Stands, StaysCalm, header_read, is_past_header};
ghost use Rattle.cycle_trace.specs.RowForm.{IsForm};
ghost use Rattle.cycle_trace.specs.RowsText.{cut_row};
ghost use Rattle.cycle_trace.specs.Trace.{TraceText, are_heads, most_cycles};
ghost use Rattle.cycle_trace.specs.TraceText.{trace_of};
ghost use Rattle.cycle_trace.specs.declared.fault.TraceFault.{TraceFault};
ghost use Rattle.cycle_trace.specs.declared.fault.TraceFault.TheVariants as faults;
ghost use Rattle.cycle_trace.specs.declared.reader.text.HeaderPart.TheVariants as parts;
ghost use Rattle.cycle_trace.specs.declared.reader.text.Stage.TheVariants as stages;

use crate::fault::TraceFault;
use crate::header::{is_head_line, next_head, read_cycles, read_title};
use crate::reader::line_begun::LineBegun;
use crate::reader::rows::RowsRead;
use crate::reader::sink::RowSink;
use crate::reader::text::{HeaderPart, Stage, TextRead};
use crate::row::form::RowForm;
use physical_stream::Header;
use std::alloc::Global;
use std::mem;
use tydi_base::{List, Memory};

/// The most cycles of a trace.
const MOST_CYCLES: u64 = 1_000_000;

/// Takes a line of this part of the header, or the first line after it, without its LF.
pub(crate) fn take_header_line<K: RowSink>(
    alloc: Global,
    sink: &mut K,
    text: &mut TextRead,
    part: HeaderPart,
    line: &[u8],
)
    requires part { text.old.stage ≡ stages.Header part }
    requires stands { (bytes : List ℕ) × Stands K.stands_for sink.old text.old line.now bytes }
    ensures stands { (bytes : List ℕ) → Stands K.stands_for sink.old text.old line.now bytes → Stands K.stands_for sink.new text.new [] (bytes ++ 10 ∷ []) }
    ensures fixed { K.fixed sink.new ≡ K.fixed sink.old }
    ensures setting { K.setting sink.new ≡ K.setting sink.old }
{
    if let Err(fault) = after_header_line(alloc, sink, text, part, line) {
        text.stage = Stage::Failed(fault);
    }
}

/// The same, or the error of the text.
fn after_header_line<K: RowSink>(
    alloc: Global,
    sink: &mut K,
    text: &mut TextRead,
    part: HeaderPart,
    line: &[u8],
) -> Result<(), TraceFault>
    requires part { text.old.stage ≡ stages.Header part }
    requires stands { (bytes : List ℕ) × Stands K.stands_for sink.old text.old line.now bytes }
    ensures stands { (bytes : List ℕ) → Stands K.stands_for sink.old text.old line.now bytes → AfterLine K.stands_for sink.new text.new bytes result }
    ensures fixed { K.fixed sink.new ≡ K.fixed sink.old }
    ensures setting { K.setting sink.new ≡ K.setting sink.old }
{
    match part {
        HeaderPart::Title => match read_title(line) {
            Ok(version) => {
                text.version = version;
                text.stage = Stage::Header(HeaderPart::Cycles);
                Ok(())
            }
            Err(_) => Err(TraceFault::BadHeader(1)),
        },
        HeaderPart::Cycles => match read_cycles(line) {
            Ok(cycles) => {
                text.cycles = cycles;
                text.stage = Stage::Header(HeaderPart::Heads);
                Ok(())
            }
            Err(_) => Err(TraceFault::BadHeader(2)),
        },
        HeaderPart::Heads => after_head(alloc, sink, text, line),
    }
}

/// Takes a stream line, or the first line after the header.
#[inline(never)]
fn after_head<K: RowSink>(
    alloc: Global,
    sink: &mut K,
    text: &mut TextRead,
    line: &[u8],
) -> Result<(), TraceFault>
    requires heads { text.old.stage ≡ stages.Header parts.Heads }
    requires stands { (bytes : List ℕ) × Stands K.stands_for sink.old text.old line.now bytes }
    ensures stands { (bytes : List ℕ) → Stands K.stands_for sink.old text.old line.now bytes → AfterLine K.stands_for sink.new text.new bytes result }
    ensures fixed { K.fixed sink.new ≡ K.fixed sink.old }
    ensures setting { K.setting sink.new ≡ K.setting sink.old }
{
    if is_head_line(line) {
        let head = next_head(alloc, text.version, &mut text.paths, text.heads.len(), line)?;
        text.heads.push(head)?;
        return Ok(());
    }
    if text.cycles > MOST_CYCLES {
        return Err(TraceFault::TooManyCycles);
    }
    start_rows(alloc, sink, text)?;
    take_row(alloc, sink, text, line);
    Ok(())
}

/// Ends the header, and begins with the rows.
fn start_rows<K: RowSink>(alloc: Global, sink: &mut K, text: &mut TextRead) -> Result<(), Memory>
    requires fresh { K.stands_for sink.old None }
    requires few { text.old.cycles ≤ most_cycles }
    requires streams { are_heads text.old.heads ≡ true }
    ensures ok { OnOk result ((text.new.stage ≡ stages.Rows) × ReadsRows text.new.rows (header_read text.old) × K.stands_for sink.new (Some (header_read text.old))) }
    ensures fixed { K.fixed sink.new ≡ K.fixed sink.old }
    ensures setting { K.setting sink.new ≡ K.setting sink.old }
{
    let header = Header {
        cycles: text.cycles as u32,
        heads: mem::replace(&mut text.heads, List::new(alloc)),
    };
    text.rows = RowsRead::of(alloc, &header)?;
    sink.start(alloc, &header)?;
    text.stage = Stage::Rows;
    Ok(())
}

/// Takes the line of a row without its LF, or what follows the last one.
// All that a row takes becomes one function here; in its callers it would be slower. A fault is kept: an answer would take room.
#[inline(never)]
pub(crate) fn take_row<K: RowSink>(alloc: Global, sink: &mut K, text: &mut TextRead, line: &[u8])
    requires rows { text.old.stage ≡ stages.Rows }
    requires stands { (t : TraceText) × (K.stands_for sink.old (Some t) × ReadsRows text.old.rows t) }
    ensures stands { (t : TraceText) (bytes : List ℕ) → K.stands_for sink.old (Some t) → ReadsRows text.old.rows t → GoesOnLine bytes line.now t
        → Stands K.stands_for sink.new text.new [] (bytes ++ 10 ∷ []) }
    ensures room { text.new.rows.room ≡ text.old.rows.room }
    ensures fixed { K.fixed sink.new ≡ K.fixed sink.old }
    ensures setting { K.setting sink.new ≡ K.setting sink.old }
    ensures calm { K.fixed sink.old ≡ true → is_past_header text.new.stage ≡ true }
{
    if let Err(fault) = after_row(alloc, sink, &mut text.rows, line) {
        text.stage = Stage::Failed(fault);
    }
}

/// The same, or the error.
#[inline(always)]
fn after_row<K: RowSink>(
    alloc: Global,
    sink: &mut K,
    rows: &mut RowsRead,
    line: &[u8],
) -> Result<(), TraceFault>
    requires { (t : TraceText) × (K.stands_for sink.old (Some t) × ReadsRows rows.old t) }
    ensures stands { (t : TraceText) (bytes : List ℕ) → K.stands_for sink.old (Some t) → ReadsRows rows.old t → GoesOnLine bytes line.now t
        → AfterRow K.stands_for sink.new rows.new bytes result }
    ensures room { rows.new.room ≡ rows.old.room }
    ensures fixed { K.fixed sink.new ≡ K.fixed sink.old }
    ensures setting { K.setting sink.new ≡ K.setting sink.old }
    ensures calm { K.fixed sink.old ≡ true → IfErr result (λ e. IsSome (fault_in e)) }
{
    if rows.is_whole() {
        return Err(TraceFault::RowsLeft(rows.line_number()));
    }
    let bits = rows.read_row::<K>(line)?;
    sink.row(alloc, rows.row(bits))?;
    rows.advance();
    Ok(())
}

/// Takes the line of a row that came in several pieces, without its LF.
#[inline(never)]
pub(crate) fn take_begun<K: RowSink>(
    alloc: Global,
    sink: &mut K,
    text: &mut TextRead,
    begun: &LineBegun,
)
    requires rows { text.old.stage ≡ stages.Rows }
    requires stands { (bytes : List ℕ) × ((line : List ℕ) × (Holds text.old begun.now line × Stands K.stands_for sink.old text.old line bytes)) }
    ensures stands { (bytes line : List ℕ) → Holds text.old begun.now line → Stands K.stands_for sink.old text.old line bytes
        → Stands K.stands_for sink.new text.new [] (bytes ++ 10 ∷ []) }
    ensures room { text.new.rows.room ≡ text.old.rows.room }
    ensures fixed { K.fixed sink.new ≡ K.fixed sink.old }
    ensures setting { K.setting sink.new ≡ K.setting sink.old }
    ensures calm { StaysCalm (K.fixed sink.old) text.old.stage text.new.stage }
{
    match begun.bytes() {
        Ok(line) => take_row(alloc, sink, text, line),
        Err(form) => text.stage = Stage::Failed(long_fault(&text.rows, form)),
    }
}

/// The error of a line that is longer than any row and has this form.
fn long_fault(rows: &RowsRead, form: RowForm) -> TraceFault
    requires { (t : TraceText) × ReadsRows rows.now t }
    ensures fails { (t : TraceText) (bytes line : List ℕ) → ReadsRows rows.now t → GoesOnLine bytes line t → IsLong form rows.now.room line → Fails (bytes ++ 10 ∷ []) result }
    ensures calm { (line : List ℕ) → IsForm form line → IsSome (fault_in result) }
{
    let number = rows.line_number();
    if rows.is_whole() {
        TraceFault::RowsLeft(number)
    } else {
        form.fault(number)
    }
}

/// The sink with the whole trace, where the text ends in this line, which has no LF; or the error of the text.
pub(crate) fn finish_text<K: RowSink>(
    alloc: Global,
    sink: K,
    text: TextRead,
    line: &LineBegun,
) -> Result<K, TraceFault>
    requires { (bytes : List ℕ) × ((line_of : List ℕ) × (Holds text line.now line_of × Stands K.stands_for sink text line_of bytes)) }
    ensures finishes { (bytes line_of : List ℕ) → Holds text line.now line_of → Stands K.stands_for sink text line_of bytes → Finishes K.stands_for (trace_of bytes) result }
    ensures setting { IfOk result (λ whole. K.setting whole ≡ K.setting sink) }
    ensures failed { (fault : TraceFault) → text.stage ≡ stages.Failed fault → result ≡ Err fault }
    ensures memory { (bytes line_of : List ℕ) → Holds text line.now line_of → Stands K.stands_for sink text line_of bytes → result ≡ Err faults.Memory → MayLackMemory text bytes }
{
    match text.stage {
        Stage::Header(part) => finish_header(alloc, sink, text, part, line.header_line()),
        Stage::Rows => finish_rows(sink, &text.rows, line.is_empty()),
        Stage::Failed(fault) => Err(fault),
    }
}

/// The same, where this part of the header comes next.
fn finish_header<K: RowSink>(
    alloc: Global,
    sink: K,
    text: TextRead,
    part: HeaderPart,
    line: &[u8],
) -> Result<K, TraceFault>
    requires fresh { K.stands_for sink None }
    requires opens { (bytes : List ℕ) × OpensAt text part line.now bytes }
    requires plain { Lacks 10 line.now }
    ensures finishes { (bytes : List ℕ) → OpensAt text part line.now bytes → Finishes K.stands_for (trace_of bytes) result }
    ensures setting { IfOk result (λ whole. K.setting whole ≡ K.setting sink) }
    ensures memory { (bytes : List ℕ) → OpensAt text part line.now bytes → result ≡ Err faults.Memory → EndsInHeader bytes }
{
    match part {
        HeaderPart::Title => Err(TraceFault::BadHeader(1)),
        HeaderPart::Cycles => Err(TraceFault::BadHeader(2)),
        HeaderPart::Heads => finish_heads(alloc, sink, text, line),
    }
}

/// The sink with the whole trace, where the header asks for no row and nothing follows it; or the error of the text.
fn finish_heads<K: RowSink>(
    alloc: Global,
    mut sink: K,
    mut text: TextRead,
    line: &[u8],
) -> Result<K, TraceFault>
    requires fresh { K.stands_for sink None }
    requires opens { (bytes : List ℕ) × OpensText text line.now bytes }
    requires plain { Lacks 10 line.now }
    ensures finishes { (bytes : List ℕ) → OpensText text line.now bytes → Finishes K.stands_for (trace_of bytes) result }
    ensures setting { IfOk result (λ whole. K.setting whole ≡ K.setting sink) }
    ensures memory { (bytes : List ℕ) → OpensText text line.now bytes → result ≡ Err faults.Memory → EndsInHeader bytes }
{
    end_of_header(&text, line)?;
    start_rows(alloc, &mut sink, &mut text)?;
    Ok(sink)
}

/// The error of a text that ends in this line, which has no LF, after its header. Where the header asks for no row and the line
/// is empty, it has none.
fn end_of_header(text: &TextRead, line: &[u8]) -> Result<(), TraceFault>
    requires few { length text.now.heads ≤ 65536 }
    requires plain { Lacks 10 line.now }
    ensures gives { (bytes : List ℕ) → OpensText text.now line.now bytes → Gives fault_in (λ _. header_read text.now) result (trace_of bytes) }
    ensures few { OnOk result (text.now.cycles ≤ most_cycles) }
    ensures other { OnOk result (is_head_line line.now ≡ false) }
    ensures ends { OnOk result ((bytes : List ℕ) → OpensText text.now line.now bytes → EndsInHeader bytes) }
    ensures calm { IfErr result (λ e. IsSome (fault_in e)) }
{
    let number = 3 + text.heads.len() as u64;
    if is_head_line(line) {
        return Err(TraceFault::BadHeader(number));
    }
    if text.cycles > MOST_CYCLES {
        return Err(TraceFault::TooManyCycles);
    }
    let want = text.cycles * text.heads.len() as u64;
    if want > 0 {
        return Err(cut_row(line.is_empty(), want, 0, number));
    }
    if line.is_empty() {
        Ok(())
    } else {
        Err(TraceFault::RowsLeft(number))
    }
}

/// The sink, where all rows are read and nothing is left; or the error of the text.
fn finish_rows<K: RowSink>(sink: K, rows: &RowsRead, is_empty: bool) -> Result<K, TraceFault>
    requires { (t : TraceText) × ReadsRows rows.now t }
    ensures finishes { (t : TraceText) (bytes line : List ℕ) → K.stands_for sink (Some t) → ReadsRows rows.now t → IsTrue is_empty ↔ (line ≡ [])
        → EndsIn bytes line t → Finishes K.stands_for (trace_of bytes) result }
    ensures setting { IfOk result (λ whole. K.setting whole ≡ K.setting sink) }
    ensures calm { IfErr result (λ e. IsSome (fault_in e)) }
{
    if !rows.is_whole() {
        return Err(cut_row(is_empty, rows.want, rows.got, rows.line_number()));
    }
    if is_empty {
        Ok(sink)
    } else {
        Err(TraceFault::RowsLeft(rows.line_number()))
    }
}

/// The error where no LF is left: the text ends before the row of this number of line, or in it.
fn cut_row(is_empty: bool, want: u64, got: u64, number: u64) -> TraceFault
    ensures fault { (line : List ℕ) → IsTrue is_empty ↔ (line ≡ []) → result ≡ cut_row line want got number }
    ensures calm { IsSome (fault_in result) }
{
    if is_empty {
        TraceFault::RowsMissing { want, got }
    } else {
        TraceFault::BadRow(number)
    }
}
