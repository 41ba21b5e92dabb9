//! Traces whose text comes in pieces.

ghost use Rattle.std.specs.Prelude.{◌≡◌, ◌⊎◌, ◌++◌, ◌∷◌, [], ℕ, List, true, IfOk, IsErr, ◌↔◌, Err, None};
ghost use Rattle.tydi_base.specs.Pieces.{Lacks};
ghost use Rattle.cycle_trace.specs.ReaderView.{EndsInHeader, Finishes, HoldsHeader, IsSpent, StandsFor, StaysCalm, StaysFailed, is_past_header};
ghost use Rattle.cycle_trace.specs.TraceText.{trace_of};
ghost use Rattle.cycle_trace.specs.declared.fault.TraceFault.TheVariants as faults;
ghost use Rattle.cycle_trace.specs.declared.reader.text.HeaderPart.{HeaderPart};
ghost use Rattle.cycle_trace.specs.declared.reader.text.Stage.TheVariants as stages;

use crate::fault::TraceFault;
use crate::reader::line_begun::LineBegun;
use crate::reader::lines::{finish_text, take_begun, take_header_line, take_row};
use crate::reader::sink::RowSink;
use crate::reader::text::{HeaderPart, Stage, TextRead};
use std::alloc::Global;
use tydi_base::{LINE_FEED, Memory, first_piece};

/// Reads a trace whose text comes in pieces. Its rows go into a sink as they come.
#[derive(Drop)]
pub struct TraceReader<K> {
    pub(crate) sink: K,
    pub(crate) text: TextRead,
    pub(crate) line: LineBegun,
}

impl<K: RowSink> TraceReader<K> {
    /// A reader that was fed nothing.
    pub fn new(alloc: Global, sink: K) -> TraceReader<K>
        requires { K.stands_for sink None }
        ensures stands { StandsFor K.stands_for result [] }
        ensures fixed { K.fixed result.sink ≡ K.fixed sink }
        ensures setting { K.setting result.sink ≡ K.setting sink }
        ensures unspent { IsSpent result → ⊥ }
    {
        TraceReader {
            sink,
            text: TextRead::new(alloc),
            line: LineBegun::none(alloc),
        }
    }

    /// Reads the next bytes of the text. After `Memory` every later call answers Memory. Where the sink is fixed, memory runs out no
    /// later than with the first whole line after the header.
    pub fn feed(&mut self, alloc: Global, piece: &[u8]) -> Result<(), Memory>
        requires { (bytes : List ℕ) × StandsFor K.stands_for self.old bytes }
        ensures stands { (bytes : List ℕ) → StandsFor K.stands_for self.old bytes → StandsFor K.stands_for self.new (bytes ++ piece.now) }
        ensures memory { IsErr result ↔ IsSpent self.new }
        ensures spent { IsSpent self.old → IsSpent self.new }
        ensures fixed { K.fixed self.new.sink ≡ K.fixed self.old.sink }
        ensures setting { K.setting self.new.sink ≡ K.setting self.old.sink }
        ensures calm { (bytes : List ℕ) → StandsFor K.stands_for self.old bytes → K.fixed self.old.sink ≡ true → HoldsHeader bytes → IsSpent self.new → IsSpent self.old }
    {
        let mut rest = piece;
        'lines: while let Some((front, after)) = first_piece(rest, LINE_FEED) {
            self.end_line(alloc, front);
            rest = after;
        }
        self.begin_line(rest);
        self.outcome()
    }

    /// The sink with the whole trace, or the error of the text. It takes memory only where the text ends with a header of at most
    /// 1,000,000 cycles that asks for no rows, since the sink is started then.
    pub fn finish(self, alloc: Global) -> Result<K, TraceFault>
        requires { (bytes : List ℕ) × StandsFor K.stands_for self bytes }
        ensures finishes { (bytes : List ℕ) → StandsFor K.stands_for self bytes → Finishes K.stands_for (trace_of bytes) result }
        ensures setting { IfOk result (λ sink. K.setting sink ≡ K.setting self.sink) }
        ensures spent { IsSpent self → result ≡ Err faults.Memory }
        ensures memory { (bytes : List ℕ) → StandsFor K.stands_for self bytes → result ≡ Err faults.Memory → IsSpent self ⊎ EndsInHeader bytes }
    {
        let TraceReader { sink, text, line } = self;
        finish_text(alloc, sink, text, &line)
    }

    /// The line that is begun ends with these bytes and an LF.
    #[inline(always)]
    fn end_line(&mut self, alloc: Global, front: &[u8])
        requires stands { (bytes : List ℕ) × StandsFor K.stands_for self.old bytes }
        requires plain { Lacks 10 front.now }
        ensures stands { (bytes : List ℕ) → StandsFor K.stands_for self.old bytes → StandsFor K.stands_for self.new (bytes ++ front.now ++ 10 ∷ []) }
        ensures failed { StaysFailed self.old.text.stage self.new.text.stage }
        ensures fixed { K.fixed self.new.sink ≡ K.fixed self.old.sink }
        ensures setting { K.setting self.new.sink ≡ K.setting self.old.sink }
        ensures calm { StaysCalm (K.fixed self.old.sink) self.old.text.stage self.new.text.stage }
    {
        match self.text.stage {
            Stage::Header(part) => self.end_header_line(alloc, part, front),
            Stage::Rows => self.end_row(alloc, front),
            Stage::Failed(_) => {}
        }
    }

    /// A line of this part of the header ends with these bytes and an LF, or the first line after it.
    #[inline(never)]
    fn end_header_line(&mut self, alloc: Global, part: HeaderPart, front: &[u8])
        requires stands { (bytes : List ℕ) × StandsFor K.stands_for self.old bytes }
        requires plain { Lacks 10 front.now }
        requires part { self.old.text.stage ≡ stages.Header part }
        ensures stands { (bytes : List ℕ) → StandsFor K.stands_for self.old bytes → StandsFor K.stands_for self.new (bytes ++ front.now ++ 10 ∷ []) }
        ensures fixed { K.fixed self.new.sink ≡ K.fixed self.old.sink }
        ensures setting { K.setting self.new.sink ≡ K.setting self.old.sink }
    {
        if self.line.extend(front).is_err() {
            self.text.stage = Stage::Failed(TraceFault::Memory);
            return;
        }
        take_header_line(
            alloc,
            &mut self.sink,
            &mut self.text,
            part,
            self.line.header_line(),
        );
        self.line.clear();
        if let Stage::Rows = self.text.stage {
            if self.line.make_room(self.text.rows.room).is_err() {
                self.text.stage = Stage::Failed(TraceFault::Memory);
            }
        }
    }

    /// The line of a row ends with these bytes and an LF.
    #[inline(always)]
    fn end_row(&mut self, alloc: Global, front: &[u8])
        requires stands { (bytes : List ℕ) × StandsFor K.stands_for self.old bytes }
        requires plain { Lacks 10 front.now }
        requires rows { self.old.text.stage ≡ stages.Rows }
        ensures stands { (bytes : List ℕ) → StandsFor K.stands_for self.old bytes → StandsFor K.stands_for self.new (bytes ++ front.now ++ 10 ∷ []) }
        ensures fixed { K.fixed self.new.sink ≡ K.fixed self.old.sink }
        ensures setting { K.setting self.new.sink ≡ K.setting self.old.sink }
        ensures calm { StaysCalm (K.fixed self.old.sink) self.old.text.stage self.new.text.stage }
    {
        if self.line.is_empty() {
            take_row(alloc, &mut self.sink, &mut self.text, front);
            return;
        }
        self.line.go_on(front);
        take_begun(alloc, &mut self.sink, &mut self.text, &self.line);
        self.line.clear();
    }

    /// The line that is begun goes on with these bytes.
    fn begin_line(&mut self, rest: &[u8])
        requires stands { (bytes : List ℕ) × StandsFor K.stands_for self.old bytes }
        requires plain { Lacks 10 rest.now }
        ensures stands { (bytes : List ℕ) → StandsFor K.stands_for self.old bytes → StandsFor K.stands_for self.new (bytes ++ rest.now) }
        ensures failed { StaysFailed self.old.text.stage self.new.text.stage }
        ensures fixed { K.fixed self.new.sink ≡ K.fixed self.old.sink }
        ensures setting { K.setting self.new.sink ≡ K.setting self.old.sink }
        ensures calm { is_past_header self.old.text.stage ≡ true → is_past_header self.new.text.stage ≡ true }
    {
        match self.text.stage {
            Stage::Header(_) => self.begin_header_line(rest),
            Stage::Rows => self.begin_row(rest),
            Stage::Failed(_) => {}
        }
    }

    /// The line of the header that is begun goes on with these bytes.
    fn begin_header_line(&mut self, rest: &[u8])
        requires plain { Lacks 10 rest.now }
        requires header { (part : HeaderPart) × (self.old.text.stage ≡ stages.Header part) }
        requires stands { (bytes : List ℕ) × StandsFor K.stands_for self.old bytes }
        ensures stands { (bytes : List ℕ) → StandsFor K.stands_for self.old bytes → StandsFor K.stands_for self.new (bytes ++ rest.now) }
        ensures fixed { K.fixed self.new.sink ≡ K.fixed self.old.sink }
        ensures setting { K.setting self.new.sink ≡ K.setting self.old.sink }
    {
        if self.line.extend(rest).is_err() {
            self.text.stage = Stage::Failed(TraceFault::Memory);
        }
    }

    /// The line of the row that is begun goes on with these bytes. It takes no memory.
    fn begin_row(&mut self, rest: &[u8])
        requires plain { Lacks 10 rest.now }
        requires rows { self.old.text.stage ≡ stages.Rows }
        requires stands { (bytes : List ℕ) × StandsFor K.stands_for self.old bytes }
        ensures stands { (bytes : List ℕ) → StandsFor K.stands_for self.old bytes → StandsFor K.stands_for self.new (bytes ++ rest.now) }
        ensures fixed { K.fixed self.new.sink ≡ K.fixed self.old.sink }
        ensures setting { K.setting self.new.sink ≡ K.setting self.old.sink }
        ensures calm { is_past_header self.new.text.stage ≡ true }
    {
        if rest.is_empty() {
            return;
        }
        if self.text.rows.is_whole() {
            let number = self.text.rows.line_number();
            self.text.stage = Stage::Failed(TraceFault::RowsLeft(number));
            return;
        }
        self.line.go_on(rest);
    }

    /// Whether memory ran out.
    fn outcome(&self) -> Result<(), Memory>
        ensures { IsErr result ↔ IsSpent self.now }
    {
        match self.text.stage {
            Stage::Failed(TraceFault::Memory) => Err(Memory),
            _ => Ok(()),
        }
    }
}
