//! Dumps whose text comes in pieces.

ghost use Rattle.std.specs.Prelude.{◌≡◌, ◌↔◌, ◌<◌, ◌≤◌, ◌+◌, ◌^◌, ◌++◌, ◌∷◌, [], ℕ, List, false, length, Some, None, IfOk, IsErr, IsTrue};
ghost use Rattle.tydi_base.specs.Reading.{Gives};
ghost use Rattle.cycle_trace.specs.Trace.{are_heads};
ghost use Rattle.vcd_read.specs.Kept.{kept_bytes, kept_text};
ghost use Rattle.vcd_read.specs.Shown.{fault_in, parts_shown, shown};
ghost use Rattle.vcd_read.specs.Wanted.{Wanted};
ghost use Rattle.vcd_read.specs.Parser as parsers;
ghost use Rattle.vcd_read.specs.Profile.{Reached, finished, read_on};
ghost use Rattle.vcd_read.specs.Reader.{EndsWord, HasRoom, StandsFor, fault_of};
ghost use Rattle.vcd_read.specs.Tokens.{has_blank, is_blank, token_at};
ghost use Rattle.vcd_read.specs.declared.parser.Stop.TheVariants as stops;

use crate::dump_text::DumpText;
use crate::fault::VcdFault;
use crate::parser::{Parser, Stop};
use crate::tokens::first_word;
use physical_stream::Head;
use std::alloc::Global;
use tydi_base::{List, Memory, Path};

/// Reads a dump whose text comes in pieces.
#[derive(Drop)]
pub struct VcdReader {
    pub(crate) parser: Parser,
    /// The place of the token that is begun, or of the next byte.
    pub(crate) start: u64,
    /// The bytes of the token that is begun.
    pub(crate) begun: List<u8>,
    /// Why nothing more is read.
    pub(crate) stop: Option<Stop>,
}

impl VcdReader {
    /// A reader that was fed nothing. The clock and the signals of the streams with these heads are looked for in the scope of this path.
    /// `Memory` comes where there is none for the path.
    pub fn new(alloc: Global, scope: &Path, heads: List<Head>) -> Result<VcdReader, Memory>
        requires { IsTrue (are_heads heads) }
        ensures { IfOk result (λ reader. StandsFor (record { scope = scope.now; heads = heads }) reader []) }
    {
        Ok(VcdReader {
            parser: Parser::new(alloc, scope, heads)?,
            start: 0,
            begun: List::new(alloc),
            stop: None,
        })
    }

    /// Reads the next bytes of the text. After `Memory` every later call answers `Memory`.
    pub fn feed(&mut self, alloc: Global, piece: &[u8]) -> Result<(), Memory>
        requires { HasRoom self.old (length piece.now) }
        ensures stands { (wanted : Wanted) (fed : List ℕ) → StandsFor wanted self.old fed → StandsFor wanted self.new (fed ++ piece.now) }
        ensures memory { IsErr result ↔ (self.new.stop ≡ Some stops.Memory) }
    {
        let mut rest = piece;
        'words: while let Some((word, after)) = first_word(rest) {
            self.end_word(alloc, word);
            rest = after;
        }
        self.go_on(rest);
        self.outcome()
    }

    /// Whether memory ran out.
    fn outcome(&self) -> Result<(), Memory>
        ensures { IsErr result ↔ (self.now.stop ≡ Some stops.Memory) }
    {
        match self.stop {
            Some(Stop::Memory) => Err(Memory),
            _ => Ok(()),
        }
    }

    /// The token that is begun ends with these bytes, before white space.
    #[inline(always)]
    fn end_word(&mut self, alloc: Global, word: &[u8])
        requires room { HasRoom self.old (length word.now + 1) }
        requires plain { has_blank word.now ≡ false }
        ensures { EndsWord word.now self.old self.new }
    {
        match self.stop {
            Some(_) => {}
            None => self.end_next(alloc, word),
        }
    }

    /// The same of a text no token of which is against the profile so far.
    #[inline(always)]
    fn end_next(&mut self, alloc: Global, word: &[u8])
        requires some { self.old.stop ≡ None }
        requires room { HasRoom self.old (length word.now + 1) }
        requires plain { has_blank word.now ≡ false }
        ensures { EndsWord word.now self.old self.new }
    {
        if self.begun.len() == 0 {
            self.end_whole(alloc, word);
        } else {
            self.end_begun(alloc, word);
        }
    }

    /// These bytes are a whole token, where there are any. They are not copied.
    #[inline(always)]
    fn end_whole(&mut self, alloc: Global, word: &[u8])
        requires some { self.old.stop ≡ None }
        requires none { self.old.begun ≡ [] }
        requires room { HasRoom self.old (length word.now + 1) }
        requires plain { has_blank word.now ≡ false }
        ensures { EndsWord word.now self.old self.new }
    {
        match take_token(alloc, &mut self.parser, self.start, word) {
            Ok(()) => self.start = self.start + word.len() as u64 + 1,
            Err(stop) => self.stop = Some(stop),
        }
    }

    /// The token that is begun goes on with these bytes and ends.
    fn end_begun(&mut self, alloc: Global, word: &[u8])
        requires some { self.old.stop ≡ None }
        requires room { HasRoom self.old (length word.now + 1) }
        requires plain { has_blank word.now ≡ false }
        ensures { EndsWord word.now self.old self.new }
    {
        match self.begun.extend_from_slice(word) {
            Ok(()) => self.blank(alloc),
            Err(Memory) => self.stop = Some(Stop::Memory),
        }
    }

    /// The token that is begun goes on with these bytes.
    fn go_on(&mut self, word: &[u8])
        requires plain { has_blank word.now ≡ false }
        ensures { (wanted : Wanted) (fed : List ℕ) → StandsFor wanted self.old fed → StandsFor wanted self.new (fed ++ word.now) }
    {
        match self.stop {
            Some(_) => {}
            None => self.go_on_next(word),
        }
    }

    /// The same of a text no token of which is against the profile so far.
    fn go_on_next(&mut self, word: &[u8])
        requires some { self.old.stop ≡ None }
        requires plain { has_blank word.now ≡ false }
        ensures { (wanted : Wanted) (fed : List ℕ) → StandsFor wanted self.old fed → StandsFor wanted self.new (fed ++ word.now) }
    {
        match self.begun.extend_from_slice(word) {
            Ok(()) => {}
            Err(Memory) => self.stop = Some(Stop::Memory),
        }
    }

    /// The token that is begun ends before white space.
    fn blank(&mut self, alloc: Global)
        requires some { self.old.stop ≡ None }
        requires room { HasRoom self.old 1 }
        ensures { (wanted : Wanted) (fed : List ℕ) (byte : ℕ) → IsTrue (is_blank byte) → StandsFor wanted self.old fed
            → StandsFor wanted self.new (fed ++ byte ∷ []) }
    {
        match self.end_token(alloc) {
            Ok(()) => {
                self.start = self.start + self.begun.len() as u64 + 1;
                self.begun.truncate(0);
            }
            Err(stop) => self.stop = Some(stop),
        }
    }

    /// Takes the token that is begun, where there is one.
    fn end_token(&mut self, alloc: Global) -> Result<(), Stop>
        requires some { self.old.stop ≡ None }
        requires room { HasRoom self.old 1 }
        ensures takes { (wanted : Wanted) (reached : Reached) → parsers.StandsFor wanted self.old.parser reached
            → parsers.Takes wanted result self.new.parser (read_on reached.awaited reached.parts (token_at self.old.start self.old.begun)) }
        ensures block { self.new.parser.dump.wires.block ≤ self.old.start + length self.old.begun }
        ensures start { self.new.start ≡ self.old.start }
        ensures begun { self.new.begun ≡ self.old.begun }
        ensures stop { self.new.stop ≡ self.old.stop }
    {
        take_token(alloc, &mut self.parser, self.start, self.begun.as_slice())
    }

    /// The text of the trace that the whole text shows, none where it has over 64 MiB; or the first error, in the order of `VcdFault`.
    pub fn finish(self, alloc: Global) -> Result<Option<DumpText>, VcdFault>
        requires { HasRoom self 1 }
        ensures { (wanted : Wanted) (fed : List ℕ) → StandsFor wanted self fed → Gives fault_in kept_bytes result (kept_text (shown wanted fed)) }
    {
        match self.stop {
            Some(stop) => Err(fault_of(stop)),
            None => self.end_text(alloc),
        }
    }

    /// The same of a text no token of which is against the profile so far.
    fn end_text(self, alloc: Global) -> Result<Option<DumpText>, VcdFault>
        requires some { self.stop ≡ None }
        requires room { HasRoom self 1 }
        ensures { (wanted : Wanted) (fed : List ℕ) → StandsFor wanted self fed → Gives fault_in kept_bytes result (kept_text (shown wanted fed)) }
    {
        let mut reader = self;
        match reader.end_token(alloc) {
            Ok(()) => reader.judge(alloc),
            Err(stop) => Err(fault_of(stop)),
        }
    }

    /// What a text shows all tokens of which are read.
    fn judge(self, alloc: Global) -> Result<Option<DumpText>, VcdFault>
        requires small { self.start + length self.begun < 2 ^ 64 }
        requires stands { (wanted : Wanted) × ((reached : Reached) × parsers.StandsFor wanted self.parser reached) }
        ensures { (wanted : Wanted) (reached : Reached) → parsers.StandsFor wanted self.parser reached
            → Gives fault_in kept_bytes result (kept_text (parts_shown wanted (finished (self.start + length self.begun) reached.awaited reached.parts))) }
    {
        if !self.parser.is_finished() {
            return Err(VcdFault::Syntax(self.start + self.begun.len() as u64));
        }
        match self.parser.dump.times.back {
            Some(offset) => Err(VcdFault::TimeBack(offset)),
            None => self.parser.dump.conclude(alloc),
        }
    }
}

/// Takes the token of these bytes, which stands at this place, where there are any.
#[inline(always)]
fn take_token(alloc: Global, parser: &mut Parser, start: u64, bytes: &[u8]) -> Result<(), Stop>
    requires stands { (wanted : Wanted) × ((reached : Reached) × parsers.StandsFor wanted parser.old reached) }
    requires past { parser.old.dump.wires.block ≤ start }
    requires small { start + length bytes.now < 2 ^ 64 }
    ensures takes { (wanted : Wanted) (reached : Reached) → parsers.StandsFor wanted parser.old reached
        → parsers.Takes wanted result parser.new (read_on reached.awaited reached.parts (token_at start bytes.now)) }
    ensures block { parser.new.dump.wires.block ≤ start + length bytes.now }
{
    if bytes.is_empty() {
        return Ok(());
    }
    parser.take(alloc, start, bytes)
}

/// The error of a text of which no more is read.
fn fault_of(stop: Stop) -> VcdFault
    ensures { result ≡ fault_of stop }
{
    match stop {
        Stop::Syntax(offset) => VcdFault::Syntax(offset),
        Stop::Memory => VcdFault::Memory,
    }
}
