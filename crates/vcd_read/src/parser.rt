//! The tokens of a dump, one after another.

ghost use Rattle.std.specs.Prelude.{◌≡◌, ◌≤◌, ◌<◌, ◌+◌, ◌^◌, ◌∷◌, [], true, drop, length, slice_get, Some, IfOk, IfErr, IsTrue};
ghost use Rattle.cycle_trace.specs.Trace.{are_heads};
ghost use Rattle.tydi_base.specs.Decimal.{below, decimal_of};
ghost use Rattle.vcd_read.specs.Dump.{StandsForSome};
ghost use Rattle.vcd_read.specs.History.{Declares, declared_width};
ghost use Rattle.vcd_read.specs.Parser.{ChangesVector, MayFinish, StandsFor, Takes, TakesFrom, TakesOpen, TakesVariable, TakesVector, Waits, token};
ghost use Rattle.vcd_read.specs.Profile.{Reached, Beginning, DefinitionsEnd, ScopeEnd, ScopeKind, ScopeName, SectionEnd, SkippedCode, UpscopeEnd};
ghost use Rattle.vcd_read.specs.Profile.{VarCode, VarEnd, VarKind, VarName, VarRange, VarWidth, VectorCode};
ghost use Rattle.vcd_read.specs.Profile.{change, command, declaration, next, reach, scalar, stamp, vector};
ghost use Rattle.vcd_read.specs.Wanted.{Wanted};
ghost use Rattle.vcd_read.specs.Wires.{has_room, width_in};
ghost use Rattle.vcd_read.specs.Words.{keyword_of, states_of};
ghost use Rattle.vcd_read.specs.declared.keyword.Keyword.TheVariants as keywords;
ghost use Rattle.vcd_read.specs.declared.parser.Stage.TheVariants as stages;
ghost use Rattle.vcd_read.specs.declared.parser.Stop.TheVariants as stops;

use crate::dump::Dump;
use crate::keyword::{Keyword, is_end, keyword_of};
use crate::mark::{Mark, mark_of};
use crate::names::{is_range, without_range};
use crate::state::State;
use crate::words::{bit_word, read_states, vector_word};
use physical_stream::Head;
use std::alloc::Global;
use tydi_base::{List, Memory, Path, read_decimal};

/// What the next token may be.
#[derive(Clone, Copy)]
pub(crate) enum Stage {
    /// The beginning of a part.
    Beginning,
    /// The end of a section that is skipped, or more of the section.
    SectionEnd,
    ScopeKind,
    ScopeName,
    ScopeEnd,
    UpscopeEnd,
    VarKind,
    VarWidth,
    VarCode,
    VarName,
    /// A range, or the end of the variable.
    VarRange,
    VarEnd,
    DefinitionsEnd,
    /// The code of a vector.
    VectorCode,
    /// The code of what is skipped.
    SkippedCode,
}

/// Why no more tokens are read.
#[derive(Clone, Copy)]
pub(crate) enum Stop {
    /// The token at this place is against the profile.
    Syntax(u64),
    /// There was no memory.
    Memory,
}

/// A dump that is read up to some token.
#[derive(Drop)]
pub(crate) struct Parser {
    pub(crate) dump: Dump,
    pub(crate) stage: Stage,
    /// The width of the variable that is begun.
    pub(crate) width: u64,
    /// Its code.
    pub(crate) code: List<u8>,
    /// Its name, or that of the scope that is begun.
    pub(crate) name: List<u8>,
    /// The place of the vector that is begun.
    pub(crate) offset: u64,
    /// The letters of its states.
    pub(crate) vector: List<u8>,
}

/// A copy of the bytes of a token.
fn copied(alloc: Global, bytes: &[u8]) -> Result<List<u8>, Stop>
    ensures ok { IfOk result (λ list. list ≡ bytes.now) }
    ensures err { IfErr result (λ stop. stop ≡ stops.Memory) }
{
    match List::from_slice(alloc, bytes) {
        Ok(list) => Ok(list),
        Err(Memory) => Err(Stop::Memory),
    }
}

/// A token after its first byte.
#[inline(always)]
fn after_first(word: &[u8]) -> &[u8]
    requires { 0 < length word.now }
    ensures { result.now ≡ drop 1 word.now }
{
    &word[1..]
}

impl Parser {
    /// Nothing is read; the signals of this scope are wanted.
    pub(crate) fn new(alloc: Global, scope: &Path, heads: List<Head>) -> Result<Parser, Memory>
        requires { IsTrue (are_heads heads) }
        ensures stands { IfOk result (λ parser.
            StandsFor (record { scope = scope.now; heads = heads }) parser (record { awaited = Beginning; parts = [] })) }
        ensures block { IfOk result (λ parser. parser.dump.wires.block ≡ 0) }
    {
        Ok(Parser {
            dump: Dump::new(alloc, scope, heads)?,
            stage: Stage::Beginning,
            width: 0,
            code: List::new(alloc),
            name: List::new(alloc),
            offset: 0,
            vector: List::new(alloc),
        })
    }

    /// A word of a section that is skipped, or its end.
    fn section_end(&mut self, offset: u64, word: &[u8]) -> Result<(), Stop>
        requires { self.old.stage ≡ stages.SectionEnd }
        ensures takes { TakesFrom self.old.dump result self.new (λ parts. next SectionEnd parts (token offset word.now)) }
        ensures block { self.new.dump.wires.block ≡ self.old.dump.wires.block }
    {
        if is_end(word) {
            self.stage = Stage::Beginning;
        }
        Ok(())
    }

    /// The kind of a scope.
    fn scope_kind(&mut self, offset: u64, word: &[u8]) -> Result<(), Stop>
        ensures takes { TakesFrom self.old.dump result self.new (λ parts. next ScopeKind parts (token offset word.now)) }
        ensures block { self.new.dump.wires.block ≡ self.old.dump.wires.block }
    {
        if is_end(word) {
            return Err(Stop::Syntax(offset));
        }
        self.stage = Stage::ScopeName;
        Ok(())
    }

    /// The name of a scope.
    fn scope_name(&mut self, alloc: Global, offset: u64, word: &[u8]) -> Result<(), Stop>
        ensures takes { TakesFrom self.old.dump result self.new (λ parts. next ScopeName parts (token offset word.now)) }
        ensures block { self.new.dump.wires.block ≡ self.old.dump.wires.block }
    {
        if is_end(word) {
            return Err(Stop::Syntax(offset));
        }
        self.name = copied(alloc, word)?;
        self.stage = Stage::ScopeEnd;
        Ok(())
    }

    /// The end of a scope's opening.
    fn scope_end(&mut self, alloc: Global, offset: u64, word: &[u8]) -> Result<(), Stop>
        ensures takes { TakesFrom self.old.dump result self.new (λ parts. next (ScopeEnd self.old.name) parts (token offset word.now)) }
        ensures block { self.new.dump.wires.block ≡ self.old.dump.wires.block }
    {
        if !is_end(word) {
            return Err(Stop::Syntax(offset));
        }
        match self.dump.open_scope(alloc, self.name.as_slice()) {
            Ok(()) => {
                self.stage = Stage::Beginning;
                Ok(())
            }
            Err(Memory) => Err(Stop::Memory),
        }
    }

    /// The end of a scope's closing.
    fn upscope_end(&mut self, offset: u64, word: &[u8]) -> Result<(), Stop>
        ensures takes { TakesFrom self.old.dump result self.new (λ parts. next UpscopeEnd parts (token offset word.now)) }
        ensures block { self.new.dump.wires.block ≡ self.old.dump.wires.block }
    {
        if !is_end(word) {
            return Err(Stop::Syntax(offset));
        }
        self.dump.close_scope();
        self.stage = Stage::Beginning;
        Ok(())
    }

    /// The kind of a variable.
    fn var_kind(&mut self, offset: u64, word: &[u8]) -> Result<(), Stop>
        ensures takes { TakesOpen self.old.dump result self.new (λ parts. next VarKind parts (token offset word.now)) }
        ensures block { self.new.dump.wires.block ≡ self.old.dump.wires.block }
    {
        if is_end(word) {
            return Err(Stop::Syntax(offset));
        }
        self.stage = Stage::VarWidth;
        Ok(())
    }

    /// The width of a variable.
    fn var_width(&mut self, offset: u64, word: &[u8]) -> Result<(), Stop>
        ensures takes { TakesOpen self.old.dump result self.new (λ parts. next VarWidth parts (token offset word.now)) }
        ensures block { self.new.dump.wires.block ≡ self.old.dump.wires.block }
    {
        let Some(width) = read_decimal(word) else {
            return Err(Stop::Syntax(offset));
        };
        self.width = width;
        self.stage = Stage::VarCode;
        Ok(())
    }

    /// The code of a variable.
    fn var_code(&mut self, alloc: Global, offset: u64, word: &[u8]) -> Result<(), Stop>
        ensures takes { TakesOpen self.old.dump result self.new (λ parts. next (VarCode self.old.width) parts (token offset word.now)) }
        ensures block { self.new.dump.wires.block ≡ self.old.dump.wires.block }
    {
        if is_end(word) {
            return Err(Stop::Syntax(offset));
        }
        if !self.dump.wires.may_have_width(word, self.width) {
            return Err(Stop::Syntax(offset));
        }
        self.code = copied(alloc, word)?;
        self.stage = Stage::VarName;
        Ok(())
    }

    /// The name of a variable.
    fn var_name(&mut self, alloc: Global, offset: u64, word: &[u8]) -> Result<(), Stop>
        ensures takes { TakesVariable self.old result self.new
            (λ parts. next (VarName self.old.width self.old.code) parts (token offset word.now)) }
        ensures block { self.new.dump.wires.block ≡ self.old.dump.wires.block }
    {
        if is_end(word) {
            return Err(Stop::Syntax(offset));
        }
        self.name = copied(alloc, without_range(word))?;
        self.stage = Stage::VarRange;
        Ok(())
    }

    /// The range of a variable, or its end.
    fn var_range(&mut self, alloc: Global, offset: u64, word: &[u8]) -> Result<(), Stop>
        requires { StandsForSome self.old.dump }
        ensures takes { TakesVariable self.old result self.new
            (λ parts. next (VarRange self.old.width self.old.code self.old.name) parts (token offset word.now)) }
        ensures block { self.new.dump.wires.block ≡ self.old.dump.wires.block }
    {
        if is_end(word) {
            return self.declare(alloc);
        }
        if !is_range(word) {
            return Err(Stop::Syntax(offset));
        }
        self.stage = Stage::VarEnd;
        Ok(())
    }

    /// The end of a variable.
    fn var_end(&mut self, alloc: Global, offset: u64, word: &[u8]) -> Result<(), Stop>
        requires { StandsForSome self.old.dump }
        ensures takes { TakesVariable self.old result self.new
            (λ parts. next (VarEnd self.old.width self.old.code self.old.name) parts (token offset word.now)) }
        ensures block { self.new.dump.wires.block ≡ self.old.dump.wires.block }
    {
        if !is_end(word) {
            return Err(Stop::Syntax(offset));
        }
        self.declare(alloc)
    }

    /// The variable that is begun is declared.
    fn declare(&mut self, alloc: Global) -> Result<(), Stop>
        requires { StandsForSome self.old.dump }
        ensures takes { TakesVariable self.old result self.new
            (λ parts. reach Beginning (Declares self.old.width self.old.code self.old.name ∷ parts)) }
        ensures block { self.new.dump.wires.block ≡ self.old.dump.wires.block }
    {
        let (code, name) = (self.code.as_slice(), self.name.as_slice());
        match self.dump.declare(alloc, self.width, code, name) {
            Ok(()) => {
                self.stage = Stage::Beginning;
                Ok(())
            }
            Err(Memory) => Err(Stop::Memory),
        }
    }

    /// The end of the declarations.
    fn definitions_end(&mut self, alloc: Global, offset: u64, word: &[u8]) -> Result<(), Stop>
        ensures takes { TakesFrom self.old.dump result self.new (λ parts. next DefinitionsEnd parts (token offset word.now)) }
        ensures block { self.new.dump.wires.block ≡ self.old.dump.wires.block }
    {
        if !is_end(word) {
            return Err(Stop::Syntax(offset));
        }
        match self.dump.end_declarations(alloc) {
            Ok(()) => {
                self.stage = Stage::Beginning;
                Ok(())
            }
            Err(Memory) => Err(Stop::Memory),
        }
    }

    /// The code of what is skipped.
    fn skipped_code(&mut self, offset: u64, word: &[u8]) -> Result<(), Stop>
        ensures takes { TakesFrom self.old.dump result self.new (λ parts. next SkippedCode parts (token offset word.now)) }
        ensures block { self.new.dump.wires.block ≡ self.old.dump.wires.block }
    {
        self.stage = Stage::Beginning;
        Ok(())
    }

    /// The token that a part among the declarations begins with, or the end of these.
    fn begin_declaration(&mut self, offset: u64, keyword: Keyword) -> Result<(), Stop>
        ensures takes { TakesOpen self.old.dump result self.new (λ parts. declaration parts offset keyword) }
        ensures block { self.new.dump.wires.block ≡ self.old.dump.wires.block }
    {
        match keyword {
            Keyword::Section => self.await_token(Stage::SectionEnd),
            Keyword::Scope => self.await_token(Stage::ScopeKind),
            Keyword::Upscope => self.begin_upscope(offset),
            Keyword::Var => self.await_token(Stage::VarKind),
            Keyword::EndDefinitions => self.begin_end(offset),
            Keyword::Dump => Err(Stop::Syntax(offset)),
            Keyword::End => Err(Stop::Syntax(offset)),
            Keyword::Other => Err(Stop::Syntax(offset)),
        }
    }

    /// The next token is awaited so.
    #[inline(always)]
    fn await_token(&mut self, stage: Stage) -> Result<(), Stop>
        ensures { Waits result self.old self.new stage }
    {
        self.stage = stage;
        Ok(())
    }

    /// A scope is to close.
    fn begin_upscope(&mut self, offset: u64) -> Result<(), Stop>
        ensures takes { TakesFrom self.old.dump result self.new (λ parts. declaration parts offset keywords.Upscope) }
        ensures block { self.new.dump.wires.block ≡ self.old.dump.wires.block }
    {
        if !self.dump.scopes.has_open() {
            return Err(Stop::Syntax(offset));
        }
        self.stage = Stage::UpscopeEnd;
        Ok(())
    }

    /// The declarations are to end.
    fn begin_end(&mut self, offset: u64) -> Result<(), Stop>
        ensures takes { TakesFrom self.old.dump result self.new (λ parts. declaration parts offset keywords.EndDefinitions) }
        ensures block { self.new.dump.wires.block ≡ self.old.dump.wires.block }
    {
        if self.dump.scopes.has_open() {
            return Err(Stop::Syntax(offset));
        }
        self.stage = Stage::DefinitionsEnd;
        Ok(())
    }

    /// A keyword among the changes.
    fn command(&mut self, offset: u64, keyword: Keyword) -> Result<(), Stop>
        ensures takes { TakesFrom self.old.dump result self.new (λ parts. command parts offset keyword) }
        ensures block { self.new.dump.wires.block ≡ self.old.dump.wires.block }
    {
        match keyword {
            Keyword::Section => self.await_token(Stage::SectionEnd),
            Keyword::Dump => self.await_token(Stage::Beginning),
            Keyword::End => self.await_token(Stage::Beginning),
            Keyword::Scope => Err(Stop::Syntax(offset)),
            Keyword::Upscope => Err(Stop::Syntax(offset)),
            Keyword::Var => Err(Stop::Syntax(offset)),
            Keyword::EndDefinitions => Err(Stop::Syntax(offset)),
            Keyword::Other => Err(Stop::Syntax(offset)),
        }
    }

    /// A time stamp of these digits.
    fn stamp(&mut self, alloc: Global, offset: u64, digits: &[u8]) -> Result<(), Stop>
        requires stands { StandsForSome self.old.dump }
        requires ended { self.old.dump.ended ≡ true }
        requires past { self.old.dump.wires.block ≤ offset }
        requires small { offset + 1 < 2 ^ 64 }
        ensures takes { TakesFrom self.old.dump result self.new (λ parts. stamp parts offset (below (2 ^ 64) (decimal_of digits.now))) }
        ensures block { self.new.dump.wires.block ≤ offset + 1 }
    {
        let Some(time) = read_decimal(digits) else {
            return Err(Stop::Syntax(offset));
        };
        match self.dump.stamp(alloc, offset, time) {
            Ok(()) => {
                self.stage = Stage::Beginning;
                Ok(())
            }
            Err(Memory) => Err(Stop::Memory),
        }
    }

    /// A vector of these letters.
    fn vector(&mut self, offset: u64, letters: &[u8]) -> Result<(), Stop>
        ensures takes { TakesFrom self.old.dump result self.new (λ parts. vector parts offset (states_of letters.now)) }
        ensures block { self.new.dump.wires.block ≡ self.old.dump.wires.block }
    {
        match read_states(letters, &mut self.vector) {
            Ok(true) => self.begin_vector(offset),
            Ok(false) => Err(Stop::Syntax(offset)),
            Err(Memory) => Err(Stop::Memory),
        }
    }

    /// The states of a vector are read. Its code is the next token.
    fn begin_vector(&mut self, offset: u64) -> Result<(), Stop>
        ensures takes { TakesVector self.old result self.new (λ parts states. vector parts offset (Some states)) }
        ensures block { self.new.dump.wires.block ≡ self.old.dump.wires.block }
    {
        if self.vector.len() == 0 {
            return Err(Stop::Syntax(offset));
        }
        self.offset = offset;
        self.stage = Stage::VectorCode;
        Ok(())
    }

    /// The change of a code of width 1.
    fn scalar(&mut self, alloc: Global, offset: u64, code: &[u8], state: State) -> Result<(), Stop>
        requires stands { StandsForSome self.old.dump }
        ensures takes { TakesFrom self.old.dump result self.new (λ parts. scalar parts offset code.now state (declared_width code.now parts)) }
        ensures block { self.new.dump.wires.block ≡ self.old.dump.wires.block }
    {
        let Some(number) = self.dump.wires.number(code) else {
            return Err(Stop::Syntax(offset));
        };
        if !self.dump.wires.is_scalar(number) {
            return Err(Stop::Syntax(offset));
        }
        let Ok(word) = bit_word(alloc, state) else {
            return Err(Stop::Memory);
        };
        self.dump.change(number, word);
        self.stage = Stage::Beginning;
        Ok(())
    }

    /// The code of a vector.
    fn vector_code(&mut self, alloc: Global, offset: u64, word: &[u8]) -> Result<(), Stop>
        requires { StandsForSome self.old.dump }
        ensures takes { TakesVector self.old result self.new
            (λ parts states. next (VectorCode self.old.offset states) parts (token offset word.now)) }
        ensures block { self.new.dump.wires.block ≡ self.old.dump.wires.block }
    {
        let Some(number) = self.dump.wires.number(word) else {
            return Err(Stop::Syntax(offset));
        };
        if !self.dump.wires.has_room(number, self.vector.len() as u64) {
            return Err(Stop::Syntax(self.offset));
        }
        self.change_vector(alloc, number)
    }

    /// The change of the code of this number to the vector that is begun.
    fn change_vector(&mut self, alloc: Global, number: usize) -> Result<(), Stop>
        requires room { IsTrue (has_room (width_in (slice_get self.old.dump.wires.wires number)) (length self.old.vector)) }
        requires within { number < length self.old.dump.wires.wires }
        ensures takes { ChangesVector number self.old result self.new }
        ensures block { self.new.dump.wires.block ≡ self.old.dump.wires.block }
    {
        let width = self.dump.wires.width(number);
        let letters = self.vector.as_slice();
        let Ok(word) = vector_word(alloc, width as usize, letters) else {
            return Err(Stop::Memory);
        };
        self.dump.change(number, word);
        self.stage = Stage::Beginning;
        Ok(())
    }

    /// The part among the changes that a token begins with this mark.
    fn change(&mut self, alloc: Global, offset: u64, word: &[u8], mark: Mark) -> Result<(), Stop>
        requires some { 0 < length word.now }
        requires stands { StandsForSome self.old.dump }
        requires ended { self.old.dump.ended ≡ true }
        requires past { self.old.dump.wires.block ≤ offset }
        requires small { offset + 1 < 2 ^ 64 }
        ensures takes { TakesFrom self.old.dump result self.new (λ parts. change parts (token offset word.now) mark) }
        ensures block { self.new.dump.wires.block ≤ offset + 1 }
    {
        let rest = after_first(word);
        match mark {
            Mark::Stamp => self.stamp(alloc, offset, rest),
            Mark::Vector => self.vector(offset, rest),
            Mark::Command => self.command(offset, keyword_of(word)),
            Mark::Skipped => self.await_token(Stage::SkippedCode),
            Mark::Scalar(state) => self.scalar(alloc, offset, rest, state),
            Mark::Nothing => Err(Stop::Syntax(offset)),
        }
    }

    /// The part that a token begins.
    fn begin(&mut self, alloc: Global, offset: u64, word: &[u8]) -> Result<(), Stop>
        requires some { 0 < length word.now }
        requires stands { StandsForSome self.old.dump }
        requires past { self.old.dump.wires.block ≤ offset }
        requires small { offset + 1 < 2 ^ 64 }
        ensures takes { TakesFrom self.old.dump result self.new (λ parts. next Beginning parts (token offset word.now)) }
        ensures block { self.new.dump.wires.block ≤ offset + 1 }
    {
        if self.dump.has_ended() {
            let mark = mark_of(word[0]);
            self.change(alloc, offset, word, mark)
        } else {
            let keyword = keyword_of(word);
            self.begin_declaration(offset, keyword)
        }
    }

    /// Takes the next token, which stands at this place.
    pub(crate) fn take(&mut self, alloc: Global, offset: u64, word: &[u8]) -> Result<(), Stop>
        requires some { 0 < length word.now }
        requires stands { (wanted : Wanted) × ((reached : Reached) × StandsFor wanted self.old reached) }
        requires past { self.old.dump.wires.block ≤ offset }
        requires small { offset + 1 < 2 ^ 64 }
        ensures takes { (wanted : Wanted) (reached : Reached) → StandsFor wanted self.old reached
            → Takes wanted result self.new (next reached.awaited reached.parts (token offset word.now)) }
        ensures block { self.new.dump.wires.block ≤ offset + 1 }
    {
        match self.stage {
            Stage::Beginning => self.begin(alloc, offset, word),
            Stage::SectionEnd => self.section_end(offset, word),
            Stage::ScopeKind => self.scope_kind(offset, word),
            Stage::ScopeName => self.scope_name(alloc, offset, word),
            Stage::ScopeEnd => self.scope_end(alloc, offset, word),
            Stage::UpscopeEnd => self.upscope_end(offset, word),
            Stage::VarKind => self.var_kind(offset, word),
            Stage::VarWidth => self.var_width(offset, word),
            Stage::VarCode => self.var_code(alloc, offset, word),
            Stage::VarName => self.var_name(alloc, offset, word),
            Stage::VarRange => self.var_range(alloc, offset, word),
            Stage::VarEnd => self.var_end(alloc, offset, word),
            Stage::DefinitionsEnd => self.definitions_end(alloc, offset, word),
            Stage::VectorCode => self.vector_code(alloc, offset, word),
            Stage::SkippedCode => self.skipped_code(offset, word),
        }
    }

    /// Whether the text may end here.
    pub(crate) fn is_finished(&self) -> bool
        ensures finished { MayFinish self.now result }
        ensures ended { result ≡ true → self.now.dump.ended ≡ true }
    {
        match self.stage {
            Stage::Beginning => self.dump.has_ended(),
            _ => false,
        }
    }
}
