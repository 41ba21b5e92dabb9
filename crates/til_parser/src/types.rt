//! Types, and the arguments of a Stream.

ghost use Rattle.std.specs.Prelude.{◌≡◌};
ghost use Rattle.til_parser.specs.ReadTypes as spec;
ghost use Rattle.tydi_reading.specs.Reading.{Reads, ReadsAlways};

use crate::arguments::Arguments;
use crate::keyword::{Argument, TypeWord, sync_of};
use crate::ltype::{AstPart, AstStream, AstSync, AstType};
use crate::parser::Parser;
use crate::refusal::Fault;
use til_lexer::TokenKind;
use tydi_base::{Boxed, List};
use tydi_reading::{Source, named};

impl<'a> Parser<'a> {
    /// `type`, of at most so many levels.
    #[cycle(ltype)]
    #[tactic(auto, unfolding(crate::specs::ReadTypes::ltype))]
    pub(crate) fn ltype(&mut self, levels: usize) -> Result<AstType, Fault>
        ensures { Reads (spec.ltype levels self.old) result self.new }
    {
        if levels == 0 {
            return Err(self.too_deep());
        }
        self.type_with(levels - 1)
    }

    /// `type`, whose types inside have at most so many levels.
    #[cycle(ltype)]
    #[tactic(auto, unfolding(crate::specs::ReadTypes::type_with))]
    fn type_with(&mut self, levels: usize) -> Result<AstType, Fault>
        ensures { Reads (spec.type_with (spec.ltype levels) self.old) result self.new }
    {
        match self.type_word() {
            Some(word) => {
                self.skip();
                self.type_after(word, levels)
            }
            None => Ok(AstType::Path(self.path()?)),
        }
    }

    /// The part of a type after its word. The types inside have at most so many levels.
    #[cycle(ltype)]
    fn type_after(&mut self, word: TypeWord, levels: usize) -> Result<AstType, Fault>
        ensures { Reads (spec.type_after (spec.ltype levels) word self.old) result self.new }
    {
        match word {
            TypeWord::Null => Ok(AstType::Null),
            TypeWord::Bits => Ok(AstType::Bits(self.bits()?)),
            TypeWord::Group => Ok(AstType::Group(self.parts(levels)?)),
            TypeWord::Union => Ok(AstType::Union(self.parts(levels)?)),
            TypeWord::Stream => {
                let stream = self.stream(levels)?;
                Ok(AstType::Stream(Boxed::new(self.alloc(), stream)?))
            }
        }
    }

    /// `"(" [ part { "," part } [ "," ] ] ")"`, of types of at most so many levels.
    #[cycle(ltype)]
    fn parts(&mut self, levels: usize) -> Result<List<AstPart>, Fault>
        ensures { Reads (spec.bracketed (spec.part (spec.ltype levels)) self.old) result self.new }
    {
        self.bracketed(
            List::new(self.alloc()),
            |rest, found| -> Result<List<AstPart>, Fault>
                ensures { Reads (spec.one_more (spec.part (spec.ltype levels)) found rest.old) result rest.new }
            { rest.next_part(found, levels) },
        )
    }

    /// `part`, of a type of at most so many levels, behind the parts that are found.
    #[cycle(ltype)]
    #[tactic(auto, unfolding(crate::specs::ReadTypes::part))]
    fn next_part(&mut self, found: List<AstPart>, levels: usize) -> Result<List<AstPart>, Fault>
        ensures { Reads (spec.one_more (spec.part (spec.ltype levels)) found self.old) result self.new }
    {
        let name = self.name()?;
        self.expect(TokenKind::Colon)?;
        let ltype = self.ltype(levels)?;
        let mut parts = found;
        parts.push(AstPart { name, ltype })?;
        Ok(parts)
    }

    /// `"(" arg { "," arg } [ "," ] ")"`, of types of at most so many levels.
    #[cycle(ltype)]
    #[tactic(auto, unfolding(crate::specs::ReadTypes::stream))]
    fn stream(&mut self, levels: usize) -> Result<AstStream, Fault>
        ensures { Reads (spec.stream (spec.ltype levels) self.old) result self.new }
    {
        self.expect(TokenKind::OpenParen)?;
        let given = self.arguments(levels)?;
        let Some(stream) = given.into_stream() else {
            return Err(Fault::Refused);
        };
        self.expect(TokenKind::CloseParen)?;
        Ok(stream)
    }

    /// `[ arg { "," arg } [ "," ] ]`, up to a closing bracket, of types of at most so many levels.
    #[cycle(ltype)]
    fn arguments(&mut self, levels: usize) -> Result<Arguments, Fault>
        ensures { Reads (spec.arguments_from (spec.ltype levels) spec.none_given self.old) result self.new }
    {
        named(
            self,
            Arguments::none(),
            |rest| rest.sees(TokenKind::CloseParen),
            |rest| rest.sees(TokenKind::Comma),
            |rest| rest.argument_name(),
            |name, given| given.has(*name),
            |rest, name, given| -> Result<Arguments, Fault>
                ensures { Reads (spec.value (spec.ltype levels) name given rest.old) result rest.new }
            { rest.value(name, given, levels) },
        )
    }

    /// A colon and the value of an argument, beside those that are given.
    #[cycle(ltype)]
    fn value(&mut self, name: Argument, given: Arguments, levels: usize) -> Result<Arguments, Fault>
        ensures { Reads (spec.value (spec.ltype levels) name given self.old) result self.new }
    {
        self.expect(TokenKind::Colon)?;
        match name {
            Argument::Data => {
                let element = Some(self.ltype(levels)?);
                Ok(Arguments { element, ..given })
            }
            Argument::Throughput => {
                let throughput = Some(self.number()?);
                Ok(Arguments {
                    throughput,
                    ..given
                })
            }
            Argument::Dimensionality => {
                let dims = Some(self.whole()?);
                Ok(Arguments { dims, ..given })
            }
            Argument::Synchronicity => {
                let sync = Some(self.sync()?);
                Ok(Arguments { sync, ..given })
            }
            Argument::Complexity => {
                let level = Some(self.level()?);
                Ok(Arguments { level, ..given })
            }
            Argument::Direction => {
                let reverse = Some(self.either_word("Reverse", "Forward")?);
                Ok(Arguments { reverse, ..given })
            }
            Argument::User => {
                let user = Some(self.ltype(levels)?);
                Ok(Arguments { user, ..given })
            }
            Argument::Keep => {
                let keep = Some(self.either_word("true", "false")?);
                Ok(Arguments { keep, ..given })
            }
        }
    }

    /// A synchronicity.
    fn sync(&mut self) -> Result<AstSync, Fault>
        ensures { ReadsAlways (spec.sync self.old) result self.new }
    {
        self.token(TokenKind::Word, |spelling| sync_of(spelling))
    }

    /// Which of two words stands next: true for the first.
    pub(crate) fn either_word(&mut self, first: &str, second: &str) -> Result<bool, Fault>
        ensures { ReadsAlways (spec.either_word first.now second.now self.old) result self.new }
    {
        self.token(
            TokenKind::Word,
            |spelling| either_of(first, second, spelling),
        )
    }

    /// `"(" whole ")"`
    #[tactic(auto, unfolding(crate::specs::ReadTypes::bits))]
    fn bits(&mut self) -> Result<u64, Fault>
        ensures { ReadsAlways (spec.bits self.old) result self.new }
    {
        self.expect(TokenKind::OpenParen)?;
        let width = self.whole()?;
        self.expect(TokenKind::CloseParen)?;
        Ok(width)
    }
}

/// Which of two words a word is: true for the first.
fn either_of(first: &str, second: &str, word: &str) -> Option<bool>
    ensures { result ≡ spec.either_of first.now second.now word.now }
{
    if word == first {
        Some(true)
    } else if word == second {
        Some(false)
    } else {
        None
    }
}
