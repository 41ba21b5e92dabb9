//! Names, numbers, quoted text, documentation and paths.

ghost use Rattle.std.specs.Prelude.{◌≡◌, ◌+◌, ◌*◌, ◌^◌, ◌≤◌, ◌⊎◌, [], length, option_and_then, IfOk, IsTrue, Some};
ghost use Rattle.std.specs.Char.{is_ascii_digit};
ghost use Rattle.std.specs.List.{list_all};
ghost use Rattle.til_lexer.specs.Spelling.{HasForm};
ghost use Rattle.til_lexer.specs.declared.token.TokenKind.TheVariants as kinds;
ghost use Rattle.til_parser.specs.Lexemes.{between_marks};
ghost use Rattle.til_parser.specs.Numbers.{whole_of, digits_before, digits_behind, numerator_of, denominator_of, lowest};
ghost use Rattle.til_parser.specs.ReadTypes as spec;
ghost use Rattle.tydi_reading.specs.Reading.{Reads, ReadsAlways};
ghost use Rattle.tydi_base.specs.Decimal.{read_on};
ghost use Rattle.tydi_base.specs.Level.{IsFirst};

use crate::parser::Parser;
use crate::refusal::Fault;
use crate::tree::{AstName, AstPath};
use std::alloc::Global;
use til_lexer::{TokenKind, digits_at};
use tydi_base::{Frac, Level, List, Memory, Name, Text, number_of_digits};
use tydi_reading::{Source, joined};

impl<'a> Parser<'a> {
    /// `name`
    #[tactic(auto, unfolding(crate::specs::Reading::token))]
    pub(crate) fn name(&mut self) -> Result<AstName, Fault>
        ensures { Reads (spec.name self.old) result self.new }
    {
        let Some((place, spelling)) = self.next_of(TokenKind::Word) else {
            return Err(Fault::Refused);
        };
        let Some(name) = Name::read(self.alloc(), spelling.as_bytes())? else {
            return Err(Fault::Refused);
        };
        self.skip();
        Ok(AstName { name, place })
    }

    /// `whole`: a number without a point.
    pub(crate) fn whole(&mut self) -> Result<u64, Fault>
        ensures { ReadsAlways (spec.whole self.old) result self.new }
    {
        self.token(TokenKind::Number, |spelling| whole_number(spelling))
    }

    /// `number [ "." number ]`: the numbers of a level are their runs of digits.
    #[tactic(auto, unfolding(crate::specs::ReadTypes::level))]
    pub(crate) fn level(&mut self) -> Result<Level, Fault>
        ensures { ReadsAlways (spec.level self.old) result self.new }
    {
        let first = self.first_runs()?;
        let later = self.later_runs()?;
        Ok(level_of(first, later))
    }

    /// `number`, with which a level may begin.
    fn first_runs(&mut self) -> Result<(u8, Option<u8>), Fault>
        ensures { ReadsAlways (spec.first_runs self.old) result self.new }
    {
        self.token(
            TokenKind::Number,
            |spelling: &str| -> Option<(u8, Option<u8>)>
                requires { HasForm kinds.Number spelling.now }
                ensures { result ≡ option_and_then spec.if_first (spec.runs_of spelling.now) }
            { first_runs(spelling) },
        )
    }

    /// `[ "." number ]`
    #[tactic(auto, unfolding(crate::specs::ReadTypes::later_runs, tydi_reading::specs::Lists::mark))]
    fn later_runs(&mut self) -> Result<Option<(u8, Option<u8>)>, Fault>
        ensures { ReadsAlways (spec.later_runs self.old) result self.new }
    {
        if !self.eat(TokenKind::Point) {
            return Ok(None);
        }
        Ok(Some(self.runs()?))
    }

    /// `number`, with which a level goes on.
    fn runs(&mut self) -> Result<(u8, Option<u8>), Fault>
        ensures { ReadsAlways (spec.runs self.old) result self.new }
    {
        self.token(
            TokenKind::Number,
            |spelling: &str| -> Option<(u8, Option<u8>)>
                requires { HasForm kinds.Number spelling.now }
                ensures { result ≡ spec.runs_of spelling.now }
            { runs_of(spelling) },
        )
    }

    /// `number`, as a fraction in lowest terms.
    pub(crate) fn number(&mut self) -> Result<Frac, Fault>
        ensures { ReadsAlways (spec.number self.old) result self.new }
    {
        self.token(
            TokenKind::Number,
            |spelling: &str| -> Option<Frac>
                requires { HasForm kinds.Number spelling.now }
                ensures { result ≡ Some (lowest (numerator_of spelling.now) (denominator_of spelling.now)) }
            { Some(fraction_of(spelling)) },
        )
    }

    /// `quoted`: the text between the two `"`.
    pub(crate) fn quoted(&mut self) -> Result<Text, Fault>
        ensures { Reads (spec.quoted self.old) result self.new }
    {
        self.marked(TokenKind::Quoted)
    }

    /// `[doc]`: the text between the two `#`, where documentation stands next.
    #[tactic(auto, unfolding(crate::specs::ReadTypes::doc))]
    pub(crate) fn doc(&mut self) -> Result<Option<Text>, Fault>
        ensures { Reads (spec.doc self.old) result self.new }
    {
        if !self.sees(TokenKind::Doc) {
            return Ok(None);
        }
        Ok(Some(self.marked(TokenKind::Doc)?))
    }

    /// The text between the two marks of a token.
    #[tactic(auto, unfolding(crate::specs::Reading::token))]
    fn marked(&mut self, kind: TokenKind) -> Result<Text, Fault>
        requires { (kind ≡ kinds.Quoted) ⊎ (kind ≡ kinds.Doc) }
        ensures { Reads (spec.marked kind self.old) result self.new }
    {
        let Some((_, spelling)) = self.next_of(kind) else {
            return Err(Fault::Refused);
        };
        let text = Text::new(self.alloc(), inside(spelling))?;
        self.skip();
        Ok(text)
    }

    /// `path`
    #[tactic(auto, unfolding(crate::specs::ReadTypes::path))]
    pub(crate) fn path(&mut self) -> Result<AstPath, Fault>
        ensures { Reads (spec.path self.old) result self.new }
    {
        let none = room_for_one(self.alloc())?;
        let all = joined(
            self,
            none,
            |rest| rest.sees(TokenKind::DoubleColon),
            |rest| rest.name(),
        )?;
        Ok(AstPath { names: fitted(all) })
    }
}

/// An empty list with room for one thing, where one alone is what most lists have.
fn room_for_one<T>(alloc: Global) -> Result<List<T>, Memory>
    ensures { IfOk result (λ list. list ≡ []) }
{
    Ok(List::from_vec(Vec::with_capacity(alloc, 1)?))
}

/// A list with no room for more than it has.
fn fitted<T>(list: List<T>) -> List<T>
    ensures { result ≡ list }
{
    let mut elements = list.into_vec();
    elements.shrink_to_fit();
    List::from_vec(elements)
}

/// The whole number that a number spells, if it has no point.
#[tactic(auto, unfolding(crate::specs::Numbers::whole_of))]
fn whole_number(spelling: &str) -> Option<u64>
    ensures { result ≡ whole_of spelling.now }
{
    let digits = spelling.as_bytes();
    if !are_digits(digits) {
        return None;
    }
    number_of_digits(digits)
}

/// Whether each of these bytes is `0` to `9`.
fn are_digits(bytes: &[u8]) -> bool
    ensures { result ≡ list_all is_ascii_digit bytes.now }
{
    bytes.iter().all(|byte| byte.is_ascii_digit())
}

/// The level of the runs of a number, and of those of a second one, if there is one.
fn level_of(first: (u8, Option<u8>), later: Option<(u8, Option<u8>)>) -> Level
    requires { IsFirst first.0 }
    ensures { result ≡ spec.level_of (first, later) }
{
    let numbers = match (first, later) {
        ((first, None), None) => [first, 0, 0, 0],
        ((first, Some(second)), None) => [first, second, 0, 0],
        ((first, None), Some((second, third))) => [first, second, third.unwrap_or(0), 0],
        ((first, Some(second)), Some((third, fourth))) => {
            [first, second, third, fourth.unwrap_or(0)]
        }
    };
    Level::dotted(numbers).unwrap()
}

/// The runs of digits of a number with which a level may begin: the first is 1 to 8, and one behind the point at most 255.
fn first_runs(spelling: &str) -> Option<(u8, Option<u8>)>
    requires { HasForm kinds.Number spelling.now }
    ensures { result ≡ option_and_then spec.if_first (spec.runs_of spelling.now) }
{
    let runs = runs_of(spelling)?;
    if 0 < runs.0 && runs.0 < 9 {
        Some(runs)
    } else {
        None
    }
}

/// The runs of digits of a number, by value, where none is over 255: one, or two where it has a point.
fn runs_of(spelling: &str) -> Option<(u8, Option<u8>)>
    requires { HasForm kinds.Number spelling.now }
    ensures { result ≡ spec.runs_of spelling.now }
{
    let (before, behind) = around_point(spelling);
    let first = byte_of(before)?;
    if behind.is_empty() {
        return Some((first, None));
    }
    Some((first, Some(byte_of(behind)?)))
}

/// The number that digits spell, where it is at most 255.
fn byte_of(digits: &[u8]) -> Option<u8>
    requires { IsTrue (list_all is_ascii_digit digits.now) }
    ensures { result ≡ spec.byte_of digits.now }
{
    let number = number_of_digits(digits)?;
    if number > 255 {
        return None;
    }
    Some(number as u8)
}

/// The number that a number spells, its point counted, in lowest terms.
fn fraction_of(spelling: &str) -> Frac
    requires { HasForm kinds.Number spelling.now }
    ensures { result ≡ lowest (numerator_of spelling.now) (denominator_of spelling.now) }
{
    let (before, behind) = around_point(spelling);
    let whole = with_digits(0, before);
    let numerator = with_digits(whole, behind);
    Frac::new(numerator, 10u64.pow(behind.len() as u32)).unwrap()
}

/// The digits of a number before its point, and those behind it.
fn around_point(spelling: &str) -> (&[u8], &[u8])
    ensures before { result.0.now ≡ digits_before spelling.now }
    ensures behind { result.1.now ≡ digits_behind spelling.now }
{
    let bytes = spelling.as_bytes();
    let point = digits_at(bytes);
    (&bytes[..point], &bytes[(point + 1).min(bytes.len())..])
}

/// The number that these digits spell after those of a number, where all that many digits spell fits.
fn with_digits(number: u64, digits: &[u8]) -> u64
    requires digits { IsTrue (list_all is_ascii_digit digits.now) }
    requires fits { (number + 1) * 10 ^ length digits.now ≤ 2 ^ 64 }
    ensures { result ≡ read_on number digits.now }
{
    let mut value = number;
    'digits: for digit in digits {
        value = 10 * value + u64::from(*digit - b'0');
    }
    value
}

/// The text between the two marks of quoted text or documentation.
fn inside(spelling: &str) -> &str
    requires { HasForm kinds.Quoted spelling.now ⊎ HasForm kinds.Doc spelling.now }
    ensures { result.now ≡ between_marks spelling.now }
{
    &spelling[1..spelling.len() - 1]
}
