//! Complexity levels, their order and their text.

ghost use Rattle.std.specs.Prelude.{◌≡◌, ◌↔◌, ◌++◌, ◌≤◌, length, IsSome, IfSome, Some, OnOk, OnErr, get_or, option_map};
ghost use Rattle.std.specs.Option.{option_copied};
ghost use Rattle.tydi_base.specs.Level as spec;
ghost use Rattle.tydi_base.specs.Level.{
  IsFirst,
  IsLevel,
  LevelNumbers,
  number_of,
  numbers_of,
  of_numbers,
  level_text,
  pieces_left,
  whole_level,
};

use crate::decimal::{decimal_length, read_decimal};
use crate::list::List;
use crate::memory::Memory;
use crate::pieces::first_piece;
use crate::writing::Written;
use std::alloc::Global;
use std::marker::Model;

/// The byte between two numbers of a level.
const POINT: u8 = b'.';

/// A complexity level of a stream: four numbers of 0 to 255, the first 1 to 8 (Tydi specification, complexity; that there are
/// at most four is this project's own). Numbers that are not written are 0, so 4 and 4.0 are one level. All that rules and
/// signals make of a level goes through `number`. Contracts see the four numbers.
#[derive(Clone, Copy, Debug, PartialEq, Eq)]
pub struct Level {
    first: u8,
    second: u8,
    third: u8,
    fourth: u8,
}

impl Model for Level {
    ghost use Rattle.tydi_base.specs.Level.{LevelNumbers, IsLevel};

    ghost Value = { LevelNumbers };

    ghost view = { λ level. record { first = level.first; second = level.second; third = level.third; fourth = level.fourth } };

    ghost invariant = { λ level. IsLevel (record { first = level.first; second = level.second; third = level.third; fourth = level.fourth }) };

    ghost inverse = { λ level. record { first = level.first; second = level.second; third = level.third; fourth = level.fourth } };
}

impl Level {
    /// The level of this one number. None exactly outside 1 to 8.
    pub fn new(number: u8) -> Option<Level>
        ensures some { IsSome result ↔ IsFirst number }
        ensures value { IfSome result (λ level. level ≡ whole_level number) }
    {
        made_of(number, 0, 0, 0)
    }

    /// The level of these four numbers. None exactly where the first is outside 1 to 8.
    pub fn dotted(numbers: [u8; 4]) -> Option<Level>
        ensures some { IsSome result ↔ IsFirst (get_or numbers 0 0) }
        ensures value { IfSome result (λ level. level ≡ of_numbers numbers) }
    {
        made_of(numbers[0], numbers[1], numbers[2], numbers[3])
    }

    /// Its first number, 1 to 8.
    #[inline]
    pub fn number(self) -> u8
        ensures value { result ≡ number_of self }
        ensures first { IsFirst result }
    {
        self.first
    }

    /// Its four numbers, as they stand in a text: the first is 1 to 8, the others are 0 to 255.
    pub fn numbers(self) -> [u8; 4]
        ensures value { result ≡ numbers_of self }
        ensures level { IsLevel self }
    {
        [self.first, self.second, self.third, self.fourth]
    }

    /// Whether each of its later numbers is 0.
    pub fn has_one_number(self) -> bool
        ensures { result ≡ spec.has_one_number self }
    {
        self.second == 0 && self.third == 0 && self.fourth == 0
    }

    /// Whether it is at most another level: number by number, the first difference decides.
    pub fn at_most(self, other: Level) -> bool
        ensures { result ≡ spec.at_most self other }
    {
        let fourth = self.fourth <= other.fourth;
        let third = (self.third < other.third) | ((self.third == other.third) & fourth);
        let second = (self.second < other.second) | ((self.second == other.second) & third);
        (self.first < other.first) | ((self.first == other.first) & second)
    }

    /// The level whose text this is. None exactly where it is the text of no level.
    pub fn read(text: &[u8]) -> Option<Level>
        ensures { result ≡ spec.level_of text.now }
    {
        let (first, rest) = next_number(Some(text))?;
        let (second, rest) = next_number(rest)?;
        let (third, rest) = next_number(rest)?;
        let (fourth, rest) = next_number(rest)?;
        match rest {
            None => made_of(first, second, third, fourth),
            Some(_) => None,
        }
    }

    /// Adds its text at the end: its numbers in decimal, joined by `.`, without those at the end that are 0. After `Memory` the
    /// list is as before.
    pub fn write(self, _alloc: Global, out: &mut List<u8>) -> Result<(), Memory>
        ensures ok { OnOk result (out.new ≡ out.old ++ level_text self) }
        ensures err { OnErr result (out.new ≡ out.old) }
    {
        out.emit(&self)
    }
}

impl Level {
    /// How many bytes its text has.
    pub fn text_length(self) -> u64
        ensures bytes { result ≡ length (level_text self) }
        ensures few { result ≤ 15 }
    {
        let first = decimal_length(u64::from(self.first));
        let second = decimal_length(u64::from(self.second));
        let third = decimal_length(u64::from(self.third));
        let fourth = decimal_length(u64::from(self.fourth));
        if self.fourth != 0 {
            first + second + third + fourth + 3
        } else if self.third != 0 {
            first + second + third + 2
        } else if self.second != 0 {
            first + second + 1
        } else {
            first
        }
    }
}

impl Written for Level {
    ghost text = { level_text };

    fn write_to(&self, out: &mut List<u8>) -> Result<(), Memory> {
        let Level {
            first,
            second,
            third,
            fourth,
        } = *self;
        if fourth != 0 {
            crate::emit!(out; first, ".", second, ".", third, ".", fourth)
        } else if third != 0 {
            crate::emit!(out; first, ".", second, ".", third)
        } else if second != 0 {
            crate::emit!(out; first, ".", second)
        } else {
            crate::emit!(out; first)
        }
    }
}

/// The level of four numbers. None exactly where the first is outside 1 to 8.
fn made_of(first: u8, second: u8, third: u8, fourth: u8) -> Option<Level>
    ensures { result ≡ spec.made_of first second third fourth }
{
    if first < 1 {
        return None;
    }
    if first > 8 {
        return None;
    }
    Some(Level {
        first,
        second,
        third,
        fourth,
    })
}

/// The next number of a level's text, and the text after its point. Where no text is left it is 0.
fn next_number(text: Option<&[u8]>) -> Option<(u8, Option<&[u8]>)>
    ensures { option_map (λ next. (next.0, pieces_left (option_copied next.1))) result ≡ spec.next_number (pieces_left (option_copied text.entry)) }
{
    match text {
        None => Some((0, None)),
        Some(text) => number_and_rest(text),
    }
}

/// The first number of a text, and the text after its point, if it has one.
fn number_and_rest(text: &[u8]) -> Option<(u8, Option<&[u8]>)>
    ensures { option_map (λ next. (next.0, pieces_left (option_copied next.1))) result ≡ spec.next_number (pieces_left (Some text.now)) }
{
    match first_piece(text, POINT) {
        Some((piece, rest)) => Some((piece_number(piece, false)?, Some(rest))),
        None => Some((piece_number(text, true)?, None)),
    }
}

/// The number that a piece between points spells. None exactly where it spells none, or one over 255, or 0 as the last piece.
fn piece_number(piece: &[u8], last: bool) -> Option<u8>
    ensures { result ≡ spec.piece_number last piece.now }
{
    let number = read_decimal(piece)?;
    if number > 255 {
        return None;
    }
    if last & (number == 0) {
        return None;
    }
    Some(number as u8)
}

/// The order of levels: each is at most itself, two of which each is at most the other are one, it goes on from one to the
/// next, of two one is at most the other, and with it the first number never falls.
pub fn levels_are_ordered()
    ensures reflexive { spec.OrderIsReflexive }
    ensures antisymmetric { spec.OrderIsAntisymmetric }
    ensures transitive { spec.OrderIsTransitive }
    ensures total { spec.OrderIsTotal }
    ensures numbers { spec.NumbersRise }
{}

/// The law of reading and spelling: each level has one text, and is read from nothing else.
pub fn levels_are_read_as_spelled()
    ensures spelled { spec.LevelsAreReadAsSpelled }
    ensures read { spec.LevelsAreSpelledAsRead }
{}
