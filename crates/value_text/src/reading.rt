//! A value of a port's type, read from its text.

ghost use Rattle.std.specs.Prelude.{◌≡◌, ◌-◌, ◌^◌, ◌<◌, true, length, IfOk, MatchResult, Some};
ghost use Rattle.logical_value.specs.Fits.{fits_split};
ghost use Rattle.logical_value.specs.Tree.{plain_port};
ghost use Rattle.type_split.specs.Streams.{plain_split};
ghost use Rattle.value_text.specs.Grammar.{Text};
ghost use Rattle.value_text.specs.Port as spec;
ghost use Rattle.value_text.specs.Reading.{IsFaulty, IsText, IsValue};
ghost use Rattle.value_text.specs.Stops.{syntax_at};
ghost use Rattle.value_text.specs.Tokens.{tokens_of};

use crate::fault::{ValueFault, Why};
use crate::form::refused_at;
use crate::leaves::surplus_leaf;
use crate::stops::stop_within;
use crate::tokens::Tokens;
use logical_value::PortValue;
use std::alloc::Global;
use tydi_base::{Memory, Place};
use tydi_reading::Fault;
use type_split::Split;

/// The most leaves of a value.
const MOST_LEAVES: u64 = 1_000_000;

/// The value of the port's type that was split, which a text is: the line of each root, in the order of the split. A text has fewer than
/// 2 ^ 32 - 1 bytes. `Syntax` comes exactly where the text has not the form of a value, else `TooManyLeaves` exactly where it has more than
/// 1,000,000 leaves, and else the first thing that does not fit the type is reported, with its place: see `ValueFault`. The value
/// fits the split. The text is this project's own.
pub fn read(alloc: Global, split: &Split<'_>, text: &[u8]) -> Result<PortValue, ValueFault>
    requires { length text.now < 2 ^ 32 - 1 }
    ensures value { MatchResult result (IsValue (plain_split split.now) text.now) (IsFaulty (plain_split split.now) text.now) }
    ensures fits { IfOk result (λ value. fits_split (plain_split split.now) (plain_port value) ≡ true) }
{
    if let Some(left) = refused_at(alloc, text)? {
        return Err(ValueFault::Syntax(syntax_place(alloc, text, left)?));
    }
    match surplus_leaf(text, MOST_LEAVES) {
        Some(left) => Err(ValueFault::TooManyLeaves(place_at(text, left))),
        None => read_value(alloc, split, text),
    }
}

/// The same of a text that has the form of a value, with few leaves.
fn read_value(alloc: Global, split: &Split<'_>, text: &[u8]) -> Result<PortValue, ValueFault>
    requires length { length text.now < 2 ^ 32 - 1 }
    requires text { IsText text.now }
    ensures value { MatchResult result (IsValue (plain_split split.now) text.now) (IsFaulty (plain_split split.now) text.now) }
    ensures fits { IfOk result (λ value. fits_split (plain_split split.now) (plain_port value) ≡ true) }
{
    let mut tokens = Tokens::new(text);
    match tokens.take_port(alloc, split) {
        Ok(roots) => Ok(PortValue { roots }),
        Err(Fault::Memory) => Err(ValueFault::Memory),
        Err(Fault::Refused) => Err(ValueFault::WrongShape(place_at(text, tokens.bytes_left()))),
        Err(Fault::Unfit(why)) => Err(fault_of(why, place_at(text, tokens.bytes_left()))),
    }
}

/// The place right after the longest front of a text that some text of the form begins with, where its tokens stop being of the form with
/// so many bytes left.
fn syntax_place(alloc: Global, text: &[u8], left: usize) -> Result<Place, Memory>
    requires { length text.now < 2 ^ 32 - 1 }
    ensures { IfOk result (λ place. place ≡ syntax_at text.now (Some left)) }
{
    let further = stop_within(alloc, text, left)?;
    Ok(place_at(text, left.saturating_sub(further)))
}

/// The fault at a place.
fn fault_of(why: Why, place: Place) -> ValueFault
    ensures { result ≡ spec.fault_of why place }
{
    match why {
        Why::WrongShape => ValueFault::WrongShape(place),
        Why::UnknownField => ValueFault::UnknownField(place),
        Why::OutOfRange => ValueFault::OutOfRange(place),
    }
}

/// The place in a text from which on there are so many bytes.
fn place_at(text: &[u8], left: usize) -> Place
    requires { length text.now < 2 ^ 32 - 1 }
    ensures { result ≡ spec.place_at text.now left }
{
    let passed = text.len().saturating_sub(left);
    Place::start().past(&text[..passed])
}
