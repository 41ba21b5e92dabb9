//! The words of states.

ghost use Rattle.std.specs.Prelude.{◌≡◌, ◌≤◌, ◌++◌, ◌∷◌, [], List, length, map, Some, IfOk, option_map};
ghost use Rattle.std.specs.List.{list_all};
ghost use Rattle.tydi_base.specs.Binary.{binary_word, is_binary_digit};
ghost use Rattle.tydi_base.specs.Bits.{number_of_bits, zero_bits};
ghost use Rattle.vcd_read.specs.Letters.{ReadsStates, letter_of};
ghost use Rattle.vcd_read.specs.Words.{filled, states_of, word_of};
ghost use Rattle.vcd_read.specs.declared.state.State.{State};

use crate::state::{State, state_of};
use std::alloc::Global;
use tydi_base::{Bits, List, Memory};

/// The letter of a state.
#[inline(always)]
fn letter_of(state: State) -> u8
    ensures { result ≡ letter_of state }
{
    match state {
        State::Low => b'0',
        State::High => b'1',
        State::Unknown => b'x',
        State::Floating => b'z',
    }
}

/// Whether a letter is `0` or `1`.
#[inline(always)]
fn is_bit(letter: u8) -> bool
    ensures { result ≡ is_binary_digit letter }
{
    (letter == b'0') | (letter == b'1')
}

/// Whether each of these letters is `0` or `1`.
// It looks at all of them, so that the compiler can take many at once.
#[inline(always)]
fn are_bits(letters: &[u8]) -> bool
    ensures { result ≡ list_all is_binary_digit letters.now }
{
    let mut are = true;
    'letters: for letter in letters {
        are = are & is_bit(*letter);
    }
    are
}

/// Becomes the letters of the states that these letters stand for. False where one of them stands for none.
// Most letters are `0` and `1`, and stand for themselves.
pub(crate) fn read_states(letters: &[u8], states: &mut List<u8>) -> Result<bool, Memory>
    ensures { IfOk result (λ fine. ReadsStates fine (states_of letters.now) states.new) }
{
    states.truncate(0);
    if are_bits(letters) {
        states.extend_from_slice(letters)?;
        return Ok(true);
    }
    read_letters(letters, states)
}

/// The same, letter by letter.
fn read_letters(letters: &[u8], states: &mut List<u8>) -> Result<bool, Memory>
    ensures { IfOk result (λ fine. ReadsStates fine (states_of letters.now) states.new) }
{
    states.truncate(0);
    states.reserve(letters.len())?;
    'letters: for letter in letters {
        match state_of(*letter) {
            Some(state) => states.push(letter_of(state))?,
            None => return Ok(false),
        }
    }
    Ok(true)
}

/// The word of a state.
#[inline(always)]
pub(crate) fn bit_word(alloc: Global, state: State) -> Result<Option<Bits>, Memory>
    ensures { IfOk result (λ word. word ≡ word_of (state ∷ [])) }
{
    match state {
        State::Low => Bits::from_number(alloc, 1, 0),
        State::High => Bits::from_number(alloc, 1, 1),
        State::Unknown => Ok(None),
        State::Floating => Ok(None),
    }
}

/// The number that at most 64 letters spell, the highest first. None where one of them is neither `0` nor `1`.
#[inline(always)]
fn number_of(letters: &[u8]) -> Option<u64>
    requires { length letters.now ≤ 64 }
    ensures { result ≡ option_map number_of_bits (binary_word letters.now) }
{
    let mut number: u64 = 0;
    'letters: for letter in letters {
        if !is_bit(*letter) {
            return None;
        }
        number = 2 * number + u64::from(*letter % 2);
    }
    Some(number)
}

/// The most bits of a word that is made from a number.
const MOST_IN_NUMBER: usize = 64;

/// The word of this width of states, which are not more than its bits, by their letters.
// Most words are narrow, and are read as numbers.
pub(crate) fn vector_word(
    alloc: Global,
    width: usize,
    letters: &[u8],
) -> Result<Option<Bits>, Memory>
    requires { length letters.now ≤ width }
    ensures { IfOk result (λ word. (states : List State) → letters.now ≡ map letter_of states → word ≡ word_of (filled width states)) }
{
    if width > MOST_IN_NUMBER {
        return wide_word(alloc, width, letters);
    }
    match number_of(letters) {
        Some(number) => Bits::from_number(alloc, width, u128::from(number)),
        None => Ok(None),
    }
}

/// The same of any width.
fn wide_word(alloc: Global, width: usize, letters: &[u8]) -> Result<Option<Bits>, Memory>
    requires { length letters.now ≤ width }
    ensures { IfOk result (λ word. (states : List State) → letters.now ≡ map letter_of states → word ≡ word_of (filled width states)) }
{
    let word = Bits::from_binary(alloc, letters)?;
    widened(alloc, word, width - letters.len())
}

/// A word with so many zeros above it, where there is one.
fn widened(alloc: Global, word: Option<Bits>, count: usize) -> Result<Option<Bits>, Memory>
    ensures { IfOk result (λ wide. wide ≡ option_map (λ bits. bits ++ zero_bits count) word) }
{
    match word {
        Some(bits) => with_zeros(alloc, bits, count),
        None => Ok(None),
    }
}

/// A word with so many zeros above it.
fn with_zeros(alloc: Global, bits: Bits, count: usize) -> Result<Option<Bits>, Memory>
    ensures { IfOk result (λ wide. wide ≡ Some (bits ++ zero_bits count)) }
{
    let mut wide = bits;
    let zeros = Bits::zeros(alloc, count)?;
    wide.append(alloc, &zeros)?;
    Ok(Some(wide))
}
