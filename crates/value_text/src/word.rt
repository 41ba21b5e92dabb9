//! The text of a word.

ghost use Rattle.std.specs.Prelude.{◌≡◌, ◌++◌, ◌<◌, length, nat_lt, cond, decimal, Some, None, codes};
ghost use Rattle.tydi_base.specs.Bits.{number_of_bits};
ghost use Rattle.value_text.specs.Canonical.{short_number, word_text};

use itoa::Buffer;
use tydi_base::{Bits, Hex, List, Memory, Written, decimal_length, emit, hex_length};

/// The widest word that is written in decimal, in bits.
const WIDEST_DECIMAL: usize = 128;

/// A word: in decimal up to 128 bits, and else in hexadecimal after `0x`.
#[derive(Clone, Copy)]
pub(crate) struct Word<'a>(pub &'a Bits);

impl Written for Word<'_> {
    ghost text = { λ word. word_text word.0.now };

    fn write_to(&self, out: &mut List<u8>) -> Result<(), Memory> {
        match decimal_of(self.0) {
            Some(number) => emit!(out; number),
            None => emit!(out; "0x", Hex(self.0)),
        }
    }
}

/// The bytes of the text of a word.
pub(crate) fn word_length(word: &Bits) -> u64
    ensures { result ≡ length (word_text word.now) }
{
    match decimal_of(word) {
        Some(number) => number_length(number),
        None => 2 + hex_length(word.len()),
    }
}

/// The digits of a number.
fn number_length(number: u128) -> u64
    ensures { result ≡ length (decimal number) }
{
    if number > u128::from(u64::MAX) {
        return Buffer::new().format(number).len() as u64;
    }
    decimal_length(number as u64)
}

/// The number of a word that is written in decimal.
pub(crate) fn decimal_of(word: &Bits) -> Option<u128>
    ensures { result ≡ short_number word.now }
{
    if word.len() > WIDEST_DECIMAL {
        return None;
    }
    word.number()
}
