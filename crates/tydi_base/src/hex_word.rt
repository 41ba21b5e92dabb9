//! A word of a width from any number of hexadecimal digits, the highest first.

ghost use Rattle.std.specs.Prelude.{◌≡◌, ◌+◌, ◌-◌, ◌*◌, ◌/◌, ◌<◌, ◌≤◌, ◌++◌, ℕ, List, Bool, true, None, Some, Ok, Err, drop, take, length, replicate, option_map, IfOk, IsTrue, MatchOption, MatchResult};
ghost use Rattle.tydi_base.specs.Bits.{bits_of, unpack, zero_bits, IsPacked};
ghost use Rattle.tydi_base.specs.Hex.{bits_of_digits, no_ones};
ghost use Rattle.tydi_base.specs.HexWords.{counted, fault_text, first_not_hex, hex_bits, hex_fault, hex_word, highest_one, resized};

use crate::hex::digit_value;
use crate::hex_digits::fill_digits;
use crate::memory::Memory;
use smallvec::SmallVec;
use std::alloc::Global;
use std::error::Error;
use std::fmt;

/// Why digits are no word of a width.
#[derive(Clone, Copy, Debug, PartialEq, Eq)]
pub enum BitsFault {
    /// A byte is none of `0` to `9` and `a` to `f`: where the first such byte stands in the digits.
    NotHex(usize),
    /// Each byte is a digit, and a one stands at or above the width: where the highest one stands, from the lowest bit, or
    /// `usize::MAX` where it stands above that.
    TooWide(usize),
    /// There was no memory.
    Memory,
}

impl fmt::Display for BitsFault {
    ghost output = { λ fault. Some (fault_text fault) };

    fn fmt<W: fmt::Write>(&self, f: &mut fmt::Formatter<W>) -> fmt::Result {
        match self {
            BitsFault::NotHex(index) => write!(f, "no hexadecimal digit at {index}"),
            BitsFault::TooWide(index) => write!(f, "a one above the width, at {index}"),
            BitsFault::Memory => f.write_str("out of memory"),
        }
    }
}

impl Error for BitsFault {}

/// Why digits are no word of this width: their first byte that is no digit, or the highest 1 at or above the width. None where they
/// are one.
pub(crate) fn hex_fault_of(width: usize, digits: &[u8]) -> Option<BitsFault>
    ensures value { MatchOption result (hex_word width digits.now ≡ Ok (resized width (hex_bits digits.now))) (λ fault. (hex_word width digits.now ≡ Err fault) × (hex_fault fault ≡ Some fault)) }
    ensures digits { result ≡ None → bits_of_digits digits.now ≡ Some (hex_bits digits.now) }
    ensures high { result ≡ None → no_ones (drop width (hex_bits digits.now)) ≡ true }
{
    match find_highest_one(digits) {
        Err(index) => Some(BitsFault::NotHex(index)),
        Ok(Some(index)) => {
            if index < width {
                None
            } else {
                Some(BitsFault::TooWide(index))
            }
        }
        Ok(None) => None,
    }
}

// Where the highest one of digits stands, or the first byte that is no digit.
fn find_highest_one(digits: &[u8]) -> Result<Option<usize>, usize>
    ensures not_hex { MatchResult result (λ _. first_not_hex digits.now ≡ None) (λ index. first_not_hex digits.now ≡ Some index) }
    ensures bits { IfOk result (λ highest. bits_of_digits digits.now ≡ Some (hex_bits digits.now)) }
    ensures highest { IfOk result (λ highest. highest ≡ option_map counted (highest_one (hex_bits digits.now))) }
{
    let mut highest = None;
    'digits: for (index, digit) in digits.iter().enumerate() {
        match digit_value(*digit) {
            Some(value) => highest = with_digit(highest, value),
            None => return Err(index),
        }
    }
    Ok(highest)
}

// Where the highest one stands once a digit of this value is added at the low end.
fn with_digit(highest: Option<usize>, value: u8) -> Option<usize>
    requires { value < 16 }
    ensures { (bits : List Bool) → highest ≡ option_map counted (highest_one bits) → result ≡ option_map counted (highest_one (bits_of 4 value ++ bits)) }
{
    match highest {
        Some(index) => Some(index.saturating_add(4)),
        None => highest_one_of(value),
    }
}

// Where the highest one of a digit stands.
fn highest_one_of(value: u8) -> Option<usize>
    requires { value < 16 }
    ensures { result ≡ option_map counted (highest_one (bits_of 4 value)) }
{
    if value == 0 {
        None
    } else if value < 2 {
        Some(0)
    } else if value < 4 {
        Some(1)
    } else if value < 8 {
        Some(2)
    } else {
        Some(3)
    }
}

/// The bytes of the word of this width of digits, where their ones stand below the width.
pub(crate) fn packed_digits(
    alloc: Global,
    width: usize,
    digits: &[u8],
) -> Result<SmallVec<u8, 16>, Memory>
    requires digits { bits_of_digits digits.now ≡ Some (hex_bits digits.now) }
    requires high { no_ones (drop width (hex_bits digits.now)) ≡ true }
    ensures packed { IfOk result (λ bytes. IsPacked width bytes.items) }
    ensures bits { IfOk result (λ bytes. take width (unpack bytes.items) ≡ resized width (hex_bits digits.now)) }
{
    let count = width.div_ceil(8);
    let used = width.div_ceil(4).min(digits.len());
    let mut bytes = SmallVec::from_elem(alloc, 0, count)?;
    fill_low(&digits[digits.len() - used..], bytes.as_mut_slice());
    Ok(bytes)
}

/// Fills bytes of zeros with these digits, the last two in the first byte. The bytes past them stay zeros. False where one of the
/// digits is none.
pub(crate) fn fill_low(digits: &[u8], bytes: &mut [u8]) -> bool
    requires room { (length digits.now + 1) / 2 ≤ length bytes.old }
    requires zeros { bytes.old ≡ replicate (length bytes.old) 0 }
    ensures digits { IsTrue result → bits_of_digits digits.now ≡ Some (hex_bits digits.now) }
    ensures bits { (bits : List Bool) → bits_of_digits digits.now ≡ Some bits
        → unpack bytes.new ≡ bits ++ zero_bits (8 * length bytes.old - 4 * length digits.now) }
{
    fill_digits(digits, &mut bytes[..digits.len().div_ceil(2)])
}
