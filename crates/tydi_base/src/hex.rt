ghost use Rattle.std.specs.Prelude.{◌≡◌, ◌+◌, ◌-◌, ◌*◌, ◌/◌, ◌%◌, ◌^◌, ◌<◌, ◌≤◌, ◌++◌, take, [], ℕ, List, Bool, Some, None, length, IfSome, OnOk, OnErr};
ghost use Rattle.tydi_base.specs.Bits.{bits_of, unpack};
ghost use Rattle.tydi_base.specs.Hex.{hex_digit, hex_of, digit_of, byte_of_digits, word_at};
ghost use Rattle.tydi_base.specs.Writing.{StandsInFront};

use crate::decimal::ZERO;
use crate::list::List;
use crate::memory::Memory;

/// A word's spelling is read as that word, and a word is read from its spelling alone.
pub fn hexadecimal_is_read_as_spelled()
    ensures spelled { (bits : List Bool) → word_at (length bits) (hex_of bits) ≡ Some bits }
    ensures read { (width : ℕ) (digits : List ℕ) (bits : List Bool) → word_at width digits ≡ Some bits
        → (digits ≡ hex_of bits) × (length bits ≡ width) }
{}

/// The first digit that is a letter.
pub(crate) const LETTER_A: u8 = b'a';

/// The table's entry for a byte that is no hexadecimal digit.
pub(crate) const NO_DIGIT: u8 = 255;

/// For each byte, the value of the digit that it is, or `NO_DIGIT`.
const VALUES: [u8; 256] = [
    255, 255, 255, 255, 255, 255, 255, 255, 255, 255, 255, 255, 255, 255, 255, 255, 255, 255, 255,
    255, 255, 255, 255, 255, 255, 255, 255, 255, 255, 255, 255, 255, 255, 255, 255, 255, 255, 255,
    255, 255, 255, 255, 255, 255, 255, 255, 255, 255, 0, 1, 2, 3, 4, 5, 6, 7, 8, 9, 255, 255, 255,
    255, 255, 255, 255, 255, 255, 255, 255, 255, 255, 255, 255, 255, 255, 255, 255, 255, 255, 255,
    255, 255, 255, 255, 255, 255, 255, 255, 255, 255, 255, 255, 255, 255, 255, 255, 255, 10, 11,
    12, 13, 14, 15, 255, 255, 255, 255, 255, 255, 255, 255, 255, 255, 255, 255, 255, 255, 255, 255,
    255, 255, 255, 255, 255, 255, 255, 255, 255, 255, 255, 255, 255, 255, 255, 255, 255, 255, 255,
    255, 255, 255, 255, 255, 255, 255, 255, 255, 255, 255, 255, 255, 255, 255, 255, 255, 255, 255,
    255, 255, 255, 255, 255, 255, 255, 255, 255, 255, 255, 255, 255, 255, 255, 255, 255, 255, 255,
    255, 255, 255, 255, 255, 255, 255, 255, 255, 255, 255, 255, 255, 255, 255, 255, 255, 255, 255,
    255, 255, 255, 255, 255, 255, 255, 255, 255, 255, 255, 255, 255, 255, 255, 255, 255, 255, 255,
    255, 255, 255, 255, 255, 255, 255, 255, 255, 255, 255, 255, 255, 255, 255, 255, 255, 255, 255,
    255, 255, 255, 255, 255, 255, 255, 255, 255, 255, 255, 255, 255, 255, 255, 255, 255, 255, 255,
    255, 255, 255, 255,
];

/// The value of a hexadecimal digit, `0` to `9` or `a` to `f`. None where the byte is none.
// It branches on nothing but whether the byte is a digit, since that is foreseen, and which digit it is is not.
#[inline(always)]
#[tactic(auto, unfolding(crate::specs::Hex::digit_of))]
pub fn digit_value(byte: u8) -> Option<u8>
    ensures value { result ≡ digit_of byte }
    ensures below { IfSome result (λ value. value < 16) }
{
    let value = VALUES[usize::from(byte)];
    if value < 16 { Some(value) } else { None }
}

// The value of two digits, the first of them the higher.
#[tactic(auto, unfolding(crate::specs::Hex::byte_of_digits))]
#[inline(always)]
pub(crate) fn byte_value(high: u8, low: u8) -> Option<u8>
    ensures { result ≡ byte_of_digits high low }
{
    let below = digit_value(low)?;
    let above = digit_value(high)?;
    Some(16 * above + below)
}

// The digit of this value, lower case.
#[inline(always)]
#[tactic(auto, unfolding(crate::specs::Hex::hex_digit))]
fn hex_digit(value: u8) -> u8
    requires { value < 16 }
    ensures { result ≡ hex_digit value }
{
    if value < 10 {
        ZERO + value
    } else {
        LETTER_A + (value - 10)
    }
}

// The four bits at this place in bytes, counted in fours from the lowest.
fn four_bits(bytes: &[u8], index: usize) -> u8
    requires { index < 2 * length bytes.now }
    ensures bits { take (4 * (index + 1)) (unpack bytes.now) ≡ take (4 * index) (unpack bytes.now) ++ bits_of 4 result }
    ensures below { result < 16 }
{
    let byte = bytes[index / 2];
    if index % 2 == 0 { byte % 16 } else { byte / 16 }
}

/// Adds the digits that spell the lowest bits of bytes, so many, the highest first. After `Memory` some of them may stand at
/// the end.
pub(crate) fn write_digits(bytes: &[u8], count: usize, out: &mut List<u8>) -> Result<(), Memory>
    requires { count ≤ 2 * length bytes.now }
    ensures ok { OnOk result (out.new ≡ out.old ++ hex_of (take (4 * count) (unpack bytes.now))) }
    ensures err { OnErr result (StandsInFront out.old out.new) }
{
    let low = count / 16 * 16;
    write_high(bytes, low, count, out)?;
    write_blocks(bytes, low, out)
}

// The same of the digits above so many.
#[inline(always)]
fn write_high(bytes: &[u8], low: usize, count: usize, out: &mut List<u8>) -> Result<(), Memory>
    requires within { count ≤ 2 * length bytes.now }
    requires low { low ≤ count }
    ensures ok { OnOk result (out.new ++ hex_of (take (4 * low) (unpack bytes.now)) ≡ out.old ++ hex_of (take (4 * count) (unpack bytes.now))) }
    ensures front { StandsInFront out.old out.new }
{
    let mut at = count;
    'digits: while at > low {
        at -= 1;
        out.push(hex_digit(four_bits(bytes, at)))?;
    }
    Ok(())
}

// The same of sixteen digits after another.
fn write_blocks(bytes: &[u8], count: usize, out: &mut List<u8>) -> Result<(), Memory>
    requires within { count ≤ 2 * length bytes.now }
    requires whole { count % 16 ≡ 0 }
    ensures ok { OnOk result (out.new ≡ out.old ++ hex_of (take (4 * count) (unpack bytes.now))) }
    ensures err { OnErr result (StandsInFront out.old out.new) }
{
    let mut at = count / 2;
    'sixteens: while at > 0 {
        at -= 8;
        out.extend_from_slice(&block_digits(&bytes[at..at + 8]))?;
    }
    Ok(())
}

// The digits of eight bytes, the highest first.
#[inline(always)]
fn block_digits(bytes: &[u8]) -> [u8; 16]
    requires { length bytes.now ≡ 8 }
    ensures { result ≡ hex_of (unpack bytes.now) }
{
    [
        high_digit(bytes[7]),
        low_digit(bytes[7]),
        high_digit(bytes[6]),
        low_digit(bytes[6]),
        high_digit(bytes[5]),
        low_digit(bytes[5]),
        high_digit(bytes[4]),
        low_digit(bytes[4]),
        high_digit(bytes[3]),
        low_digit(bytes[3]),
        high_digit(bytes[2]),
        low_digit(bytes[2]),
        high_digit(bytes[1]),
        low_digit(bytes[1]),
        high_digit(bytes[0]),
        low_digit(bytes[0]),
    ]
}

// The digit of the high half of a byte.
#[inline(always)]
fn high_digit(byte: u8) -> u8
    ensures { result ≡ hex_digit (byte / 16) }
{
    hex_digit(byte / 16)
}

// The digit of the low half of a byte.
#[inline(always)]
fn low_digit(byte: u8) -> u8
    ensures { result ≡ hex_digit (byte % 16) }
{
    hex_digit(byte % 16)
}

/// How many hexadecimal digits a word of this width has.
pub fn hex_length(width: usize) -> u64
    ensures digits { result ≡ (width + 3) / 4 }
    ensures few { result ≤ 2 ^ 62 }
{
    width.div_ceil(4) as u64
}
