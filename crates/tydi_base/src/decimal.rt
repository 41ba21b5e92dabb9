//! Decimal numbers in texts, with no sign.

ghost use Rattle.std.specs.Prelude.{◌≡◌, ◌≤◌, ◌<◌, ℕ, IfSome, IfNone, ◌+◌, ◌*◌, ◌^◌, ◌++◌, [], ◌∷◌, length, Some, IsTrue, decimal, OnOk, OnErr};
ghost use Rattle.std.specs.List.{list_all};
ghost use Rattle.std.specs.Char as chars;
ghost use Rattle.tydi_base.specs.Decimal as spec;

use crate::list::List;
use crate::memory::Memory;
use itoa::Buffer;

/// The digit of nothing.
pub(crate) const ZERO: u8 = b'0';

/// The number that these digits spell: at least one digit, and no leading zero. None exactly where they spell none, or
/// one of 2 ^ 64 or more.
// One digit or two are most numbers of lanes.
#[inline(always)]
pub fn read_decimal(digits: &[u8]) -> Option<u64>
    ensures { result ≡ spec.below (2 ^ 64) (spec.decimal_of digits.now) }
{
    if digits.len() == 1 {
        read_digit(digits[0])
    } else if digits.len() == 2 {
        read_two_digits(digits[0], digits[1])
    } else {
        read_digits(digits)
    }
}

/// The number of one digit.
#[inline(always)]
fn read_digit(digit: u8) -> Option<u64>
    ensures { result ≡ spec.below (2 ^ 64) (spec.decimal_of (digit ∷ [])) }
{
    if !digit.is_ascii_digit() {
        return None;
    }
    Some(u64::from(digit - ZERO))
}

/// The number of two digits.
#[inline(always)]
fn read_two_digits(tens: u8, ones: u8) -> Option<u64>
    ensures { result ≡ spec.below (2 ^ 64) (spec.decimal_of (tens ∷ ones ∷ [])) }
{
    if tens == ZERO || !tens.is_ascii_digit() || !ones.is_ascii_digit() {
        return None;
    }
    Some(10 * u64::from(tens - ZERO) + u64::from(ones - ZERO))
}

/// The number of any digits.
#[inline(never)]
fn read_digits(digits: &[u8]) -> Option<u64>
    ensures { result ≡ spec.below (2 ^ 64) (spec.decimal_of digits.now) }
{
    if !is_decimal(digits) {
        return None;
    }
    number_of_digits(digits)
}

/// Whether these are the digits of a number with no leading zero.
fn is_decimal(digits: &[u8]) -> bool
    ensures { result ≡ spec.is_decimal digits.now }
{
    let leading_zero = digits.len() > 1 && digits[0] == ZERO;
    !digits.is_empty() && !leading_zero && are_digits(digits)
}

/// Whether each of these bytes is `0` to `9`.
fn are_digits(bytes: &[u8]) -> bool
    ensures { result ≡ list_all chars.is_ascii_digit bytes.now }
{
    bytes.iter().all(|byte| byte.is_ascii_digit())
}

/// A number that decimal digits are read as, one digit after another.
trait FromDigits: Copy {
    // The least number that it is too narrow for.
    ghost limit: { ℕ };

    // The number that it is.
    ghost value: { Self → ℕ };

    /// The number of no digits.
    fn nothing() -> Self
        ensures zero { value result ≡ 0 }
        ensures fits { 0 < limit };

    /// The number with one more digit, where it fits.
    fn with_digit(self, digit: u8) -> Option<Self>
        ensures some { IfSome result (λ more. (value more ≡ 10 * value self + digit) × (value more < limit)) }
        ensures none { IfNone result (limit ≤ 10 * value self + digit) };
}

impl FromDigits for u64 {
    ghost limit = { 2 ^ 64 };

    ghost value = { λ number. number };

    fn nothing() -> u64 {
        0
    }

    fn with_digit(self, digit: u8) -> Option<u64> {
        self.checked_mul(10)?.checked_add(u64::from(digit))
    }
}

impl FromDigits for u128 {
    ghost limit = { 2 ^ 128 };

    ghost value = { λ number. number };

    fn nothing() -> u128 {
        0
    }

    fn with_digit(self, digit: u8) -> Option<u128> {
        self.checked_mul(10)?.checked_add(u128::from(digit))
    }
}

/// The number that these digits spell, where it fits.
fn spelled_number<N: FromDigits>(digits: &[u8]) -> Option<N>
    requires { IsTrue (list_all chars.is_ascii_digit digits.now) }
    ensures some { IfSome result (λ number. (N.value number ≡ spec.read_on 0 digits.now) × (N.value number < N.limit)) }
    ensures none { IfNone result (N.limit ≤ spec.read_on 0 digits.now) }
{
    let mut value = N::nothing();
    'digits: for digit in digits {
        match value.with_digit(*digit - ZERO) {
            Some(more) => value = more,
            None => return None,
        }
    }
    Some(value)
}

/// The number that these digits spell, which may begin with zeros. None exactly where it is 2 ^ 64 or more.
pub fn number_of_digits(digits: &[u8]) -> Option<u64>
    requires { IsTrue (list_all chars.is_ascii_digit digits.now) }
    ensures { result ≡ spec.below (2 ^ 64) (Some (spec.read_on 0 digits.now)) }
{
    spelled_number(digits)
}

/// The same of a wide number. None exactly where it is 2 ^ 128 or more.
pub fn wide_number_of_digits(digits: &[u8]) -> Option<u128>
    requires { IsTrue (list_all chars.is_ascii_digit digits.now) }
    ensures { result ≡ spec.below (2 ^ 128) (Some (spec.read_on 0 digits.now)) }
{
    spelled_number(digits)
}

/// The wide number that these digits spell: at least one digit, and no leading zero. None exactly where they spell none, or
/// one of 2 ^ 128 or more.
pub fn read_wide_decimal(digits: &[u8]) -> Option<u128>
    ensures { result ≡ spec.below (2 ^ 128) (spec.decimal_of digits.now) }
{
    if !is_decimal(digits) {
        return None;
    }
    wide_number_of_digits(digits)
}

/// The wide number that these digits spell: at least one digit, and any leading zeros. None exactly where they spell none, or
/// one of 2 ^ 128 or more.
pub fn read_padded_decimal(digits: &[u8]) -> Option<u128>
    ensures { result ≡ spec.below (2 ^ 128) (spec.padded_decimal_of digits.now) }
{
    if digits.is_empty() {
        return None;
    }
    if !are_digits(digits) {
        return None;
    }
    wide_number_of_digits(digits)
}

/// Adds the digits of a number at the end. After `Memory` the list is as before.
pub fn write_decimal(n: u64, out: &mut List<u8>) -> Result<(), Memory>
    ensures ok { OnOk result (out.new ≡ out.old ++ decimal n) }
    ensures err { OnErr result (out.new ≡ out.old) }
{
    let mut buffer = Buffer::new();
    out.extend_from_slice(buffer.format(n).as_bytes())
}

/// Adds the digits of a wide number at the end. After `Memory` the list is as before.
pub fn write_wide_decimal(n: u128, out: &mut List<u8>) -> Result<(), Memory>
    ensures ok { OnOk result (out.new ≡ out.old ++ decimal n) }
    ensures err { OnErr result (out.new ≡ out.old) }
{
    let mut buffer = Buffer::new();
    out.extend_from_slice(buffer.format(n).as_bytes())
}

/// How many digits a number has.
pub fn decimal_length(number: u64) -> u64
    ensures digits { result ≡ length (decimal number) }
    ensures few { result ≤ 20 }
{
    let mut left = number;
    let mut digits = 1;
    'digits: while left >= 10 {
        left /= 10;
        digits += 1;
    }
    digits
}

/// The laws of reading and spelling numbers below 2 ^ 128: each has one spelling with no leading zero, and is read from nothing
/// else; with leading zeros it is read from these and that spelling, and from nothing else.
pub fn decimals_are_read_as_spelled()
    ensures spelled { spec.DecimalsAreReadAsSpelled }
    ensures read { spec.DecimalsAreSpelledAsRead }
    ensures padded { spec.PaddedDecimalsAreReadAsSpelled }
    ensures padded_read { spec.PaddedDecimalsAreSpelledAsRead }
{}
