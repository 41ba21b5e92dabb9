//! The number that hexadecimal digits spell.

ghost use Rattle.std.specs.Prelude.{◌≡◌, ℕ, ◌<◌, ◌≤◌, length, option_map, IfNone, IfSome, Some};
ghost use Rattle.tydi_base.specs.Bits.{number_of_bits};
ghost use Rattle.tydi_base.specs.Hex.{bits_of_digits};

use crate::hex::digit_value;

/// The number that at most sixteen hexadecimal digits spell, the highest first.
#[inline(always)]
fn number_of_few(digits: &[u8]) -> Option<u64>
    requires { length digits.now ≤ 16 }
    ensures { result ≡ option_map number_of_bits (bits_of_digits digits.now) }
{
    let mut number: u64 = 0;
    'digits: for digit in digits {
        number = 16 * number + u64::from(digit_value(*digit)?);
    }
    Some(number)
}

/// The same of more digits, in two parts.
#[inline(never)]
fn number_of_many(digits: &[u8]) -> Option<u128>
    requires many { 16 < length digits.now }
    requires most { length digits.now ≤ 32 }
    ensures { result ≡ option_map number_of_bits (bits_of_digits digits.now) }
{
    let place = digits.len() - 16;
    let high = number_of_few(&digits[..place])?;
    let low = number_of_few(&digits[place..])?;
    Some((u128::from(high) << 64) + u128::from(low))
}

/// The number that hexadecimal digits spell, the highest first. Most strobes have one digit. None exactly where a byte is no digit.
#[inline(always)]
pub fn hex_number(digits: &[u8]) -> Option<u128>
    requires { length digits.now ≤ 32 }
    ensures { result ≡ option_map number_of_bits (bits_of_digits digits.now) }
{
    if digits.len() == 1 {
        return Some(u128::from(digit_value(digits[0])?));
    }
    if digits.len() > 16 {
        return number_of_many(digits);
    }
    Some(u128::from(number_of_few(digits)?))
}

/// The number that hexadecimal digits spell, the highest first, where it is not above this one.
// The test on one digit stands here, before room is made for what many digits spell.
#[inline(always)]
pub fn hex_number_within(most: u128, digits: &[u8]) -> Option<u128>
    requires { length digits.now ≤ 32 }
    ensures some { IfSome result (λ number. (option_map number_of_bits (bits_of_digits digits.now) ≡ Some number) × (number ≤ most)) }
    ensures none { IfNone result ((number : ℕ) → option_map number_of_bits (bits_of_digits digits.now) ≡ Some number → most < number) }
{
    if digits.len() == 1 {
        return digit_within(most, digits);
    }
    let number = hex_number(digits)?;
    if number > most { None } else { Some(number) }
}

/// The same of one digit.
#[inline(always)]
fn digit_within(most: u128, digits: &[u8]) -> Option<u128>
    requires { length digits.now ≡ 1 }
    ensures some { IfSome result (λ number. (option_map number_of_bits (bits_of_digits digits.now) ≡ Some number) × (number ≤ most)) }
    ensures none { IfNone result ((number : ℕ) → option_map number_of_bits (bits_of_digits digits.now) ≡ Some number → most < number) }
{
    let number = u128::from(digit_value(digits[0])?);
    if number > most { None } else { Some(number) }
}
