//! Hexadecimal digits packed into bytes that are there, two to a byte.

ghost use Rattle.std.specs.Prelude.{◌≡◌, ◌+◌, ◌*◌, ◌/◌, ◌%◌, ◌<◌, ◌≤◌, [], ◌∷◌, Some, None, length, map, take, MatchBool, MatchOption};
ghost use Rattle.tydi_base.specs.Bits.{unpack};
ghost use Rattle.tydi_base.specs.Hex.{bits_of_digits, marked_digit, whole_bytes};

use crate::decimal::ZERO;
use crate::hex::{LETTER_A, NO_DIGIT, byte_value, digit_value};
use std::simd::Simd;
use std::simd::prelude::*;

/// Fills bytes with these digits, the last two in the first byte. False where one of them is no digit.
// Most words of a stream have one byte.
#[inline(always)]
pub(crate) fn fill_digits(digits: &[u8], bytes: &mut [u8]) -> bool
    requires { length bytes.old ≡ (length digits.now + 1) / 2 }
    ensures { MatchBool result (whole_bytes digits.now ≡ Some (unpack bytes.new)) (bits_of_digits digits.now ≡ None) }
{
    if bytes.len() == 1 {
        fill_byte(digits, bytes)
    } else {
        fill_bytes(digits, bytes)
    }
}

/// The same of one digit or two.
#[inline(always)]
fn fill_byte(digits: &[u8], bytes: &mut [u8]) -> bool
    requires one { length bytes.old ≡ 1 }
    requires digits { length bytes.old ≡ (length digits.now + 1) / 2 }
    ensures { MatchBool result (whole_bytes digits.now ≡ Some (unpack bytes.new)) (bits_of_digits digits.now ≡ None) }
{
    match byte_of(digits) {
        Some(byte) => {
            bytes[0] = byte;
            true
        }
        None => false,
    }
}

/// The byte that one digit spells, or two.
#[inline(always)]
fn byte_of(digits: &[u8]) -> Option<u8>
    requires some { 0 < length digits.now }
    requires few { length digits.now ≤ 2 }
    ensures { MatchOption result (bits_of_digits digits.now ≡ None) (λ byte. whole_bytes digits.now ≡ Some (unpack (byte ∷ []))) }
{
    if digits.len() == 1 {
        digit_value(digits[0])
    } else {
        byte_value(digits[0], digits[1])
    }
}

/// The same of any number of digits.
#[inline(never)]
fn fill_bytes(digits: &[u8], bytes: &mut [u8]) -> bool
    requires { length bytes.old ≡ (length digits.now + 1) / 2 }
    ensures { MatchBool result (whole_bytes digits.now ≡ Some (unpack bytes.new)) (bits_of_digits digits.now ≡ None) }
{
    let even = digits.len() / 2;
    if digits.len() % 2 == 0 {
        return fill_even(digits, bytes);
    }
    match digit_value(digits[0]) {
        Some(value) => {
            bytes[even] = value;
            fill_even(&digits[1..], &mut bytes[..even])
        }
        None => false,
    }
}

/// The same of an even number of digits.
fn fill_even(digits: &[u8], bytes: &mut [u8]) -> bool
    requires { length digits.now ≡ 2 * length bytes.old }
    ensures { MatchBool result (bits_of_digits digits.now ≡ Some (unpack bytes.new)) (bits_of_digits digits.now ≡ None) }
{
    let blocks = bytes.len() / 8 * 8;
    let front = digits.len() - 2 * blocks;
    fill_blocks(&digits[front..], &mut bytes[..blocks])
        && fill_rest(&digits[..front], &mut bytes[blocks..])
}

/// The same: eight digits at once, where there are as many, and the others pair by pair.
#[inline(always)]
fn fill_rest(digits: &[u8], bytes: &mut [u8]) -> bool
    requires { length digits.now ≡ 2 * length bytes.old }
    ensures { MatchBool result (bits_of_digits digits.now ≡ Some (unpack bytes.new)) (bits_of_digits digits.now ≡ None) }
{
    if bytes.len() < 4 {
        return fill_pairs(digits, bytes);
    }
    let front = digits.len() - 8;
    fill_eight(&digits[front..], &mut bytes[..4]) && fill_pairs(&digits[..front], &mut bytes[4..])
}

/// The same of eight digits.
#[inline(always)]
fn fill_eight(digits: &[u8], bytes: &mut [u8]) -> bool
    requires digits { length digits.now ≡ 8 }
    requires bytes { length bytes.old ≡ 4 }
    ensures { MatchBool result (bits_of_digits digits.now ≡ Some (unpack bytes.new)) (bits_of_digits digits.now ≡ None) }
{
    match half_block_of(digits) {
        Some(block) => {
            bytes.copy_from_slice(&block);
            true
        }
        None => false,
    }
}

/// The same of digits in blocks of sixteen.
fn fill_blocks(digits: &[u8], bytes: &mut [u8]) -> bool
    requires even { length digits.now ≡ 2 * length bytes.old }
    requires whole { length digits.now % 16 ≡ 0 }
    ensures { MatchBool result (bits_of_digits digits.now ≡ Some (unpack bytes.new)) (bits_of_digits digits.now ≡ None) }
{
    let mut at = digits.len();
    let mut filled = 0;
    'sixteens: while at > 0 {
        at -= 16;
        match block_of(&digits[at..]) {
            Some(block) => bytes[filled..filled + 8].copy_from_slice(&block),
            None => return false,
        }
        filled += 8;
    }
    true
}

/// The same, pair by pair.
fn fill_pairs(digits: &[u8], bytes: &mut [u8]) -> bool
    requires { length digits.now ≡ 2 * length bytes.old }
    ensures { MatchBool result (bits_of_digits digits.now ≡ Some (unpack bytes.new)) (bits_of_digits digits.now ≡ None) }
{
    let mut at = digits.len();
    let mut filled = 0;
    'pairs: while at > 0 {
        at -= 2;
        match byte_value(digits[at], digits[at + 1]) {
            Some(byte) => bytes[filled] = byte,
            None => return false,
        }
        filled += 1;
    }
    true
}

/// The bytes of the first sixteen digits, the last two of them in the first byte. None where one of them is no digit.
#[inline(always)]
fn block_of(digits: &[u8]) -> Option<[u8; 8]>
    requires { 16 ≤ length digits.now }
    ensures { MatchOption result (bits_of_digits (take 16 digits.now) ≡ None) (λ block. bits_of_digits (take 16 digits.now) ≡ Some (unpack block)) }
{
    let values = marked_values(u8x16::from_slice(digits));
    if values.simd_ge(u8x16::splat(16)).to_bitmask() != 0 {
        return None;
    }
    let high: u8x8 = values.swizzle([14, 12, 10, 8, 6, 4, 2, 0]);
    let low: u8x8 = values.swizzle([15, 13, 11, 9, 7, 5, 3, 1]);
    Some((high * u8x8::splat(16) + low).to_array())
}

/// The same of eight digits.
#[inline(always)]
fn half_block_of(digits: &[u8]) -> Option<[u8; 4]>
    requires { length digits.now ≡ 8 }
    ensures { MatchOption result (bits_of_digits digits.now ≡ None) (λ block. bits_of_digits digits.now ≡ Some (unpack block)) }
{
    let values = marked_values(u8x8::from_slice(digits));
    if values.simd_ge(u8x8::splat(16)).to_bitmask() != 0 {
        return None;
    }
    let high: u8x4 = values.swizzle([6, 4, 2, 0]);
    let low: u8x4 = values.swizzle([7, 5, 3, 1]);
    Some((high * u8x4::splat(16) + low).to_array())
}

/// The value of each digit, or `NO_DIGIT` where the byte is none.
#[inline(always)]
fn marked_values<const N: usize>(digits: Simd<u8, N>) -> Simd<u8, N>
    ensures { result ≡ map marked_digit digits.entry }
{
    let letters = digits.simd_ge(Simd::splat(LETTER_A));
    let values = digits - letters.select(Simd::splat(LETTER_A - 10), Simd::splat(ZERO));
    let limits = letters.select(Simd::splat(16), Simd::splat(10));
    values.simd_lt(limits).select(values, Simd::splat(NO_DIGIT))
}
