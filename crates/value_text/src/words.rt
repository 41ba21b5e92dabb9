//! The words of a value's text.

ghost use Rattle.std.specs.Prelude.{◌≡◌, ◌<◌, ◌≤◌, Some, None, length, option_map, true};
ghost use Rattle.std.specs.Char.{is_ascii_digit};
ghost use Rattle.std.specs.List.{list_all};
ghost use Rattle.std.specs.Option.{is_some};
ghost use Rattle.value_text.specs.Words as spec;

use tydi_base::{digit_value, first_piece, is_name, read_padded_decimal};

/// The most digits of a number in decimal.
const MOST_DIGITS: usize = 39;

/// The most digits of a number that is below 2 ^ 128 whatever they are.
const FEW_DIGITS: usize = 38;

/// Whether a word is a member by itself: `null`, `apart`, or a number.
pub(crate) fn is_leaf(text: &[u8]) -> bool
    ensures { result ≡ spec.is_leaf text.now }
{
    is_short_number(text) || is_any_leaf(text)
}

/// Whether a word is a number of few digits in decimal, as most members are.
fn is_short_number(text: &[u8]) -> bool
    ensures { result ≡ true → is_some (spec.number_of text.now) ≡ true }
{
    has_few_bytes(text) && are_digits(text)
}

/// Whether a word is not empty, and has no more bytes than a number of few digits.
fn has_few_bytes(text: &[u8]) -> bool
    ensures some { result ≡ true → 0 < length text.now }
    ensures few { result ≡ true → length text.now ≤ 38 }
{
    let len = text.len();
    0 < len && len <= FEW_DIGITS
}

/// Whether each byte is a digit in decimal.
fn are_digits(text: &[u8]) -> bool
    ensures { result ≡ list_all is_ascii_digit text.now }
{
    text.iter().all(|byte| byte.is_ascii_digit())
}

/// The same as `is_leaf`, by each form after another.
#[inline(never)]
fn is_any_leaf(text: &[u8]) -> bool
    ensures { result ≡ spec.is_leaf text.now }
{
    is_null(text) || is_apart(text) || number_of(text).is_some() || hex_digits_of(text).is_some()
}

/// Whether a word is the value of a Null.
pub(crate) fn is_null(text: &[u8]) -> bool
    ensures { result ≡ spec.is_null text.now }
{
    text == b"null".as_slice()
}

/// Whether a word stands for a Stream that has a root of its own.
pub(crate) fn is_apart(text: &[u8]) -> bool
    ensures { result ≡ spec.is_apart text.now }
{
    text == b"apart".as_slice()
}

/// The number that a word is in decimal: at most 39 digits, and below 2 ^ 128.
pub(crate) fn number_of(text: &[u8]) -> Option<u128>
    ensures { result ≡ spec.number_of text.now }
{
    if text.len() > MOST_DIGITS {
        return None;
    }
    read_padded_decimal(text)
}

/// The digits of a number in hexadecimal, which stand behind `0x`, one at least.
pub(crate) fn hex_digits_of(text: &[u8]) -> Option<&[u8]>
    ensures { option_map (λ digits. digits.now) result ≡ spec.hex_digits_of text.now }
{
    match text {
        [first, second, digits @ ..] => {
            if *first == b'0' && *second == b'x' && are_hex(digits) {
                Some(digits)
            } else {
                None
            }
        }
        _ => None,
    }
}

/// Whether these are hexadecimal digits, one at least.
fn are_hex(digits: &[u8]) -> bool
    ensures { result ≡ spec.are_hex digits.now }
{
    !digits.is_empty() && all_are_hex(digits)
}

/// Whether each of these is a hexadecimal digit.
fn all_are_hex(digits: &[u8]) -> bool
    ensures { result ≡ list_all spec.is_hex digits.now }
{
    digits.iter().all(|digit| is_hex(*digit))
}

/// Whether this is a hexadecimal digit.
pub(crate) fn is_hex(byte: u8) -> bool
    ensures { result ≡ spec.is_hex byte }
{
    digit_value(byte).is_some()
}

/// Whether a text is that of a path: names with a point between each two, or `-`.
pub(crate) fn is_path(text: &[u8]) -> bool
    ensures { result ≡ spec.is_path_text text.now }
{
    if text == b"-".as_slice() {
        return true;
    }
    are_names(text)
}

/// Whether a text is names with a point between each two, one at least.
fn are_names(text: &[u8]) -> bool
    ensures { result ≡ spec.are_names text.now }
{
    let mut rest = text;
    'names: while let Some((name, more)) = first_piece(rest, b'.') {
        if !is_name(name) {
            return false;
        }
        rest = more;
    }
    is_name(rest)
}
