//! The pieces of a text between bytes of one kind: the words of a line, the lines of a text.

ghost use Rattle.std.specs.Prelude.{◌≡◌, ◌↔◌, ◌<◌, ◌≤◌, ℕ, ◌++◌, [], ◌∷◌, length, slice_index, IfSome, IfNone, Some};
ghost use Rattle.std.specs.Int.{bit_at};
ghost use Rattle.memchr.specs.Find.{IsFirstByte, is_byte};
ghost use Rattle.tydi_base.specs.Pieces as spec;

use memchr::memchr;
use std::simd::prelude::*;

/// The byte between two words of a line.
pub const SPACE: u8 = b' ';

/// The byte that ends a line.
pub const LINE_FEED: u8 = b'\n';

/// The text up to its first separator, and what follows that. None exactly where it has none. It reads no byte past the
/// separator.
#[inline(always)]
pub fn first_piece(text: &[u8], separator: u8) -> Option<(&[u8], &[u8])>
    ensures some { IfSome result (λ parts. spec.pieces_of separator text.now ≡ parts.0.now ∷ spec.pieces_of separator parts.1.now) }
    ensures whole { IfSome result (λ parts. text.now ≡ parts.0.now ++ separator ∷ parts.1.now) }
    ensures none { IfNone result (spec.pieces_of separator text.now ≡ text.now ∷ []) }
{
    let at = first_of(separator, text)?;
    Some((&text[..at], &text[at + 1..]))
}

/// Where a separator stands first in a text. Most lines are short, and for these it makes no call.
#[inline(always)]
fn first_of(separator: u8, text: &[u8]) -> Option<usize>
    ensures { IsFirstByte (is_byte separator) text.now result }
{
    match first_near(separator, text) {
        Some(at) => Some(at),
        None => memchr(separator, text),
    }
}

/// The same, if that is among the first 32 bytes of a text that has as many.
#[inline(always)]
fn first_near(separator: u8, text: &[u8]) -> Option<usize>
    ensures { IfSome result (λ at. IsFirstByte (is_byte separator) text.now (Some at)) }
{
    if text.len() < 32 {
        return None;
    }
    let marks = marks_in(separator, text);
    if marks == 0 {
        return None;
    }
    Some(marks.trailing_zeros() as usize)
}

/// Which of the first 32 bytes of a text are the separator, as the ones of a number.
#[inline(always)]
fn marks_in(separator: u8, text: &[u8]) -> u64
    requires { 32 ≤ length text.now }
    ensures { (k : ℕ) → (bit_at result k ≡ 1) ↔ (k < 32 × (slice_index text.now k ≡ separator)) }
{
    u8x32::from_slice(text)
        .simd_eq(u8x32::splat(separator))
        .to_bitmask()
}

/// The law of pieces: joined again they are the text, and a text joined of pieces without separators has just these.
pub fn pieces_are_parts()
    ensures again { spec.PiecesJoinAgain }
    ensures lack { spec.PiecesLackSeparators }
    ensures apart { spec.JoinsFallApart }
{}
