//! Words.

ghost use Rattle.std.specs.Prelude.{◌≡◌, ◌==◌, ◌||◌, true, drop, slice_index};
ghost use Rattle.std.specs.Char.{is_ascii_alphabetic};
ghost use Rattle.std.specs.Str.{chars, IsCharBoundary};
ghost use Rattle.til_lexer.specs.Pieces.{word_token};
ghost use Rattle.til_lexer.specs.Words as spec;

use crate::fault::LexFault;
use crate::piece::Piece;
use crate::spans::name_bytes_at;
use crate::token::TokenKind;
use tydi_base::{Place, has_name_form};
use unicode_ident::{is_xid_continue, is_xid_start};

/// Whether a word begins a text. Only a character that is not ASCII is decoded.
pub(crate) fn starts_word(text: &str) -> bool
    ensures { result ≡ spec.starts_word (slice_index (chars text.now) 0) }
{
    match text.as_bytes() {
        [first, ..] if first.is_ascii() => starts_ascii_word(*first),
        _ => starts_other_word(text),
    }
}

/// Whether a word begins with this ASCII byte.
fn starts_ascii_word(byte: u8) -> bool
    ensures { result ≡ (is_ascii_alphabetic byte || (byte == 95)) }
{
    byte.is_ascii_alphabetic() || byte == b'_'
}

/// Whether a word begins a text whose first character may be any.
fn starts_other_word(text: &str) -> bool
    ensures { result ≡ spec.starts_word (slice_index (chars text.now) 0) }
{
    match text.chars().next() {
        Some(character) => character == '_' || is_xid_start(character),
        None => false,
    }
}

/// The token of the word that begins a text. The ASCII of it is looked at byte by byte, and one character after that.
#[tactic(auto, unfolding(crate::specs::Pieces::word_token))]
pub(crate) fn word_at(place: Place, text: &str) -> Result<Piece, LexFault>
    requires { spec.starts_word (slice_index (chars text.now) 0) ≡ true }
    ensures { result ≡ word_token place (spec.word_of (chars text.now)) }
{
    let bytes = text.as_bytes();
    let count = name_bytes_at(bytes);
    if count == 0 || continues(text, count) {
        return Err(LexFault::NameNotAscii(place));
    }
    if has_name_form(&bytes[..count]) {
        Ok(Piece::Token(TokenKind::Word, count))
    } else {
        Err(LexFault::BadName(place))
    }
}

/// Whether a character that may continue a word stands after so many bytes of a text.
fn continues(text: &str, count: usize) -> bool
    requires { IsCharBoundary text.now count }
    ensures { result ≡ spec.continues (chars (drop count text.now)) }
{
    match text[count..].chars().next() {
        Some(character) => is_xid_continue(character),
        None => false,
    }
}
