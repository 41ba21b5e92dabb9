//! The token at the front of a text.

ghost use Rattle.std.specs.Prelude.{◌≡◌, ◌≤◌, ◌<◌, true, length, nat_lt, option_map, slice_index, max};
ghost use Rattle.value_text.specs.Tokens as spec;
ghost use Rattle.value_text.specs.Tokens.{found_view};

use crate::token::{Token, TokenKind};
use tydi_base::LINE_FEED;

/// A token, and what follows it.
#[derive(Clone, Copy)]
pub(crate) struct Found<'a> {
    pub token: Token<'a>,
    pub after: &'a [u8],
}

/// The token behind the white space and the comments at the front of a text. None where nothing else is left.
#[inline(always)]
pub(crate) fn find_token(bytes: &[u8]) -> Option<Found<'_>>
    ensures { option_map found_view result ≡ spec.token_in bytes.now }
{
    let rest = after_gap(bytes);
    if rest.is_empty() {
        return None;
    }
    Some(token_at(rest, bytes.len().saturating_sub(rest.len())))
}

/// The token at the front of a text, which is not empty.
#[inline(always)]
fn token_at(rest: &[u8], gap: usize) -> Found<'_>
    requires { 0 < length rest.now }
    ensures { found_view result ≡ spec.token_at (nat_lt 0 gap) rest.now }
{
    if is_sign(byte_at(rest)) {
        return sign_at(rest, gap);
    }
    let run = word_length(rest);
    let len = run.max(1);
    let tail = &rest[len..];
    let beyond = after_gap(tail);
    let kind = kind_of(run > 0, byte_at(rest), byte_at(beyond));
    let token = Token {
        code: kind.code(),
        text: &rest[..len],
        gap,
        left: rest.len(),
    };
    let after = if takes_next(kind) {
        but_first(beyond)
    } else {
        tail
    };
    Found { token, after }
}

/// Whether a byte is a token by itself, whatever follows it.
fn is_sign(byte: u8) -> bool
    ensures { result ≡ spec.is_sign byte }
{
    !is_word_byte(byte) && byte != b'-' && byte != b'{'
}

/// The token of such a byte at the front of a text.
#[inline(always)]
fn sign_at(rest: &[u8], gap: usize) -> Found<'_>
    requires some { 0 < length rest.now }
    requires sign { spec.is_sign (slice_index rest.now 0) ≡ true }
    ensures { found_view result ≡ spec.token_at (nat_lt 0 gap) rest.now }
{
    let token = Token {
        code: TokenKind::Sign.code(),
        text: &rest[..1],
        gap,
        left: rest.len(),
    };
    Found {
        token,
        after: &rest[1..],
    }
}

/// The kind of a token, by whether it is a run, by its first byte, and by the byte that follows it.
#[tactic(auto, unfolding(crate::specs::Tokens::kind_of))]
fn kind_of(is_run: bool, first: u8, next: u8) -> TokenKind
    ensures { result ≡ spec.kind_of is_run first next }
{
    if is_run && next == b':' {
        TokenKind::Key
    } else if is_run && next == b'(' {
        TokenKind::Call
    } else if (is_run || first == b'-') && next == b'=' {
        TokenKind::Path
    } else if is_run {
        TokenKind::Word
    } else if first == b'{' && next == b'}' {
        TokenKind::Empty
    } else {
        TokenKind::Sign
    }
}

/// Whether the byte that follows it belongs to a token.
fn takes_next(kind: TokenKind) -> bool
    ensures { result ≡ spec.takes_next kind }
{
    match kind {
        TokenKind::Key | TokenKind::Call | TokenKind::Path => true,
        TokenKind::Word | TokenKind::Empty | TokenKind::Sign => false,
    }
}

/// The first byte, or 0 where there is none.
fn byte_at(bytes: &[u8]) -> u8
    ensures { result ≡ slice_index bytes.now 0 }
{
    match bytes {
        [first, ..] => *first,
        [] => 0,
    }
}

/// All but the first byte.
fn but_first(bytes: &[u8]) -> &[u8]
    ensures { result.now ≡ spec.but_first bytes.now }
{
    match bytes {
        [_, rest @ ..] => rest,
        [] => bytes,
    }
}

/// The text behind the white space and the comments at its front.
#[inline(always)]
pub(crate) fn after_gap(bytes: &[u8]) -> &[u8]
    ensures { result.now ≡ spec.after_gap bytes.now }
{
    let rest = after_space(bytes);
    if begins_plain(rest) {
        return rest;
    }
    after_long_gap(rest)
}

/// The text behind one space, where it begins with one.
fn after_space(bytes: &[u8]) -> &[u8]
    ensures { spec.after_gap result.now ≡ spec.after_gap bytes.now }
{
    match bytes {
        [first, rest @ ..] => { if *first == b' ' { rest } else { bytes } }
        [] => bytes,
    }
}

/// Whether its first byte shows that neither white space nor a comment begins a text.
fn begins_plain(bytes: &[u8]) -> bool
    ensures { result ≡ true → bytes.now ≡ spec.after_gap bytes.now }
{
    match bytes {
        [first, ..] => *first > b' ' && *first != b'/',
        [] => true,
    }
}

/// The text behind white space and comments of any length at its front.
#[inline(never)]
fn after_long_gap(bytes: &[u8]) -> &[u8]
    ensures { result.now ≡ spec.after_gap bytes.now }
{
    let mut rest = bytes;
    let mut in_comment = false;
    'bytes: while let Some((byte, more)) = rest.split_first() {
        if in_comment {
            in_comment = *byte != LINE_FEED;
        } else if begins_comment(rest) {
            in_comment = true;
        } else if !is_space(*byte) {
            return rest;
        }
        rest = more;
    }
    rest
}

/// Whether a comment begins a text.
fn begins_comment(bytes: &[u8]) -> bool
    ensures { result ≡ spec.begins_comment bytes.now }
{
    match bytes {
        [first, second, ..] => *first == b'/' && *second == b'/',
        _ => false,
    }
}

/// Space, tab, CR or LF.
fn is_space(byte: u8) -> bool
    ensures { result ≡ spec.is_space byte }
{
    byte == b' ' || byte == b'\t' || byte == b'\r' || byte == b'\n'
}

/// A letter, a digit, `_` or `.`.
pub(crate) fn is_word_byte(byte: u8) -> bool
    ensures { result ≡ spec.is_word_byte byte }
{
    byte.is_ascii_alphanumeric() || byte == b'_' || byte == b'.'
}

/// How many such bytes begin a text.
pub(crate) fn word_length(bytes: &[u8]) -> usize
    ensures value { result ≡ spec.word_length bytes.now }
    ensures within { result ≤ length bytes.now }
{
    let mut count = 0;
    'bytes: for byte in bytes {
        if !is_word_byte(*byte) {
            return count;
        }
        count += 1;
    }
    count
}
