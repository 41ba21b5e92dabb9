//! How far white space, a comment, digits and what stands before a mark reach.

ghost use Rattle.std.specs.Prelude.{◌≡◌, ◌==◌, ◌+◌, ◌-◌, ◌^◌, ◌<◌, ◌≤◌, ℕ, Bool, not, length, slice_index, None, MatchOption};
ghost use Rattle.std.specs.Char.{is_ascii_digit};
ghost use Rattle.std.specs.List.{prefix_len};
ghost use Rattle.tydi_base.specs.Name.{is_name_byte};
ghost use Rattle.til_lexer.specs.Places as places;
ghost use Rattle.til_lexer.specs.Spans as spec;
ghost use Rattle.til_lexer.specs.Spans.{CountsInLine, CountsWithin, Decides, IsMarked, IsSpan};

use memchr::{memchr, memchr2};
use tydi_base::{LINE_FEED, Place};

/// Whether a byte is white space.
pub(crate) fn is_space(byte: u8) -> bool
    ensures { result ≡ spec.is_space byte }
{
    matches!(byte, b' ' | b'\t' | b'\r' | b'\n')
}

/// Whether a comment begins a text.
pub(crate) fn begins_comment(bytes: &[u8]) -> bool
    ensures { result ≡ spec.begins_comment bytes.now }
{
    matches!(bytes, [b'/', b'/', ..])
}

/// Bytes at the front of a text: how many, and the place after them.
#[derive(Clone, Copy)]
pub(crate) struct Span {
    pub(crate) count: usize,
    pub(crate) after: Place,
}

impl Span {
    /// The span with so many more bytes, none of which is an LF.
    fn along(self, count: usize) -> Span
        requires fits { self.after.offset + count < 2 ^ 32 - 1 }
        requires counted { self.count ≤ self.after.offset }
        requires column { self.after.column ≤ self.after.offset + 1 }
        ensures counts { result.count ≡ self.count + count }
        ensures after { result.after ≡ places.along self.after count }
    {
        Span {
            count: self.count + count,
            after: self.after.along(count),
        }
    }

    /// This byte more.
    fn past(self, byte: u8) -> Span
        requires fits { self.after.offset < 2 ^ 32 - 2 }
        requires counted { self.count ≤ self.after.offset }
        requires line { self.after.line ≤ self.after.offset + 1 }
        requires column { self.after.column ≤ self.after.offset + 1 }
        ensures counts { result.count ≡ self.count + 1 }
        ensures after { result.after ≡ places.place_after self.after byte }
    {
        Span {
            count: self.count + 1,
            after: self.after.after(byte),
        }
    }
}

/// The bytes that pass a test and begin a text at this place, line by line. `in_line` counts the bytes that begin a text,
/// pass and are no LF.
fn span_while<F: Fn(&u8) -> bool, L: Fn(&[u8]) -> usize>(
    place: Place,
    bytes: &[u8],
    passes: F,
    in_line: L,
) -> Span
    requires tests { F.IsAlwaysCallable passes }
    requires counts { L.IsAlwaysCallable in_line }
    requires counted { CountsWithin L.Fn in_line }
    requires fits { place.offset + length bytes.now < 2 ^ 32 - 1 }
    requires line { place.line ≤ place.offset + 1 }
    requires column { place.column ≤ place.offset + 1 }
    ensures value { (test : ℕ → Bool) → Decides F.Fn passes test → CountsInLine L.Fn in_line test → IsSpan place bytes.now (prefix_len test bytes.now) result }
    ensures within { result.count ≤ length bytes.now }
{
    let mut span = Span {
        count: 0,
        after: place,
    };
    'lines: loop {
        span = span.along(in_line(&bytes[span.count..]));
        match bytes.get(span.count) {
            Some(byte) if passes(byte) => span = span.past(*byte),
            _ => return span,
        }
    }
}

/// The white space that begins a text at this place.
pub(crate) fn space_span(place: Place, bytes: &[u8]) -> Span
    requires fits { place.offset + length bytes.now < 2 ^ 32 - 1 }
    requires line { place.line ≤ place.offset + 1 }
    requires column { place.column ≤ place.offset + 1 }
    ensures { IsSpan place bytes.now (spec.space_length bytes.now) result }
{
    span_while(
        place,
        bytes,
        |byte: &u8| -> bool
            ensures { result ≡ spec.is_space byte.now }
        { is_space(*byte) },
        |rest: &[u8]| -> usize
            ensures { result ≡ spec.in_line spec.is_space rest.now }
        { space_in_line(rest) },
    )
}

/// How many bytes of white space begin a text before its first LF.
fn space_in_line(bytes: &[u8]) -> usize
    ensures { result ≡ spec.in_line spec.is_space bytes.now }
{
    bytes
        .iter()
        .position(|byte| *byte == LINE_FEED || !is_space(*byte))
        .unwrap_or(bytes.len())
}

/// How many bytes stand before a text's first LF, or in all.
pub(crate) fn line_length(bytes: &[u8]) -> usize
    ensures value { result ≡ spec.line_length bytes.now }
    ensures within { result ≤ length bytes.now }
{
    memchr(LINE_FEED, bytes).unwrap_or(bytes.len())
}

/// How many digits begin a text.
pub fn digits_at(bytes: &[u8]) -> usize
    ensures value { result ≡ spec.digits_at bytes.now }
    ensures within { result ≤ length bytes.now }
{
    bytes
        .iter()
        .position(|byte| !byte.is_ascii_digit())
        .unwrap_or(bytes.len())
}

/// How many digits stand after the point that begins a text: none where none begins it.
pub(crate) fn digits_after_point(bytes: &[u8]) -> usize
    ensures value { result ≡ spec.digits_after_point bytes.now }
    ensures within { result ≤ length bytes.now }
{
    match bytes {
        [b'.', rest @ ..] => digits_at(rest),
        _ => 0,
    }
}

/// How many ASCII letters, digits and `_` begin a text.
pub(crate) fn name_bytes_at(bytes: &[u8]) -> usize
    ensures value { result ≡ prefix_len is_name_byte bytes.now }
    ensures within { result ≤ length bytes.now }
{
    bytes
        .iter()
        .position(|byte| !(byte.is_ascii_alphanumeric() || *byte == b'_'))
        .unwrap_or(bytes.len())
}

/// The span before the first such mark in a text at this place. None where there is no such mark.
pub(crate) fn until_mark(mark: u8, place: Place, bytes: &[u8]) -> Option<Span>
    requires fits { place.offset + length bytes.now < 2 ^ 32 - 1 }
    requires line { place.line ≤ place.offset + 1 }
    requires column { place.column ≤ place.offset + 1 }
    ensures { MatchOption result (spec.until_mark mark bytes.now ≡ None) (λ span. IsMarked mark place bytes.now span) }
{
    let span = span_while(
        place,
        bytes,
        |byte: &u8| -> bool
            ensures { result ≡ not (byte.now == mark) }
        { *byte != mark },
        |rest: &[u8]| -> usize
            ensures { result ≡ spec.in_line (λ byte. not (byte == mark)) rest.now }
        { unmarked_in_line(mark, rest) },
    );
    if span.count < bytes.len() {
        Some(span)
    } else {
        None
    }
}

/// How many bytes stand before a text's first such mark or LF, or in all. It is kept apart: its vectors would take from each
/// other piece the registers that it needs.
#[inline(never)]
fn unmarked_in_line(mark: u8, bytes: &[u8]) -> usize
    ensures { result ≡ spec.in_line (λ byte. not (byte == mark)) bytes.now }
{
    memchr2(mark, LINE_FEED, bytes).unwrap_or(bytes.len())
}
