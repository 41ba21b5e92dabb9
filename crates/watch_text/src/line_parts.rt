//! Parts of lines.

ghost use Rattle.std.specs.Prelude.{◌≡◌, ◌==◌, option_map, replicate};
ghost use Rattle.std.specs.List.{list_all};
ghost use Rattle.std.specs.Str.{bytes_eq};
ghost use Rattle.watch_text.specs.Reading as spec;

use vhdl_text::is_same;

/// The text behind this front. None exactly where it begins with another.
#[tactic(auto, unfolding(crate::specs::Reading::without_front))]
pub(crate) fn without_front<'a>(front: &[u8], text: &'a [u8]) -> Option<&'a [u8]>
    ensures { option_map (λ rest. rest.now) result ≡ spec.without_front front.now text.now }
{
    if text.starts_with(front) {
        Some(&text[front.len()..])
    } else {
        None
    }
}

/// So many bytes before this text. None exactly where another text, or none, follows them.
#[tactic(auto, unfolding(crate::specs::Reading::cut_before))]
pub(crate) fn cut_before<'a>(count: usize, back: &[u8], text: &'a [u8]) -> Option<&'a [u8]>
    ensures { option_map (λ front. front.now) result ≡ spec.cut_before count back.now text.now }
{
    if count <= text.len() && is_same(&text[count..], back) {
        Some(&text[..count])
    } else {
        None
    }
}

/// The text of a line that stands so far to the right. None exactly where the line has fewer spaces at its begin.
pub(crate) fn text_at(line: &[u8], indent: usize) -> Option<&[u8]>
    ensures { option_map (λ text. text.now) result ≡ spec.without_front (replicate indent 32) line.now }
{
    if line.len() < indent {
        return None;
    }
    if are_spaces(&line[..indent]) {
        return Some(&line[indent..]);
    }
    None
}

/// Whether each of these bytes is a space.
fn are_spaces(bytes: &[u8]) -> bool
    ensures { result ≡ list_all (λ byte. byte == 32) bytes.now }
{
    bytes.iter().all(|byte| *byte == b' ')
}

/// Whether a line is this text, so far to the right.
pub(crate) fn is_at(line: &[u8], indent: usize, text: &[u8]) -> bool
    ensures { result ≡ bytes_eq line.now (spec.at indent text.now) }
{
    match text_at(line, indent) {
        Some(rest) => is_same(rest, text),
        None => false,
    }
}
