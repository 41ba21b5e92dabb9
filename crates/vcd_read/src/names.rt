//! Names of signals.

ghost use Rattle.std.specs.Prelude.{◌≡◌, drop, None};
ghost use Rattle.vcd_read.specs.Words as spec;

/// The mark before a range.
const OPEN_BRACKET: u8 = b'[';

/// The mark after a range.
const CLOSE_BRACKET: u8 = b']';

/// The mark around an escaped name.
const BACKSLASH: u8 = b'\\';

/// Whether the last byte of a text is this.
fn ends_in(mark: u8, text: &[u8]) -> bool
    ensures { result ≡ spec.ends_in mark text.now }
{
    !text.is_empty() && text[text.len() - 1] == mark
}

/// A name without the range that it ends in.
#[tactic(auto, unfolding(crate::specs::Words::without_range))]
pub(crate) fn without_range(name: &[u8]) -> &[u8]
    ensures { result.now ≡ spec.without_range name.now }
{
    if ends_in(CLOSE_BRACKET, name) {
        before_last(name)
    } else {
        name
    }
}

/// What stands before the last opening bracket of a text; all of it where it has none.
fn before_last(text: &[u8]) -> &[u8]
    ensures { result.now ≡ spec.or_whole (spec.before_last 91 text.now) text.now }
{
    let mut left = text.len();
    'bytes: while left > 0 {
        left -= 1;
        if text[left] == OPEN_BRACKET {
            return &text[..left];
        }
    }
    text
}

/// Whether a token is a range.
pub(crate) fn is_range(token: &[u8]) -> bool
    ensures { result ≡ spec.is_range token.now }
{
    !token.is_empty() && token[0] == OPEN_BRACKET && ends_in(CLOSE_BRACKET, token)
}

/// A name without the backslash before it and the one after it.
#[tactic(auto, unfolding(crate::specs::Words::bare_name))]
pub(crate) fn bare_name(name: &[u8]) -> &[u8]
    ensures { result.now ≡ spec.bare_name name.now }
{
    if !name.is_empty() && name[0] == BACKSLASH {
        without_last(&name[1..])
    } else {
        name
    }
}

/// A text without the backslash that it ends in.
#[tactic(auto, unfolding(crate::specs::Words::without_last))]
fn without_last(text: &[u8]) -> &[u8]
    ensures { result.now ≡ spec.without_last text.now }
{
    if ends_in(BACKSLASH, text) {
        &text[..text.len() - 1]
    } else {
        text
    }
}
