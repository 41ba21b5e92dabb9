//! Where the tokens of a dump end.

ghost use Rattle.std.specs.Prelude.{◌≡◌, ◌≤◌, ◌<◌, false, true, length, get_or, take, IfSome, IfNone};
ghost use Rattle.vcd_read.specs.Tokens as spec;

/// Whether a byte is white space.
#[inline(always)]
fn is_blank(byte: u8) -> bool
    ensures { result ≡ spec.is_blank byte }
{
    (byte == b' ') | (byte == b'\n') | (byte == b'\r') | (byte == b'\t')
}

/// How many bytes stand before the first white space of a text; all of them where it has none.
#[inline(always)]
fn word_length(text: &[u8]) -> usize
    ensures within { result ≤ length text.now }
    ensures plain { spec.has_blank (take result text.now) ≡ false }
    ensures ends { result < length text.now → spec.is_blank (get_or text.now result 0) ≡ true }
{
    let mut count = 0;
    'bytes: while count < text.len() {
        if is_blank(text[count]) {
            return count;
        }
        count += 1;
    }
    count
}

/// The bytes before the first white space of a text, and those after it. None exactly where it has none.
#[inline(always)]
pub(crate) fn first_word(text: &[u8]) -> Option<(&[u8], &[u8])>
    ensures some { IfSome result (λ parts. spec.IsFirstWord text.now parts.0.now parts.1.now) }
    ensures none { IfNone result (spec.has_blank text.now ≡ false) }
{
    let at = word_length(text);
    if at == text.len() {
        return None;
    }
    Some((&text[..at], &text[at + 1..]))
}
