//! Texts that are cut at bytes of one kind.

ghost use Rattle.std.specs.Prelude.{◌≡◌, option_map};
ghost use Rattle.std.specs.Str.{bytes_eq};
ghost use Rattle.vhdl_text.specs.Lines as spec;

use tydi_base::first_piece;

/// The parts of a text before its last such byte and after it. None exactly where the text has no such byte.
pub fn cut_last(text: &[u8], mark: u8) -> Option<(&[u8], &[u8])>
    ensures { option_map (λ parts. record { front = parts.0.now; back = parts.1.now }) result ≡ spec.cut_last mark text.now }
{
    let mut left = text.len();
    'bytes: while left > 0 {
        left -= 1;
        if text[left] == mark {
            return Some((&text[..left], &text[left + 1..]));
        }
    }
    None
}

/// The parts of a text before two bytes of one kind, between them, and after them.
#[derive(Clone, Copy)]
pub(crate) struct Parts<'a> {
    pub(crate) front: &'a [u8],
    pub(crate) inside: &'a [u8],
    pub(crate) back: &'a [u8],
}

/// A text around its two such bytes. None exactly where it has fewer or more.
#[tactic(auto, unfolding(crate::specs::Lines::between))]
pub(crate) fn between(text: &[u8], mark: u8) -> Option<Parts<'_>>
    ensures { option_map (λ parts. record { front = parts.front.now; inside = parts.inside.now; back = parts.back.now }) result ≡ spec.between mark text.now }
{
    let (front, after) = first_piece(text, mark)?;
    let (inside, back) = first_piece(after, mark)?;
    match first_piece(back, mark) {
        Some(_) => None,
        None => Some(Parts {
            front,
            inside,
            back,
        }),
    }
}

/// Whether two texts have the same bytes.
pub fn is_same(one: &[u8], other: &[u8]) -> bool
    ensures { result ≡ bytes_eq one.now other.now }
{
    one == other
}
