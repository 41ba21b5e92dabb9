//! The words of a line, one after another, and values of a key among them.

ghost use Rattle.std.specs.Prelude.{◌≡◌, ◌↔◌, [], ◌∷◌, IfSome, IsTrue, List, MatchOption, ℕ};
ghost use Rattle.tydi_base.specs.Pieces.{words_of};
ghost use Rattle.tydi_base.specs.WordsLeft.{HasNoSized, IsCut, IsEnd, IsSized, NoCut, words_after, words_left};
ghost use Rattle.tydi_base.specs.declared.pieces.TheConstants.{SPACE};
ghost use Rattle.tydi_base.specs.declared.words_left.TheConstants.{EQUALS};

use crate::pieces::{SPACE, first_piece};

/// The byte between a key and its value.
pub const EQUALS: u8 = b'=';

/// The words of a line that are left, with one space between each two.
#[derive(Clone, Copy)]
pub struct WordsLeft<'a> {
    /// The rest of the line, with the space before its first word. Empty where no word is left.
    text: &'a [u8],
}

impl<'a> WordsLeft<'a> {
    /// The words after the space that a text begins with. None where the text is empty.
    #[inline(always)]
    pub fn after_space(text: &'a [u8]) -> WordsLeft<'a>
        ensures { words_left result ≡ words_after text.now }
    {
        WordsLeft { text }
    }

    /// No words.
    pub fn none() -> WordsLeft<'a>
        ensures { words_left result ≡ [] }
    {
        WordsLeft {
            text: b"".as_slice(),
        }
    }

    /// The first word of a line, and the words after it.
    #[cold]
    #[inline(never)]
    pub fn first_of(line: &'a [u8]) -> (&'a [u8], WordsLeft<'a>)
        ensures { words_of line.now ≡ result.0.now ∷ words_left result.1 }
    {
        match first_piece(line, SPACE) {
            Some((word, _)) => (word, WordsLeft::after_space(&line[word.len()..])),
            None => (line, WordsLeft::none()),
        }
    }

    /// The first word, and the words after it. None exactly where no word is left.
    #[cold]
    #[inline(never)]
    pub fn next_word(self) -> Option<(&'a [u8], WordsLeft<'a>)>
        ensures { MatchOption result (words_left self.entry ≡ []) (λ x. words_left self.entry ≡ x.0.now ∷ words_left x.1) }
    {
        let text = self.text;
        if text.is_empty() {
            return None;
        }
        Some(WordsLeft::first_of(&text[1..]))
    }

    /// The value of the first word, where that can be this key, `=` and so many bytes; and the words after it. The value is
    /// not searched for spaces, so it is the word's value only where it has none.
    #[inline(always)]
    pub fn sized_value(self, key: u8, size: usize) -> Option<(&'a [u8], WordsLeft<'a>)>
        ensures { MatchOption result (HasNoSized key size (words_left self.entry)) (λ x. IsSized key size (words_left self.entry) x.0.now (words_left x.1)) }
    {
        if key == SPACE {
            return None;
        }
        match after_key(key, self.text) {
            Some(after) => cut(after, size),
            None => None,
        }
    }

    /// The value of the first word, where that is this key, `=` and one byte or two; and the words after it. It is not searched
    /// for. None where it is no such word.
    #[inline(always)]
    pub fn short_value(self, key: u8) -> Option<(&'a [u8], WordsLeft<'a>)>
        ensures { IfSome result (λ x. words_left self.entry ≡ (key ∷ EQUALS ∷ x.0.now) ∷ words_left x.1) }
    {
        if let Some((value, rest)) = self.sized_value(key, 1) {
            if value[0] != SPACE {
                return Some((value, rest));
            }
        }
        let (value, rest) = self.sized_value(key, 2)?;
        if value[0] == SPACE || value[1] == SPACE {
            return None;
        }
        Some((value, rest))
    }

    /// Whether no word is left.
    #[inline(always)]
    pub fn is_empty(self) -> bool
        ensures { IsTrue result ↔ (words_left self.entry ≡ []) }
    {
        self.text.is_empty()
    }
}

/// The rest of a text after a first byte, this key and `=`. None where the text does not begin so.
#[inline(always)]
fn after_key(key: u8, text: &[u8]) -> Option<&[u8]>
    ensures { MatchOption result ((first : ℕ) (after : List ℕ) → text.now ≡ first ∷ key ∷ EQUALS ∷ after → ⊥) (λ after. (first : ℕ) × (text.now ≡ first ∷ key ∷ EQUALS ∷ after.now)) }
{
    if text.len() < 3 || !are_both(text[1], text[2], key, EQUALS) {
        return None;
    }
    Some(&text[3..])
}

/// Whether two bytes are these, compared at once.
#[inline(always)]
fn are_both(first: u8, second: u8, one: u8, other: u8) -> bool
    ensures { IsTrue result ↔ (first ≡ one) × (second ≡ other) }
{
    u16::from(first) + 256 * u16::from(second) == u16::from(one) + 256 * u16::from(other)
}

/// So many bytes at the front of a text, where a space or the end follows them; and the words after that.
#[inline(always)]
fn cut(text: &[u8], size: usize) -> Option<(&[u8], WordsLeft<'_>)>
    ensures { MatchOption result (NoCut text.now size) (λ x. IsCut text.now size x.0.now (words_left x.1)) }
{
    if text.len() < size {
        return None;
    }
    let rest = &text[size..];
    if !is_end(rest) {
        return None;
    }
    Some((&text[..size], WordsLeft::after_space(rest)))
}

/// Whether a word ends before this.
#[inline(always)]
fn is_end(rest: &[u8]) -> bool
    ensures { IsTrue result ↔ IsEnd rest.now }
{
    if rest.is_empty() {
        return true;
    }
    rest[0] == SPACE
}
