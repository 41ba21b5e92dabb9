//! The tokens of a text, one after another.

ghost use Rattle.std.specs.Prelude.{◌≡◌, false, true, is_none, option_map};
ghost use Rattle.tydi_reading.specs.Reading as spec;
ghost use Rattle.tydi_reading.specs.Reading.{tells, told_by};
ghost use Rattle.value_text.specs.Words as words;
ghost use Rattle.value_text.specs.Port.{left_of};
ghost use Rattle.value_text.specs.Stops.{stop_in};
ghost use Rattle.value_text.specs.Tokens.{token_view, tokens_of};

use crate::lexing::find_token;
use crate::opening::Opening;
use crate::token::Token;
use std::marker::Model;
use tydi_reading::Source;

/// The tokens of a text that are not taken yet. Contracts see their list.
#[derive(Drop)]
pub(crate) struct Tokens<'a> {
    /// The text that is left.
    bytes: &'a [u8],
    /// The next token.
    next: Option<Token<'a>>,
    /// The text behind it.
    after: &'a [u8],
}

impl<'a> Model for Tokens<'a> {
    ghost use Rattle.std.specs.Prelude.{List};
    ghost use Rattle.value_text.specs.Tokens.{PlainToken, tokens_of};
    ghost use Rattle.value_text.specs.Source.{IsNext};

    ghost Value = { List PlainToken };

    ghost view = { λ tokens. tokens_of tokens.bytes.now };

    ghost invariant = { IsNext };
}

impl<'a> Source for Tokens<'a> {
    ghost use Rattle.value_text.specs.Tokens.{PlainToken};

    ghost Thing = { PlainToken };

    ghost left = { λ tokens. tokens };

    // One call writes the next token in place; inlined, each caller would copy it.
    #[inline(never)]
    fn skip(&mut self) {
        if self.next.is_some() {
            *self = Tokens::new(self.after);
        }
    }
}

impl<'a> Tokens<'a> {
    /// All tokens of a text.
    #[inline(always)]
    pub fn new(bytes: &'a [u8]) -> Tokens<'a>
        ensures { result ≡ tokens_of bytes.now }
    {
        match find_token(bytes) {
            Some(found) => Tokens {
                bytes,
                next: Some(found.token),
                after: found.after,
            },
            None => Tokens {
                bytes,
                next: None,
                after: bytes,
            },
        }
    }

    /// The next token, which stays. None where none is left.
    pub fn first(&self) -> Option<Token<'a>>
        ensures { option_map token_view result ≡ spec.first self.now }
    {
        self.next
    }

    /// Whether no token is left.
    pub fn is_at_end(&self) -> bool
        ensures { result ≡ tells (λ _. false) true self.now }
    {
        self.first().is_none()
    }

    /// Whether the next token is this byte.
    pub fn sees(&self, byte: u8) -> bool
        ensures { result ≡ tells (words.is_byte byte) false self.now }
    {
        match self.first() {
            Some(token) => token.is_byte(byte),
            None => false,
        }
    }

    /// Whether the next token is a member by itself.
    pub fn sees_leaf(&self) -> bool
        ensures { result ≡ tells words.leaf false self.now }
    {
        match self.first() {
            Some(token) => token.is_leaf(),
            None => false,
        }
    }

    /// Whether the next token is the name of a field.
    pub fn sees_field(&self) -> bool
        ensures { result ≡ tells words.field_name false self.now }
    {
        match self.first() {
            Some(token) => token.is_field(),
            None => false,
        }
    }

    /// Whether the next token begins the line of a root.
    pub fn sees_root(&self) -> bool
        ensures { result ≡ tells words.root_word false self.now }
    {
        match self.first() {
            Some(token) => token.is_root(),
            None => false,
        }
    }

    /// Whether the next token is the path of a root.
    pub fn sees_path(&self) -> bool
        ensures { result ≡ tells words.root_path false self.now }
    {
        match self.first() {
            Some(token) => token.is_root_path(),
            None => false,
        }
    }

    /// Whether white space or a comment stands before the next token.
    pub fn is_spaced(&self) -> bool
        ensures { result ≡ tells words.is_spaced false self.now }
    {
        match self.first() {
            Some(token) => token.gap > 0,
            None => false,
        }
    }

    /// The list, Group or variant that the next token opens. None exactly where it opens nothing.
    pub fn opening(&self) -> Option<Opening>
        ensures { result ≡ told_by words.opening self.now }
    {
        match self.first() {
            Some(token) => token.opening(),
            None => None,
        }
    }

    /// Whether the next token is a path of this text.
    pub fn sees_path_text(&self, text: &[u8]) -> bool
        ensures { result ≡ tells (words.is_path_text_of text.now) false self.now }
    {
        match self.first() {
            Some(token) => token.kind().is_path() && token.text == text,
            None => false,
        }
    }

    /// How many bytes the text has from the next token on. 0 where none is left.
    pub fn bytes_left(&self) -> usize
        ensures { result ≡ left_of self.now }
    {
        match self.first() {
            Some(token) => token.left,
            None => 0,
        }
    }

    /// How many bytes the text has from the next token on. None exactly where none is left.
    pub fn stop(&self) -> Option<usize>
        ensures none { is_none result ≡ tells (λ _. false) true self.now }
        ensures value { result ≡ stop_in self.now }
    {
        match self.first() {
            Some(token) => Some(token.left),
            None => None,
        }
    }
}
