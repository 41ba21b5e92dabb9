//! A token of a value's text.

ghost use Rattle.std.specs.Prelude.{◌≡◌};
ghost use Rattle.value_text.specs.Leaves as leaves;
ghost use Rattle.value_text.specs.Tokens.{kind_coded, token_view};
ghost use Rattle.value_text.specs.Words as spec;

use crate::opening::Opening;
use crate::words::{is_leaf, is_path};
use tydi_base::is_name;

/// The kind of a token, by its first byte and by what follows it.
#[derive(Clone, Copy, PartialEq, Eq)]
pub enum TokenKind {
    /// A run of letters, digits, `_` and `.` that is none of the next three.
    Word,
    /// Such a run and the `:` after it.
    Key,
    /// Such a run and the `(` after it.
    Call,
    /// Such a run, or `-`, and the `=` after it.
    Path,
    /// A `{` after which `}` stands, which is a token of its own.
    Empty,
    /// Any other byte.
    Sign,
}

/// A token of a text. Its text is the run, or the byte.
#[derive(Clone, Copy)]
pub struct Token<'a> {
    /// The number of its kind. A kind or a flag would leave bytes of the struct unused, and slow its copies.
    pub code: usize,
    pub text: &'a [u8],
    /// How many bytes of white space and of comments stand before it.
    pub gap: usize,
    /// How many bytes the text has from its first byte on.
    pub left: usize,
}

impl TokenKind {
    /// Its number.
    #[tactic(auto, unfolding(crate::specs::Tokens::kind_coded))]
    pub(crate) fn code(self) -> usize
        ensures { kind_coded result ≡ self }
    {
        match self {
            TokenKind::Word => 0,
            TokenKind::Key => 1,
            TokenKind::Call => 2,
            TokenKind::Path => 3,
            TokenKind::Empty => 4,
            TokenKind::Sign => 5,
        }
    }

    pub(crate) fn is_word(self) -> bool
        ensures { result ≡ spec.is_word self }
    {
        match self {
            TokenKind::Word => true,
            _ => false,
        }
    }

    pub(crate) fn is_key(self) -> bool
        ensures { result ≡ spec.is_key self }
    {
        match self {
            TokenKind::Key => true,
            _ => false,
        }
    }

    pub(crate) fn is_call(self) -> bool
        ensures { result ≡ spec.is_call self }
    {
        match self {
            TokenKind::Call => true,
            _ => false,
        }
    }

    pub(crate) fn is_empty(self) -> bool
        ensures { result ≡ leaves.is_empty self }
    {
        match self {
            TokenKind::Empty => true,
            _ => false,
        }
    }

    pub(crate) fn is_path(self) -> bool
        ensures { result ≡ spec.is_path self }
    {
        match self {
            TokenKind::Path => true,
            _ => false,
        }
    }
}

impl<'a> Token<'a> {
    /// Its kind.
    #[tactic(auto, unfolding(crate::specs::Tokens::kind_coded))]
    pub(crate) fn kind(&self) -> TokenKind
        ensures { result ≡ kind_coded self.now.code }
    {
        if self.code == 0 {
            TokenKind::Word
        } else if self.code == 1 {
            TokenKind::Key
        } else if self.code == 2 {
            TokenKind::Call
        } else if self.code == 3 {
            TokenKind::Path
        } else if self.code == 4 {
            TokenKind::Empty
        } else {
            TokenKind::Sign
        }
    }

    /// Whether it is this byte alone.
    pub(crate) fn is_byte(&self, byte: u8) -> bool
        ensures { result ≡ spec.is_byte byte (token_view self.now) }
    {
        match self.text {
            [only] => *only == byte,
            _ => false,
        }
    }

    /// Whether it is a member of one token.
    pub(crate) fn is_leaf(&self) -> bool
        ensures { result ≡ spec.leaf (token_view self.now) }
    {
        self.kind().is_word() && is_leaf(self.text)
    }

    /// Whether a leaf begins with it.
    pub(crate) fn begins_leaf(&self) -> bool
        ensures { result ≡ leaves.begins_leaf (token_view self.now) }
    {
        self.is_leaf() || self.kind().is_empty()
    }

    /// Whether it is a name before a field's value.
    pub(crate) fn is_field(&self) -> bool
        ensures { result ≡ spec.field_name (token_view self.now) }
    {
        self.kind().is_key() && is_name(self.text)
    }

    /// Whether it is a name before a variant's value.
    pub(crate) fn is_variant(&self) -> bool
        ensures { result ≡ spec.variant_name (token_view self.now) }
    {
        self.kind().is_call() && is_name(self.text)
    }

    /// Whether it is the path of a root.
    pub(crate) fn is_root_path(&self) -> bool
        ensures { result ≡ spec.root_path (token_view self.now) }
    {
        self.kind().is_path() && is_path(self.text)
    }

    /// Whether it begins the line of a root.
    pub(crate) fn is_root(&self) -> bool
        ensures { result ≡ spec.root_word (token_view self.now) }
    {
        self.kind().is_word() && self.text == b"root".as_slice()
    }

    /// The list, Group or variant that it opens. None exactly where it opens nothing.
    #[tactic(auto, unfolding(crate::specs::Words::opening))]
    pub(crate) fn opening(&self) -> Option<Opening>
        ensures { result ≡ spec.opening (token_view self.now) }
    {
        if self.is_byte(b'[') {
            Some(Opening::List)
        } else if self.is_byte(b'{') {
            Some(Opening::Group)
        } else if self.is_variant() {
            Some(Opening::Variant)
        } else {
            None
        }
    }
}
