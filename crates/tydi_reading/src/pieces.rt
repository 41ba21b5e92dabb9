//! Pieces of a text as things: the words of a line, or the lines of a text.

ghost use Rattle.std.specs.Prelude.{◌≡◌, length, option_map};
ghost use Rattle.std.specs.List.{join_with_byte};
ghost use Rattle.tydi_base.specs.Pieces.{pieces_of};
ghost use Rattle.tydi_reading.specs.Pieces.{pieces_after};
ghost use Rattle.tydi_reading.specs.Reading as spec;

use crate::source::Source;
use std::marker::Model;
use tydi_base::first_piece;

/// The pieces of a text that are not taken yet, with one such byte between each two: words between spaces, lines between line feeds. Where two
/// such bytes stand together, an empty piece stands between them. Contracts see the list of the pieces.
#[derive(Drop)]
pub struct Pieces<'a, const SEPARATOR: u8> {
    /// The text from the next piece on. None where no piece is left.
    rest: Option<&'a [u8]>,

    /// The next piece.
    next: Option<&'a [u8]>,

    /// The text after it and its separator. None where it is the last piece.
    after: Option<&'a [u8]>,
}

impl<'a, const SEPARATOR: u8> Model for Pieces<'a, SEPARATOR> {
    ghost use Rattle.std.specs.Prelude.{List, ℕ};

    ghost Value = { List (List ℕ) };

    ghost use Rattle.tydi_reading.specs.Pieces.{pieces_left, AreFound};

    ghost view = { pieces_left };

    ghost invariant = { AreFound };
}

impl<'a, const SEPARATOR: u8> Source for Pieces<'a, SEPARATOR> {
    ghost use Rattle.std.specs.Prelude.{List, ℕ};

    ghost Thing = { List ℕ };

    ghost left = { λ pieces. pieces };

    fn skip(&mut self) {
        if self.next.is_some() {
            *self = Pieces::begin(self.after);
        }
    }
}

impl<'a, const SEPARATOR: u8> Pieces<'a, SEPARATOR> {
    /// All pieces of a text: one at least, an empty text being one that is empty.
    pub fn new(text: &'a [u8]) -> Pieces<'a, SEPARATOR>
        ensures { result ≡ pieces_of SEPARATOR text.now }
    {
        Pieces::begin(Some(text))
    }

    // The pieces of what is left of a text.
    fn begin(rest: Option<&'a [u8]>) -> Pieces<'a, SEPARATOR>
        ensures { result ≡ pieces_after SEPARATOR rest.entry }
    {
        let Some(text) = rest else {
            return Pieces {
                rest,
                next: None,
                after: None,
            };
        };
        match first_piece(text, SEPARATOR) {
            Some((piece, after)) => Pieces {
                rest,
                next: Some(piece),
                after: Some(after),
            },
            None => Pieces {
                rest,
                next: Some(text),
                after: None,
            },
        }
    }

    /// The next piece, which stays. None where none is left.
    pub fn first(&self) -> Option<&'a [u8]>
        ensures { option_map (λ piece. piece.now) result ≡ spec.first self.now }
    {
        self.next
    }

    /// Whether no piece is left.
    pub fn is_at_end(&self) -> bool
        ensures { result ≡ spec.at_end self.now }
    {
        self.next.is_none()
    }

    /// How many bytes of the text stand from the next piece on, which so begins that many before its end. 0 where none is left.
    pub fn bytes_left(&self) -> usize
        ensures { result ≡ length (join_with_byte SEPARATOR self.now) }
    {
        match self.rest {
            Some(text) => text.len(),
            None => 0,
        }
    }
}
