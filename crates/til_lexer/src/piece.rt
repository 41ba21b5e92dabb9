//! The pieces that a text falls into.

ghost use Rattle.std.specs.Prelude.{◌≡◌, ◌+◌, ◌-◌, ◌^◌, ◌<◌, ◌≤◌, IfOk};
ghost use Rattle.til_lexer.specs.Found.{along_line};
ghost use Rattle.til_lexer.specs.Tokens.{length_of};

use crate::fault::LexFault;
use crate::token::TokenKind;
use tydi_base::Place;

/// The piece at the front of a text, and its number of bytes.
#[derive(Clone, Copy, Debug, PartialEq, Eq)]
pub(crate) enum Piece {
    /// White space, or a comment.
    Blank(usize),
    /// A token.
    Token(TokenKind, usize),
}

impl Piece {
    /// How many bytes it has.
    pub(crate) fn len(&self) -> usize
        ensures { result ≡ length_of self.now }
    {
        match self {
            Piece::Blank(count) => *count,
            Piece::Token(_, count) => *count,
        }
    }
}

/// A piece in one line at this place, and the place after it.
pub(crate) fn on_line(
    place: Place,
    found: Result<Piece, LexFault>,
) -> Result<(Piece, Place), LexFault>
    requires fits { IfOk found (λ piece. place.offset + length_of piece < 2 ^ 32 - 1) }
    requires column { place.column ≤ place.offset + 1 }
    ensures { result ≡ along_line place found }
{
    let piece = found?;
    Ok((piece, place.along(piece.len())))
}
