//! Numbers.

ghost use Rattle.std.specs.Prelude.{◌≡◌};
ghost use Rattle.til_lexer.specs.Pieces as spec;

use crate::fault::LexFault;
use crate::piece::Piece;
use crate::spans::{digits_after_point, digits_at};
use crate::token::TokenKind;
use tydi_base::Place;

/// The most digits of a number.
pub(crate) const MOST_DIGITS: usize = 18;

/// The number that begins a text: digits, and then a point and digits where both stand there.
#[tactic(auto, unfolding(crate::specs::Pieces::number_token))]
pub(crate) fn number_at(place: Place, bytes: &[u8]) -> Result<Piece, LexFault>
    ensures { result ≡ spec.number_at place bytes.now }
{
    let whole = digits_at(bytes);
    let fraction = digits_after_point(&bytes[whole..]);
    if whole + fraction > MOST_DIGITS {
        return Err(LexFault::NumberTooLong(place));
    }
    let count = if fraction == 0 {
        whole
    } else {
        whole + 1 + fraction
    };
    Ok(Piece::Token(TokenKind::Number, count))
}
