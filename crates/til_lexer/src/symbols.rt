//! Symbols, the longest first.

ghost use Rattle.std.specs.Prelude.{◌≡◌, slice_index};
ghost use Rattle.til_lexer.specs.Pieces as spec;

use crate::fault::LexFault;
use crate::piece::Piece;
use crate::token::TokenKind;
use tydi_base::Place;

/// The symbol that begins a text.
#[tactic(auto, unfolding(crate::specs::Pieces::symbol_token))]
pub(crate) fn symbol_at(place: Place, bytes: &[u8]) -> Result<Piece, LexFault>
    ensures { result ≡ spec.symbol_at place bytes.now }
{
    if let Some(kind) = double_symbol(bytes) {
        return Ok(Piece::Token(kind, 2));
    }
    match single_symbol(bytes) {
        Some(kind) => Ok(Piece::Token(kind, 1)),
        None => Err(LexFault::StrayChar(place)),
    }
}

#[tactic(auto, unfolding(crate::specs::Pieces::double_symbol))]
fn double_symbol(bytes: &[u8]) -> Option<TokenKind>
    ensures { result ≡ spec.double_symbol (slice_index bytes.now 0) (slice_index bytes.now 1) }
{
    match bytes {
        [b':', b':', ..] => Some(TokenKind::DoubleColon),
        [b'-', b'-', ..] => Some(TokenKind::DoubleDash),
        _ => None,
    }
}

#[tactic(auto, unfolding(crate::specs::Pieces::single_symbol))]
fn single_symbol(bytes: &[u8]) -> Option<TokenKind>
    ensures { result ≡ spec.single_symbol (slice_index bytes.now 0) }
{
    match bytes {
        [b'{', ..] => Some(TokenKind::OpenBrace),
        [b'}', ..] => Some(TokenKind::CloseBrace),
        [b'(', ..] => Some(TokenKind::OpenParen),
        [b')', ..] => Some(TokenKind::CloseParen),
        [b':', ..] => Some(TokenKind::Colon),
        [b';', ..] => Some(TokenKind::Semicolon),
        [b',', ..] => Some(TokenKind::Comma),
        [b'=', ..] => Some(TokenKind::Equals),
        [b'.', ..] => Some(TokenKind::Point),
        _ => None,
    }
}
