//! Pieces that are neither blank nor word: numbers, quoted text, documentation and symbols.

ghost use Rattle.std.specs.Prelude.{◌≡◌, ◌≢◌, ◌∷◌, ◌+◌, ◌-◌, ◌^◌, ◌<◌, ◌≤◌, length};
ghost use Rattle.til_lexer.specs.Found.{placed};
ghost use Rattle.til_lexer.specs.Pieces as spec;
ghost use Rattle.til_lexer.specs.Spans.{until_mark};
ghost use Rattle.tydi_base.specs.declared.pieces.TheConstants.{LINE_FEED};

use crate::fault::LexFault;
use crate::numbers::number_at;
use crate::piece::{Piece, on_line};
use crate::spans::until_mark;
use crate::symbols::symbol_at;
use crate::token::TokenKind;
use tydi_base::Place;

/// The byte on both sides of quoted text.
const QUOTE: u8 = b'"';

/// The byte on both sides of documentation.
const HASH: u8 = b'#';

/// The number, quoted text, documentation or symbol that begins a text at this place, and the place after it.
pub(crate) fn mark_at(place: Place, bytes: &[u8]) -> Result<(Piece, Place), LexFault>
    requires some { 0 < length bytes.now }
    requires fits { place.offset + length bytes.now < 2 ^ 32 - 1 }
    requires line { place.line ≤ place.offset + 1 }
    requires column { place.column ≤ place.offset + 1 }
    ensures { result ≡ placed place bytes.now (spec.mark_at place bytes.now) }
{
    let first = bytes[0];
    if first.is_ascii_digit() {
        on_line(place, number_at(place, bytes))
    } else if first == QUOTE {
        let fault = LexFault::OpenString(place);
        closed_token(TokenKind::Quoted, fault, QUOTE, place, &bytes[1..])
    } else if first == HASH {
        let fault = LexFault::OpenDoc(place);
        closed_token(TokenKind::Doc, fault, HASH, place, &bytes[1..])
    } else {
        on_line(place, symbol_at(place, bytes))
    }
}

/// The token that a mark at this place opens, of what stands after the mark, and the place after the token.
fn closed_token(
    kind: TokenKind,
    fault: LexFault,
    mark: u8,
    place: Place,
    after: &[u8],
) -> Result<(Piece, Place), LexFault>
    requires mark { mark ≢ LINE_FEED }
    requires fits { place.offset + length after.now + 1 < 2 ^ 32 - 1 }
    requires line { place.line ≤ place.offset + 1 }
    requires column { place.column ≤ place.offset + 1 }
    ensures { result ≡ placed place (mark ∷ after.now) (spec.closed_token kind fault (until_mark mark after.now)) }
{
    match until_mark(mark, place.along(1), after) {
        Some(span) => Ok((Piece::Token(kind, span.count + 2), span.after.along(1))),
        None => Err(fault),
    }
}
