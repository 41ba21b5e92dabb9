//! The tokens of a whole text.

ghost use Rattle.std.specs.Prelude.{◌≡◌, ◌+◌, ◌-◌, ◌^◌, ◌<◌, ◌≤◌, ◌++◌, length, OnOk};
ghost use Rattle.tydi_base.specs.Reading.{Gives};
ghost use Rattle.til_lexer.specs.Faults.{fault_in};
ghost use Rattle.til_lexer.specs.Tokens.{length_of, tokens_in, tokens_of};

use crate::fault::LexFault;
use crate::piece::Piece;
use crate::pieces::piece_at;
use crate::token::Token;
use std::alloc::Global;
use tydi_base::{List, Memory, Place};

/// The tokens of a text, in their order, each with its place. A text has fewer than 2 ^ 32 - 1 bytes. Apart from
/// `Memory`, it fails with the first error in the text, at its place: see `LexFault`.
pub fn lex(alloc: Global, text: &str) -> Result<List<Token>, LexFault>
    requires { length text.now < 2 ^ 32 - 1 }
    ensures gives { Gives fault_in (λ tokens. tokens) result (tokens_of text.now) }
{
    let mut tokens = List::new(alloc);
    let mut place = Place::start();
    let mut rest = text;
    'pieces: while !rest.is_empty() {
        let (piece, after) = piece_at(place, rest)?;
        push_token(&mut tokens, place, piece)?;
        rest = &rest[piece.len()..];
        place = after;
    }
    Ok(tokens)
}

/// Adds the token that a piece at this place is, if it is one.
fn push_token(tokens: &mut List<Token>, place: Place, piece: Piece) -> Result<(), Memory>
    requires { place.offset + length_of piece < 2 ^ 32 }
    ensures { OnOk result (tokens.new ≡ tokens.old ++ tokens_in place piece) }
{
    match piece {
        Piece::Blank(_) => Ok(()),
        Piece::Token(kind, count) => tokens.push(Token {
            kind,
            from: place.offset,
            to: place.offset + count as u32,
            place,
        }),
    }
}
