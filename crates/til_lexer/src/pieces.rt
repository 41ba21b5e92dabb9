//! The piece that begins a text.

ghost use Rattle.std.specs.Prelude.{◌≡◌, ◌+◌, ◌-◌, ◌^◌, ◌<◌, ◌≤◌, length};
ghost use Rattle.til_lexer.specs.Found.{found_at};

use crate::fault::LexFault;
use crate::marks::mark_at;
use crate::piece::{Piece, on_line};
use crate::spans::{begins_comment, is_space, line_length, space_span};
use crate::words::{starts_word, word_at};
use tydi_base::Place;

/// The piece that begins a text, which begins at this place: white space, a comment or a token; and the place after it.
pub(crate) fn piece_at(place: Place, text: &str) -> Result<(Piece, Place), LexFault>
    requires some { 0 < length text.now }
    requires fits { place.offset + length text.now < 2 ^ 32 - 1 }
    requires line { place.line ≤ place.offset + 1 }
    requires column { place.column ≤ place.offset + 1 }
    ensures { result ≡ found_at place text.now }
{
    let bytes = text.as_bytes();
    if is_space(bytes[0]) {
        let span = space_span(place, bytes);
        Ok((Piece::Blank(span.count), span.after))
    } else if begins_comment(bytes) {
        on_line(place, Ok(Piece::Blank(line_length(bytes))))
    } else if starts_word(text) {
        on_line(place, word_at(place, text))
    } else {
        mark_at(place, bytes)
    }
}
