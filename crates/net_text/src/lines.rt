//! The lines of a text, each with its place.

ghost use Rattle.std.specs.Prelude.{◌≡◌, ◌<◌, ◌^◌, ◌-◌, length, [], ◌∷◌, MatchOption};
ghost use Rattle.net_text.specs.Lines as spec;
ghost use Rattle.net_text.specs.LinesView.{line_in};

use std::marker::Model;
use tydi_base::{LINE_FEED, Place, first_piece};

/// A line, without its LF, and the place of its first byte.
#[derive(Clone, Copy)]
pub(crate) struct Line<'a> {
    pub(crate) place: Place,
    pub(crate) bytes: &'a [u8],
    /// Whether it has its LF.
    pub(crate) ended: bool,
}

/// The lines of a text that are not taken yet. Contracts see their list.
#[derive(Drop)]
pub(crate) struct Lines<'a> {
    /// The text from the next line on. None where no line is left.
    rest: Option<&'a [u8]>,
    /// The place of the next line.
    place: Place,
}

impl<'a> Model for Lines<'a> {
    ghost use Rattle.std.specs.Prelude.{List};
    ghost use Rattle.net_text.specs.Lines.{TextLine};
    ghost use Rattle.net_text.specs.LinesView.{lines_left, HasRoom};

    ghost Value = { List TextLine };

    ghost view = { lines_left };

    ghost invariant = { HasRoom };
}

impl<'a> Lines<'a> {
    /// All lines of a text.
    pub(crate) fn new(text: &'a [u8]) -> Lines<'a>
        requires { length text.now < 2 ^ 32 - 1 }
        ensures { result ≡ spec.lines_in text.now }
    {
        Lines {
            rest: Some(text),
            place: Place::start(),
        }
    }

    /// Takes the next line. None where none is left.
    pub(crate) fn take_line(&mut self) -> Option<Line<'a>>
        ensures { MatchOption result ((self.old ≡ []) × (self.new ≡ [])) (λ line. self.old ≡ line_in line ∷ self.new) }
    {
        let text = self.rest?;
        let place = self.place;
        match first_piece(text, LINE_FEED) {
            Some((bytes, after)) => {
                *self = Lines {
                    rest: Some(after),
                    place: place.along(bytes.len()).after(LINE_FEED),
                };
                Some(Line {
                    place,
                    bytes,
                    ended: true,
                })
            }
            None => {
                *self = Lines { rest: None, place };
                unended(place, text)
            }
        }
    }
}

/// The line after the last LF of a text. None where nothing stands there.
fn unended(place: Place, bytes: &[u8]) -> Option<Line<'_>>
    ensures { MatchOption result (spec.last_line place bytes.now ≡ []) (λ line. spec.last_line place bytes.now ≡ line_in line ∷ []) }
{
    if bytes.is_empty() {
        None
    } else {
        Some(Line {
            place,
            bytes,
            ended: false,
        })
    }
}
