//! The lines of a text that say something, each with its place.

ghost use Rattle.std.specs.Prelude.{◌≡◌, ◌<◌, ◌^◌, ◌-◌, length, [], ◌∷◌, MatchOption};
ghost use Rattle.plan_text.specs.Lines as spec;
ghost use Rattle.plan_text.specs.LinesView.{line_in};

use std::marker::Model;
use tydi_base::{LINE_FEED, Place, first_piece};

/// A line, without its LF, and the place of its first byte.
#[derive(Clone, Copy)]
pub(crate) struct Line<'a> {
    pub(crate) place: Place,
    pub(crate) bytes: &'a [u8],
}

/// The lines of a text that are not taken yet. Contracts see their list.
#[derive(Drop)]
pub(crate) struct Lines<'a> {
    /// The text from the next line on. None where no line is left.
    rest: Option<&'a [u8]>,
    /// The place of the next line.
    place: Place,
}

impl<'a> Model for Lines<'a> {
    ghost use Rattle.std.specs.Prelude.{List};
    ghost use Rattle.plan_text.specs.Lines.{TextLine};
    ghost use Rattle.plan_text.specs.LinesView.{lines_left, HasRoom};

    ghost Value = { List TextLine };

    ghost view = { lines_left };

    ghost invariant = { HasRoom };
}

impl<'a> Lines<'a> {
    /// All lines of a text.
    pub(crate) fn new(text: &'a [u8]) -> Lines<'a>
        requires { length text.now < 2 ^ 32 - 1 }
        ensures { result ≡ spec.lines_in text.now }
    {
        Lines {
            rest: Some(text),
            place: Place::start(),
        }
    }

    /// Takes the next line. None where none is left.
    fn take_line(&mut self) -> Option<Line<'a>>
        ensures { MatchOption result ((self.old ≡ []) × (self.new ≡ [])) (λ line. self.old ≡ line_in line ∷ self.new) }
    {
        let text = self.rest?;
        let place = self.place;
        match first_piece(text, LINE_FEED) {
            Some((bytes, after)) => {
                *self = Lines {
                    rest: Some(after),
                    place: place.along(bytes.len()).after(LINE_FEED),
                };
                Some(Line { place, bytes })
            }
            None => {
                *self = Lines { rest: None, place };
                Some(Line { place, bytes: text })
            }
        }
    }

    /// Takes the lines up to the next that is neither empty nor a comment, which it gives. None where none is left.
    pub(crate) fn next_told(&mut self) -> Option<Line<'a>>
        ensures { MatchOption result (spec.told self.old ≡ []) (λ line. spec.told self.old ≡ line_in line ∷ spec.told self.new) }
    {
        'lines: while let Some(line) = self.take_line() {
            if is_told(line.bytes) {
                return Some(line);
            }
        }
        None
    }
}

/// Whether a line is neither empty nor a comment.
fn is_told(line: &[u8]) -> bool
    ensures { result ≡ spec.is_told line.now }
{
    !line.is_empty() && !line.starts_with(b"//")
}
