//! The lines of a run text, each with its place.

ghost use Rattle.std.specs.Prelude.{◌≡◌, ◌<◌, ◌^◌, ◌-◌, length, [], ◌∷◌, MatchOption};
ghost use Rattle.vhdl_meaning.specs.RunLines as spec;
ghost use Rattle.vhdl_meaning.specs.RunLinesView.{line_in};

use std::marker::Model;
use tydi_base::{LINE_FEED, Place, first_piece};

/// A line, without its LF, and the place of its first byte.
#[derive(Clone, Copy)]
pub(crate) struct RunLine<'a> {
    pub(crate) place: Place,
    pub(crate) bytes: &'a [u8],
}

/// The lines of a text that are not taken yet. Contracts see their list.
#[derive(Drop)]
pub(crate) struct RunLines<'a> {
    /// The text from the next line on. None where no line is left.
    rest: Option<&'a [u8]>,
    /// The place of the next line.
    place: Place,
}

impl<'a> Model for RunLines<'a> {
    ghost use Rattle.std.specs.Prelude.{List};
    ghost use Rattle.vhdl_meaning.specs.RunLines.{TextLine};
    ghost use Rattle.vhdl_meaning.specs.RunLinesView.{lines_left, HasRoom};

    ghost Value = { List TextLine };

    ghost view = { lines_left };

    ghost invariant = { HasRoom };
}

// A text without the LF at its end, where it has one.
fn without_end(text: &[u8]) -> &[u8]
    ensures { result.now ≡ spec.without_end text.now }
{
    if text.ends_with(b"\n") {
        &text[..text.len() - 1]
    } else {
        text
    }
}

impl<'a> RunLines<'a> {
    /// All lines of a text.
    pub(crate) fn new(text: &'a [u8]) -> RunLines<'a>
        requires { length text.now < 2 ^ 32 - 1 }
        ensures { result ≡ spec.lines_in text.now }
    {
        RunLines {
            rest: Some(without_end(text)),
            place: Place::start(),
        }
    }

    /// Takes the next line. None where none is left.
    pub(crate) fn take_line(&mut self) -> Option<RunLine<'a>>
        ensures { MatchOption result ((self.old ≡ []) × (self.new ≡ [])) (λ line. self.old ≡ line_in line ∷ self.new) }
    {
        let text = self.rest?;
        let place = self.place;
        match first_piece(text, LINE_FEED) {
            Some((bytes, after)) => {
                *self = RunLines {
                    rest: Some(after),
                    place: place.along(bytes.len()).after(LINE_FEED),
                };
                Some(RunLine { place, bytes })
            }
            None => {
                *self = RunLines { rest: None, place };
                Some(RunLine { place, bytes: text })
            }
        }
    }
}
