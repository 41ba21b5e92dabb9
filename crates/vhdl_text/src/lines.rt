//! Lines that a text is to have.

ghost use Rattle.std.specs.Prelude.{◌≡◌};
ghost use Rattle.std.specs.Str.{bytes_eq};
ghost use Rattle.tydi_base.specs.Pieces.{pieces_of};
ghost use Rattle.tydi_reading.specs.Lists.{mark};
ghost use Rattle.tydi_reading.specs.Reading.{ReadsAlways};
ghost use Rattle.vhdl_text.specs.Reading.{the_lines};

use crate::cuts::is_same;
use crate::refusal::Fault;
use tydi_reading::{Pieces, Source};

/// The lines of a text that are not taken yet.
pub type Lines<'a> = Pieces<'a, b'\n'>;

/// Takes just the lines of a text. It is refused at the first line that is another.
pub fn expect_lines(lines: &mut Lines<'_>, text: &[u8]) -> Result<(), Fault>
    ensures { ReadsAlways (the_lines (pieces_of 10 text.now) lines.old) result lines.new }
{
    let mut wanted: Lines<'_> = Pieces::new(text);
    'lines: while let Some(line) = wanted.first() {
        expect_line(lines, line)?;
        wanted.skip();
    }
    Ok(())
}

/// Takes the next line, which is to be this one. It is refused where there is none, or another.
#[tactic(auto, unfolding(tydi_reading::specs::Lists::mark))]
pub fn expect_line(lines: &mut Lines<'_>, wanted: &[u8]) -> Result<(), Fault>
    ensures { ReadsAlways (mark (λ next. bytes_eq next wanted.now) lines.old) result lines.new }
{
    let Some(line) = lines.first() else {
        return Err(Fault::Refused);
    };
    if !is_same(line, wanted) {
        return Err(Fault::Refused);
    }
    lines.skip();
    Ok(())
}
