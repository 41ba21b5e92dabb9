//! The lines below the head line of a stream.

ghost use Rattle.std.specs.Prelude.{◌≡◌, IfOk};
ghost use Rattle.std.specs.List.{flat_map};
ghost use Rattle.signal_layout.specs.Layout.{width_in};
ghost use Rattle.split_text.specs.Text.{field_line, room_behind, signal_line, signal_lines};

use crate::fields::Field;
use signal_layout::{Signal, Signals};
use tydi_base::{List, Memory, Written, emit};

/// The signals that a stream has, a line each.
#[derive(Clone, Copy)]
pub struct SignalLines<'a>(pub &'a Signals);

impl Written for SignalLines<'_> {
    ghost text = { λ lines. signal_lines (width_in lines.0.now) };

    fn write_to(&self, out: &mut List<u8>) -> Result<(), Memory> {
        let signals = self.0;
        emit!(
            out;
            SignalLine("valid", signals.width(Signal::Valid)),
            SignalLine("ready", signals.width(Signal::Ready)),
            SignalLine("data", signals.width(Signal::Content)),
            SignalLine("last", signals.width(Signal::Last)),
            SignalLine("stai", signals.width(Signal::Stai)),
            SignalLine("endi", signals.width(Signal::Endi)),
            SignalLine("strb", signals.width(Signal::Strb)),
            SignalLine("user", signals.width(Signal::User)),
        )
    }
}

/// A signal of this name, and its width in bits; nothing where the stream lacks it.
#[derive(Clone, Copy)]
struct SignalLine<'a>(&'a str, Option<u32>);

impl Written for SignalLine<'_> {
    ghost text = { λ line. signal_line line.0.now line.1 };

    fn write_to(&self, out: &mut List<u8>) -> Result<(), Memory> {
        match self.1 {
            Some(width) => emit!(out; "  ", self.0, " ", width, "\n"),
            None => Ok(()),
        }
    }
}

/// Fields, a line each.
#[derive(Clone, Copy)]
pub struct FieldLines<'a>(pub &'a [Field]);

impl Written for FieldLines<'_> {
    ghost text = { λ lines. flat_map field_line lines.0.now };

    fn write_to(&self, out: &mut List<u8>) -> Result<(), Memory> {
        'fields: for field in self.0 {
            out.emit(&FieldLine(field))?;
        }
        Ok(())
    }
}

/// A field.
#[derive(Clone, Copy)]
struct FieldLine<'a>(&'a Field);

impl Written for FieldLine<'_> {
    ghost text = { λ line. field_line line.0.now };

    fn write_to(&self, out: &mut List<u8>) -> Result<(), Memory> {
        let Field {
            path,
            offset,
            width,
        } = self.0;
        emit!(out; "  field ", path, " ", *offset, " ", *width, "\n")
    }
}

/// What so much room leaves behind the lines of fields. Each line is made in the room of the last.
pub(crate) fn room_behind_fields(
    fields: &[Field],
    room: u64,
    line: &mut List<u8>,
) -> Result<Option<u64>, Memory>
    ensures { IfOk result (λ left. left ≡ room_behind room (flat_map field_line fields.now)) }
{
    let mut left = room;
    'fields: for field in fields {
        line.truncate(0);
        line.emit(&FieldLine(field))?;
        match room_behind(left, line) {
            Some(less) => left = less,
            None => return Ok(None),
        }
    }
    Ok(Some(left))
}

/// What so much room leaves behind a text. None where the text has more bytes.
pub(crate) fn room_behind(room: u64, text: &List<u8>) -> Option<u64>
    ensures { result ≡ room_behind room text.now }
{
    room.checked_sub(text.len() as u64)
}
