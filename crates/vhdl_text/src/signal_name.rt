//! The names of signals.

ghost use Rattle.std.specs.Prelude.{◌≡◌};
ghost use Rattle.vhdl_text.specs.Text.{name_text, plain_name, signal_word};

use crate::counted::Counted;
use physical_stream::Head;
use signal_layout::Signal;
use tydi_base::{List, Memory, Written, emit, parts};

/// The extended identifier of a signal of a stream.
#[derive(Clone, Copy)]
pub struct SignalName<'a>(pub &'a Head, pub Signal);

impl Written for SignalName<'_> {
    ghost text = { λ name. name_text name.0.now name.1 };

    fn write_to(&self, out: &mut List<u8>) -> Result<(), Memory> {
        emit!(out; "\\", PlainName(self.0, self.1), "\\")
    }
}

impl Counted for SignalName<'_> {
    fn count(&self) -> u64 {
        parts!("\\", PlainName(self.0, self.1), "\\").count()
    }
}

/// The same without its backslashes.
#[derive(Clone, Copy)]
struct PlainName<'a>(&'a Head, Signal);

impl Written for PlainName<'_> {
    ghost text = { λ name. plain_name name.0.now name.1 };

    fn write_to(&self, out: &mut List<u8>) -> Result<(), Memory> {
        emit!(out; &self.0.path, ".", signal_word(self.1))
    }
}

impl Counted for PlainName<'_> {
    fn count(&self) -> u64 {
        parts!(&self.0.path, ".", signal_word(self.1)).count()
    }
}

/// The word for a signal (Tydi specification, signals).
pub fn signal_word(signal: Signal) -> &'static str
    ensures { result.now ≡ signal_word signal }
{
    match signal {
        Signal::Valid => "valid",
        Signal::Ready => "ready",
        Signal::Content => "data",
        Signal::Last => "last",
        Signal::Stai => "stai",
        Signal::Endi => "endi",
        Signal::Strb => "strb",
        Signal::User => "user",
    }
}
