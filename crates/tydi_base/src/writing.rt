//! Texts that are written part after part. A text is a `List<u8>`, and `emit!` adds parts at its end.

ghost use Rattle.std.specs.Prelude.{◌≡◌, ◌++◌, [], ℕ, List, OnOk, OnErr, decimal};
ghost use Rattle.std.specs.List.{flat_map};
ghost use Rattle.std.specs.Option.{option_map_or};
ghost use Rattle.tydi_base.specs.Hex.{hex_of};
ghost use Rattle.tydi_base.specs.Path.{colon_text, path_text};
ghost use Rattle.tydi_base.specs.Writing.{StandsInFront};

use crate::bits::Bits;
use crate::decimal::{write_decimal, write_wide_decimal};
use crate::list::List;
use crate::memory::Memory;
use crate::name::Name;
use crate::path::Path;
use crate::text::Text;

/// A value that has a text.
pub trait Written {
    /// The text that it is written as.
    ghost text: { Self → List ℕ };

    /// Adds its text at the end. After `Memory` a front of its text may stand there.
    fn write_to(&self, out: &mut List<u8>) -> Result<(), Memory>
        ensures ok { OnOk result (out.new ≡ out.old ++ text self.now) }
        ensures err { OnErr result (StandsInFront out.old out.new) };
}

impl List<u8> {
    /// Adds the text of what is written. After `Memory` the list is as before.
    pub fn emit<W: Written>(&mut self, part: &W) -> Result<(), Memory>
        ensures ok { OnOk result (self.new ≡ self.old ++ W.text part.now) }
        ensures err { OnErr result (self.new ≡ self.old) }
    {
        let len = self.len();
        let written = part.write_to(self);
        if written.is_err() {
            self.truncate(len);
        }
        written
    }
}

/// Adds the texts of these parts, one after another: `emit!(text; "stream ", path, " transfers ", count)?`. After `Memory` the
/// text is as before.
#[macro_export]
macro_rules! emit {
    ($out:expr; $($part:expr),+ $(,)?) => {
        $out.emit(&$crate::parts!($($part),+))
    };
}

/// These parts as one, for `emit!`.
#[macro_export]
macro_rules! parts {
    ($part:expr) => {
        $part
    };
    ($part:expr, $($more:expr),+) => {
        ($part, $crate::parts!($($more),+))
    };
}

impl<A: Written, B: Written> Written for (A, B) {
    ghost text = { λ parts. A.text parts.0 ++ B.text parts.1 };

    fn write_to(&self, out: &mut List<u8>) -> Result<(), Memory> {
        self.0.write_to(out)?;
        self.1.write_to(out)
    }
}

impl<T: Written> Written for &T {
    ghost text = { λ part. T.text part.now };

    fn write_to(&self, out: &mut List<u8>) -> Result<(), Memory> {
        (*self).write_to(out)
    }
}

impl Written for &str {
    ghost text = { λ text. text.now };

    fn write_to(&self, out: &mut List<u8>) -> Result<(), Memory> {
        out.extend_from_slice(self.as_bytes())
    }
}

impl Written for &[u8] {
    ghost text = { λ bytes. bytes.now };

    fn write_to(&self, out: &mut List<u8>) -> Result<(), Memory> {
        out.extend_from_slice(self)
    }
}

/// Nothing is written where there is none.
impl<T: Written> Written for Option<T> {
    ghost text = { λ part. option_map_or T.text part [] };

    fn write_to(&self, out: &mut List<u8>) -> Result<(), Memory> {
        match self {
            Some(part) => part.write_to(out),
            None => Ok(()),
        }
    }
}

impl Written for u8 {
    ghost text = { decimal };

    fn write_to(&self, out: &mut List<u8>) -> Result<(), Memory> {
        write_decimal(u64::from(*self), out)
    }
}

impl Written for u16 {
    ghost text = { decimal };

    fn write_to(&self, out: &mut List<u8>) -> Result<(), Memory> {
        write_decimal(u64::from(*self), out)
    }
}

impl Written for usize {
    ghost text = { decimal };

    fn write_to(&self, out: &mut List<u8>) -> Result<(), Memory> {
        write_decimal(*self as u64, out)
    }
}

impl Written for u64 {
    ghost text = { decimal };

    fn write_to(&self, out: &mut List<u8>) -> Result<(), Memory> {
        write_decimal(*self, out)
    }
}

impl Written for u128 {
    ghost text = { decimal };

    fn write_to(&self, out: &mut List<u8>) -> Result<(), Memory> {
        write_wide_decimal(*self, out)
    }
}

impl Written for u32 {
    ghost text = { decimal };

    fn write_to(&self, out: &mut List<u8>) -> Result<(), Memory> {
        write_decimal(u64::from(*self), out)
    }
}

impl Written for Name {
    ghost text = { λ name. name };

    fn write_to(&self, out: &mut List<u8>) -> Result<(), Memory> {
        out.extend_from_slice(self.as_bytes())
    }
}

impl Written for Text {
    ghost text = { λ text. text };

    fn write_to(&self, out: &mut List<u8>) -> Result<(), Memory> {
        out.extend_from_slice(self.as_bytes())
    }
}

/// A path is written with `.` between its names, and `-` for the empty path.
impl Written for Path {
    ghost text = { path_text };

    fn write_to(&self, out: &mut List<u8>) -> Result<(), Memory> {
        self.write_dotted(out)
    }
}

/// A path that is written with `::` between its names.
#[derive(Clone, Copy)]
pub struct Colons<'a>(pub &'a Path);

impl Written for Colons<'_> {
    ghost text = { λ path. colon_text path.0.now };

    fn write_to(&self, out: &mut List<u8>) -> Result<(), Memory> {
        self.0.write(true, out)
    }
}

/// A word that is written in hexadecimal: a digit for each four bits, the highest first, in lower case.
#[derive(Clone, Copy)]
pub struct Hex<'a>(pub &'a Bits);

impl Written for Hex<'_> {
    ghost text = { λ word. hex_of word.0.now };

    fn write_to(&self, out: &mut List<u8>) -> Result<(), Memory> {
        self.0.write_digits(out)
    }
}

/// Things that are written one after another.
#[derive(Clone, Copy)]
pub struct Each<'a, T>(pub &'a [T]);

impl<T: Written> Written for Each<'_, T> {
    ghost text = { λ things. flat_map T.text things.0.now };

    fn write_to(&self, out: &mut List<u8>) -> Result<(), Memory> {
        'things: for thing in self.0 {
            thing.write_to(out)?;
        }
        Ok(())
    }
}
