//! Parts of lines that occur everywhere in a monitor.

ghost use Rattle.std.specs.Prelude.{◌++◌, [], replicate, if◌then◌else◌};
ghost use Rattle.watch_text.specs.Text.{line, own_name};

use physical_stream::Head;
use tydi_base::{List, Memory, Written, emit, parts};
use vhdl_text::Counted;

/// A byte, so many times.
#[derive(Clone, Copy)]
pub(crate) struct Repeated(pub(crate) u8, pub(crate) usize);

impl Written for Repeated {
    ghost text = { λ repeated. replicate repeated.1 repeated.0 };

    fn write_to(&self, out: &mut List<u8>) -> Result<(), Memory> {
        let mut left = self.1;
        'bytes: while left > 0 {
            left -= 1;
            out.push(self.0)?;
        }
        Ok(())
    }
}

impl Counted for Repeated {
    fn count(&self) -> u64 {
        self.1 as u64
    }
}

/// A part that is there, or not.
#[derive(Clone, Copy)]
pub(crate) struct Where<T>(pub(crate) bool, pub(crate) T);

impl<T: Written> Written for Where<T> {
    ghost text = { λ part. if part.0 then T.text part.1 else [] };

    fn write_to(&self, out: &mut List<u8>) -> Result<(), Memory> {
        if self.0 {
            return self.1.write_to(out);
        }
        Ok(())
    }
}

impl<T: Counted> Counted for Where<T> {
    fn count(&self) -> u64 {
        if self.0 { self.1.count() } else { 0 }
    }
}

/// A line that is so far to the right.
#[derive(Clone, Copy)]
pub(crate) struct Line<T>(pub(crate) usize, pub(crate) T);

impl<T: Written + Copy> Written for Line<T> {
    ghost text = { λ whole. line whole.0 (T.text whole.1) };

    fn write_to(&self, out: &mut List<u8>) -> Result<(), Memory> {
        emit!(out; Repeated(b' ', self.0), self.1, "\n")
    }
}

impl<T: Counted + Copy> Counted for Line<T> {
    fn count(&self) -> u64 {
        parts!(Repeated(b' ', self.0), self.1, "\n").count()
    }
}

/// An extended identifier of this word beside a stream.
#[derive(Clone, Copy)]
pub(crate) struct OwnName<'a>(pub(crate) &'a Head, pub(crate) &'static str);

impl Written for OwnName<'_> {
    ghost text = { λ name. own_name name.0.now name.1.now };

    fn write_to(&self, out: &mut List<u8>) -> Result<(), Memory> {
        emit!(out; "\\", &self.0.path, ".", self.1, "\\")
    }
}

impl Counted for OwnName<'_> {
    fn count(&self) -> u64 {
        parts!("\\", &self.0.path, ".", self.1, "\\").count()
    }
}
