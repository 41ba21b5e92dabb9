//! How things are written whose text is not their own.

ghost use Rattle.std.specs.Prelude.{◌≡◌, ◌++◌, ℕ, List, OnOk, OnErr, length, min};
ghost use Rattle.tydi_base.specs.Lengths.{most_bytes};
ghost use Rattle.tydi_base.specs.Writing.{StandsInFront};

use crate::counted::Counted;
use tydi_base::{List, Memory, Written};

/// A way to write the things of a type.
pub(crate) trait Form<T> {
    /// The text of a thing.
    ghost text: { T → List ℕ };

    /// Adds the text of a thing at the end. After `Memory` a front of it may stand there.
    fn write_one(&self, one: &T, out: &mut List<u8>) -> Result<(), Memory>
        ensures ok { OnOk result (out.new ≡ out.old ++ text one.now) }
        ensures err { OnErr result (StandsInFront out.old out.new) };

    /// The number of bytes of the text of a thing; `u64::MAX` where they are more, which no memory holds.
    fn count_one(&self, one: &T) -> u64
        ensures { result ≡ min (length (text one.now)) most_bytes };
}

/// Things are written as their own texts.
#[derive(Clone, Copy)]
pub(crate) struct OwnText;

impl<T: Counted> Form<T> for OwnText {
    ghost text = { T.text };

    fn write_one(&self, one: &T, out: &mut List<u8>) -> Result<(), Memory> {
        one.write_to(out)
    }

    fn count_one(&self, one: &T) -> u64 {
        one.count()
    }
}

/// A thing in a form.
#[derive(Clone, Copy)]
pub(crate) struct Formed<'a, T, F>(pub(crate) &'a T, pub(crate) F);

impl<T, F: Form<T>> Written for Formed<'_, T, F> {
    ghost text = { λ one. F.text one.0.now };

    fn write_to(&self, out: &mut List<u8>) -> Result<(), Memory> {
        self.1.write_one(self.0, out)
    }
}

impl<T, F: Form<T>> Counted for Formed<'_, T, F> {
    fn count(&self) -> u64 {
        self.1.count_one(self.0)
    }
}
