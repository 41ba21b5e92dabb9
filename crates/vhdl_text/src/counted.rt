//! How long texts are, without writing them.

ghost use Rattle.std.specs.Prelude.{◌≡◌, length, min};
ghost use Rattle.tydi_base.specs.Lengths.{most_bytes};

use crate::frame::HighestBit;
use tydi_base::{Binary, Each, Name, Path, Text, Written, decimal_length};

/// A value that has a text whose length is known before it is written.
pub trait Counted: Written {
    /// The number of bytes of its text; `u64::MAX` where they are more, which no memory holds.
    fn count(&self) -> u64
        ensures { result ≡ min (length (Self.text self.now)) most_bytes };
}

impl<A: Counted, B: Counted> Counted for (A, B) {
    fn count(&self) -> u64 {
        self.0.count().saturating_add(self.1.count())
    }
}

impl<T: Counted> Counted for &T {
    fn count(&self) -> u64 {
        (*self).count()
    }
}

impl Counted for &str {
    fn count(&self) -> u64 {
        self.len() as u64
    }
}

impl Counted for usize {
    fn count(&self) -> u64 {
        decimal_length(*self as u64)
    }
}

impl Counted for Text {
    fn count(&self) -> u64 {
        self.as_bytes().len() as u64
    }
}

impl Counted for Name {
    fn count(&self) -> u64 {
        self.as_bytes().len() as u64
    }
}

impl Counted for Path {
    fn count(&self) -> u64 {
        self.dotted_length()
    }
}

impl Counted for Binary<'_> {
    fn count(&self) -> u64 {
        self.0.len() as u64
    }
}

impl<T: Counted> Counted for Each<'_, T> {
    fn count(&self) -> u64 {
        let mut count: u64 = 0;
        'things: for thing in self.0 {
            count = count.saturating_add(thing.count());
        }
        count
    }
}

impl Counted for HighestBit {
    fn count(&self) -> u64 {
        decimal_length(u64::from(self.0.saturating_sub(1)))
    }
}
