//! Things that are written with a mark between each two of them, or in front of each.

ghost use Rattle.std.specs.Prelude.{◌++◌};
ghost use Rattle.std.specs.List.{flat_map};
ghost use Rattle.vhdl_text.specs.ArchText.{separated};

use crate::counted::Counted;
use crate::form::{Form, Formed};
use tydi_base::{List, Memory, Written, emit, parts};

/// Things in a form, with a mark between each two of them.
#[derive(Clone, Copy)]
pub(crate) struct Separated<'a, T, F>(pub(crate) &'a str, pub(crate) &'a [T], pub(crate) F);

impl<T, F: Form<T> + Copy> Written for Separated<'_, T, F> {
    ghost text = { λ all. separated all.0.now F.text all.1.now };

    fn write_to(&self, out: &mut List<u8>) -> Result<(), Memory> {
        match self.1.split_first() {
            Some((first, others)) => {
                emit!(out; Formed(first, self.2), Marked(self.0, others, self.2))
            }
            None => Ok(()),
        }
    }
}

impl<T, F: Form<T> + Copy> Counted for Separated<'_, T, F> {
    fn count(&self) -> u64 {
        match self.1.split_first() {
            Some((first, others)) => {
                parts!(Formed(first, self.2), Marked(self.0, others, self.2)).count()
            }
            None => 0,
        }
    }
}

/// Things in a form, with a mark in front of each.
#[derive(Clone, Copy)]
pub(crate) struct Marked<'a, T, F>(pub(crate) &'a str, pub(crate) &'a [T], pub(crate) F);

impl<T, F: Form<T> + Copy> Written for Marked<'_, T, F> {
    ghost text = { λ all. flat_map (λ one. all.0.now ++ F.text one) all.1.now };

    fn write_to(&self, out: &mut List<u8>) -> Result<(), Memory> {
        'things: for thing in self.1 {
            emit!(out; self.0, Formed(thing, self.2))?;
        }
        Ok(())
    }
}

impl<T, F: Form<T> + Copy> Counted for Marked<'_, T, F> {
    fn count(&self) -> u64 {
        let mut count: u64 = 0;
        'things: for thing in self.1 {
            count = count.saturating_add(parts!(self.0, Formed(thing, self.2)).count());
        }
        count
    }
}
