//! Texts with numbers.

ghost use Rattle.std.specs.Prelude.{◌≡◌, ◌++◌, ◌∷◌, [], None, OnOk};
ghost use Rattle.vcd_read.specs.Numbers.{number_of};

use indexmap::IndexSet;
use std::alloc::Global;
use std::marker::Model;
use tydi_base::Memory;

/// Different texts in the order in which they were added. Each has its place there as its number, by which it is found again at once.
#[derive(Drop)]
pub(crate) struct Texts {
    texts: IndexSet<Vec<u8>>,
}

impl Model for Texts {
    ghost use Rattle.std.specs.Prelude.{List, ℕ, map};

    ghost Value = { List (List ℕ) };

    ghost view = { λ texts. map (λ text. text.items) texts.texts.keys };
}

impl Texts {
    /// No texts.
    pub(crate) fn new(alloc: Global) -> Texts
        ensures { result ≡ [] }
    {
        Texts {
            texts: IndexSet::new(alloc),
        }
    }

    /// The number of a text. None exactly where it was not added.
    #[inline(always)]
    pub(crate) fn number(&self, text: &[u8]) -> Option<usize>
        ensures { result ≡ number_of self.now text.now }
    {
        self.texts.get_index_of(text)
    }

    /// Adds a text that was not added.
    pub(crate) fn push(&mut self, alloc: Global, text: &[u8]) -> Result<(), Memory>
        requires { number_of self.old text.now ≡ None }
        ensures { OnOk result (self.new ≡ self.old ++ text.now ∷ []) }
    {
        let owned = Vec::from_slice(alloc, text)?;
        self.texts.insert(owned)?;
        Ok(())
    }
}
