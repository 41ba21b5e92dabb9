//! The scopes that are open.

ghost use Rattle.std.specs.Prelude.{◌≡◌, ◌++◌, ◌∷◌, [], ◌-◌, take, length, IfOk, OnOk};
ghost use Rattle.std.specs.Cmp.Lexicographic.{pointwise};
ghost use Rattle.std.specs.Str.{bytes_eq};
ghost use Rattle.vcd_read.specs.Profile.{has_scope};

use std::alloc::Global;
use tydi_base::{List, Memory, Path};

/// The names of the scopes that are open, the outermost first, and of the scope whose signals are wanted.
#[derive(Drop)]
pub(crate) struct Scopes {
    pub(crate) open: List<List<u8>>,
    pub(crate) wanted: List<List<u8>>,
}

impl Scopes {
    /// No scope is open, and the signals of the scope of this path are wanted.
    pub(crate) fn new(alloc: Global, scope: &Path) -> Result<Scopes, Memory>
        ensures open { IfOk result (λ scopes. scopes.open ≡ []) }
        ensures wanted { IfOk result (λ scopes. scopes.wanted ≡ scope.now) }
    {
        let mut wanted = List::new(alloc);
        'names: for name in scope.names() {
            wanted.push(List::from_slice(alloc, name.as_bytes())?)?;
        }
        Ok(Scopes {
            open: List::new(alloc),
            wanted,
        })
    }

    /// Opens a scope of this name inside the others.
    pub(crate) fn open(&mut self, alloc: Global, name: &[u8]) -> Result<(), Memory>
        ensures open { OnOk result (self.new.open ≡ self.old.open ++ name.now ∷ []) }
        ensures wanted { self.new.wanted ≡ self.old.wanted }
    {
        self.open.push(List::from_slice(alloc, name)?)
    }

    /// Closes the innermost scope.
    pub(crate) fn close(&mut self)
        ensures open { self.new.open ≡ take (length self.old.open - 1) self.old.open }
        ensures wanted { self.new.wanted ≡ self.old.wanted }
    {
        let left = self.open.len().saturating_sub(1);
        self.open.truncate(left);
    }

    /// Whether some scope is open.
    pub(crate) fn has_open(&self) -> bool
        ensures { result ≡ has_scope self.now.open }
    {
        self.open.len() > 0
    }

    /// Whether exactly the wanted scope is open.
    pub(crate) fn is_inside(&self) -> bool
        ensures { result ≡ pointwise bytes_eq self.now.open self.now.wanted }
    {
        self.open == self.wanted
    }
}
