//! Equality and hashes of names: those of their texts, wherever they stand.

ghost use Rattle.std.specs.Prelude.{nat_eq};
ghost use Rattle.std.specs.Cmp.{on_equiv, on_per, partial_equiv_from_equiv};
ghost use Rattle.std.specs.Cmp.Lexicographic.{pointwise, bytes_decides, nat_list_eq_equiv};
ghost use Rattle.std.specs.Hash as fed;
ghost use Rattle.std.specs.Hash.{same_Alike};

use crate::tree::AstName;
use std::hash::{Hash, Hasher};

impl PartialEq for AstName {
    ghost eq = { λ one other. pointwise nat_eq one.name other.name };

    ghost laws = { on_per (λ one. one.name) (partial_equiv_from_equiv nat_list_eq_equiv) };

    fn eq(&self, other: &AstName) -> bool {
        self.name == other.name
    }
}

impl Eq for AstName {
    ghost laws = { on_equiv (λ one. one.name) nat_list_eq_equiv };
}

impl Hash for AstName {
    ghost hash_input = { λ one. fed.slice fed.u8 one.name };

    ghost respects_eq = { λ one other. (same_Alike (fed.slice fed.u8) bytes_decides).fed one.name other.name };

    fn hash<H: Hasher>(&self, state: &mut H) {
        self.name.hash(state);
    }
}
