//! Names and paths as keys of ordered tables.

ghost use Rattle.std.specs.Prelude.{◌≡◌, Some, refl, nat_eq};
ghost use Rattle.std.specs.Cmp;
ghost use Rattle.std.specs.Cmp.Lexicographic.{pointwise, nat_list_eq_equiv, lists_per, lists_equiv};
ghost use Rattle.til_resolve.specs.Ordered as spec;
ghost use Rattle.til_resolve.specs.Ordered.{word_of_path, by_letters, by_name, by_path};
ghost use Rattle.til_resolve.specs.OrderLaws.{by_name-total, by_name-ties, by_path-total, by_path-ties};
ghost use Rattle.til_resolve.specs.Paths.{texts_of};

use std::cmp::Ordering;
use std::hash::{FoldHasher, Hasher};
use std::marker::Model;
use til_parser::AstName;
use tydi_base::Name;

/// A name as a key of an ordered table. Contracts see its bytes. Its order looks first at a word, which is a hash of the name, so that a search
/// reads the bytes of few names. The order of two names has no other meaning.
#[derive(Drop)]
pub struct OrderedName<'a> {
    word: u64,
    name: &'a Name,
}

impl<'a> Model for OrderedName<'a> {
    ghost use Rattle.std.specs.Prelude.{◌≡◌, List, ℕ};
    ghost use Rattle.til_resolve.specs.Ordered.{word_of};

    ghost Value = { List ℕ };

    ghost view = { λ key. key.name.now };

    ghost invariant = { λ key. key.word ≡ word_of key.name.now };
}

impl<'a> OrderedName<'a> {
    /// The key of a name.
    pub fn new(name: &'a Name) -> OrderedName<'a>
        ensures { result ≡ name.now }
    {
        OrderedName {
            word: word_of_name(name),
            name,
        }
    }
}

/// The word of a name.
fn word_of_name(name: &Name) -> u64
    ensures { result ≡ spec.word_of name.now }
{
    let mut hasher = FoldHasher::default();
    hasher.write(name.as_bytes());
    hasher.finish()
}

impl PartialEq for OrderedName<'_> {
    ghost eq = { pointwise nat_eq };

    ghost laws = { Cmp.partial_equiv_from_equiv nat_list_eq_equiv };

    fn eq(&self, other: &Self) -> bool {
        *self.name == *other.name
    }
}

impl Eq for OrderedName<'_> {
    ghost laws = { nat_list_eq_equiv };
}

impl PartialOrd for OrderedName<'_> {
    ghost partial_cmp = { λ x y. Some (by_name x y) };

    ghost laws = { Cmp.po by_name-total by_name-ties };

    fn partial_cmp(&self, other: &Self) -> Option<Ordering> {
        Some(self.cmp(other))
    }
}

impl Ord for OrderedName<'_> {
    ghost cmp = { by_name };

    ghost total = { by_name-total };

    ghost matches_partial_cmp = { λ x y. refl };

    ghost matches_eq = { λ x y. by_name-ties x y };

    fn cmp(&self, other: &Self) -> Ordering {
        match self.word.cmp(&other.word) {
            Ordering::Less => Ordering::Less,
            Ordering::Equal => self.name.cmp(other.name),
            Ordering::Greater => Ordering::Greater,
        }
    }
}

/// A path as a key of an ordered table. Contracts see its names. Its order looks first at a word, as that of `OrderedName` does.
#[derive(Drop)]
pub(crate) struct OrderedPath<'a> {
    word: u64,
    names: &'a [AstName],
}

impl<'a> Model for OrderedPath<'a> {
    ghost use Rattle.std.specs.Prelude.{◌≡◌, List, ℕ};
    ghost use Rattle.til_resolve.specs.Ordered.{word_of_path};
    ghost use Rattle.til_resolve.specs.Paths.{texts_of};

    ghost Value = { List (List ℕ) };

    ghost view = { λ key. texts_of key.names.now };

    ghost invariant = { λ key. key.word ≡ word_of_path (texts_of key.names.now) };
}

impl<'a> OrderedPath<'a> {
    /// The key of the path that these names are.
    pub(crate) fn new(names: &'a [AstName]) -> OrderedPath<'a>
        ensures { result ≡ texts_of names.now }
    {
        OrderedPath {
            word: word_of_names(names),
            names,
        }
    }
}

/// The word of a path.
fn word_of_names(names: &[AstName]) -> u64
    ensures { result ≡ word_of_path (texts_of names.now) }
{
    let mut hasher = FoldHasher::default();
    'names: for name in names {
        hasher.write(name.name.as_bytes());
    }
    hasher.finish()
}

impl PartialEq for OrderedPath<'_> {
    ghost eq = { pointwise (pointwise nat_eq) };

    ghost laws = { lists_per (Cmp.partial_equiv_from_equiv nat_list_eq_equiv) };

    fn eq(&self, other: &Self) -> bool {
        self.cmp(other).is_eq()
    }
}

impl Eq for OrderedPath<'_> {
    ghost laws = { lists_equiv nat_list_eq_equiv };
}

impl PartialOrd for OrderedPath<'_> {
    ghost partial_cmp = { λ x y. Some (by_path x y) };

    ghost laws = { Cmp.po by_path-total by_path-ties };

    fn partial_cmp(&self, other: &Self) -> Option<Ordering> {
        Some(self.cmp(other))
    }
}

impl Ord for OrderedPath<'_> {
    ghost cmp = { by_path };

    ghost total = { by_path-total };

    ghost matches_partial_cmp = { λ x y. refl };

    ghost matches_eq = { λ x y. by_path-ties x y };

    fn cmp(&self, other: &Self) -> Ordering {
        match self.word.cmp(&other.word) {
            Ordering::Less => Ordering::Less,
            Ordering::Equal => in_order(self.names, other.names),
            Ordering::Greater => Ordering::Greater,
        }
    }
}

/// The order of two paths, name by name.
fn in_order(one: &[AstName], other: &[AstName]) -> Ordering
    ensures { result ≡ by_letters one.now other.now }
{
    'names: for (index, name) in one.iter().enumerate() {
        if other.len() <= index {
            return Ordering::Greater;
        }
        match name.name.cmp(&other[index].name) {
            Ordering::Less => return Ordering::Less,
            Ordering::Equal => {}
            Ordering::Greater => return Ordering::Greater,
        }
    }
    if one.len() < other.len() {
        Ordering::Less
    } else {
        Ordering::Equal
    }
}
