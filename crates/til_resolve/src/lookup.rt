//! Look-ups of declarations by paths.

ghost use Rattle.std.specs.Prelude.{◌≡◌, ◌<◌, length, Option, Some};
ghost use Rattle.til_resolve.specs.Declarations as spec;
ghost use Rattle.til_resolve.specs.Paths.{texts_of};
ghost use Rattle.til_resolve.specs.Scope.{declarations_of, first_at, home_of, placed, placed_of, space_meant};

use crate::declared::Declared;
use crate::firsts::first_of_each;
use crate::kinds::{Asked, is_asked};
use crate::ordered::{OrderedName, OrderedPath};
use crate::placing::{Placing, place_all};
use crate::scope::Scope;
use std::alloc::Global;
use til_parser::{Ast, AstName, AstPath};
use tydi_base::Memory;

impl<'a> Scope<'a> {
    ghost use Rattle.std.specs.Prelude.{IfOk, IfSome};
    ghost use Rattle.til_resolve.specs.Kinds.{asks};

    /// All declarations of a tree.
    pub fn new(alloc: Global, ast: &'a Ast) -> Result<Scope<'a>, Memory>
        ensures { IfOk result (λ scope. declarations_of scope.declared ≡ spec.declarations ast.now) }
    {
        let Placing { spaces, declared } = place_all(alloc, ast)?;
        let firsts = first_of_each(alloc, declared.as_slice())?;
        Ok(Scope {
            declared,
            spaces,
            firsts,
        })
    }

    /// How many declarations there are.
    pub fn len(&self) -> usize
        ensures { result ≡ length (declarations_of self.now.declared) }
    {
        self.declared.len()
    }

    /// The declaration of a number.
    pub fn get(&self, number: usize) -> &Declared<'a>
        requires { number < length (declarations_of self.now.declared) }
        ensures value { (placed_of result.now).declaration ≡ spec.declaration (declarations_of self.now.declared) number }
        ensures home { home_of self.now.spaces.keys (spec.declaration (declarations_of self.now.declared) number).space ≡ Some result.now.home }
    {
        &self.declared.as_slice()[number]
    }

    /// The number of the declaration that a path names where it stands in the declaration of a number.
    pub fn named(&self, number: usize, path: &'a AstPath) -> Option<usize>
        requires { number < length (declarations_of self.now.declared) }
        ensures within { IfSome result (λ target. target < length (declarations_of self.now.declared)) }
        ensures value { result ≡ spec.named (declarations_of self.now.declared) (spec.declaration (declarations_of self.now.declared) number).space path.now }
    {
        let [front @ .., name] = path.names.as_slice() else {
            return None;
        };
        let home = self.home_meant(number, front)?;
        self.first_at(home, name)
    }

    // The number of the namespace whose names stand before the last one of a path: with none before, that of the path's place.
    fn home_meant(&self, number: usize, front: &'a [AstName]) -> Option<usize>
        requires { number < length (declarations_of self.now.declared) }
        ensures { result ≡ home_of self.now.spaces.keys (space_meant (spec.declaration (declarations_of self.now.declared) number).space front.now) }
    {
        match front {
            [] => Some(self.get(number).home),
            _ => self.space(front),
        }
    }

    // The number of the namespace of this path.
    fn space(&self, path: &'a [AstName]) -> Option<usize>
        ensures { result ≡ home_of self.now.spaces.keys (texts_of path.now) }
    {
        self.spaces.numbers.get(&OrderedPath::new(path)).copied()
    }

    /// The number of the first declaration of the path that the declaration of a number has.
    pub fn first(&self, number: usize) -> Option<usize>
        requires { number < length (declarations_of self.now.declared) }
        ensures { result ≡ spec.first_of_path (declarations_of self.now.declared) (spec.path_of (spec.declaration (declarations_of self.now.declared) number)) }
    {
        let one = self.get(number);
        self.first_at(one.home, one.name)
    }

    /// The number of the declaration that a path names, if it is of the kind that is asked.
    pub fn named_as(&self, number: usize, path: &'a AstPath, asked: Asked) -> Option<usize>
        requires { number < length (declarations_of self.now.declared) }
        ensures value { result ≡ spec.named_as (asks asked) (declarations_of self.now.declared) (spec.declaration (declarations_of self.now.declared) number).space path.now }
        ensures within { IfSome result (λ target. target < length (declarations_of self.now.declared)) }
    {
        let target = self.named(number, path)?;
        is_asked(asked, self.get(target)).then_some(target)
    }

    // The first declaration of a name in the namespace whose path has this number.
    fn first_at(&self, home: usize, name: &'a AstName) -> Option<usize>
        ensures value { result ≡ first_at (placed self.now.declared) home name.now.name }
        ensures within { IfSome result (λ target. target < length (declarations_of self.now.declared)) }
    {
        self.firsts
            .get(&(home, OrderedName::new(&name.name)))
            .copied()
    }
}
