//! The streamlet that an `impl` implements, and the first `impl` of each streamlet.

ghost use Rattle.std.specs.Prelude.{◌≡◌, ◌<◌, ℕ, length, IfOk, IfSome, OnOk, Some, None, if◌then◌else◌};
ghost use Rattle.std.specs.Option.{option_or};
ghost use Rattle.std.specs.BTreeMap.{get};
ghost use Rattle.std.specs.Ordering.{nat_cmp};
ghost use Rattle.til_resolve.specs.Declarations.{declaration};
ghost use Rattle.til_resolve.specs.Making.{FindsFirstImpl};
ghost use Rattle.til_resolve.specs.Names.{implements, is_impl_of};
ghost use Rattle.til_resolve.specs.Scope.{declarations_of};

use crate::keeping::keep_first;
use crate::kinds::Asked;
use crate::scope::Scope;
use std::alloc::Global;
use std::collections::BTreeMap;
use til_parser::AstKind;
use tydi_base::Memory;

/// The number of the first `impl` by the number of its streamlet.
pub type FirstImpls = BTreeMap<usize, usize>;

/// A map from each streamlet to its first `impl`. `Memory` comes where there is none for it.
pub fn first_impls(alloc: Global, scope: &Scope<'_>) -> Result<FirstImpls, Memory>
    ensures { IfOk result (λ impls. FindsFirstImpl (get nat_cmp impls) (declarations_of scope.now.declared) (length (declarations_of scope.now.declared))) }
{
    let mut impls = BTreeMap::new(alloc);
    'numbers: for number in 0..scope.len() {
        keep_impl(&mut impls, scope, number)?;
    }
    Ok(impls)
}

// An `impl`, where none before it is one of its streamlet.
fn keep_impl(impls: &mut FirstImpls, scope: &Scope<'_>, number: usize) -> Result<(), Memory>
    requires { number < length (declarations_of scope.now.declared) }
    ensures { OnOk result ((other : ℕ) → get nat_cmp impls.new other
        ≡ option_or (get nat_cmp impls.old other) (if is_impl_of (declarations_of scope.now.declared) other (declaration (declarations_of scope.now.declared) number) then Some number else None)) }
{
    match implements(scope, number) {
        Some(streamlet) => keep_first(impls, streamlet, number),
        None => Ok(()),
    }
}

/// The streamlet that a declaration implements, if it is an `impl` whose path names a streamlet.
pub fn implements(scope: &Scope<'_>, number: usize) -> Option<usize>
    requires { number < length (declarations_of scope.now.declared) }
    ensures value { result ≡ implements (declarations_of scope.now.declared) (declaration (declarations_of scope.now.declared) number) }
    ensures within { IfSome result (λ streamlet. streamlet < length (declarations_of scope.now.declared)) }
{
    match scope.get(number).kind {
        AstKind::Impl { target, .. } => scope.named_as(number, target, Asked::Streamlet),
        _ => None,
    }
}
