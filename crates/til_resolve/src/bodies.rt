//! The implementations of streamlets.

ghost use Rattle.std.specs.Prelude.{◌≡◌, ◌<◌, length, IfOk};
ghost use Rattle.std.specs.BTreeMap.{get};
ghost use Rattle.std.specs.Ordering.{nat_cmp};
ghost use Rattle.til_resolve.specs.Declarations.{declaration};
ghost use Rattle.til_resolve.specs.Making.{FindsFirstImpl, numbers_before, written_impl};
ghost use Rattle.til_resolve.specs.Project as spec;
ghost use Rattle.til_resolve.specs.Scope.{declarations_of};

use crate::implementing::FirstImpls;
use crate::names::place_of;
use crate::project::Impl;
use crate::scope::Scope;
use crate::statements::{instances_in, links_of};
use std::alloc::Global;
use til_parser::{AstBody, AstKind, AstPath};
use tydi_base::{Memory, TryClone};

/// The implementation of a streamlet: its first `impl`, if it has one.
pub fn body_of(
    alloc: Global,
    scope: &Scope<'_>,
    table: &[u32],
    impls: &FirstImpls,
    streamlet: usize,
) -> Result<Option<Impl>, Memory>
    requires table { table.now ≡ numbers_before (declarations_of scope.now.declared) (length (declarations_of scope.now.declared)) }
    requires impls { FindsFirstImpl (get nat_cmp impls.now) (declarations_of scope.now.declared) (length (declarations_of scope.now.declared)) }
    ensures { IfOk result (λ body. body ≡ spec.body_of (declarations_of scope.now.declared) streamlet) }
{
    match impls.get(&streamlet).copied() {
        Some(number) => written_impl(alloc, scope, table, number),
        None => Ok(None),
    }
}

// The implementation that a declaration is, if it is an `impl`.
fn written_impl(
    alloc: Global,
    scope: &Scope<'_>,
    table: &[u32],
    number: usize,
) -> Result<Option<Impl>, Memory>
    requires table { table.now ≡ numbers_before (declarations_of scope.now.declared) (length (declarations_of scope.now.declared)) }
    requires within { number < length (declarations_of scope.now.declared) }
    ensures { IfOk result (λ body. body ≡ written_impl (declarations_of scope.now.declared) (declaration (declarations_of scope.now.declared) number)) }
{
    match scope.get(number).kind {
        AstKind::Impl { target, body } => {
            Ok(Some(impl_of(alloc, scope, table, number, target, body)?))
        }
        _ => Ok(None),
    }
}

// The implementation that a body is, behind this path after `of`.
fn impl_of<'a>(
    alloc: Global,
    scope: &Scope<'a>,
    table: &[u32],
    number: usize,
    target: &'a AstPath,
    body: &'a AstBody,
) -> Result<Impl, Memory>
    requires table { table.now ≡ numbers_before (declarations_of scope.now.declared) (length (declarations_of scope.now.declared)) }
    requires within { number < length (declarations_of scope.now.declared) }
    ensures { IfOk result (λ made. made
        ≡ spec.impl_of (declarations_of scope.now.declared) (declaration (declarations_of scope.now.declared) number).space target.now body.now) }
{
    match body {
        AstBody::Linked(text) => Ok(Impl::Linked(text.try_clone(alloc)?)),
        AstBody::Structural(stmts) => Ok(Impl::Structural {
            place: place_of(target),
            instances: instances_in(alloc, scope, table, number, stmts.as_slice())?,
            links: links_of(alloc, stmts.as_slice())?,
        }),
    }
}
