//! The first error of a tree.

ghost use Rattle.std.specs.Prelude.{◌≡◌, length, IfOk, None};
ghost use Rattle.til_resolve.specs.Faults.{IsToldUpTo};
ghost use Rattle.til_resolve.specs.Folds.{AreFolds};
ghost use Rattle.til_resolve.specs.Scope.{declarations_of};
ghost use Rattle.til_resolve.specs.Shapes.{shape_layers};
ghost use Rattle.til_resolve.specs.Sought as spec;
ghost use Rattle.til_resolve.specs.Written.{AreWritten};

use crate::bad_types::first_bad_type;
use crate::cycles::first_cyclic_type;
use crate::fault::ResolveFault;
use crate::last::first_last_fault;
use crate::misshapen::{Sort, first_misshapen};
use crate::names::{Sought, first_refused};
use crate::ports::all_ports;
use crate::scope::Scope;
use crate::shape::Shape;
use crate::shapes::shapes;
use crate::twice::first_twice;
use crate::written::{Written, written_types};
use std::alloc::Global;
use tydi_base::{Memory, Place};

/// The first error of a tree.
pub fn first_fault(alloc: Global, scope: &Scope<'_>) -> Result<Option<ResolveFault>, Memory>
    ensures { IfOk result (IsToldUpTo (declarations_of scope.now.declared) 7) }
{
    if let Some(fault) = first_early_fault(alloc, scope)? {
        return Ok(Some(fault));
    }
    let written = written_types(alloc, scope)?;
    let table = shapes(alloc, scope)?;
    let found = first_type_fault(alloc, scope, written.as_slice(), table.as_slice())?;
    if let Some(fault) = found {
        return Ok(Some(fault));
    }
    first_last_fault(alloc, scope, written.as_slice(), table.as_slice())
}

// The first type that is too large, or else the first that has a fault.
fn first_type_fault<'a>(
    alloc: Global,
    scope: &Scope<'a>,
    written: &[Written<'a>],
    table: &[Shape],
) -> Result<Option<ResolveFault>, Memory>
    requires written { AreWritten (declarations_of scope.now.declared) written.now }
    requires table { AreFolds shape_layers (declarations_of scope.now.declared) (length (declarations_of scope.now.declared)) table.now }
    requires early { IsToldUpTo (declarations_of scope.now.declared) 3 None }
    ensures { IfOk result (IsToldUpTo (declarations_of scope.now.declared) 5) }
{
    if let Some(place) = first_misshapen(scope, written, table, Sort::TooLarge) {
        return Ok(Some(ResolveFault::TypeTooLarge(place)));
    }
    match first_bad_type(alloc, scope, written)? {
        Some(bad) => Ok(Some(ResolveFault::BadType(bad.place, bad.fault))),
        None => Ok(None),
    }
}

// The first error of names, or else the first type declaration that leads to itself.
fn first_early_fault(alloc: Global, scope: &Scope<'_>) -> Result<Option<ResolveFault>, Memory>
    ensures { IfOk result (IsToldUpTo (declarations_of scope.now.declared) 3) }
{
    if let Some(fault) = first_name_fault(alloc, scope)? {
        return Ok(Some(fault));
    }
    match first_cyclic_type(alloc, scope)? {
        Some(place) => Ok(Some(ResolveFault::CyclicType(place))),
        None => Ok(None),
    }
}

// The first error of names: a name that is declared twice, or else a path that names nothing, or another kind than its place needs.
fn first_name_fault(alloc: Global, scope: &Scope<'_>) -> Result<Option<ResolveFault>, Memory>
    ensures { IfOk result (IsToldUpTo (declarations_of scope.now.declared) 2) }
{
    let ports = all_ports(alloc, scope)?;
    if let Some(place) = first_twice(alloc, scope, &ports)? {
        return Ok(Some(ResolveFault::DeclaredTwice(place)));
    }
    let unknown = first_refused(alloc, scope, &ports, Sought::Unknown)?;
    let wrong_kind = first_refused(alloc, scope, &ports, Sought::WrongKind)?;
    Ok(first_of_both(unknown, wrong_kind))
}

// The first of two places, as a fault.
fn first_of_both(unknown: Option<Place>, wrong_kind: Option<Place>) -> Option<ResolveFault>
    ensures { result ≡ spec.first_of_both unknown wrong_kind }
{
    let Some(wrong) = wrong_kind else {
        return match unknown {
            Some(place) => Some(ResolveFault::UnknownName(place)),
            None => None,
        };
    };
    match unknown {
        Some(place) if place.offset <= wrong.offset => Some(ResolveFault::UnknownName(place)),
        _ => Some(ResolveFault::WrongKind(wrong)),
    }
}
