//! The errors that are looked for last: ports whose type is no Stream, and streamlets that contain themselves.

ghost use Rattle.std.specs.Prelude.{◌≡◌, length, None, IfOk};
ghost use Rattle.til_resolve.specs.Faults.{IsToldUpTo};
ghost use Rattle.til_resolve.specs.Folds.{AreFolds};
ghost use Rattle.til_resolve.specs.Scope.{declarations_of};
ghost use Rattle.til_resolve.specs.Shapes.{shape_layers};
ghost use Rattle.til_resolve.specs.Written.{AreWritten};

use crate::cycles::first_cyclic_instance;
use crate::fault::ResolveFault;
use crate::misshapen::{Sort, first_misshapen};
use crate::scope::Scope;
use crate::shape::Shape;
use crate::written::Written;
use std::alloc::Global;
use tydi_base::Memory;

/// The first port whose type is no Stream, or else the first `impl` whose streamlet contains itself, where nothing else is wrong.
pub fn first_last_fault<'a>(
    alloc: Global,
    scope: &Scope<'a>,
    written: &[Written<'a>],
    table: &[Shape],
) -> Result<Option<ResolveFault>, Memory>
    requires written { AreWritten (declarations_of scope.now.declared) written.now }
    requires table { AreFolds shape_layers (declarations_of scope.now.declared) (length (declarations_of scope.now.declared)) table.now }
    requires before { IsToldUpTo (declarations_of scope.now.declared) 5 None }
    ensures { IfOk result (IsToldUpTo (declarations_of scope.now.declared) 7) }
{
    if let Some(place) = first_misshapen(scope, written, table, Sort::PortNotStream) {
        return Ok(Some(ResolveFault::PortNotStream(place)));
    }
    match first_cyclic_instance(alloc, scope)? {
        Some(place) => Ok(Some(ResolveFault::CyclicInstance(place))),
        None => Ok(None),
    }
}
