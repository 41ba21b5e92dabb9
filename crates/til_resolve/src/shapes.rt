//! The shape of the type of each declaration.

ghost use Rattle.std.specs.Prelude.{refl, length, IfOk};
ghost use Rattle.til_resolve.specs.Folds.{AreFolds, IsFoldOf};
ghost use Rattle.til_resolve.specs.Scope.{declarations_of};
ghost use Rattle.til_resolve.specs.Shapes as spec;

use crate::folding::{Fold, entry_in};
use crate::scope::Scope;
use crate::shape::{Shape, around, beside, leaf, nothing};
use crate::tables::{Entries, table_of};
use std::alloc::Global;
use til_parser::{AstPart, AstStream, AstType};
use tydi_base::{List, Memory};

/// The fold that gives each type its shape.
pub struct ShapeFold;

impl Fold for ShapeFold {
    type Value = Shape;

    type Sum = Shape;

    ghost layers = { spec.shape_layers };

    fn null() -> Shape {
        leaf()
    }

    fn bits(_width: u64) -> Shape {
        leaf()
    }

    fn group(_parts: &[AstPart], sum: Shape) -> Shape {
        around(sum, false)
    }

    fn union(_parts: &[AstPart], sum: Shape) -> Shape {
        around(sum, false)
    }

    fn stream(_stream: &AstStream, element: Shape, user: Shape) -> Shape {
        around(beside(element, user), true)
    }

    fn no_parts() -> Shape {
        nothing()
    }

    fn and(sum: Shape, part: Shape) -> Shape {
        beside(sum, part)
    }
}

impl Entries for ShapeFold {
    type Entry = Shape;

    ghost least = { spec.leaf };

    ghost is_entry = { IsFoldOf spec.shape_layers };

    fn least() -> Shape {
        leaf()
    }

    fn entry<'a>(
        _alloc: Global,
        scope: &Scope<'a>,
        number: usize,
        ltype: &'a AstType,
        table: &[Shape],
    ) -> Result<Shape, Memory> {
        Ok(entry_in::<ShapeFold>(scope, number, ltype, table))
    }

    ghost is_least = { refl };
}

/// A table of the shapes of all declarations.
pub fn shapes(alloc: Global, scope: &Scope<'_>) -> Result<List<Shape>, Memory>
    ensures { IfOk result (AreFolds spec.shape_layers (declarations_of scope.now.declared) (length (declarations_of scope.now.declared))) }
{
    table_of::<ShapeFold>(alloc, scope)
}
