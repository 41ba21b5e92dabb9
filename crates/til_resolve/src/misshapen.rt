//! Types that are too large, and ports whose type is no Stream.

ghost use Rattle.std.specs.Prelude.{◌≡◌, ◌<◌, [], ◌∷◌, length};
ghost use Rattle.til_resolve.specs.BadTypes.{AreAcyclic};
ghost use Rattle.til_resolve.specs.Earliest.{IsEarliest};
ghost use Rattle.til_resolve.specs.Faults.{HasTypeAt, written_types};
ghost use Rattle.til_resolve.specs.Folds.{AreFolds};
ghost use Rattle.til_resolve.specs.Scope.{declarations_of};
ghost use Rattle.til_resolve.specs.Shapes as spec;
ghost use Rattle.til_resolve.specs.Shapes.{IsMisshapen, shape_layers, shape_of};
ghost use Rattle.til_resolve.specs.Written.{AreWritten, IsWithin, in_port, ltype_of, written_type};

use crate::earliest::earlier;
use crate::folding::value_of;
use crate::scope::Scope;
use crate::shape::Shape;
use crate::shapes::ShapeFold;
use crate::written::{Written, place_of};
use tydi_base::Place;

/// An error in the shape of a type.
#[derive(Clone, Copy)]
pub enum Sort {
    /// It has too many nodes, or is nested too deep.
    TooLarge,
    /// It is that of a port, and no Stream.
    PortNotStream,
}

/// The place of the first written type that has this error. None where there is no such type.
pub fn first_misshapen<'a>(
    scope: &Scope<'a>,
    written: &[Written<'a>],
    table: &[Shape],
    sort: Sort,
) -> Option<Place>
    requires written { AreWritten (declarations_of scope.now.declared) written.now }
    requires acyclic { AreAcyclic (declarations_of scope.now.declared) }
    requires table { AreFolds shape_layers (declarations_of scope.now.declared) (length (declarations_of scope.now.declared)) table.now }
    ensures { IsEarliest (HasTypeAt (IsMisshapen sort) (written_types (declarations_of scope.now.declared))) result }
{
    let mut found = None;
    'written: for one in written {
        found = earlier(found, misshapen_at(scope, one, table, sort));
    }
    found
}

// The place of a type, if this is wrong with it.
fn misshapen_at<'a>(
    scope: &Scope<'a>,
    one: &Written<'a>,
    table: &[Shape],
    sort: Sort,
) -> Option<Place>
    requires within { IsWithin (declarations_of scope.now.declared) one.now }
    requires acyclic { AreAcyclic (declarations_of scope.now.declared) }
    requires table { AreFolds shape_layers (declarations_of scope.now.declared) (length (declarations_of scope.now.declared)) table.now }
    ensures { IsEarliest (HasTypeAt (IsMisshapen sort) (written_type (declarations_of scope.now.declared) one.now ∷ [])) result }
{
    let shape = shape_of(scope, one, table);
    is_misshapen(sort, is_in_port(one), shape).then_some(place_of(scope, one))
}

fn shape_of<'a>(scope: &Scope<'a>, one: &Written<'a>, table: &[Shape]) -> Shape
    requires within { IsWithin (declarations_of scope.now.declared) one.now }
    requires acyclic { AreAcyclic (declarations_of scope.now.declared) }
    requires table { AreFolds shape_layers (declarations_of scope.now.declared) (length (declarations_of scope.now.declared)) table.now }
    ensures { result ≡ shape_of (ltype_of (declarations_of scope.now.declared) one.now) }
{
    value_of::<ShapeFold>(scope, one, table)
}

fn is_in_port(one: &Written<'_>) -> bool
    ensures { result ≡ in_port one.now }
{
    match one {
        Written::Declared(_) => false,
        Written::Port { .. } => true,
    }
}

fn is_misshapen(sort: Sort, in_port: bool, shape: Shape) -> bool
    ensures { result ≡ spec.is_misshapen sort in_port shape }
{
    match sort {
        Sort::TooLarge => shape.nodes > 65_536 || shape.depth > 64,
        Sort::PortNotStream => in_port && !shape.stream,
    }
}
