//! The value of a written type, from the values of the types in it and a table of the values of declarations.

ghost use Rattle.std.specs.Prelude.{◌≡◌, ◌<◌, length, slice_index_or};
ghost use Rattle.logical_types.specs.Fold.{Layers, fold};
ghost use Rattle.til_parser.specs.Tree.{plain};
ghost use Rattle.til_parser.specs.Tree as tree;
ghost use Rattle.til_resolve.specs.BadTypes.{AreAcyclic};
ghost use Rattle.til_resolve.specs.Declarations.{declaration};
ghost use Rattle.til_resolve.specs.Folds.{AreFolds, IsFoldOf, fold_by, fold_by_list, written_names};
ghost use Rattle.til_resolve.specs.Scope.{declarations_of};
ghost use Rattle.til_resolve.specs.Shapes.{entry_named};
ghost use Rattle.til_resolve.specs.Tables.{IsMadeOf};
ghost use Rattle.til_resolve.specs.Types.{settings_of};
ghost use Rattle.til_resolve.specs.Written.{IsWithin, ltype_of};

use crate::kinds::Asked;
use crate::scope::Scope;
use crate::written::Written;
use til_parser::{AstPart, AstPath, AstStream, AstType};

/// A fold: it gives each type a value, from the values of the types in it.
pub trait Fold {
    /// The value of a type.
    type Value: Copy;

    /// The value of the parts of a Group or a Union together.
    type Sum: Copy;

    /// The value of each kind of type.
    ghost layers: { Layers Self.Value Self.Sum };

    /// The value of Null.
    fn null() -> Self::Value
        ensures { result ≡ layers.of_null };

    /// The value of a Bits of this width in bits.
    fn bits(width: u64) -> Self::Value
        ensures { result ≡ layers.of_bits width };

    /// The value of a Group of these parts, whose values together are `sum`.
    fn group(parts: &[AstPart], sum: Self::Sum) -> Self::Value
        ensures { result ≡ layers.of_group (written_names parts.now) sum };

    /// The value of a Union of these parts, whose values together are `sum`.
    fn union(parts: &[AstPart], sum: Self::Sum) -> Self::Value
        ensures { result ≡ layers.of_union (written_names parts.now) sum };

    /// The value of a Stream, from the values of its data type and its user type.
    fn stream(stream: &AstStream, element: Self::Value, user: Self::Value) -> Self::Value
        ensures { result ≡ layers.of_stream (settings_of (tree.settings_of stream.now)) element user };

    /// The value of no parts.
    fn no_parts() -> Self::Sum
        ensures { result ≡ layers.of_no_parts };

    /// The value of parts and one more: `sum` is that of the parts, `part` that of the one more.
    fn and(sum: Self::Sum, part: Self::Value) -> Self::Sum
        ensures { result ≡ layers.of_part sum part };
}

/// The value of a written type.
pub fn value_of<'a, F: Fold>(scope: &Scope<'a>, one: &Written<'a>, table: &[F::Value]) -> F::Value
    requires within { IsWithin (declarations_of scope.now.declared) one.now }
    requires acyclic { AreAcyclic (declarations_of scope.now.declared) }
    requires table { AreFolds F.layers (declarations_of scope.now.declared) (length (declarations_of scope.now.declared)) table.now }
    ensures { result ≡ fold F.layers (ltype_of (declarations_of scope.now.declared) one.now) }
{
    match one {
        Written::Declared(number) => value_at::<F>(table, *number),
        Written::Port { number, port } => entry_in::<F>(scope, *number, &port.ltype, table),
    }
}

/// The value of a type that is written in the declaration of this number, as the entry of a table.
pub fn entry_in<'a, F: Fold>(
    scope: &Scope<'a>,
    number: usize,
    ltype: &'a AstType,
    table: &[F::Value],
) -> F::Value
    requires { number < length (declarations_of scope.now.declared) }
    ensures { IsMadeOf F.layers.of_null (IsFoldOf F.layers) (declarations_of scope.now.declared) (declaration (declarations_of scope.now.declared) number).space (plain ltype.now) table.now
        result }
{
    value_in::<F>(scope, number, ltype, table)
}

// The value of a written type, where each path has the value that the table has for it.
#[cycle(value_in)]
fn value_in<'a, F: Fold>(
    scope: &Scope<'a>,
    number: usize,
    ltype: &'a AstType,
    table: &[F::Value],
) -> F::Value
    requires { number < length (declarations_of scope.now.declared) }
    ensures { result ≡ fold_by F.layers (entry_named F.layers.of_null (declarations_of scope.now.declared) table.now (declaration (declarations_of scope.now.declared) number).space)
        (plain ltype.now) }
{
    match ltype {
        AstType::Null => F::null(),
        AstType::Bits(width) => F::bits(*width),
        AstType::Group(parts) => {
            let sum = sum_in::<F>(scope, number, parts.as_slice(), table);
            F::group(parts.as_slice(), sum)
        }
        AstType::Union(parts) => {
            let sum = sum_in::<F>(scope, number, parts.as_slice(), table);
            F::union(parts.as_slice(), sum)
        }
        AstType::Stream(stream) => {
            let stream = stream.get();
            let element = value_in::<F>(scope, number, &stream.element, table);
            let user = value_in::<F>(scope, number, &stream.user, table);
            F::stream(stream, element, user)
        }
        AstType::Path(path) => value_named::<F>(scope, number, path, table),
    }
}

// The value of parts together.
#[cycle(value_in)]
fn sum_in<'a, F: Fold>(
    scope: &Scope<'a>,
    number: usize,
    parts: &'a [AstPart],
    table: &[F::Value],
) -> F::Sum
    requires { number < length (declarations_of scope.now.declared) }
    ensures { result ≡ fold_by_list F.layers (entry_named F.layers.of_null (declarations_of scope.now.declared) table.now (declaration (declarations_of scope.now.declared) number).space)
        F.layers.of_no_parts parts.now }
{
    let mut sum = F::no_parts();
    'parts: for part in parts {
        let value = value_in::<F>(scope, number, &part.ltype, table);
        sum = F::and(sum, value);
    }
    sum
}

// The value of the type that a path names, or of Null where it names no type.
fn value_named<'a, F: Fold>(
    scope: &Scope<'a>,
    number: usize,
    path: &'a AstPath,
    table: &[F::Value],
) -> F::Value
    requires { number < length (declarations_of scope.now.declared) }
    ensures { result ≡ entry_named F.layers.of_null (declarations_of scope.now.declared) table.now (declaration (declarations_of scope.now.declared) number).space path.now.names }
{
    match scope.named_as(number, path, Asked::Type) {
        Some(target) => value_at::<F>(table, target),
        None => F::null(),
    }
}

// The entry of a number in a table, or the value of Null where it has none.
fn value_at<F: Fold>(table: &[F::Value], number: usize) -> F::Value
    ensures { result ≡ slice_index_or table.now number F.layers.of_null }
{
    match table.get(number) {
        Some(value) => *value,
        None => F::null(),
    }
}
