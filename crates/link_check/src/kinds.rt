//! A type's own node.

ghost use Rattle.std.specs.Prelude.{◌≡◌};
ghost use Rattle.std.specs.Option.{option_copied};
ghost use Rattle.logical_types.specs.Tree.{plain, plain_parts, names_of, PlainStream};
ghost use Rattle.til_resolve.specs.Paths.{is_same_path};
ghost use Rattle.link_check.specs.Kinds as spec;
ghost use Rattle.link_check.specs.Streams.{stream_found};

use logical_types::{LType, Part, StreamType};

/// The kinds of types (Tydi specification, logical types).
#[derive(Clone, Copy, PartialEq, Eq)]
pub(crate) enum Kind {
    Null,
    Bits,
    Group,
    Union,
    Stream,
}

/// The kind of a type.
fn kind_of(ltype: &LType) -> Kind
    ensures { result ≡ spec.kind_of (plain ltype.now) }
{
    match ltype {
        LType::Null => Kind::Null,
        LType::Bits(_) => Kind::Bits,
        LType::Group(_) => Kind::Group,
        LType::Union(_) => Kind::Union,
        LType::Stream(_) => Kind::Stream,
    }
}

/// The width of a Bits; of another type 0.
fn word_width(ltype: &LType) -> u64
    ensures { result ≡ spec.word_width (plain ltype.now) }
{
    match ltype {
        LType::Null => 0,
        LType::Bits(width) => *width,
        LType::Group(_) => 0,
        LType::Union(_) => 0,
        LType::Stream(_) => 0,
    }
}

/// The fields of a Group or the variants of a Union; another type has none.
pub(crate) fn parts_inside(ltype: &LType) -> &[Part]
    ensures { plain_parts result.now ≡ spec.parts_inside (plain ltype.now) }
{
    match ltype {
        LType::Null => &[],
        LType::Bits(_) => &[],
        LType::Group(parts) => parts.as_slice(),
        LType::Union(parts) => parts.as_slice(),
        LType::Stream(_) => &[],
    }
}

/// The arguments of a Stream, where a type is one.
pub(crate) fn stream_in(ltype: &LType) -> Option<&StreamType>
    ensures { stream_found result ≡ spec.stream_in (plain ltype.now) }
{
    match ltype {
        LType::Null => None,
        LType::Bits(_) => None,
        LType::Group(_) => None,
        LType::Union(_) => None,
        LType::Stream(stream) => Some(stream.get()),
    }
}

/// Whether two types are of one kind and of one width, and their parts have the same names in one order.
pub(crate) fn has_same_shape(one: &LType, other: &LType) -> bool
    ensures { result ≡ spec.has_same_shape (plain one.now) (plain other.now) }
{
    is_same_kind(kind_of(one), kind_of(other))
        && word_width(one) == word_width(other)
        && have_same_names(parts_inside(one), parts_inside(other))
}

/// Whether two kinds are the same.
#[tactic(auto, unfolding(crate::specs::Kinds::is_same_kind))]
fn is_same_kind(one: Kind, other: Kind) -> bool
    ensures { result ≡ spec.is_same_kind one other }
{
    one == other
}

/// Whether parts have the same names in one order.
fn have_same_names(parts: &[Part], others: &[Part]) -> bool
    ensures { result ≡ is_same_path (names_of (plain_parts parts.now)) (names_of (plain_parts others.now)) }
{
    let mut rest = others;
    'parts: for part in parts {
        let Some((first, more)) = rest.split_first() else {
            return false;
        };
        if part.name != first.name {
            return false;
        }
        rest = more;
    }
    rest.is_empty()
}
