//! A test whether two types are one.

ghost use Rattle.std.specs.Prelude.{◌≡◌, ◌&&◌};
ghost use Rattle.logical_types.specs.Tree.{plain, plain_parts, settings_of, plain_of_stream};
ghost use Rattle.link_check.specs.SameTypes as spec;
ghost use Rattle.link_check.specs.Streams.{plain_arguments};

use crate::kinds::{has_same_shape, parts_inside, stream_in};
use logical_types::{LType, Part, StreamType, Sync};
use tydi_base::{Frac, Level};

/// Whether two types are one.
#[cycle(same_type)]
pub(crate) fn is_same_type(one: &LType, other: &LType) -> bool
    ensures { result ≡ spec.is_same_type (plain one.now) (plain other.now) }
{
    has_same_shape(one, other) && holds_same(one, other)
}

/// Whether two types of one shape hold the same types, and Streams have the same arguments.
#[cycle(same_type)]
fn holds_same(one: &LType, other: &LType) -> bool
    ensures { result ≡ spec.holds_same (plain one.now) (plain other.now) }
{
    match one {
        LType::Null => true,
        LType::Bits(_) => true,
        LType::Group(parts) => have_same_types(parts.as_slice(), parts_inside(other)),
        LType::Union(parts) => have_same_types(parts.as_slice(), parts_inside(other)),
        LType::Stream(stream) => match stream_in(other) {
            Some(other) => are_same_streams(stream.get(), other),
            None => true,
        },
    }
}

/// Whether parts have the same types, as far as there are some in both.
#[cycle(same_type)]
fn have_same_types(parts: &[Part], others: &[Part]) -> bool
    ensures { result ≡ spec.have_same_types (plain_parts parts.now) (plain_parts others.now) }
{
    let mut rest = others;
    'parts: for part in parts {
        let Some((first, more)) = rest.split_first() else {
            return true;
        };
        if !is_same_type(&part.ltype, &first.ltype) {
            return false;
        }
        rest = more;
    }
    true
}

/// Whether the arguments of two Streams are one.
#[cycle(same_type)]
fn are_same_streams(one: &StreamType, other: &StreamType) -> bool
    ensures { result ≡ spec.are_same_streams (plain_arguments one.now) (plain_arguments other.now) }
{
    has_same_settings(one, other)
        && is_same_type(&one.element, &other.element)
        && is_same_type(&one.user, &other.user)
}

/// Whether the arguments of two Streams that hold no type are one.
fn has_same_settings(one: &StreamType, other: &StreamType) -> bool
    ensures { result ≡ spec.has_same_settings (settings_of one.now) (settings_of other.now) }
{
    is_same_fraction(one.throughput, other.throughput)
        && one.dims == other.dims
        && is_same_sync(one.sync, other.sync)
        && is_same_level(one.level, other.level)
        && one.reverse == other.reverse
        && one.keep == other.keep
}

/// Whether two fractions in lowest terms are one.
pub(crate) fn is_same_fraction(one: Frac, other: Frac) -> bool
    ensures { result ≡ spec.is_same_fraction one other }
{
    one.num() == other.num() && one.den() == other.den()
}

/// Whether two synchronicities are one.
#[tactic(auto, unfolding(crate::specs::SameTypes::is_same_sync))]
pub(crate) fn is_same_sync(one: Sync, other: Sync) -> bool
    ensures { result ≡ spec.is_same_sync one other }
{
    one == other
}

/// Whether two levels are one.
fn is_same_level(one: Level, other: Level) -> bool
    ensures { result ≡ spec.is_same_level one other }
{
    one.at_most(other) && other.at_most(one)
}
