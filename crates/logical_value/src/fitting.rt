//! Whether a value is one of a port's type.

ghost use Rattle.std.specs.Prelude.{◌≡◌, map, slice_get};
ghost use Rattle.logical_types.specs.Tree.{bits, group, plain, plain_of_stream, plain_parts, union};
ghost use Rattle.type_split.specs.Streams.{node_view, plain_split};
ghost use Rattle.logical_value.specs.Fits as spec;
ghost use Rattle.logical_value.specs.Tree as values;

use crate::value::{PortValue, Value};
use logical_types::{LType, Part, StreamType};
use type_split::Split;

/// Whether this is a value of the port's type that was split: a series for each of its roots, whose members are nests of the root's
/// effective dimensionality, with values of its elements as their leaves. It takes no memory. Which values a port has is this
/// project's own, after the nested streams of the Tydi specification.
pub fn fits(value: &PortValue, split: &Split<'_>) -> bool
    ensures { result ≡ spec.fits_split (plain_split split.now) (values.plain_port value.now) }
{
    let mut left = value.roots.as_slice();
    'roots: for root in split.roots.as_slice() {
        let Some((series, more)) = left.split_first() else {
            return false;
        };
        if !fits_root(series.as_slice(), split, *root) {
            return false;
        }
        left = more;
    }
    left.is_empty()
}

/// Whether this is a series of the node of this number.
fn fits_root(series: &[Value], split: &Split<'_>, root: u32) -> bool
    ensures { result ≡ spec.fits_series (slice_get (map node_view split.now.nodes) root) (map values.plain series.now) }
{
    match split.nodes.get(root as usize) {
        Some(node) => fit_nests(node.element, u64::from(node.params.dims), series),
        None => false,
    }
}

/// Whether these are nests of this depth, with values of this type as their leaves.
#[cycle(fits)]
fn fit_nests(element: &LType, depth: u64, nests: &[Value]) -> bool
    ensures { result ≡ spec.all_pass (spec.is_nest (spec.fits_element (plain element.now)) depth) (values.plain_values nests.now) }
{
    'nests: for nest in nests {
        if !fits_nest(element, depth, nest) {
            return false;
        }
    }
    true
}

/// Whether this is a nest of this depth, with values of this type as its leaves.
#[cycle(fits)]
fn fits_nest(element: &LType, depth: u64, nest: &Value) -> bool
    ensures { result ≡ spec.is_nest (spec.fits_element (plain element.now)) depth (values.plain nest.now) }
{
    if depth == 0 {
        return fits_element(element, nest);
    }
    match nest.members() {
        Some(members) => fit_nests(element, depth - 1, members),
        None => false,
    }
}

/// Whether this is a value of an element of this type.
#[cycle(fits)]
fn fits_element(ltype: &LType, value: &Value) -> bool
    ensures { result ≡ spec.fits_element (plain ltype.now) (values.plain value.now) }
{
    match ltype {
        LType::Null => value.is_null(),
        LType::Bits(width) => fits_word(*width, value),
        LType::Group(parts) => fits_group(parts.as_slice(), value),
        LType::Union(parts) => fits_union(parts.as_slice(), value),
        LType::Stream(stream) => fits_stream(stream.get(), value),
    }
}

/// Whether this is a word of this width.
fn fits_word(width: u64, value: &Value) -> bool
    ensures { result ≡ spec.fits_element (bits width) (values.plain value.now) }
{
    match value.word() {
        Some(word) => word.len() as u64 == width,
        None => false,
    }
}

/// Whether this is a value of a Group with these fields.
#[cycle(fits)]
fn fits_group(parts: &[Part], value: &Value) -> bool
    ensures { result ≡ spec.fits_element (group (plain_parts parts.now)) (values.plain value.now) }
{
    match value.fields() {
        Some(fields) => fit_fields(parts, fields),
        None => false,
    }
}

/// Whether these are values of these fields, one of each.
#[cycle(fits)]
fn fit_fields(parts: &[Part], fields: &[Value]) -> bool
    ensures { result ≡ spec.fit_fields (plain_parts parts.now) (values.plain_values fields.now) }
{
    let mut left = fields;
    'parts: for part in parts {
        let Some((value, more)) = left.split_first() else {
            return false;
        };
        if !fits_element(&part.ltype, value) {
            return false;
        }
        left = more;
    }
    left.is_empty()
}

/// Whether this is a value of a Union of these variants.
#[cycle(fits)]
fn fits_union(parts: &[Part], value: &Value) -> bool
    ensures { result ≡ spec.fits_element (union (plain_parts parts.now)) (values.plain value.now) }
{
    match value.variant() {
        Some(one) => fits_variant(parts, one.tag, one.part),
        None => false,
    }
}

/// Whether this is a value of the variant of this number.
#[cycle(fits)]
fn fits_variant(parts: &[Part], tag: u32, value: &Value) -> bool
    ensures { result ≡ spec.fits_variant (plain_parts parts.now) tag (values.plain value.now) }
{
    let mut left = tag;
    'parts: for part in parts {
        if left == 0 {
            return fits_element(&part.ltype, value);
        }
        left -= 1;
    }
    false
}

/// Whether this stands for a Stream in an element: a nest of its own dimensionality, or a part that is given elsewhere.
#[cycle(fits)]
fn fits_stream(stream: &StreamType, value: &Value) -> bool
    ensures { result ≡ spec.fits_element (plain_of_stream stream.now) (values.plain value.now) }
{
    if stream.sync.is_apart() {
        value.is_apart()
    } else {
        fits_nest(&stream.element, stream.dims, value)
    }
}
