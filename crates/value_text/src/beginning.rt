//! How the text of a value of an element, or of a nest of them, is begun. What comes after its front is put before the parts that are left.

ghost use Rattle.std.specs.Prelude.{◌*◌, suc, OnOk};
ghost use Rattle.logical_types.specs.Tree.{bits, group, plain, plain_of_stream, plain_parts, union};
ghost use Rattle.logical_value.specs.Tree as values;
ghost use Rattle.value_text.specs.Canonical.{element_text, named_text, nest_text, nests_text, variant_text};
ghost use Rattle.value_text.specs.Items.{item_of, items_of};
ghost use Rattle.value_text.specs.Pending.{Begins, number_in, number_of_values};

use crate::inside::{Inside, look_inside};
use crate::items::{Item, Items};
use crate::pending::{FieldsLeft, NestsLeft, Pending};
use crate::word::Word;
use logical_types::{LType, Part, Shared, StreamType};
use logical_value::Value;
use std::alloc::Global;
use tydi_base::{List, Memory, Name, TryClone, emit};

/// Begins a nest of this depth, with values of this type as its leaves.
#[cycle(begin)]
pub(crate) fn begin_nest<'v>(
    alloc: Global,
    element: &LType,
    depth: u64,
    nest: Item<'v, Value>,
    left: &mut List<Pending<'v>>,
    out: &mut List<u8>,
) -> Result<(), Memory>
    ensures { OnOk result (Begins (nest_text (element_text (plain element.now)) depth (values.plain (item_of nest.entry)))
        (3 * number_of_values (values.plain (item_of nest.entry))) left.old left.new out.old out.new) }
{
    if depth == 0 {
        return begin_element(alloc, element, nest, left, out);
    }
    match look_inside(nest) {
        Inside::List(members) => begin_list(alloc, element, depth - 1, members, left, out),
        _ => Ok(()),
    }
}

/// Begins a sequence of nests of this depth.
fn begin_list<'v>(
    alloc: Global,
    element: &LType,
    depth: u64,
    members: Items<'v, Value>,
    left: &mut List<Pending<'v>>,
    out: &mut List<u8>,
) -> Result<(), Memory>
    ensures { OnOk result (Begins (nest_text (element_text (plain element.now)) (suc depth) (values.list (values.plain_values (items_of members.entry))))
        (3 * number_of_values (values.list (values.plain_values (items_of members.entry)))) left.old left.new out.old out.new) }
{
    emit!(out; "[")?;
    left.push(Pending::Mark(b"]"))?;
    left.push(Pending::Nests(NestsLeft {
        element: element.try_clone(alloc)?,
        depth,
        before: b"",
        between: b", ",
        values: members,
    }))
}

/// Begins a value of an element of this type.
#[cycle(begin)]
pub(crate) fn begin_element<'v>(
    alloc: Global,
    ltype: &LType,
    value: Item<'v, Value>,
    left: &mut List<Pending<'v>>,
    out: &mut List<u8>,
) -> Result<(), Memory>
    ensures { OnOk result (Begins (element_text (plain ltype.now) (values.plain (item_of value.entry)))
        (3 * number_of_values (values.plain (item_of value.entry))) left.old left.new out.old out.new) }
{
    match ltype {
        LType::Null => emit!(out; "null"),
        LType::Bits(width) => begin_word(*width, value, left, out),
        LType::Group(parts) => begin_group(alloc, parts, value, left, out),
        LType::Union(parts) => begin_union(alloc, parts.as_slice(), value, left, out),
        LType::Stream(stream) => begin_stream(alloc, stream.get(), value, left, out),
    }
}

/// Writes the word of a Bits.
fn begin_word<'v>(
    _width: u64,
    value: Item<'v, Value>,
    _left: &mut List<Pending<'v>>,
    out: &mut List<u8>,
) -> Result<(), Memory>
    ensures { OnOk result (Begins (element_text (bits _width) (values.plain (item_of value.entry)))
        (3 * number_of_values (values.plain (item_of value.entry))) _left.old _left.new out.old out.new) }
{
    match look_inside(value) {
        Inside::Word(word) => emit!(out; Word(word.get())),
        _ => Ok(()),
    }
}

/// Begins a value of a Group with these fields.
fn begin_group<'v>(
    alloc: Global,
    parts: &Shared<List<Part>>,
    value: Item<'v, Value>,
    left: &mut List<Pending<'v>>,
    out: &mut List<u8>,
) -> Result<(), Memory>
    ensures { OnOk result (Begins (element_text (group (plain_parts parts.now)) (values.plain (item_of value.entry)))
        (3 * number_of_values (values.plain (item_of value.entry))) left.old left.new out.old out.new) }
{
    match look_inside(value) {
        Inside::Group(fields) => begin_fields(alloc, parts, fields, left, out),
        _ => Ok(()),
    }
}

/// Begins values of these fields, in braces.
fn begin_fields<'v>(
    alloc: Global,
    parts: &Shared<List<Part>>,
    fields: Items<'v, Value>,
    left: &mut List<Pending<'v>>,
    out: &mut List<u8>,
) -> Result<(), Memory>
    ensures { OnOk result (Begins (element_text (group (plain_parts parts.now)) (values.group (values.plain_values (items_of fields.entry))))
        (3 * number_of_values (values.group (values.plain_values (items_of fields.entry)))) left.old left.new out.old out.new) }
{
    emit!(out; "{")?;
    left.push(Pending::Mark(b"}"))?;
    left.push(Pending::Fields(FieldsLeft {
        parts: parts.try_clone(alloc)?,
        at: 0,
        before: b"",
        values: fields,
    }))
}

/// Begins a value of a Union of these variants.
#[cycle(begin)]
fn begin_union<'v>(
    alloc: Global,
    parts: &[Part],
    value: Item<'v, Value>,
    left: &mut List<Pending<'v>>,
    out: &mut List<u8>,
) -> Result<(), Memory>
    ensures { OnOk result (Begins (element_text (union (plain_parts parts.now)) (values.plain (item_of value.entry)))
        (3 * number_of_values (values.plain (item_of value.entry))) left.old left.new out.old out.new) }
{
    match look_inside(value) {
        Inside::Union(tag, part) => begin_variant(alloc, parts, tag, part, left, out),
        _ => Ok(()),
    }
}

/// Begins a value of the variant of this number.
#[cycle(begin)]
fn begin_variant<'v>(
    alloc: Global,
    parts: &[Part],
    tag: u32,
    value: Item<'v, Value>,
    left: &mut List<Pending<'v>>,
    out: &mut List<u8>,
) -> Result<(), Memory>
    ensures { OnOk result (Begins (variant_text (plain_parts parts.now) tag (values.plain (item_of value.entry)))
        (3 * suc (number_of_values (values.plain (item_of value.entry)))) left.old left.new out.old out.new) }
{
    match parts.get(tag as usize) {
        Some(part) => begin_named(alloc, &part.name, &part.ltype, value, left, out),
        None => Ok(()),
    }
}

/// Begins a value of a variant of this name.
#[cycle(begin)]
fn begin_named<'v>(
    alloc: Global,
    name: &Name,
    ltype: &LType,
    value: Item<'v, Value>,
    left: &mut List<Pending<'v>>,
    out: &mut List<u8>,
) -> Result<(), Memory>
    ensures { OnOk result (Begins (named_text name.now (element_text (plain ltype.now) (values.plain (item_of value.entry))))
        (3 * suc (number_of_values (values.plain (item_of value.entry)))) left.old left.new out.old out.new) }
{
    emit!(out; name, "(")?;
    left.push(Pending::Mark(b")"))?;
    begin_element(alloc, ltype, value, left, out)
}

/// Begins what stands for a Stream in an element.
#[cycle(begin)]
fn begin_stream<'v>(
    alloc: Global,
    stream: &StreamType,
    value: Item<'v, Value>,
    left: &mut List<Pending<'v>>,
    out: &mut List<u8>,
) -> Result<(), Memory>
    ensures { OnOk result (Begins (element_text (plain_of_stream stream.now) (values.plain (item_of value.entry)))
        (3 * number_of_values (values.plain (item_of value.entry))) left.old left.new out.old out.new) }
{
    if stream.sync.is_apart() {
        emit!(out; "apart")
    } else {
        begin_nest(alloc, &stream.element, stream.dims, value, left, out)
    }
}
