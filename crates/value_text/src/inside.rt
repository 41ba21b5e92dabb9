//! What is inside a value, lent or of one's own.

ghost use Rattle.std.specs.Prelude.{◌≡◌};
ghost use Rattle.logical_value.specs.Tree.{plain};
ghost use Rattle.value_text.specs.Inside.{tree_of};
ghost use Rattle.value_text.specs.Items.{item_of};

use crate::items::{Item, Items};
use logical_value::Value;
use tydi_base::Bits;

/// What is inside a value, by its kind.
#[derive(Drop)]
pub(crate) enum Inside<'v> {
    Null,
    Word(Item<'v, Bits>),
    /// The values of the fields.
    Group(Items<'v, Value>),
    /// The number of the variant, from 0, and its value.
    Union(u32, Item<'v, Value>),
    /// The members of a sequence.
    List(Items<'v, Value>),
    Apart,
}

/// What is inside this value.
pub(crate) fn look_inside(value: Item<'_, Value>) -> Inside<'_>
    ensures { tree_of result ≡ plain (item_of value.entry) }
{
    match value {
        Item::Lent(value) => return inside_lent(value),
        Item::Own(value) => inside_own(value),
    }
}

fn inside_lent(value: &Value) -> Inside<'_>
    ensures { tree_of result ≡ plain value.now }
{
    match value {
        Value::Null => Inside::Null,
        Value::Word(bits) => Inside::Word(Item::Lent(bits)),
        Value::Group(parts) => Inside::Group(Items::Lent(parts.as_slice())),
        Value::Union { tag, part } => Inside::Union(*tag, Item::Lent(part.get())),
        Value::List(parts) => Inside::List(Items::Lent(parts.as_slice())),
        Value::Apart => Inside::Apart,
    }
}

fn inside_own<'v>(value: Value) -> Inside<'v>
    ensures { tree_of result ≡ plain value }
{
    match value {
        Value::Null => Inside::Null,
        Value::Word(bits) => Inside::Word(Item::Own(bits)),
        Value::Group(parts) => Inside::Group(Items::own(parts)),
        Value::Union { tag, part } => Inside::Union(tag, Item::Own(part.into_inner())),
        Value::List(parts) => Inside::List(Items::own(parts)),
        Value::Apart => Inside::Apart,
    }
}
