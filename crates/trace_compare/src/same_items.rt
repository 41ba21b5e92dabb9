//! Items, compared and copied.

ghost use Rattle.std.specs.Prelude.{◌≡◌, ◌↔◌, IsTrue, IfOk, Some, slice_get};
ghost use Rattle.std.specs.Option.{option_copied};
ghost use Rattle.physical_stream.specs.declared.item.Item.TheVariants.{Close, Elem};
ghost use Rattle.trace_compare.specs.Keeping.{IsSameFront};

use physical_stream::Item;
use std::alloc::Global;
use tydi_base::{Bits, Memory, TryClone};

/// How many items at the front of these are those at the front of the expected ones. It takes no memory.
pub(crate) fn same_front(want: &[Item], items: &[Item]) -> usize
    ensures { IsSameFront want.now items.now result }
{
    'items: for (place, item) in items.iter().enumerate() {
        if !is_item_at(want, place, item) {
            return place;
        }
    }
    items.len()
}

/// Whether the item at this place is there, and is this one.
fn is_item_at(want: &[Item], place: usize, item: &Item) -> bool
    ensures { IsTrue result ↔ (slice_get want.now place ≡ Some item.now) }
{
    match want.get(place) {
        Some(expected) => is_same(expected, item),
        None => false,
    }
}

/// Whether two items are the same.
fn is_same(one: &Item, other: &Item) -> bool
    ensures { IsTrue result ↔ (one.now ≡ other.now) }
{
    match one {
        Item::Elem(word) => is_element(other, word),
        Item::Close(dim) => is_close(other, *dim),
    }
}

/// Whether the item is an element of this word.
fn is_element(item: &Item, word: &Bits) -> bool
    ensures { IsTrue result ↔ (Elem word.now ≡ item.now) }
{
    match item {
        Item::Elem(own) => *word == *own,
        Item::Close(_) => false,
    }
}

/// Whether the item is the end of a sequence of this dimension.
fn is_close(item: &Item, dim: u8) -> bool
    ensures { IsTrue result ↔ (Close dim ≡ item.now) }
{
    match item {
        Item::Elem(_) => false,
        Item::Close(own) => dim == *own,
    }
}

/// The item at this place. None exactly where there is none.
pub(crate) fn item_at(items: &[Item], place: usize) -> Option<&Item>
    ensures { option_copied result ≡ slice_get items.now place }
{
    items.get(place)
}

/// A copy of an item, where there is one. `Memory` comes where there is none for its word.
pub(crate) fn copied(alloc: Global, item: Option<&Item>) -> Result<Option<Item>, Memory>
    ensures { IfOk result (λ copy. copy ≡ option_copied item.entry) }
{
    match item {
        Some(item) => Ok(Some(copy_of(alloc, item)?)),
        None => Ok(None),
    }
}

/// A copy of an item. `Memory` comes where there is none for its word.
fn copy_of(alloc: Global, item: &Item) -> Result<Item, Memory>
    ensures { IfOk result (λ copy. copy ≡ item.now) }
{
    match item {
        Item::Elem(word) => Ok(Item::Elem(word.try_clone(alloc)?)),
        Item::Close(dim) => Ok(Item::Close(*dim)),
    }
}
