//! The place behind items of a stream.

ghost use Rattle.std.specs.Prelude.{◌≡◌, ◌<◌, ◌-◌, ◌^◌, IfOk};
ghost use Rattle.trace_compare.specs.Places.{count_since, place_after, rank_of};
ghost use Rattle.trace_compare.specs.Keeping.{counted};

use physical_stream::Item;
use std::alloc::Global;
use tydi_base::{List, Memory};

/// The place behind these items, in a stream of so many dimensions. `Memory` comes where there is none for it.
pub(crate) fn place_after(alloc: Global, dims: u8, items: &[Item]) -> Result<List<u64>, Memory>
    ensures { IfOk result (λ place. place ≡ place_after dims items.now) }
{
    let mut place = List::new(alloc);
    let mut rank = dims;
    'ranks: while rank > 0 {
        place.push(count_since(items, rank))?;
        rank -= 1;
    }
    place.push(count_since(items, 0))?;
    Ok(place)
}

/// How many items of this rank come after the last one of a greater rank.
fn count_since(items: &[Item], rank: u8) -> u64
    ensures { result ≡ count_since rank items.now }
{
    let mut count: u64 = 0;
    'items: for item in items {
        count = counted(item, rank, count);
    }
    count
}

/// The count of items of this rank since the last one of a greater rank, where one item more comes.
fn counted(item: &Item, rank: u8, count: u64) -> u64
    requires { count < 2 ^ 64 - 1 }
    ensures { result ≡ counted rank item.now count }
{
    let own = rank_of(item);
    if own > u16::from(rank) {
        0
    } else if own == u16::from(rank) {
        count + 1
    } else {
        count
    }
}

/// The rank of an item: 0 for an element, and one more than its dimension for the end of a sequence.
fn rank_of(item: &Item) -> u16
    ensures { result ≡ rank_of item.now }
{
    match item {
        Item::Elem(_) => 0,
        Item::Close(dim) => u16::from(*dim) + 1,
    }
}
