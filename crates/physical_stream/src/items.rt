//! The items that a transfer carries, lane by lane.

ghost use Rattle.std.specs.Prelude.{◌≡◌, ◌<◌, ◌++◌, ◌∷◌, [], if◌then◌else◌, IfOk, OnOk};
ghost use Rattle.physical_stream.specs.Items.{items_of, lane_closes, lane_items, lane_word, last_bit};
ghost use Rattle.physical_stream.specs.Signals.{Fits};
ghost use Rattle.physical_stream.specs.declared.item.Item.TheVariants.{Close};

use crate::item::Item;
use crate::lane::{is_active, is_last};
use crate::params::Params;
use crate::transfer::Transfer;
use std::alloc::Global;
use tydi_base::{Bits, List, Memory};

/// The items of a transfer, lane by lane: a lane's element where it is active, and then the ends that it marks, ascending. `Memory`
/// comes where there is none for them.
pub fn items_of(alloc: Global, p: &Params, transfer: &Transfer) -> Result<List<Item>, Memory>
    requires { Fits p.now transfer.now }
    ensures { IfOk result (λ items. items ≡ items_of p.now transfer.now) }
{
    let mut items = List::new(alloc);
    'lanes: for lane in 0..p.lanes {
        push_lane(alloc, &mut items, p, transfer, lane)?;
    }
    Ok(items)
}

// Adds the items of this lane.
fn push_lane(
    alloc: Global,
    items: &mut List<Item>,
    p: &Params,
    transfer: &Transfer,
    lane: u16,
) -> Result<(), Memory>
    requires fits { Fits p.now transfer.now }
    requires within { lane < p.now.lanes }
    requires numbered { lane < 128 }
    ensures { OnOk result (items.new ≡ items.old ++ lane_items p.now transfer.now lane) }
{
    if is_active(transfer, lane) {
        let word = lane_word(alloc, p, transfer, lane)?;
        items.push(Item::Elem(word))?;
    }
    push_closes(items, p, transfer, lane)
}

/// The bits of this lane in the data signal, as many as an element has. `Memory` comes where there is none for the word.
pub fn lane_word(alloc: Global, p: &Params, transfer: &Transfer, lane: u16) -> Result<Bits, Memory>
    requires fits { Fits p.now transfer.now }
    requires within { lane < p.now.lanes }
    ensures { IfOk result (λ word. word ≡ lane_word p.now transfer.now lane) }
{
    let width = p.element as usize;
    let from = usize::from(lane) * width;
    transfer.content.slice(alloc, from, from + width)
}

// Adds the ends of sequences that this lane marks, ascending.
fn push_closes(
    items: &mut List<Item>,
    p: &Params,
    transfer: &Transfer,
    lane: u16,
) -> Result<(), Memory>
    requires fits { Fits p.now transfer.now }
    requires within { lane < p.now.lanes }
    ensures { OnOk result (items.new ≡ items.old ++ lane_closes p.now transfer.now lane) }
{
    'dims: for dim in 0..p.dims {
        push_close(items, p, transfer, lane, dim)?;
    }
    Ok(())
}

// Adds the end of this dimension where this lane marks it.
fn push_close(
    items: &mut List<Item>,
    p: &Params,
    transfer: &Transfer,
    lane: u16,
    dim: u8,
) -> Result<(), Memory>
    requires fits { Fits p.now transfer.now }
    requires within { lane < p.now.lanes }
    requires in_lane { dim < p.now.dims }
    ensures { OnOk result (items.new ≡ items.old ++ (if last_bit p.now transfer.now lane dim then Close dim ∷ [] else [])) }
{
    if is_last(p, transfer, lane, dim) {
        items.push(Item::Close(dim))?;
    }
    Ok(())
}
