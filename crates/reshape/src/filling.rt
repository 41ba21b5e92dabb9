//! The transfer of a front.

ghost use Rattle.std.specs.Prelude.{◌≡◌, ◌+◌, ◌-◌, ◌*◌, ◌<◌, ◌≤◌, ◌++◌, Bool, List, length, drop, take, MatchOption};
ghost use Rattle.tydi_base.specs.Bits.{zero_bits};
ghost use Rattle.physical_stream.specs.Signals.{Fits, zero_transfer};
ghost use Rattle.scheduler.specs.Filling.{marks, GoesOn, EndsHere};
ghost use Rattle.scheduler.specs.Laws.{AreItems};
ghost use Rattle.scheduler.specs.Planned.{behind_run, elements_of, run_of};
ghost use Rattle.reshape.specs.Filled.{last_active, strobe_first, words_first};
ghost use Rattle.reshape.specs.Fronts.{IsFront};
ghost use Rattle.reshape.specs.Reshaping.{front_of};

use crate::front::Front;
use physical_stream::{Item, Params, Transfer, all_lanes};
use std::collections::VecDeque;
use tydi_base::Bits;

// Writes the element at this place into the lane of its number, of a signal whose lanes are clear from there on.
fn put_element(p: &Params, items: &VecDeque<Item>, lane: u16, content: &mut Bits)
    requires within { lane < p.now.lanes }
    requires some { lane < elements_of items.now.items }
    requires fits { AreItems p.now items.now.items }
    requires clear { content.old ≡ words_first p.now items.now.items lane }
    ensures { content.new ≡ words_first p.now items.now.items (lane + 1) }
{
    match &items[usize::from(lane)] {
        Item::Elem(word) => content.put_word(usize::from(lane) * p.element as usize, word),
        Item::Close(_) => {}
    }
}

// Writes so many elements into the lowest lanes of a clear signal.
fn put_elements(p: &Params, items: &VecDeque<Item>, count: u16, content: &mut Bits)
    requires within { count ≤ p.now.lanes }
    requires some { count ≤ elements_of items.now.items }
    requires fits { AreItems p.now items.now.items }
    requires clear { content.old ≡ zero_bits (p.now.lanes * p.now.element) }
    ensures { content.new ≡ words_first p.now items.now.items count }
{
    'lanes: for lane in 0..count {
        put_element(p, items, lane, content);
    }
}

// The dimension of the item at this place, where it goes on with an ascending run of ends whose next dimension is at least this.
fn next_end(p: &Params, items: &VecDeque<Item>, place: usize, least: u8) -> Option<u8>
    requires within { place < length items.now.items }
    requires fits { AreItems p.now items.now.items }
    ensures { MatchOption result (EndsHere least (drop place items.now.items)) (λ dim. GoesOn p.now least (drop place items.now.items) dim (drop (place + 1) items.now.items)) }
{
    match &items[place] {
        Item::Elem(_) => None,
        Item::Close(dim) => { if *dim >= least { Some(*dim) } else { None } }
    }
}

// Marks in the last lane of a clear signal the ascending run of ends at this place.
fn mark_run(p: &Params, items: &VecDeque<Item>, place: usize, last: &mut Bits)
    requires some { 1 ≤ p.now.lanes }
    requires place { place ≤ length items.now.items }
    requires fits { AreItems p.now items.now.items }
    requires clear { last.old ≡ zero_bits (p.now.lanes * p.now.dims) }
    ensures { last.new ≡ zero_bits ((p.now.lanes - 1) * p.now.dims) ++ marks p.now.dims (run_of (drop place items.now.items)) }
{
    let mut least: u8 = 0;
    'ends: for at in place..items.len() {
        match next_end(p, items, at, least) {
            None => return,
            Some(dim) => {
                last.put(
                    usize::from(p.lanes - 1) * usize::from(p.dims) + usize::from(dim),
                    true,
                );
                least = dim + 1;
            }
        }
    }
}

// The last active lane, where so many lanes from lane 0 on are active.
fn last_active(p: &Params, count: u16) -> u16
    requires { 1 ≤ p.now.lanes }
    ensures { result ≡ last_active p.now count }
{
    if count == 0 { p.lanes - 1 } else { count - 1 }
}

// The strobe of so many lanes from lane 0 on.
fn strobe_first(p: &Params, count: u16) -> u128
    requires { count ≤ p.now.lanes }
    ensures { result ≡ strobe_first p.now count }
{
    if count == 0 {
        return 0;
    }
    if p.level.number() >= 7 {
        all_lanes(count)
    } else {
        all_lanes(p.lanes)
    }
}

// Becomes the transfer of the front of these items. The blank transfer is zero. It takes no memory.
pub(crate) fn fill_front(
    p: &Params,
    items: &VecDeque<Item>,
    front: Front,
    blank: &Transfer,
    into: &mut Transfer,
)
    requires fits { AreItems p.now items.now.items }
    requires front { IsFront p.now items.now.items front }
    requires blank { blank.now ≡ zero_transfer p.now }
    requires room { Fits p.now into.old }
    requires some { 1 ≤ p.now.lanes }
    ensures made { into.new ≡ front_of p.now items.now.items }
    ensures fits { Fits p.now into.new }
{
    into.copy_from(blank);
    put_elements(p, items, front.elements, &mut into.content);
    mark_run(p, items, usize::from(front.elements), &mut into.last);
    into.endi = last_active(p, front.elements);
    into.strb = strobe_first(p, front.elements);
}
