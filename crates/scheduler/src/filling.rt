ghost use Rattle.std.specs.Prelude.{◌≡◌, ◌+◌, ◌-◌, ◌*◌, ◌<◌, ◌≤◌, ◌++◌, ◌^◌, ◌&&◌, ◌==◌};
ghost use Rattle.std.specs.Prelude.{if◌then◌else◌, nat_lt, ℕ, Bool, List, length, drop, is_some, bit_or, true};
ghost use Rattle.tydi_base.specs.Bits.{zero_bits};
ghost use Rattle.scheduler.specs.Lanes.{word_or, Lane};
ghost use Rattle.scheduler.specs.Planned.{first_word};
ghost use Rattle.scheduler.specs.Laws.{AreItems};
ghost use Rattle.scheduler.specs.Filling.{behind_taken, behind_word, is_set, lane_with, rest_with, taken_word, takes_at, IsActivated, IsFilledBelow, IsFilledSoFar};

use crate::closing::mark_run;
use crate::way::Way;
use physical_stream::{Item, Params, Transfer};
use tydi_base::Bits;

// Writes the element at this place into this lane of a signal whose lanes are clear from here on. False where none stands there.
fn put_element(p: &Params, items: &[Item], place: usize, lane: u16, content: &mut Bits) -> bool
    requires within { lane < p.now.lanes }
    requires width { length content.old ≡ p.now.lanes * p.now.element }
    requires fits { AreItems p.now items.now }
    requires bound { place < length items.now }
    ensures width { length content.new ≡ p.now.lanes * p.now.element }
    ensures some { result ≡ is_some (first_word (drop place items.now)) }
    ensures behind { behind_word (drop place items.now) ≡ (if result then drop (place + 1) items.now else drop place items.now) }
    ensures written { (parts : List Bool) → length parts ≡ lane * p.now.element → content.old ≡ parts ++ zero_bits ((p.now.lanes - lane) * p.now.element)
        → content.new ≡ (parts ++ word_or p.now.element (first_word (drop place items.now))) ++ zero_bits ((p.now.lanes - (lane + 1)) * p.now.element) }
{
    match &items[place] {
        Item::Elem(word) => {
            content.put_word(usize::from(lane) * p.element as usize, word);
            true
        }
        Item::Close(_) => false,
    }
}

// Whether a lane is among these.
pub(crate) fn is_set(allowed: u128, lane: u16) -> bool
    requires { lane < 128 }
    ensures { result ≡ is_set allowed lane }
{
    (allowed >> lane) % 2 == 1
}

// Notes that this lane is active, as those in the strobe are.
fn mark_active(lane: u16, into: &mut Transfer)
    requires { lane < 128 }
    ensures content { into.new.content ≡ into.old.content }
    ensures last { into.new.last ≡ into.old.last }
    ensures user { into.new.user ≡ into.old.user }
    ensures stai { into.new.stai ≡ (if into.old.strb == 0 then lane else into.old.stai) }
    ensures endi { into.new.endi ≡ lane }
    ensures strb { into.new.strb ≡ bit_or into.old.strb (2 ^ lane) }
{
    if into.strb == 0 {
        into.stai = lane;
    }
    into.endi = lane;
    into.strb |= 1 << lane;
}

// Writes the element at this place into a lane that takes one, where one stands there, and gives the place behind it.
fn take_element(
    p: &Params,
    items: &[Item],
    place: usize,
    takes: bool,
    lane: u16,
    into: &mut Transfer,
) -> usize
    requires within { lane < p.now.lanes }
    requires numbered { lane < 128 }
    requires width { length into.old.content ≡ p.now.lanes * p.now.element }
    requires fits { AreItems p.now items.now }
    requires place { place ≤ length items.now }
    requires bound { takes ≡ true → place < length items.now }
    ensures width { length into.new.content ≡ p.now.lanes * p.now.element }
    ensures place { result ≤ length items.now }
    ensures behind { drop result items.now ≡ behind_taken takes (drop place items.now) }
    ensures active { IsActivated (is_some (taken_word takes (drop place items.now))) lane into.old into.new }
    ensures written { (parts : List Bool) → length parts ≡ lane * p.now.element → into.old.content ≡ parts ++ zero_bits ((p.now.lanes - lane) * p.now.element)
        → into.new.content ≡ (parts ++ word_or p.now.element (taken_word takes (drop place items.now))) ++ zero_bits ((p.now.lanes - (lane + 1)) * p.now.element) }
{
    if !takes {
        return place;
    }
    if !put_element(p, items, place, lane, &mut into.content) {
        return place;
    }
    mark_active(lane, into);
    place + 1
}

// Fills one lane from the items at this place, and gives the place of what is left.
fn put_lane(
    p: &Params,
    way: Way,
    items: &[Item],
    place: usize,
    lane: u16,
    into: &mut Transfer,
) -> usize
    requires within { lane < p.now.lanes }
    requires numbered { lane < 128 }
    requires content { length into.old.content ≡ p.now.lanes * p.now.element }
    requires last { length into.old.last ≡ p.now.lanes * p.now.dims }
    requires fits { AreItems p.now items.now }
    requires place { place ≤ length items.now }
    requires stop { way.stop ≤ length items.now }
    ensures content { length into.new.content ≡ p.now.lanes * p.now.element }
    ensures last { length into.new.last ≡ p.now.lanes * p.now.dims }
    ensures user { into.new.user ≡ into.old.user }
    ensures place { result ≤ length items.now }
    ensures behind { drop result items.now ≡ rest_with (takes_at way.allowed (length items.now - way.stop) lane (drop place items.now)) (is_set way.ends lane) (drop place items.now) }
    ensures filled { (lanes : ℕ → Lane) → lanes lane ≡ lane_with (takes_at way.allowed (length items.now - way.stop) lane (drop place items.now)) (is_set way.ends lane) (drop place items.now)
        → IsFilledBelow p.now lanes lane into.old → IsFilledBelow p.now lanes (lane + 1) into.new }
{
    let takes = takes(way, place, lane);
    let at = take_element(p, items, place, takes, lane, into);
    if !is_set(way.ends, lane) {
        return at;
    }
    mark_run(p, items, at, lane, &mut into.last)
}

// Whether a lane takes an element at this place.
fn takes(way: Way, place: usize, lane: u16) -> bool
    requires { lane < 128 }
    ensures { result ≡ (is_set way.allowed lane && nat_lt place way.stop) }
{
    is_set(way.allowed, lane) && place < way.stop
}

// Fills the lanes of a clear transfer from the items from this place on, and gives the place of what is left.
pub(crate) fn put_lanes(
    p: &Params,
    way: Way,
    items: &[Item],
    place: usize,
    into: &mut Transfer,
) -> usize
    requires numbered { p.now.lanes ≤ 128 }
    requires content { into.old.content ≡ zero_bits (p.now.lanes * p.now.element) }
    requires last { into.old.last ≡ zero_bits (p.now.lanes * p.now.dims) }
    requires stai { into.old.stai ≡ 0 }
    requires endi { into.old.endi ≡ p.now.lanes - 1 }
    requires strb { into.old.strb ≡ 0 }
    requires fits { AreItems p.now items.now }
    requires place { place ≤ length items.now }
    requires stop { way.stop ≤ length items.now }
    ensures filled { IsFilledSoFar p.now way items.now place p.now.lanes result into.old into.new }
{
    let mut at = place;
    'lanes: for lane in 0..p.lanes {
        at = put_lane(p, way, items, at, lane, into);
    }
    at
}
