ghost use Rattle.std.specs.Prelude.{◌≡◌, ◌&&◌, ◌==◌, ◌≤◌, length, drop, is_some};
ghost use Rattle.tydi_base.specs.Level.{number_of};
ghost use Rattle.scheduler.specs.Meeting.{IsCounted, IsPackedWay, Meets};
ghost use Rattle.scheduler.specs.Planned.{first_word, leaves};

use crate::allowing::{allowed_lanes, is_empty_wish, mask_of, ones_below};
use crate::way::Way;
use physical_stream::{Item, Params};
use plan_text::Wish;

// Whether an element stands at this place.
fn is_element(items: &[Item], place: usize) -> bool
    ensures { result ≡ is_some (first_word (drop place items.now)) }
{
    match items.get(place) {
        Some(Item::Elem(_)) => true,
        Some(Item::Close(_)) => false,
        None => false,
    }
}

// How many elements stand from this place on, up to a number.
fn count_elements(items: &[Item], place: usize, most: u16) -> u16
    requires { place ≤ length items.now }
    ensures { IsCounted items.now place most result }
{
    'elements: for count in 0..most {
        if !is_element(items, place + usize::from(count)) {
            return count;
        }
    }
    most
}

// Whether a wish leaves the ends of sequences behind so many elements to a later transfer.
fn leaves(p: &Params, wish: Wish, count: u16) -> bool
    ensures { result ≡ leaves p.now wish count }
{
    let number = p.level.number();
    let is_allowed = number >= 5 || (number == 4 && count == p.lanes);
    wish.late && count > 0 && p.dims > 0 && is_allowed
}

// The way of a transfer with elements in its lowest allowed lanes, and the ends of sequences behind them in the last lane.
fn packed_way(p: &Params, wish: Wish, allowed: u128, items: &[Item], place: usize) -> Way
    requires { place ≤ length items.now }
    ensures { IsPackedWay p.now wish allowed items.now place result }
{
    let most = ones_below(allowed, p.lanes);
    let count = count_elements(items, place, most);
    let ends = if leaves(p, wish, count) {
        0
    } else {
        1 << (p.lanes - 1)
    };
    Way {
        allowed,
        stop: place + usize::from(count),
        ends,
        is_packed: true,
    }
}

// Whether each lane takes the ends of sequences behind its own element.
fn is_laned(p: &Params, wish: Wish) -> bool
    ensures { result ≡ (wish.laned && (number_of p.now.level == 8)) }
{
    wish.laned && p.level.number() == 8
}

// How a transfer by this wish takes the items from this place on.
pub(crate) fn way_of(p: &Params, wish: Wish, items: &[Item], place: usize) -> Way
    requires some { 1 ≤ p.now.lanes }
    requires place { place ≤ length items.now }
    ensures { Meets p.now wish items.now place result }
{
    if is_empty_wish(p, wish) {
        return Way {
            allowed: 0,
            stop: place,
            ends: 0,
            is_packed: true,
        };
    }
    let allowed = allowed_lanes(p, mask_of(p, wish));
    if is_laned(p, wish) {
        return Way {
            allowed,
            stop: items.len(),
            ends: allowed,
            is_packed: false,
        };
    }
    packed_way(p, wish, allowed, items, place)
}
