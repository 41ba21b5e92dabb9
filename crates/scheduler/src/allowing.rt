ghost use Rattle.std.specs.Prelude.{◌≡◌, ◌≤◌};
ghost use Rattle.scheduler.specs.Meeting.{Allows};
ghost use Rattle.scheduler.specs.Planned.{is_empty_wish, lowest_one, mask_of, ones_below};

use crate::filling::is_set;
use physical_stream::{Params, all_lanes};
use plan_text::Wish;

// How many of so many lanes are among these.
pub(crate) fn ones_below(mask: u128, lanes: u16) -> u16
    requires { lanes ≤ 128 }
    ensures value { result ≡ ones_below mask lanes }
    ensures few { result ≤ lanes }
{
    let mut ones: u16 = 0;
    'lanes: for lane in 0..lanes {
        if is_set(mask, lane) {
            ones += 1;
        }
    }
    ones
}

// The lowest of so many lanes that is among these, or else lane 0.
fn lowest_one(mask: u128, lanes: u16) -> u16
    requires { lanes ≤ 128 }
    ensures value { result ≡ lowest_one mask lanes 0 }
    ensures low { result ≤ lanes }
{
    let mut lowest: u16 = 0;
    let mut lane = lanes;
    'lanes: while lane > 0 {
        lane -= 1;
        if is_set(mask, lane) {
            lowest = lane;
        }
    }
    lowest
}

// Whether a wish asks for a transfer without items.
pub(crate) fn is_empty_wish(p: &Params, wish: Wish) -> bool
    ensures { result ≡ is_empty_wish p.now wish }
{
    let number = p.level.number();
    wish.mask == 0 && (number >= 7 || (number >= 4 && p.dims > 0))
}

// The mask by which a transfer with items goes.
pub(crate) fn mask_of(p: &Params, wish: Wish) -> u128
    ensures { result ≡ mask_of p.now wish }
{
    if wish.mask == 0 {
        all_lanes(p.lanes)
    } else {
        wish.mask
    }
}

// The lanes that a mask allows at the stream's level.
pub(crate) fn allowed_lanes(p: &Params, mask: u128) -> u128
    ensures { Allows p.now mask result }
{
    let number = p.level.number();
    if number <= 4 {
        return all_lanes(p.lanes);
    }
    if number >= 7 {
        return mask;
    }
    let ones = ones_below(mask, p.lanes);
    if number == 5 {
        return all_lanes(ones);
    }
    let lowest = lowest_one(mask, p.lanes);
    all_lanes((lowest + ones).min(p.lanes)) - all_lanes(lowest)
}
