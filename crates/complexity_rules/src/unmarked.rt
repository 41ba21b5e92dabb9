//! Lanes that mark no end. A walk goes past them at once.

ghost use Rattle.std.specs.Prelude.{◌≡◌, ◌↔◌, ℕ, ◌+◌, ◌-◌, ◌*◌, ◌/◌, ◌^◌, ◌<◌, ◌≤◌, IfSome, IsTrue, MatchOption, count_ones};
ghost use Rattle.std.specs.Int.{bit_at};
ghost use Rattle.physical_stream.specs.Items.{is_active};
ghost use Rattle.physical_stream.specs.declared.transfer.Transfer.{Transfer};
ghost use Rattle.complexity_rules.specs.Unmarked.{active_lanes, AreUnmarked, AreZeros, ShowsMarks};

use physical_stream::{Params, Transfer, is_active};

/// The active lanes from one up to another, as the ones of a number.
#[inline(always)]
pub(crate) fn active_between(transfer: &Transfer, from: u16, to: u16) -> u128
    requires order { from ≤ to }
    requires numbered { to ≤ 128 }
    ensures lanes { count_ones result ≡ active_lanes transfer.now from (to - from) }
    ensures few { count_ones result ≤ to - from }
{
    let low = u32::from(from.max(transfer.stai));
    let high = u32::from(to).min(u32::from(transfer.endi) + 1);
    if low >= high {
        return 0;
    }
    if high <= 64 && is_short(transfer.strb) {
        return u128::from((transfer.strb as u64 >> low) << (64 - (high - low)));
    }
    (transfer.strb >> low) << (128 - (high - low))
}

/// Whether a lane is active.
#[inline(always)]
pub(crate) fn is_lane_active(transfer: &Transfer, lane: u16) -> bool
    requires { lane < 128 }
    ensures { result ≡ is_active transfer.now lane }
{
    if lane >= 64 || !is_short(transfer.strb) {
        return is_active(transfer, lane);
    }
    (transfer.strb as u64 >> lane) % 2 == 1 && transfer.stai <= lane && lane <= transfer.endi
}

/// Whether a number has 64 bits at most. Shifts of such numbers are fast.
#[inline(always)]
fn is_short(number: u128) -> bool
    ensures { IsTrue result ↔ (number < 2 ^ 64) }
{
    number < 1 << 64
}

/// The last bits as a number. None where they are more than it can hold.
#[inline(always)]
pub(crate) fn marks_of(transfer: &Transfer) -> Option<u128>
    ensures { ShowsMarks result transfer.now }
{
    transfer.last.number()
}

/// A lane before which none from this one on marks an end: the next that does, where there is a number of the last bits, or the
/// end of the range.
#[inline(always)]
pub(crate) fn next_marked(p: &Params, marks: Option<u128>, from: u16, to: u16) -> u16
    requires { from ≤ to }
    ensures unmarked { (t : Transfer) → ShowsMarks marks t → AreUnmarked p.now t from result }
    ensures from { from ≤ result }
    ensures to { result ≤ to }
{
    if p.dims == 0 {
        return to;
    }
    let Some(number) = marks else {
        return from;
    };
    let place = u32::from(from) * u32::from(p.dims);
    if place >= 128 {
        return from;
    }
    match first_one(number, place) {
        Some(bits) => to.min(from + lanes_in(p, bits) as u16),
        None => to,
    }
}

/// How many zeros stand before the first one of a number from a place on. None where there is no such one.
#[inline(always)]
fn first_one(number: u128, place: u32) -> Option<u32>
    requires { place < 128 }
    ensures zeros { MatchOption result ((count : ℕ) → AreZeros number place count) (AreZeros number place) }
    ensures one { IfSome result (λ zeros. bit_at number (place + zeros) ≡ 1) }
    ensures few { IfSome result (λ zeros. zeros ≤ 128) }
{
    if place < 64 && is_short(number) {
        let rest = number as u64 >> place;
        return (rest != 0).then_some(rest.trailing_zeros());
    }
    let rest = number >> place;
    (rest != 0).then_some(rest.trailing_zeros())
}

/// How many whole lanes so many last bits are. It divides only where there are more dimensions than one.
#[inline(always)]
fn lanes_in(p: &Params, bits: u32) -> u32
    requires { 0 < p.now.dims }
    ensures { result ≡ bits / p.now.dims }
{
    if p.dims == 1 {
        bits
    } else {
        bits / u32::from(p.dims)
    }
}
