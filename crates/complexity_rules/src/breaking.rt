//! The lowest rule that a cycle breaks. Where a transfer waits it has to be shown again, and nothing else can be broken. Else all
//! that the rules need of the cycles before is the kind of the last item done.

ghost use Rattle.std.specs.Prelude.{◌≡◌, ◌↔◌, ◌-◌, ◌^◌, ◌≤◌, ◌&&◌, not, None, List, Bool, IsTrue};
ghost use Rattle.physical_stream.specs.Breaks.{BreaksEnd, BreaksIndex, BreaksLaneLast, BreaksStart, BreaksStrobe};
ghost use Rattle.physical_stream.specs.Cycles.{Cycle, items_done, waiting_of};
ghost use Rattle.physical_stream.specs.Items.{items_of};
ghost use Rattle.physical_stream.specs.Rules.{Binds};
ghost use Rattle.physical_stream.specs.Shape.{closes_empty, tail_of};
ghost use Rattle.physical_stream.specs.Signals.{Fits};
ghost use Rattle.physical_stream.specs.declared.rule.Rule.TheVariants.{Empty, End, Hold, Index, LaneLast, Nest, Start, Strobe};
ghost use Rattle.complexity_rules.specs.Checking.{IsLowestBroken};
ghost use Rattle.complexity_rules.specs.Lowest.{is_broken};
ghost use Rattle.complexity_rules.specs.Waiting.{IsLowestShown};
ghost use Rattle.complexity_rules.specs.Walk.{Finds, first_close, misses_empty};

use crate::last_item::LastItem;
use crate::pauses::{breaks_inner_pause, breaks_outer_pause};
use crate::table::binds;
use crate::walk::{Shown, Walk};
use physical_stream::{Params, Rule, Transfer, all_lanes};
use tydi_base::Level;

/// A row for each rule, in the order of their numbers: its name, and whether a cycle breaks it. The lowest rule that is broken.
macro_rules! lowest_broken {
    () => { None };
    ($rule:ident if $broken:expr, $($rest:tt)*) => {
        if $broken { Some(Rule::$rule) } else { lowest_broken!($($rest)*) }
    };
}

/// The lowest rule, the one on waiting transfers aside, that a cycle breaks that shows this transfer.
#[inline(always)]
pub(crate) fn lowest_of_shown(
    p: &Params,
    tail: LastItem,
    transfer: &Transfer,
    items: &Shown,
) -> Option<Rule>
    requires fits { Fits p.now transfer.now }
    requires found { Finds p.now.dims tail (items_of p.now transfer.now) items.now.walk }
    requires early { IsTrue items.now.early ↔ BreaksLaneLast p.now transfer.now }
    ensures { IsLowestShown p.now tail transfer.now result }
{
    lowest_broken! {
        Index if breaks_index(p, transfer),
        LaneLast if breaks_lane_last(p, items),
        Strobe if breaks_strobe(p, transfer),
        Start if breaks_start(p, transfer),
        End if breaks_end(p, transfer, &items.walk),
        Empty if breaks_empty(p, tail, &items.walk),
        Nest if breaks_nest(p, &items.walk),
    }
}

/// The lowest rule that a cycle breaks that shows no transfer, where none waits.
pub(crate) fn lowest_of_pause(p: &Params, tail: LastItem) -> Option<Rule>
    ensures { (before : List Cycle) (ready : Bool) → waiting_of before ≡ None → tail ≡ tail_of (items_done p.now before)
        → IsLowestBroken p.now before (record { ready = ready; shown = None }) result }
{
    lowest_broken! {
        InnerPause if breaks_inner_pause(p, tail.kind()),
        OuterPause if breaks_outer_pause(p, tail.kind()),
    }
}

/// The rule on waiting transfers, which binds at every level.
#[inline(always)]
pub(crate) fn hold(level: Level) -> Rule
    ensures rule { result ≡ Hold }
    ensures binds { Binds Hold level }
{
    level.number();
    Rule::Hold
}

// Whether a cycle breaks a rule. The level is looked at first, so that nothing else is done for a rule that does not bind; it is looked at
// last for Index and Nest, which bind at every level.

/// Whether Index is broken: not stai ≤ endi ≤ N-1.
fn breaks_index(p: &Params, transfer: &Transfer) -> bool
    ensures { IsTrue result ↔ (Binds Index p.now.level × BreaksIndex p.now transfer.now) }
{
    (transfer.endi < transfer.stai || p.lanes <= transfer.endi) && binds(Rule::Index, p.level)
}

/// Whether LaneLast is broken: some lane but the last one has a last bit.
fn breaks_lane_last(p: &Params, items: &Shown) -> bool
    ensures { result ≡ is_broken p.now.level LaneLast items.now.early }
{
    binds(Rule::LaneLast, p.level) && items.early
}

/// Whether Strobe is broken: some strobe bit is 1 and another is 0.
fn breaks_strobe(p: &Params, transfer: &Transfer) -> bool
    requires { Fits p.now transfer.now }
    ensures { IsTrue result ↔ (Binds Strobe p.now.level × BreaksStrobe p.now transfer.now) }
{
    binds(Rule::Strobe, p.level) && has_mixed_strobe(p, transfer)
}

/// Whether some strobe bit is 1 and another is 0, whether or not the rule on it binds.
fn has_mixed_strobe(p: &Params, transfer: &Transfer) -> bool
    requires { Fits p.now transfer.now }
    ensures { IsTrue result ↔ BreaksStrobe p.now transfer.now }
{
    transfer.strb != 0 && !is_all_ones(transfer.strb, p.lanes)
}

/// Whether this is the greatest number of so many bits.
#[inline(always)]
fn is_all_ones(number: u128, bits: u16) -> bool
    requires { bits ≤ 128 }
    ensures { IsTrue result ↔ (number ≡ 2 ^ bits - 1) }
{
    if bits < 64 {
        let ones: u64 = (1 << bits) - 1;
        number == u128::from(ones)
    } else {
        number == all_lanes(bits)
    }
}

/// Whether Start is broken: stai is not 0.
fn breaks_start(p: &Params, transfer: &Transfer) -> bool
    ensures { IsTrue result ↔ (Binds Start p.now.level × BreaksStart transfer.now) }
{
    binds(Rule::Start, p.level) && transfer.stai > 0
}

/// Whether End is broken: endi is not N-1, and no last bit is set.
fn breaks_end(p: &Params, transfer: &Transfer, walk: &Walk) -> bool
    requires fits { Fits p.now transfer.now }
    requires found { walk.now.first_close ≡ first_close (items_of p.now transfer.now) }
    ensures { IsTrue result ↔ (Binds End p.now.level × BreaksEnd p.now transfer.now) }
{
    binds(Rule::End, p.level) && ends_early(p, transfer, walk)
}

/// Whether endi is not N-1, and no last bit is set, whether or not the rule on it binds.
fn ends_early(p: &Params, transfer: &Transfer, walk: &Walk) -> bool
    requires fits { Fits p.now transfer.now }
    requires found { walk.now.first_close ≡ first_close (items_of p.now transfer.now) }
    ensures { IsTrue result ↔ BreaksEnd p.now transfer.now }
{
    transfer.endi != p.lanes - 1 && walk.first_close.is_none()
}

/// Whether Empty is broken: no lane is active, and nothing is closed or not an empty sequence first.
#[inline(always)]
pub(crate) fn breaks_empty(p: &Params, tail: LastItem, walk: &Walk) -> bool
    ensures { result ≡ is_broken p.now.level Empty (not walk.now.active && misses_empty tail walk.now.first_close) }
{
    binds(Rule::Empty, p.level) && !walk.active && misses_empty(tail, walk.first_close)
}

/// Whether Nest is broken: a Close is not where it may be.
#[inline(always)]
pub(crate) fn breaks_nest(p: &Params, walk: &Walk) -> bool
    ensures { result ≡ is_broken p.now.level Nest walk.now.misplaced }
{
    walk.misplaced && binds(Rule::Nest, p.level)
}

/// Whether nothing is closed first, or what is closed first is no empty sequence.
fn misses_empty(tail: LastItem, first_close: Option<u8>) -> bool
    ensures { result ≡ misses_empty tail first_close }
{
    match first_close {
        None => true,
        Some(dim) => !tail.closes_empty(dim),
    }
}
