ghost use Rattle.std.specs.Prelude.{◌≡◌, ◌≤◌, ◌<◌, ◌*◌, ◌-◌, length, drop};
ghost use Rattle.tydi_base.specs.Bits.{zero_bits};
ghost use Rattle.physical_stream.specs.Signals.{Fits, zero_transfer};
ghost use Rattle.scheduler.specs.Lanes.{transfer_of};
ghost use Rattle.scheduler.specs.Laws.{AreItems, UsersFit};
ghost use Rattle.scheduler.specs.Planned.{first_wish, load_of};
ghost use Rattle.scheduler.specs.Stepping.{CanGoOn, IsNext, IsStrobed, IsUser};

use crate::filling::put_lanes;
use crate::meeting::way_of;
use physical_stream::{Item, Params, Transfer, all_lanes};
use plan_text::{StreamPlan, Wish};

// Up to level 6 the strobe is all ones where some lane is active.
fn spread_strobe(p: &Params, into: &mut Transfer)
    ensures { IsStrobed p.now into.old into.new }
{
    if p.level.number() < 7 && into.strb != 0 {
        into.strb = all_lanes(p.lanes);
    }
}

// Fills a clear transfer with what a wish takes of the items from this place on, and gives the place of what is left.
fn fill_transfer(p: &Params, wish: Wish, items: &[Item], place: usize, into: &mut Transfer) -> usize
    requires some { 1 ≤ p.now.lanes }
    requires numbered { p.now.lanes ≤ 128 }
    requires content { into.old.content ≡ zero_bits (p.now.lanes * p.now.element) }
    requires last { into.old.last ≡ zero_bits (p.now.lanes * p.now.dims) }
    requires stai { into.old.stai ≡ 0 }
    requires endi { into.old.endi ≡ p.now.lanes - 1 }
    requires strb { into.old.strb ≡ 0 }
    requires fits { AreItems p.now items.now }
    requires place { place ≤ length items.now }
    ensures within { result ≤ length items.now }
    ensures filled { into.new ≡ transfer_of p.now (load_of p.now wish (drop place items.now)).lanes into.old.user }
    ensures rest { drop result items.now ≡ (load_of p.now wish (drop place items.now)).rest }
{
    let way = way_of(p, wish, items, place);
    let rest = put_lanes(p, way, items, place, into);
    spread_strobe(p, into);
    rest
}

// The wish for the transfer of this number: all lanes past the end of the plan.
pub(crate) fn wish_at(p: &Params, plan: &StreamPlan, number: usize) -> Wish
    ensures { result ≡ first_wish p.now (drop number plan.now.wishes) }
{
    match plan.wishes.get(number) {
        Some(wish) => *wish,
        None => Wish {
            mask: all_lanes(p.lanes),
            late: false,
            laned: false,
        },
    }
}

// Copies the user word for the transfer of this number over a word of zeros.
fn put_user(p: &Params, plan: &StreamPlan, number: usize, into: &mut Transfer)
    requires fit { UsersFit p.now plan.now.users }
    requires clear { into.old ≡ zero_transfer p.now }
    ensures { IsUser p.now plan.now.users number into.old into.new }
{
    match plan.users.get(number) {
        Some(user) => into.user.copy_from(user),
        None => {}
    }
}

// Makes the transfer of this number from the items from this place on, of which there is one, and gives the place of what is left. The
// blank transfer is zero.
pub(crate) fn next_transfer(
    p: &Params,
    items: &[Item],
    plan: &StreamPlan,
    blank: &Transfer,
    place: usize,
    number: usize,
    into: &mut Transfer,
) -> usize
    requires can { CanGoOn p.now items.now plan.now.wishes plan.now.users }
    requires blank { blank.now ≡ zero_transfer p.now }
    requires place { place < length items.now }
    requires room { Fits p.now into.old }
    ensures { IsNext p.now items.now plan.now.wishes plan.now.users place number into.new result }
{
    into.copy_from(blank);
    put_user(p, plan, number, into);
    fill_transfer(p, wish_at(p, plan, number), items, place, into)
}
