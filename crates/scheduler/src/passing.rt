ghost use Rattle.std.specs.Prelude.{◌≡◌, ◌<◌, ◌≤◌, length, drop};
ghost use Rattle.physical_stream.specs.Signals.{Fits, zero_transfer};
ghost use Rattle.scheduler.specs.Laws.{AreItems};
ghost use Rattle.scheduler.specs.Meeting.{left_by};
ghost use Rattle.scheduler.specs.Stepping.{CanGoOn, IsPassed};

use crate::closing::mark_run;
use crate::meeting::way_of;
use crate::stepping::{next_transfer, wish_at};
use crate::way::Way;
use physical_stream::{Item, Params, Transfer};
use plan_text::StreamPlan;

// The place of what a packed way leaves. The transfer is room to write in, and stays as wide.
fn pass_packed(p: &Params, way: Way, items: &[Item], room: &mut Transfer) -> usize
    requires some { 1 ≤ p.now.lanes }
    requires stop { way.stop ≤ length items.now }
    requires fits { AreItems p.now items.now }
    requires room { Fits p.now room.old }
    ensures within { result ≤ length items.now }
    ensures room { Fits p.now room.new }
    ensures behind { drop result items.now ≡ left_by way items.now }
{
    if way.ends == 0 {
        return way.stop;
    }
    mark_run(p, items, way.stop, p.lanes - 1, &mut room.last)
}

// The place of what the transfer of this number leaves of the items from this place on, of which there is one. Only a transfer whose
// lanes have ends of their own is made for it. The blank transfer is zero.
pub(crate) fn pass_transfer(
    p: &Params,
    items: &[Item],
    plan: &StreamPlan,
    blank: &Transfer,
    place: usize,
    number: usize,
    room: &mut Transfer,
) -> usize
    requires can { CanGoOn p.now items.now plan.now.wishes plan.now.users }
    requires blank { blank.now ≡ zero_transfer p.now }
    requires place { place < length items.now }
    requires room { Fits p.now room.old }
    ensures { IsPassed p.now items.now plan.now.wishes plan.now.users place number room.new result }
{
    let way = way_of(p, wish_at(p, plan, number), items, place);
    if way.is_packed {
        return pass_packed(p, way, items, room);
    }
    next_transfer(p, items, plan, blank, place, number, room)
}
