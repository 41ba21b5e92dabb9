//! How many transfers the far side has, and whether their lanes divide the elements.

ghost use Rattle.std.specs.Prelude.{◌≡◌, ◌≤◌, ◌<◌, [], ◌↔◌, IsTrue, MatchOption, length, drop};
ghost use Rattle.scheduler.specs.Laws.{AreItems, IsMultiple};
ghost use Rattle.scheduler.specs.Planned.{plan_of};
ghost use Rattle.scheduler.specs.Schedules.{IsWhole};

use crate::front::Front;
use physical_stream::{Item, Params};

/// How many transfers are planned for these items without wishes.
pub fn far_count(to: &Params, items: &[Item]) -> usize
    requires fit { AreItems to.now items.now }
    ensures { result ≡ length (plan_of to.now [] [] items.now) }
{
    let _lanes = to.lanes;
    let mut front = Front::none();
    let mut count = 0;
    'items: for item in items {
        match front.with(to, item) {
            Some(more) => front = more,
            None => {
                count += 1;
                front = Front::of(to, item);
            }
        }
    }
    if front.size == 0 { count } else { count + 1 }
}

// Whether each transfer has an element in every lane.
fn is_whole(p: &Params) -> bool
    ensures { IsTrue result ↔ IsWhole p.now }
{
    p.dims == 0 && p.level.number() <= 4
}

/// Whether the lanes of the far side divide the elements, where each of its transfers has an element in every lane: the stream has no
/// dimension and a level below 5.
pub fn is_multiple(to: &Params, items: &[Item]) -> bool
    ensures { IsTrue result ↔ IsMultiple to.now items.now }
{
    let rest = items.len() % usize::from(to.lanes);
    if is_whole(to) { rest == 0 } else { true }
}
