ghost use Rattle.std.specs.Prelude.{◌↔◌, ◌≤◌, IsTrue};
ghost use Rattle.scheduler.specs.Laws.{IsMultiple};
ghost use Rattle.scheduler.specs.Schedules.{IsWhole};

use physical_stream::{Item, Params};

// Whether each transfer has an element in every lane.
fn is_whole(p: &Params) -> bool
    ensures { IsTrue result ↔ IsWhole p.now }
{
    p.dims == 0 && p.level.number() <= 4
}

// Whether the lanes divide the elements, where each transfer has an element in every lane.
pub(crate) fn is_multiple(p: &Params, items: &[Item]) -> bool
    ensures multiple { IsTrue result ↔ IsMultiple p.now items.now }
    ensures some { 1 ≤ p.now.lanes }
    ensures most { p.now.lanes ≤ 128 }
{
    let rest = items.len() % usize::from(p.lanes);
    if is_whole(p) { rest == 0 } else { true }
}
