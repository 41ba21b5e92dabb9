//! Streams of one lane, whose transfers can break few rules.

ghost use Rattle.std.specs.Prelude.{◌≡◌, ◌≤◌};
ghost use Rattle.physical_stream.specs.Items.{items_of};
ghost use Rattle.physical_stream.specs.Signals.{Fits};
ghost use Rattle.physical_stream.specs.declared.transfer.Transfer.{Transfer};
ghost use Rattle.complexity_rules.specs.Effect.{most_of_lane};
ghost use Rattle.complexity_rules.specs.Waiting.{IsLowestShown};
ghost use Rattle.complexity_rules.specs.Walk.{Finds};

use crate::breaking::{breaks_empty, breaks_nest};
use crate::last_item::LastItem;
use crate::walk::Walk;
use physical_stream::{Params, Rule, Transfer};

/// Walks over the items of a transfer of one lane, after an item of this kind.
#[inline(always)]
pub(crate) fn walk_over_one(p: &Params, transfer: &Transfer, tail: LastItem) -> Walk
    requires one { p.now.lanes ≡ 1 }
    requires fits { Fits p.now transfer.now }
    ensures found { Finds p.now.dims tail (items_of p.now transfer.now) result }
    ensures few { result.packets ≤ most_of_lane }
{
    Walk::after(tail).over_lane(p, transfer, 0)
}

/// The lowest rule, the one on waiting transfers aside, that a cycle breaks that shows a transfer of one lane.
#[inline(always)]
pub(crate) fn lowest_of_one(p: &Params, tail: LastItem, walk: &Walk) -> Option<Rule>
    requires one { p.now.lanes ≡ 1 }
    ensures { (t : Transfer) → Fits p.now t → Finds p.now.dims tail (items_of p.now t) walk.now → IsLowestShown p.now tail t result }
{
    if breaks_empty(p, tail, walk) {
        Some(Rule::Empty)
    } else if breaks_nest(p, walk) {
        Some(Rule::Nest)
    } else {
        None
    }
}
