//! The front of a list of items, item after item.

ghost use Rattle.std.specs.Prelude.{◌≡◌, ◌<◌, ◌≤◌, ◌∷◌, [], true, false, MatchOption, length};
ghost use Rattle.scheduler.specs.Laws.{AreItems};
ghost use Rattle.reshape.specs.Fronts.{goes_on, with_item, no_front, IsBegun, IsFront};

use crate::front::Front;
use physical_stream::{Item, Params};
use std::collections::VecDeque;

impl Front {
    // The front with no item.
    pub(crate) fn none() -> Front
        ensures { result ≡ no_front }
    {
        Front {
            elements: 0,
            least: 0,
            size: 0,
        }
    }

    // The front with this item alone.
    pub(crate) fn of(p: &Params, item: &Item) -> Front
        requires { AreItems p.now (item.now ∷ []) }
        ensures { result ≡ with_item no_front item.now }
    {
        let _dims = p.dims;
        match item {
            Item::Elem(_) => Front {
                elements: 1,
                least: 0,
                size: 1,
            },
            Item::Close(dim) => Front {
                elements: 0,
                least: *dim + 1,
                size: 1,
            },
        }
    }

    // The front with this item behind its own. None exactly where it does not go on with it.
    pub(crate) fn with(self, p: &Params, item: &Item) -> Option<Front>
        requires fits { AreItems p.now (item.now ∷ []) }
        requires room { self.size < usize.MAX }
        ensures { MatchOption result (goes_on p.now.lanes self item.now ≡ false) (λ more. (goes_on p.now.lanes self item.now ≡ true) × (more ≡ with_item self item.now)) }
    {
        match item {
            Item::Elem(_) => {
                if self.least > 0 || self.elements >= p.lanes {
                    return None;
                }
                Some(Front {
                    elements: self.elements + 1,
                    least: self.least,
                    size: self.size + 1,
                })
            }
            Item::Close(dim) => {
                if *dim < self.least {
                    return None;
                }
                Some(Front {
                    elements: self.elements,
                    least: *dim + 1,
                    size: self.size + 1,
                })
            }
        }
    }
}

// The front of these items, of which the first are known to be of it.
pub(crate) fn extend(p: &Params, items: &VecDeque<Item>, begun: Front) -> Front
    requires fit { AreItems p.now items.now.items }
    requires begun { IsBegun p.now items.now.items begun }
    ensures { IsFront p.now items.now.items result }
{
    let mut front = begun;
    'items: while front.size < items.len() {
        match front.with(p, &items[front.size]) {
            Some(more) => front = more,
            None => return front,
        }
    }
    front
}
