ghost use Rattle.std.specs.Prelude.{◌≡◌, ◌+◌, ◌≤◌, length, vec_capacity};
ghost use Rattle.std.specs.List.{All};
ghost use Rattle.scheduler.specs.Laws.{AreItems};
ghost use Rattle.scheduler.specs.Widths.{plan_props};
ghost use Rattle.reshape.specs.Held.{held_in};

use physical_stream::{Item, Params};
use std::collections::VecDeque;
use tydi_base::Bits;

/// Items in order, the first first. Its memory is taken once, and its elements share a number of words.
#[derive(Drop)]
pub(crate) struct Buffer {
    /// The stream whose items they are.
    pub params: Params,
    pub items: VecDeque<Item>,
    /// The words that no element has, each as wide as an element.
    pub words: Vec<Bits>,
    /// The elements that it has words for, free or not.
    pub most: u32,
    ghost fit: { AreItems params items.items } by { Prim.hlevel plan_props },
    ghost wide: { All (λ word. length word ≡ params.element) words.items },
    ghost total: { held_in items.items + length words.items ≡ most },
    ghost room: { most ≤ vec_capacity words },
}
