//! The flat form of a series.

ghost use Rattle.std.specs.Prelude.{◌≡◌, ◌++◌, IfOk, OnOk};
ghost use Rattle.nest_shape.specs.Flat as spec;
ghost use Rattle.nest_shape.specs.Flat.{IsSeries};
ghost use Rattle.nest_shape.specs.Tree.{plain, plain_nests};

use crate::nest::Nest;
use physical_stream::Item;
use std::alloc::Global;
use tydi_base::{List, Memory, TryClone};

/// The items of a series of this dimensionality: a leaf is an element, and a list is its parts and then a Close. Memory comes where there
/// is none for the items. The flat form is this project's own.
pub fn flatten(alloc: Global, dims: u8, series: &[Nest]) -> Result<List<Item>, Memory>
    requires { IsSeries dims series.now }
    ensures { IfOk result (λ items. items ≡ spec.flat_form dims series.now) }
{
    let mut items = List::new(alloc);
    push_nests(alloc, &mut items, dims, series)?;
    Ok(items)
}

/// Adds the items of nests of this depth.
#[cycle(flatten)]
fn push_nests(
    alloc: Global,
    items: &mut List<Item>,
    depth: u8,
    nests: &[Nest],
) -> Result<(), Memory>
    ensures { OnOk result (items.new ≡ items.old ++ spec.flat_all depth (plain_nests nests.now)) }
{
    'nests: for nest in nests {
        push_nest(alloc, items, depth, nest)?;
    }
    Ok(())
}

/// Adds the items of a nest of this depth.
#[cycle(flatten)]
fn push_nest(alloc: Global, items: &mut List<Item>, depth: u8, nest: &Nest) -> Result<(), Memory>
    ensures { OnOk result (items.new ≡ items.old ++ spec.flat depth (plain nest.now)) }
{
    match nest {
        Nest::Leaf(word) => {
            let copy = word.try_clone(alloc)?;
            items.push(Item::Elem(copy))
        }
        Nest::List(parts) => {
            let dim = depth.saturating_sub(1);
            push_nests(alloc, items, dim, parts.as_slice())?;
            items.push(Item::Close(dim))
        }
    }
}
