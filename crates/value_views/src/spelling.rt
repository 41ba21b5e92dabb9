//! The items of the view of a physical stream. Where the stream's node is a root, no view is made for them.

ghost use Rattle.std.specs.Prelude.{◌≡◌, ◌++◌, ◌<◌, [], true, suc, length, map, option_map, slice_get, List, Some, IfOk, OnOk};
ghost use Rattle.logical_types.specs.Tree.{plain};
ghost use Rattle.logical_value.specs.Fits.{fits_split};
ghost use Rattle.logical_value.specs.Tree as tree;
ghost use Rattle.nest_shape.specs.Flat.{flat, flat_all};
ghost use Rattle.nest_shape.specs.Tree as nests;
ghost use Rattle.type_split.specs.Streams.{IsPortSplit, plain_split};
ghost use Rattle.type_split.specs.declared.split.Phys.{Phys};
ghost use Rattle.value_views.specs.Series.{series_of_nodes};
ghost use Rattle.value_views.specs.Spelled.{flat_of, spelled};
ghost use Rattle.value_views.specs.Views.{packed, view_of_stream};
ghost use Rattle.value_views.specs.Way.{CanGather, CanGatherAll, LeadsToNode};

use crate::gathering::{Gathering, members_of};
use crate::viewing::{find_node, view};
use logical_value::{PortValue, Value, pack};
use nest_shape::flatten;
use physical_stream::Item;
use std::alloc::Global;
use tydi_base::{List, Memory};
use type_split::{Node, Split};

/// The items that carry a value of the port's type on the physical stream of this number: the flat form of its view, in the stream's
/// dimensions. It is linear in the series of the node's root. Memory comes where there is none for the items. The flat form is this
/// project's own.
pub fn view_items(
    alloc: Global,
    split: &Split<'_>,
    value: &PortValue,
    stream: usize,
) -> Result<List<Item>, Memory>
    requires split { IsPortSplit (plain_split split.now) }
    requires fits { fits_split (plain_split split.now) (tree.plain_port value.now) ≡ true }
    requires stream { stream < length split.now.streams }
    ensures { IfOk result (λ items. (phys : Phys) (view : List nests.Tree) → slice_get split.now.streams stream ≡ Some phys
        → view_of_stream (plain_split split.now) (tree.plain_port value.now) stream ≡ Some view → items ≡ flat_all phys.params.dims (nests.trees_of view)) }
{
    let number = split.streams.as_slice()[stream].node;
    let found = find_node(alloc, split, number)?;
    let root = found.root.unwrap_or(0);
    if found.way.is_empty() {
        return root_items(alloc, split, value, number, root);
    }
    nested_items(alloc, split, value, stream)
}

/// The same, by the view.
fn nested_items(
    alloc: Global,
    split: &Split<'_>,
    value: &PortValue,
    stream: usize,
) -> Result<List<Item>, Memory>
    requires split { IsPortSplit (plain_split split.now) }
    requires fits { fits_split (plain_split split.now) (tree.plain_port value.now) ≡ true }
    requires stream { stream < length split.now.streams }
    ensures { IfOk result (λ items. (phys : Phys) (view : List nests.Tree) → slice_get split.now.streams stream ≡ Some phys
        → view_of_stream (plain_split split.now) (tree.plain_port value.now) stream ≡ Some view → items ≡ flat_all phys.params.dims (nests.trees_of view)) }
{
    let series = view(alloc, split, value, stream)?;
    let phys = &split.streams.as_slice()[stream];
    flatten(alloc, phys.params.dims, series.as_slice())
}

/// The items of the view of the node of this number, which is the root of this number among the roots.
fn root_items(
    alloc: Global,
    split: &Split<'_>,
    value: &PortValue,
    number: u32,
    root: usize,
) -> Result<List<Item>, Memory>
    requires split { IsPortSplit (plain_split split.now) }
    requires fits { fits_split (plain_split split.now) (tree.plain_port value.now) ≡ true }
    requires leads { LeadsToNode (plain_split split.now) number root [] }
    ensures { IfOk result (λ items. option_map flat_of (slice_get (series_of_nodes (plain_split split.now).nodes (tree.plain_port value.now)) number) ≡ Some items) }
{
    let start = split.roots.as_slice()[root];
    let depth = own_dims(&split.nodes.as_slice()[start as usize]);
    let gathering = Gathering {
        alloc,
        element: split.nodes.as_slice()[number as usize].element,
    };
    let series = value.roots.as_slice()[root].as_slice();
    let mut items = List::new(alloc);
    gathering.spell(depth, series, &mut items)?;
    Ok(items)
}

/// The effective dimensionality of a node.
fn own_dims(node: &Node<'_>) -> u8
    ensures { result ≡ node.now.params.dims }
{
    node.params.dims
}

impl Gathering<'_> {
    /// Adds the items of the view of values of this depth, which are elements or lists of them.
    #[cycle(spell)]
    pub(crate) fn spell(
        &self,
        depth: u8,
        values: &[Value],
        items: &mut List<Item>,
    ) -> Result<(), Memory>
        requires { CanGatherAll (plain self.now.element.now) [] depth (map tree.plain values.now) }
        ensures { OnOk result (items.new ≡ items.old ++ spelled (plain self.now.element.now) depth (map tree.plain values.now)) }
    {
        'values: for value in values {
            self.spell_value(depth, value, items)?;
        }
        Ok(())
    }

    /// Adds the items of the view of a value of this depth.
    #[cycle(spell)]
    fn spell_value(&self, depth: u8, value: &Value, items: &mut List<Item>) -> Result<(), Memory>
        requires { CanGather (plain self.now.element.now) [] depth (tree.plain value.now) }
        ensures { OnOk result (items.new ≡ items.old ++ flat depth (packed (plain self.now.element.now) depth (tree.plain value.now))) }
    {
        if depth == 0 {
            self.spell_leaf(value, items)
        } else {
            self.spell_list(depth - 1, value, items)
        }
    }

    /// Adds the items of the view of a list of values of this depth.
    #[cycle(spell)]
    fn spell_list(&self, depth: u8, value: &Value, items: &mut List<Item>) -> Result<(), Memory>
        requires { CanGather (plain self.now.element.now) [] (suc depth) (tree.plain value.now) }
        ensures { OnOk result (items.new ≡ items.old ++ flat (suc depth) (packed (plain self.now.element.now) (suc depth) (tree.plain value.now))) }
    {
        self.spell(depth, members_of(value), items)?;
        items.push(Item::Close(depth))
    }

    /// Adds the element that a value is.
    fn spell_leaf(&self, value: &Value, items: &mut List<Item>) -> Result<(), Memory>
        requires { CanGather (plain self.now.element.now) [] 0 (tree.plain value.now) }
        ensures { OnOk result (items.new ≡ items.old ++ flat 0 (packed (plain self.now.element.now) 0 (tree.plain value.now))) }
    {
        let word = pack(self.alloc, self.element, value)?;
        items.push(Item::Elem(word))
    }
}
