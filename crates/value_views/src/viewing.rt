//! The view of a physical stream.

ghost use Rattle.std.specs.Prelude.{◌≡◌, ◌<◌, true, length, map, IfOk, Some, slice_get, option_map};
ghost use Rattle.logical_value.specs.Fits.{fits_split};
ghost use Rattle.logical_value.specs.Tree.{plain_port};
ghost use Rattle.nest_shape.specs.Tree.{plain};
ghost use Rattle.type_split.specs.Streams.{IsPortSplit, plain_split};
ghost use Rattle.value_views.specs.Series.{series_of_nodes};
ghost use Rattle.value_views.specs.Views.{view_of, view_of_stream};
ghost use Rattle.value_views.specs.Way.{LeadsToNode, root_of};

use crate::gathering::Gathering;
use crate::way::{Finding, Step};
use logical_value::PortValue;
use nest_shape::Nest;
use std::alloc::Global;
use tydi_base::{List, Memory};
use type_split::{Node, Split};

/// The view of the physical stream of this number, for a value of the port's type: the series of its node, with a word in place of each
/// leaf. Each member has the depth of the stream's dimensionality, and each word the width of its elements. It is linear in the series
/// of the node's root. Memory comes where there is none for the view. Views are this project's own, after the nested streams of the
/// Tydi specification.
pub fn view(
    alloc: Global,
    split: &Split<'_>,
    value: &PortValue,
    stream: usize,
) -> Result<List<Nest>, Memory>
    requires split { IsPortSplit (plain_split split.now) }
    requires fits { fits_split (plain_split split.now) (plain_port value.now) ≡ true }
    requires stream { stream < length split.now.streams }
    ensures { IfOk result (λ view. view_of_stream (plain_split split.now) (plain_port value.now) stream ≡ Some (map plain view)) }
{
    let number = split.streams.as_slice()[stream].node;
    let found = find_node(alloc, split, number)?;
    let root = found.root.unwrap_or(0);
    gather_node(alloc, split, value, number, root, found.way.as_slice())
}

/// Finds the way from a root to the node of this number.
pub(crate) fn find_node(alloc: Global, split: &Split<'_>, number: u32) -> Result<Finding, Memory>
    requires split { IsPortSplit (plain_split split.now) }
    requires number { number < length split.now.nodes }
    ensures { IfOk result (λ found. LeadsToNode (plain_split split.now) number (root_of found.root) found.way.items) }
{
    let mut finding = Finding::new(alloc, number);
    finding.find_in_port(split.nodes.as_slice()[0].element)?;
    Ok(finding)
}

/// The view of the node of this number, gathered along a way from the root of this number among the roots.
fn gather_node(
    alloc: Global,
    split: &Split<'_>,
    value: &PortValue,
    number: u32,
    root: usize,
    way: &[Step],
) -> Result<List<Nest>, Memory>
    requires split { IsPortSplit (plain_split split.now) }
    requires fits { fits_split (plain_split split.now) (plain_port value.now) ≡ true }
    requires leads { LeadsToNode (plain_split split.now) number root way.now }
    ensures { IfOk result (λ view. option_map view_of (slice_get (series_of_nodes (plain_split split.now).nodes (plain_port value.now)) number) ≡ Some (map plain view)) }
{
    let start = split.roots.as_slice()[root];
    let depth = dims_of(&split.nodes.as_slice()[start as usize]);
    let gathering = Gathering {
        alloc,
        element: split.nodes.as_slice()[number as usize].element,
    };
    let series = value.roots.as_slice()[root].as_slice();
    let mut view = List::new(alloc);
    gathering.gather(way, depth, series, &mut view)?;
    Ok(view)
}

/// The effective dimensionality of a node.
pub(crate) fn dims_of(node: &Node<'_>) -> u64
    ensures { result ≡ node.now.params.dims }
{
    u64::from(node.params.dims)
}
