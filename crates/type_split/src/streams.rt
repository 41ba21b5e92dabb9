//! The physical streams and the roots of nodes.

ghost use Rattle.std.specs.Prelude.{◌≡◌, ◌≤◌, ◌++◌, map, length, IfOk, OnOk};
ghost use Rattle.type_split.specs.Streams.{gathered, node_view, root_at, stream_at};

use crate::split::{Node, Phys};
use std::alloc::Global;
use tydi_base::{List, Memory, TryClone};

/// The physical streams of nodes, in their order.
pub(crate) fn streams_of(alloc: Global, nodes: &[Node<'_>]) -> Result<List<Phys>, Memory>
    requires { length nodes.now ≤ 65536 }
    ensures { IfOk result (λ streams. streams ≡ gathered stream_at 0 (map node_view nodes.now)) }
{
    let mut streams = List::new(alloc);
    'nodes: for number in 0..nodes.len() {
        push_stream(alloc, number as u32, &nodes[number], &mut streams)?;
    }
    Ok(streams)
}

/// Adds the physical stream of the node of this number, where it has one.
fn push_stream(
    alloc: Global,
    number: u32,
    node: &Node<'_>,
    streams: &mut List<Phys>,
) -> Result<(), Memory>
    ensures { OnOk result (streams.new ≡ streams.old ++ stream_at number (node_view node.now)) }
{
    if node.phys.is_some() {
        streams.push(Phys {
            path: node.path.try_clone(alloc)?,
            params: node.params,
            reversed: node.reversed,
            root: node.root,
            node: number,
        })?;
    }
    Ok(())
}

/// The numbers of the nodes that are roots.
pub(crate) fn roots_of(alloc: Global, nodes: &[Node<'_>]) -> Result<List<u32>, Memory>
    requires { length nodes.now ≤ 65536 }
    ensures { IfOk result (λ roots. roots ≡ gathered root_at 0 (map node_view nodes.now)) }
{
    let mut roots = List::new(alloc);
    'nodes: for number in 0..nodes.len() {
        push_root(number as u32, &nodes[number], &mut roots)?;
    }
    Ok(roots)
}

/// Adds the number of a node where it is a root.
fn push_root(number: u32, node: &Node<'_>, roots: &mut List<u32>) -> Result<(), Memory>
    ensures { OnOk result (roots.new ≡ roots.old ++ root_at number (node_view node.now)) }
{
    if node.root == number {
        roots.push(number)?;
    }
    Ok(())
}
