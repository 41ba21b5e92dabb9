//! A port's type, split into physical streams.

use logical_types::{LType, Sync};
use physical_stream::Params;
use tydi_base::{List, Path};

/// A port's type, split: its Streams as nodes, the physical streams among them, and the roots. All are numbered from 0. Which Streams
/// have a physical stream is the Tydi specification's; how nodes are numbered, and which are roots, is this project's own.
#[derive(Debug, Drop)]
pub struct Split<'t> {
    /// The Streams of the type in preorder: a Stream before those in its elements, parts in their order.
    pub nodes: List<Node<'t>>,
    /// The physical streams of the nodes, in the order of the nodes.
    pub streams: List<Phys>,
    /// The numbers of the nodes that are roots, in ascending order.
    pub roots: List<u32>,
}

/// A Stream of a port's type.
#[derive(Debug, Drop)]
pub struct Node<'t> {
    /// The names of the fields and variants that lead to it; empty for the outermost Stream.
    pub path: Path,
    /// The number of the node around it. None for the outermost.
    pub parent: Option<u32>,
    /// Its own dimensionality, without that of the nodes around it. `params` has the effective one.
    pub own_dims: u8,
    /// The parameters of its physical stream, whether it has one or not.
    pub params: Params,
    pub sync: Sync,
    /// Whether it flows against the port.
    pub reversed: bool,
    /// The number of the node whose series its elements belong to.
    pub root: u32,
    /// The number of its physical stream. None where it carries no bits and is not kept.
    pub phys: Option<u32>,
    /// The type of its elements.
    pub element: &'t LType,
}

/// A physical stream (Tydi specification, physical streams).
#[derive(Debug, Drop)]
pub struct Phys {
    /// The path of its node.
    pub path: Path,
    pub params: Params,
    /// Whether it flows against the port.
    pub reversed: bool,
    /// The number of the root of its node.
    pub root: u32,
    /// The number of its node.
    pub node: u32,
}
