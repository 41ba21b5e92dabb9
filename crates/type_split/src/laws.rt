//! The laws of all splits of ports' types.

ghost use Rattle.type_split.specs.Elements.{NodesHaveElements};
ghost use Rattle.type_split.specs.Standing.{AreToldWhereCarried, NodesHaveDims, NodesStand, RootsInOrder};

/// The type of each node's elements has no error but of throughputs, lanes and dimensions, at most 65,536 nodes, and at most 4,096
/// bits.
pub fn nodes_have_elements()
    ensures { NodesHaveElements }
{}

/// The nodes inside a node stand right behind it, as the recursion on the type of its elements has them.
pub fn nodes_stand_as_their_types()
    ensures { NodesStand }
{}

/// The effective dimensionality of a node is its own, with that of its parent where it is Sync or Desync.
pub fn nodes_have_dims()
    ensures { NodesHaveDims }
{}

/// The roots are the outermost Stream, and then the Desync and FlatDesync Streams in preorder.
pub fn roots_stand_in_order()
    ensures { RootsInOrder }
{}

/// Where all nodes are carried, a node without a physical stream has elements without bits, and a Sync Stream right inside it is carried.
pub fn carried_nodes_are_told()
    ensures { AreToldWhereCarried }
{}
