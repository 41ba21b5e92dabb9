use logical_types::Around;

/// The surroundings of a type in a port's type.
#[derive(Clone, Copy)]
pub(crate) struct Place {
    /// The throughputs and the dimensionality around it.
    pub(crate) around: Around,
    /// The node around it. None for the outermost type.
    pub(crate) parent: Option<u32>,
    /// The root of the node around it.
    pub(crate) root: u32,
    /// Whether the node around it is reversed.
    pub(crate) reversed: bool,
}
