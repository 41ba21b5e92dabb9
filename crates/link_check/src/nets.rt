//! Nets: what is tied to what in each implementation.

use til_resolve::LinkEnd;
use tydi_base::List;

/// The nets of a project's structural implementations, in text order.
#[derive(Debug, Drop)]
pub struct Nets {
    pub impls: List<ImplNets>,
}

/// The nets of the implementation of a streamlet, which is one of the project's, counted from 0. There is one for each link, in text
/// order.
#[derive(Debug, Drop)]
pub struct ImplNets {
    pub streamlet: u32,
    pub nets: List<Net>,
}

/// A link: the end that gives the data, and the end that takes it.
#[derive(Debug, Drop)]
pub struct Net {
    pub source: LinkEnd,
    pub sink: LinkEnd,
}
