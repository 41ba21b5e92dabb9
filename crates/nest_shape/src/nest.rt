//! A nest.

use tydi_base::{Bits, List};

/// Lists inside lists, with words in the innermost, which a stream of some dimensionality carries (after the Tydi specification's
/// dimensions).
#[derive(Debug, Drop)]
pub enum Nest {
    /// A word, of depth 0.
    Leaf(Bits),
    /// A list, whose depth is one more than that of its parts.
    List(List<Nest>),
}
