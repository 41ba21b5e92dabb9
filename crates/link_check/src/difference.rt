//! A difference of two types.

use tydi_base::Path;

/// In what the types of two linked ends differ, in the order in which it is looked for at one node.
#[derive(Clone, Copy, Debug, PartialEq, Eq)]
pub enum Why {
    /// Another kind of type, another width of Bits, or other names, another order or another number of parts.
    Shape,
    /// Another throughput.
    Throughput,
    /// Another dimensionality.
    Dims,
    /// Another synchronicity.
    Sync,
    /// The data goes from a higher level of complexity to a lower one.
    Level,
    /// One of the two is reversed.
    Direction,
    /// Another user type.
    User,
    /// One of the two is kept where it carries no bits.
    Keep,
}

/// Where two types differ.
#[derive(Debug, Drop)]
pub struct Difference {
    /// The names of the fields and variants that lead to it.
    pub path: Path,
    /// In what they differ there.
    pub why: Why,
}
