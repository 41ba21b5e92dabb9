use tydi_base::Bits;

/// An item of a transfer; a transfer carries its items lane by lane.
#[derive(Debug, Drop)]
pub enum Item {
    /// An element, as its word of bits.
    Elem(Bits),
    /// The end of a sequence of this dimension, 0 being the innermost.
    Close(u8),
}

/// The kind of the last item.
#[derive(Clone, Copy, Debug, PartialEq, Eq)]
pub enum Tail {
    /// An element.
    Elem,
    /// The end of a sequence of this dimension, 0 being the innermost.
    Close(u8),
}
