/// The statement of which a line is the first one.
#[derive(Clone, Copy)]
pub(crate) enum Opening {
    /// A loop over the lanes.
    Lanes,
    /// A loop over the dimensions.
    Dims,
    /// A test of the lane.
    IfActive,
    /// A test of the last bit.
    IfLast,
    /// A need of an element.
    NeedElem,
    /// A need of a Close.
    NeedClose,
}
