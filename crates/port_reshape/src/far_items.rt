/// What the items of a stream are at the far side.
#[derive(Clone, Copy)]
pub(crate) struct FarItems {
    /// The lanes divide them, where each transfer has an element in every lane.
    pub divides: bool,
    pub count: usize,
    /// The transfers that are planned for them.
    pub planned: usize,
}
