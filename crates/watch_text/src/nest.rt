/// What stands around statements.
#[derive(Clone, Copy)]
pub(crate) struct Nest {
    /// Whether a loop over the lanes does.
    pub(crate) in_lanes: bool,
    /// Whether a loop over the dimensions does.
    pub(crate) in_dims: bool,
    /// How many lists may still stand in one another inside.
    pub(crate) room: u8,
}
