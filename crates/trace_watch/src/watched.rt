/// The answer of a process of a monitor for its stream.
#[derive(Clone, Copy, Debug, PartialEq, Eq)]
pub struct StreamWatched {
    /// How many items were as expected, up to the first that was not.
    pub place: u32,
    /// The cycle in which the process raised its fault, counted from 0. None where it did not.
    pub report: Option<u32>,
}
