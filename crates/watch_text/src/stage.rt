use crate::opening::Opening;

/// Which line of a process comes next.
#[derive(Clone, Copy)]
pub(crate) enum Stage {
    /// The first line of a statement, or the last one of the statement around it.
    Free,
    /// The line of a need that counts the place.
    Counts(Opening),
    /// The line between both cases of a need.
    Otherwise(Opening),
    /// The line of a need that raises the fault.
    Raises(Opening),
    /// The line of a need that waits for ever.
    Stops(Opening),
    /// The last line of a need.
    Ends(Opening),
}
