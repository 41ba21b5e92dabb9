//! The stages of reading processes.

/// Which line of a process comes next.
#[derive(Clone, Copy)]
pub(crate) enum Stage {
    /// The first line of a process.
    Between,
    /// Its begin.
    Begin,
    /// A statement.
    Statements,
    /// The second line of a pause of so many edges.
    Inside(u32),
    /// The last line of such a pause.
    Ending(u32),
    /// The end of the process.
    EndProcess,
}
