/// Which text a port that is driven gives.
#[derive(Clone, Copy)]
pub(crate) enum DrivenText {
    /// The trace that drives it.
    Trace,
    /// The testbench that drives it.
    Bench,
}
