use signal_layout::Signal;

/// A signal of the stream of this number.
#[derive(Clone, Copy)]
pub(crate) struct Place {
    pub(crate) stream: u32,
    pub(crate) signal: Signal,
}
