/// One row of a port: its stream from 0, and its ready bit.
#[derive(Clone, Copy)]
pub(crate) struct Turn {
    pub stream: usize,
    pub ready: bool,
}
