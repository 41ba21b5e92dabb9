/// A row of a trace: its cycle and its stream, numbered from 0.
#[derive(Clone, Copy)]
pub(crate) struct Place {
    pub(crate) cycle: u32,
    pub(crate) stream: usize,
}
