/// How far the processes of a bench are written: the stream whose process comes next, and whether this process is begun.
#[derive(Clone, Copy)]
pub struct Spot {
    pub(crate) stream: usize,
    pub(crate) begun: bool,
}
