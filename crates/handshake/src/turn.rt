/// One row of a port: its stream from 0, its ready bit, and whether the transfer that the stream's cursor holds is shown.
#[derive(Clone, Copy)]
pub(crate) struct Turn {
    pub stream: usize,
    pub ready: bool,
    pub shows: bool,
}
