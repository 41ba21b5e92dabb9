/// One cycle of the far side: its ready bit, and whether the transfer that is kept is shown.
#[derive(Clone, Copy)]
pub(crate) struct Turn {
    pub ready: bool,
    pub shows: bool,
}
