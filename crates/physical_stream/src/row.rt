use crate::transfer::Transfer;

/// One stream in one cycle. Its valid is that a transfer is shown.
#[derive(Clone, Copy)]
pub struct Row<'a> {
    pub ready: bool,
    pub shown: Option<&'a Transfer>,
}
