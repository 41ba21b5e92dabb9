use crate::last_item::LastItem;

/// The changes that a transfer makes when it is done.
#[derive(Clone, Copy, Debug)]
pub(crate) struct Effect {
    /// The kind of the last item then.
    pub tail: LastItem,
    /// The packets that it ends.
    pub packets: u64,
}
