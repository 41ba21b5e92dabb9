/// How far the front of a list of items reaches: its elements, and then Closes of ascending dimensions.
#[derive(Clone, Copy)]
pub(crate) struct Front {
    /// Its elements, one for each lane from lane 0 on.
    pub elements: u16,
    /// One more than the dimension of its last Close; 0 where it has none.
    pub least: u8,
    /// Its items.
    pub size: usize,
}
