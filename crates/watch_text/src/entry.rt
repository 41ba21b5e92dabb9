use physical_stream::Item;

/// An entry of a table.
#[derive(Drop)]
pub(crate) enum Entry {
    /// An item that is expected.
    Item(Item),
    /// The end of the table.
    End,
}
