use tydi_base::List;

/// The texts of the lines of a stream's table that do not depend on its items.
#[derive(Drop)]
pub(crate) struct Shape {
    /// How wide an element is.
    pub(crate) element: usize,
    /// How many dimensions the stream has.
    pub(crate) dims: u8,
    /// The line of the type before the number of the last entry.
    pub(crate) type_front: List<u8>,
    /// The same line after that number.
    pub(crate) type_back: List<u8>,
    /// The line before the entries.
    pub(crate) table_line: List<u8>,
    /// The digits before an element.
    pub(crate) elem_front: List<u8>,
    /// The digits before the dimension of a Close.
    pub(crate) close_front: List<u8>,
    /// The digits of the last entry, and the end of its line.
    pub(crate) end_text: List<u8>,
}
