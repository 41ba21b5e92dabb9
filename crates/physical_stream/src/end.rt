/// How the cycles of a stream end.
#[derive(Clone, Copy, Debug, PartialEq, Eq)]
pub enum End {
    /// Nothing is left open.
    Whole,
    /// A transfer was offered and not taken.
    Pending,
    /// The sequences of this dimension and above are open; 0 where the last item is an element.
    Unclosed(u8),
}
