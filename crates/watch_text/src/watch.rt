use physical_stream::{Head, Item};
use tydi_base::List;

/// A statement of a process of a monitor, as it runs at an edge at which a transfer is done (IEEE 1076, sequential statements).
#[derive(Drop)]
pub enum WStmt {
    /// Goes through the lanes, from 0, and runs these statements for each.
    Lanes(List<WStmt>),
    /// Goes through the dimensions, from 0, and runs these statements for each.
    Dims(List<WStmt>),
    /// Runs these statements where the lane is active.
    IfActive(List<WStmt>),
    /// Runs these statements where the last bit of the lane and the dimension is 1.
    IfLast(List<WStmt>),
    /// Asks that the next expected item is the element of the lane.
    NeedElem,
    /// Asks that the next expected item is the end of a sequence of the dimension.
    NeedClose,
}

/// A monitor: for each stream that it watches, the items that it expects, and the statements of its process. Its plain form is
/// `plain_watch` of `specs/Statements.antt`.
#[derive(Drop)]
pub struct Watch {
    pub heads: List<Head>,
    pub want: List<List<Item>>,
    pub procs: List<List<WStmt>>,
}
