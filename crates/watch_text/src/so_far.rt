use crate::begun::Begun;
use crate::nest::Nest;
use crate::stage::Stage;
use crate::watch::WStmt;
use tydi_base::List;

/// A process while it is read.
#[derive(Drop)]
pub(crate) struct SoFar {
    /// Which line comes next.
    pub(crate) stage: Stage,
    /// What stands around the statements.
    pub(crate) nest: Nest,
    /// The statements of the innermost list.
    pub(crate) stmts: List<WStmt>,
    /// The statements that are begun, the innermost last.
    pub(crate) begun: List<Begun>,
}
