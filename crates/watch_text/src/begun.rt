use crate::nest::Nest;
use crate::opening::Opening;
use crate::watch::WStmt;
use tydi_base::List;

/// A statement that is begun: what stands around it, and the statements before it in its list.
#[derive(Drop)]
pub(crate) struct Begun {
    pub(crate) opening: Opening,
    pub(crate) nest: Nest,
    pub(crate) stmts: List<WStmt>,
}
