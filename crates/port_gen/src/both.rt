//! Two sinks of rows as one.

ghost use Rattle.std.specs.Prelude.{◌&&◌};

use cycle_trace::RowSink;
use physical_stream::{Header, Row};
use std::alloc::Global;
use tydi_base::Memory;

/// Two sinks, each of which takes all rows. It is a fixed sink where both are.
#[derive(Drop)]
pub(crate) struct Both<A: RowSink, B: RowSink> {
    pub(crate) one: A,
    pub(crate) other: B,
}

impl<A: RowSink, B: RowSink> RowSink for Both<A, B> {
    ghost stands_for = { λ both said. A.stands_for both.one said × B.stands_for both.other said };

    ghost fixed = { λ both. A.fixed both.one && B.fixed both.other };

    ghost Setting = { A.Setting × B.Setting };

    ghost setting = { λ both. (A.setting both.one, B.setting both.other) };

    fn start(&mut self, alloc: Global, header: &Header) -> Result<(), Memory> {
        self.one.start(alloc, header)?;
        self.other.start(alloc, header)
    }

    fn row(&mut self, alloc: Global, row: Row<'_>) -> Result<(), Memory> {
        self.one.row(alloc, row)?;
        self.other.row(alloc, row)
    }
}
