//! The text of rows, as it is kept.

ghost use Rattle.std.specs.Prelude.{◌≡◌, ◌++◌, [], ℕ, List, OnOk, IfSome};
ghost use Rattle.cycle_trace.specs.Spelling.{row_text};
ghost use Rattle.physical_stream.specs.Cycles.{cycle_in};
ghost use Rattle.physical_stream.specs.Signals.{Shows};
ghost use Rattle.vcd_read.specs.Kept.{IsKept};

use cycle_trace::write_row;
use physical_stream::{Params, Row};
use std::alloc::Global;
use tydi_base::{List, Memory};

/// The most bytes that are kept: 64 MiB.
pub(crate) const MOST_KEPT: usize = 67_108_864;

/// The text of rows, while it has at most 64 MiB.
#[derive(Drop)]
pub(crate) struct KeptRows {
    pub(crate) text: List<u8>,
    /// Whether the text is too long, and no longer kept.
    pub(crate) over: bool,
}

impl KeptRows {
    /// No rows.
    pub(crate) fn new(alloc: Global) -> KeptRows
        ensures { IsKept result [] }
    {
        KeptRows {
            text: List::new(alloc),
            over: false,
        }
    }

    /// Adds the text of a row.
    pub(crate) fn write(
        &mut self,
        alloc: Global,
        params: &Params,
        row: Row<'_>,
    ) -> Result<(), Memory>
        requires { IfSome (cycle_in row).shown (Shows params.now) }
        ensures { OnOk result ((text : List ℕ) → IsKept self.old text → IsKept self.new (text ++ row_text params.now (cycle_in row.entry))) }
    {
        if self.over {
            return Ok(());
        }
        write_row(alloc, &mut self.text, params, row)?;
        if self.text.len() > MOST_KEPT {
            self.over = true;
            self.text = List::new(alloc);
        }
        Ok(())
    }
}
