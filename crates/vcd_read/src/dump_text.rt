//! The text of the trace of a dump.

ghost use Rattle.std.specs.Prelude.{◌≡◌, ◌≤◌, ◌++◌, ℕ, List, IfOk, IsTrue, option_map};
ghost use Rattle.cycle_trace.specs.Spelling.{header_text};
ghost use Rattle.cycle_trace.specs.Trace.{are_heads, most_cycles};
ghost use Rattle.cycle_trace.specs.Version.{version_of};
ghost use Rattle.vcd_read.specs.Kept.{IsKept, bytes_of, if_kept};

use crate::kept_rows::{KeptRows, MOST_KEPT};
use cycle_trace::write_header;
use physical_stream::{Head, Header};
use std::alloc::Global;
use tydi_base::{List, Memory};

/// The text of a trace, in two parts: its header, and its rows.
#[derive(Drop)]
pub struct DumpText {
    pub header: List<u8>,
    pub rows: List<u8>,
}

/// The text of so many cycles of streams with these heads, of which the rows are kept. None exactly where it has over 64 MiB. `Memory` comes
/// where there is none for the header.
pub(crate) fn dump_text(
    alloc: Global,
    heads: List<Head>,
    cycles: u32,
    rows: KeptRows,
) -> Result<Option<DumpText>, Memory>
    requires few { cycles ≤ most_cycles }
    requires apart { IsTrue (are_heads heads) }
    ensures { IfOk result (λ made. (text : List ℕ) → IsKept rows text →
        option_map bytes_of made ≡ if_kept (header_text (version_of heads) cycles heads ++ text)) }
{
    let mut header = List::new(alloc);
    write_header(alloc, &mut header, &Header { cycles, heads })?;
    let KeptRows { text, over } = rows;
    if over || header.len().saturating_add(text.len()) > MOST_KEPT {
        return Ok(None);
    }
    Ok(Some(DumpText { header, rows: text }))
}
