ghost use Rattle.std.specs.Prelude.{◌≡◌, Bool, true, Option, Some, None, OnOk, IsOk};
ghost use Rattle.physical_stream.specs.Cycles.{Cycle, cycle_in};
ghost use Rattle.cycle_trace.specs.RowSink.{CanTake, IsHeader, begun_by, with_row};
ghost use Rattle.cycle_trace.specs.Trace.{TraceText};

use physical_stream::{Header, Row};
use std::alloc::Global;
use tydi_base::Memory;

/// A sink for the rows of a trace as they come, by cycle and in each cycle by stream. After `Memory` it is spent: the rows that it
/// stands for are not known.
pub trait RowSink: Drop {
    /// It stands for nothing, or for a header and the rows so far.
    ghost stands_for: { Self → Option TraceText → Type 0 };

    /// Whether `start` takes all the memory that is needed.
    ghost fixed: { Self → Bool };

    /// What is known of a sink before its first row.
    ghost Setting: { Type 0 };

    /// What the sink was made with. No call changes it.
    ghost setting: { Self → Setting };

    /// Begins with the header of a trace. `Memory` comes where the sink has none for it.
    fn start(&mut self, alloc: Global, header: &Header) -> Result<(), Memory>
        requires fresh { stands_for self.old None }
        requires header { IsHeader header.now }
        ensures started { OnOk result (stands_for self.new (Some (begun_by header.now))) }
        ensures fixed { fixed self.new ≡ fixed self.old }
        ensures setting { setting self.new ≡ setting self.old };

    /// Takes the next row. Where the sink is fixed it takes no memory.
    fn row(&mut self, alloc: Global, row: Row<'_>) -> Result<(), Memory>
        requires { (t : TraceText) × (stands_for self.old (Some t) × CanTake t (cycle_in row)) }
        ensures taken { (t : TraceText) → stands_for self.old (Some t) → CanTake t (cycle_in row.entry) → OnOk result (stands_for self.new (Some (with_row t (cycle_in row.entry)))) }
        ensures calm { fixed self.old ≡ true → IsOk result }
        ensures fixed { fixed self.new ≡ fixed self.old }
        ensures setting { setting self.new ≡ setting self.old };
}
