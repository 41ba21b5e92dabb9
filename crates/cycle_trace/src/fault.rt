ghost use Rattle.std.specs.Prelude.{◌≡◌};
ghost use Rattle.cycle_trace.specs.declared.fault.TraceFault.TheVariants as faults;

use tydi_base::Memory;

/// Why a text was not read as a trace. Lines are numbered from 1.
#[derive(Clone, Copy, Debug, PartialEq, Eq)]
pub enum TraceFault {
    /// This line of the header is missing, is not of its form, has parameters out of range or repeats a path, or its stream is
    /// past the 65,536th.
    BadHeader(u64),
    /// The header is right, and has more than 1,000,000 cycles.
    TooManyCycles,
    /// This line is not of the form of a row, or does not end with LF.
    BadRow(u64),
    /// This line is of the form of a row, and the signals shown are not those of its stream, or a value does not fit its width.
    WrongSignals(u64),
    /// The text ends after so many rows.
    RowsMissing { want: u64, got: u64 },
    /// This line follows the last row.
    RowsLeft(u64),
    /// There was no memory.
    Memory,
}

impl From<Memory> for TraceFault {
    ghost from_gives = { λ _ e. e ≡ faults.Memory };

    fn from(_error: Memory) -> TraceFault {
        TraceFault::Memory
    }
}
