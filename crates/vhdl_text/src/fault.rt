ghost use Rattle.std.specs.Prelude.{◌≡◌};
ghost use Rattle.vhdl_text.specs.declared.fault.VhdlFault.TheVariants as faults;

use tydi_base::Memory;

/// Why a text was not read as a bench: the first line that stops it, by the offset of its first byte, counted from 0. A line that is stopped
/// by several of these has the first of them.
#[derive(Clone, Copy, Debug, PartialEq, Eq)]
pub enum VhdlFault {
    /// No line of this form can stand here, its vector has another width than its signal, it repeats the path of a stream or is one stream or
    /// process too many, or a line has to follow where the text ends.
    NotForm(usize),
    /// The line assigns to a name that is no valid or payload port, or waits for a name that is no ready port.
    UnknownSignal(usize),
    /// The line assigns to a signal to which an earlier process assigns.
    TwoDrivers(usize),
    /// There was no memory.
    Memory,
}

impl From<Memory> for VhdlFault {
    ghost from_gives = { λ _ e. e ≡ faults.Memory };

    fn from(_error: Memory) -> VhdlFault {
        VhdlFault::Memory
    }
}
