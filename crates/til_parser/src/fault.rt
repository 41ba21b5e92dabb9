ghost use Rattle.std.specs.Prelude.{◌≡◌};
ghost use Rattle.til_parser.specs.declared.fault.ParseFault.TheVariants as faults;

use tydi_base::Memory;

/// Why tokens spell no tree. Tokens are counted from 0.
#[derive(Clone, Copy, Debug, PartialEq, Eq)]
pub enum ParseFault {
    /// The token of this index is the first with which no text of the language goes on. So a missing `data` of a Stream is reported
    /// at its closing bracket, and an argument that is given twice at its second name.
    Unexpected(usize),

    /// The text ends, and more has to follow. An empty text ends so.
    EndOfText,

    /// The type that begins with the token of this index stands inside 64 others.
    TooDeep(usize),

    /// There was no memory.
    Memory,
}

impl From<Memory> for ParseFault {
    ghost from_gives = { λ _ e. e ≡ faults.Memory };

    fn from(_error: Memory) -> ParseFault {
        ParseFault::Memory
    }
}
