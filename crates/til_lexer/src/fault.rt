ghost use Rattle.std.specs.Prelude.{◌≡◌};
ghost use Rattle.til_lexer.specs.declared.fault.LexFault.TheVariants as faults;

use tydi_base::{Memory, Place};

/// Why a text has no tokens. Where there are several errors, the first in the text is reported.
#[derive(Clone, Copy, Debug, PartialEq, Eq)]
pub enum LexFault {
    /// No token begins with the character at this place.
    StrayChar(Place),
    /// The quoted text whose `"` stands at this place has no closing `"`.
    OpenString(Place),
    /// The documentation whose `#` stands at this place has no closing `#`.
    OpenDoc(Place),
    /// The word that begins at this place has a character that is not ASCII.
    NameNotAscii(Place),
    /// The word that begins at this place is ASCII, and has not the form of a name.
    BadName(Place),
    /// The number that begins at this place has over 18 digits.
    NumberTooLong(Place),
    /// There was no memory.
    Memory,
}

impl From<Memory> for LexFault {
    ghost from_gives = { λ _ e. e ≡ faults.Memory };

    fn from(_error: Memory) -> LexFault {
        LexFault::Memory
    }
}
