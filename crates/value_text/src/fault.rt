//! Why a text is no value.

ghost use Rattle.std.specs.Prelude.{◌≡◌};
ghost use Rattle.value_text.specs.declared.fault.ValueFault.TheVariants as faults;

use tydi_base::{Memory, Place};

/// Why a text is no value of the port's type that was split, and where.
#[derive(Clone, Copy, Debug, PartialEq, Eq)]
pub enum ValueFault {
    /// The text has not the form of a value.
    Syntax(Place),
    /// The first thing of a text of the form that does not fit is a member of another shape than the type asks for, or a field or a
    /// root that stands elsewhere or is missing. A missing field or root has the place of the byte that closes, or of the end of the
    /// text.
    WrongShape(Place),
    /// The first thing that does not fit is the name of a field that the Group lacks, or of a variant that the Union lacks.
    UnknownField(Place),
    /// The first thing that does not fit is a word that is too great for its width.
    OutOfRange(Place),
    /// A text of the form has more than 1,000,000 leaves, and the first one too many begins here.
    TooManyLeaves(Place),
    /// There was no memory.
    Memory,
}

impl From<Memory> for ValueFault {
    ghost from_gives = { λ _ e. e ≡ faults.Memory };

    fn from(_error: Memory) -> ValueFault {
        ValueFault::Memory
    }
}

/// Why a token of a text that has the form of one does not fit the type that was split.
#[derive(Clone, Copy, Debug, PartialEq, Eq)]
pub enum Why {
    /// It is another member than the type asks for, or a root, or a field, at another place.
    WrongShape,
    /// It names no field of the Group, or no variant of the Union.
    UnknownField,
    /// It is a word that does not fit the width.
    OutOfRange,
}
