ghost use Rattle.std.specs.Prelude.{◌≡◌};
ghost use Rattle.nest_shape.specs.declared.fault.NestFault.TheVariants as faults;

use tydi_base::Memory;

/// Why items are not the flat form of a series.
#[derive(Clone, Copy, Debug, PartialEq, Eq)]
pub enum NestFault {
    /// The item of this number, from 0, is the first that breaks the nesting: a Close of a dimension from 1 on that stands neither
    /// first nor right after a Close of the dimension below or a greater one.
    BadClose(usize),
    /// The items are nested, and leave sequences of this level open: 0 after an element, and one more than its dimension after a
    /// Close.
    Unclosed(u8),
    /// There was no memory for the series.
    Memory,
}

impl From<Memory> for NestFault {
    ghost from_gives = { λ _ e. e ≡ faults.Memory };

    fn from(_error: Memory) -> NestFault {
        NestFault::Memory
    }
}
