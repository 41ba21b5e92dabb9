ghost use Rattle.std.specs.Prelude.{◌≡◌};
ghost use Rattle.tydi_reading.specs.declared.fault.Fault.TheVariants as faults;

use tydi_base::Memory;

/// Why things are not read, where `E` says what a text's own refusals are. The source then stands before the thing at which reading stopped,
/// or at the end.
#[derive(Clone, Copy, Debug, PartialEq, Eq)]
pub enum Fault<E> {
    /// No rule goes on with the next thing, or the things end and more has to follow.
    Refused,

    /// The next thing, or what begins with it, is of the form, and the text refuses it: why.
    Unfit(E),

    /// There was no memory.
    Memory,
}

impl<E> From<Memory> for Fault<E> {
    ghost from_gives = { λ _ e. e ≡ faults.Memory };

    fn from(_error: Memory) -> Fault<E> {
        Fault::Memory
    }
}
