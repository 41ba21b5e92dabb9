ghost use Rattle.std.specs.Prelude.{◌≡◌};
ghost use Rattle.physical_stream.specs.declared.misspelling.Misspelling.TheVariants as misspellings;

use tydi_base::Memory;

/// Why words were not read.
#[derive(Clone, Copy, Debug, PartialEq, Eq)]
pub enum Misspelling {
    /// They are not of their form.
    NotForm,
    /// There was no memory.
    Memory,
}

impl From<Memory> for Misspelling {
    ghost from_gives = { λ _ e. e ≡ misspellings.Memory };

    fn from(_error: Memory) -> Misspelling {
        Misspelling::Memory
    }
}

/// Words do not have their form.
#[derive(Clone, Copy, Debug, PartialEq, Eq)]
pub struct NotForm;

impl From<NotForm> for Misspelling {
    ghost from_gives = { λ _ e. e ≡ misspellings.NotForm };

    fn from(_error: NotForm) -> Misspelling {
        Misspelling::NotForm
    }
}
