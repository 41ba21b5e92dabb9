ghost use Rattle.std.specs.Prelude.{◌≡◌, ℕ, ◌+◌, ◌-◌, ◌<◌, ◌^◌, List, [], Result, length, OnOk};
ghost use Rattle.tydi_tool.specs.Loading.{IsFed};
ghost use Rattle.tydi_tool.specs.Reading.{ReadsAs};

use crate::answer::Reply;
use std::alloc::Global;
use tydi_base::Memory;

/// Reads the bytes of a file as they come.
pub(crate) trait Reader<X> {
    /// With these bytes after those that it was fed, all are read as this, or refused with this line.
    ghost reads: { Self → List ℕ → Result X (List ℕ) → Type 0 };

    /// How many bytes it was fed.
    ghost fed: { Self → ℕ };

    /// It is of use still.
    ghost stands: { Self → Type 0 };

    /// Takes the next bytes. After `Memory` it is of no more use.
    fn feed(&mut self, alloc: Global, piece: &[u8]) -> Result<(), Memory>
        requires stands { stands self.old }
        requires fits { fed self.old + length piece.now < 2 ^ 32 - 1 }
        ensures stands { OnOk result (stands self.new) }
        ensures reads { OnOk result (IsFed (reads self.old) (reads self.new) piece.now) }
        ensures fed { OnOk result (fed self.new ≡ fed self.old + length piece.now) };

    /// The value that all the bytes are read as, or the reply that refuses them.
    fn finish(self, alloc: Global) -> Result<X, Reply>
        requires stands { stands self }
        requires fits { fed self < 2 ^ 32 - 1 }
        ensures { ReadsAs (reads self []) result };
}
