ghost use Rattle.std.specs.Prelude.{◌≡◌, ℕ, ◌<◌, ◌≤◌, List, Option, length, IfOk};
ghost use Rattle.tydi_io.specs.Faults.{HasCause};
ghost use Rattle.tydi_io.specs.Sink.{after_push};

use crate::failed::Failed;

/// Takes bytes, in the order that they come.
pub trait Sink {
    /// The bytes taken so far, or `None` where the sink does not report them.
    ghost taken: { Self → Option (List ℕ) };

    /// How many calls failed so far. It never falls, and at the greatest `u64` it may stand.
    ghost faults: { Self → ℕ };

    /// Takes bytes from the front of the piece, at least one where there is one, and answers their number. After `Failed`
    /// nothing was taken.
    fn push(&mut self, piece: &[u8]) -> Result<usize, Failed>
        ensures within { IfOk result (λ n. n ≤ length piece.now) }
        ensures some { IfOk result (λ n. 0 < length piece.now → 0 < n) }
        ensures taken { taken self.new ≡ after_push (taken self.old) piece.now result }
        ensures cause { HasCause (faults self.old) (faults self.new) result };
}
