ghost use Rattle.std.specs.Prelude.{◌≡◌, ℕ, ◌≤◌, List, Bool, false, Option, length, IsTrue, IfOk, IfSome};
ghost use Rattle.tydi_io.specs.Faults.{HasCause};
ghost use Rattle.tydi_io.specs.Store.{Files, started_at, Finds, Pulls};

use crate::failed::Failed;

/// Files by name, each read from its first byte on. At most one file is started at a time.
pub trait Store {
    /// The names that may be started.
    ghost allowed: { Self → List ℕ → Bool };

    /// The bytes of each file by its name, or `None` where the store does not report what it holds.
    ghost files: { Self → Option Files };

    /// The name of the started file, with the number of its bytes that were given since its start. `None` where no file is
    /// started. It has a meaning where the store reports its files.
    ghost started: { Self → Option (List ℕ × ℕ) };

    /// How many calls failed so far. It never falls, and at the greatest `u64` it may stand.
    ghost faults: { Self → ℕ };

    /// Starts the file of this name at its first byte, and says whether there is one. A second start begins anew. Where there
    /// is no such file, none is started after the call. After `Failed` the started file is what it would be without the
    /// failure.
    fn start(&mut self, name: &str) -> Result<bool, Failed>
        requires { IsTrue (allowed self.old name.now) }
        ensures allowed { allowed self.new ≡ allowed self.old }
        ensures files { files self.new ≡ files self.old }

        // It holds after `Failed` as well.
        ensures started { IfSome (files self.old) (λ told. started self.new ≡ started_at told name.now) }
        ensures found { IfSome (files self.old) (λ told. Finds told name.now result) }

        // A missing file is an answer, not an error.
        ensures missing { IfOk result (λ found. found ≡ false → faults self.new ≡ faults self.old) }
        ensures cause { HasCause (faults self.old) (faults self.new) result };

    /// Copies the next bytes of the started file to the front of `into`, and answers their number. For an `into` that is not
    /// empty, 0 comes only at the end of the file or where no file is started. After `Failed` the place in the file is as
    /// before, and what `into` holds is open.
    fn pull(&mut self, into: &mut [u8]) -> Result<usize, Failed>
        ensures allowed { allowed self.new ≡ allowed self.old }
        ensures files { files self.new ≡ files self.old }
        ensures within { IfOk result (λ n. n ≤ length into.new) }
        ensures pulled { IfSome (files self.old) (λ told.
            Pulls told (started self.old) (started self.new) into.new result) }
        ensures cause { HasCause (faults self.old) (faults self.new) result };
}
