ghost use Rattle.std.specs.Prelude.{◌≡◌, ℕ, ◌-◌, ◌<◌, ◌^◌, ◌++◌, List, [], Result, length};
ghost use Rattle.tydi_tool.specs.Reading.{ReadsAs};

use crate::answer::Reply;
use crate::reader::Reader;
use std::alloc::Global;
use tydi_base::{List, Memory};

/// Reads a text that is there as a whole.
pub(crate) trait TextReader<X> {
    /// The bytes are read as this, or refused with this line.
    ghost reads: { Self → List ℕ → Result X (List ℕ) → Type 0 };

    /// The value that the bytes are read as, or the reply that refuses them.
    fn read(&self, alloc: Global, bytes: &[u8]) -> Result<X, Reply>
        requires { length bytes.now < 2 ^ 32 - 1 }
        ensures { ReadsAs (reads self.now bytes.now) result };
}

/// Gathers the bytes of a file, to read them as a whole.
#[derive(Drop)]
pub(crate) struct Gather<T> {
    bytes: List<u8>,
    reader: T,
}

impl<T> Gather<T> {
    pub(crate) fn new(alloc: Global, reader: T) -> Gather<T>
        ensures { result ≡ record { bytes = []; reader = reader } }
    {
        Gather {
            bytes: List::new(alloc),
            reader,
        }
    }
}

impl<X, T: TextReader<X> + Drop> Reader<X> for Gather<T> {
    ghost reads = { λ gather rest. T.TextReader.reads gather.reader (gather.bytes ++ rest) };

    ghost fed = { λ gather. length gather.bytes };

    ghost stands = { λ _. Unit {0} };

    fn feed(&mut self, _alloc: Global, piece: &[u8]) -> Result<(), Memory> {
        self.bytes.extend_from_slice(piece)
    }

    fn finish(self, alloc: Global) -> Result<X, Reply> {
        self.reader.read(alloc, self.bytes.as_slice())
    }
}
