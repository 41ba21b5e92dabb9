//! A decoder of the text of a trace, which comes in pieces.

ghost use Rattle.std.specs.Prelude.{◌≡◌, ◌++◌, ◌↔◌, [], ℕ, List, IsErr};
ghost use Rattle.type_split.specs.Streams.{plain_split};
ghost use Rattle.trace_decode.specs.Standing.{CanDecode};
ghost use Rattle.trace_decode.specs.Texts.{HasNoMemory, IsFed, IsReadBack, split_of};

use crate::decoded::Decoded;
use crate::decoder::Decoder;
use crate::text_fault::TextFault;
use cycle_trace::TraceReader;
use std::alloc::Global;
use tydi_base::Memory;
use type_split::Split;

/// Reads the text of a trace back as a value of a port's type. The text comes in pieces. Of the rows it keeps the nests of each stream and
/// the user words of the transfers done. A stream without user bits has no user words here.
#[derive(Drop)]
pub struct TextDecoder<'s, 't> {
    pub(crate) reader: TraceReader<Decoder<'s, 't>>,
}

impl<'s, 't> TextDecoder<'s, 't> {
    /// A decoder for the port of this split, each of whose nodes is carried. It was fed nothing.
    pub fn new(alloc: Global, split: &'s Split<'t>) -> TextDecoder<'s, 't>
        requires { CanDecode (plain_split split.now) }
        ensures fed { IsFed result [] }
        ensures split { split_of result ≡ plain_split split.now }
        ensures memory { HasNoMemory result → ⊥ }
    {
        TextDecoder {
            reader: TraceReader::new(alloc, Decoder::new(split)),
        }
    }

    /// Reads the next bytes of the text. After `Memory` every later call answers Memory.
    pub fn feed(&mut self, alloc: Global, piece: &[u8]) -> Result<(), Memory>
        requires { (bytes : List ℕ) × IsFed self.old bytes }
        ensures fed { (bytes : List ℕ) → IsFed self.old bytes → IsFed self.new (bytes ++ piece.now) }
        ensures split { split_of self.new ≡ split_of self.old }
        ensures memory { IsErr result ↔ HasNoMemory self.new }
        ensures spent { HasNoMemory self.old → HasNoMemory self.new }
    {
        self.reader.feed(alloc, piece)
    }

    /// The value that the text carries, and the user words of the transfers done. It fails with the first error of the text; where the text
    /// is a trace, with the first error of that, as `decode` does. `Memory` comes where it came before, or where there is none for the value.
    pub fn finish(self, alloc: Global) -> Result<Decoded, TextFault>
        requires { (bytes : List ℕ) × IsFed self bytes }
        ensures { (bytes : List ℕ) → IsFed self.entry bytes → IsReadBack (split_of self.entry) bytes result }
    {
        match self.reader.finish(alloc) {
            Ok(decoder) => match decoder.finish(alloc) {
                Ok(decoded) => Ok(decoded),
                Err(fault) => Err(TextFault::NoValue(fault)),
            },
            Err(fault) => Err(TextFault::Misspelled(fault)),
        }
    }
}
