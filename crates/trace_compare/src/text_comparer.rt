//! A comparer of the text of a trace, which comes in pieces.

ghost use Rattle.std.specs.Prelude.{◌≡◌, ◌++◌, ◌↔◌, [], ℕ, List, IsErr};
ghost use Rattle.type_split.specs.Streams.{plain_split};
ghost use Rattle.trace_compare.specs.Standing.{OneForEach};
ghost use Rattle.trace_compare.specs.Texts.{HasNoMemory, IsComparedText, IsFed, split_of, wants_of};

use crate::comparer::Comparer;
use crate::difference::Difference;
use crate::fault::CompareFault;
use cycle_trace::TraceReader;
use physical_stream::Item;
use std::alloc::Global;
use tydi_base::{List, Memory};
use type_split::Split;

/// Compares the text of a trace with the items that are expected of each stream of a port. The text comes in pieces. Of the rows it keeps for
/// each stream how many items are as expected, and the first that is not.
#[derive(Drop)]
pub struct TextComparer<'s, 't> {
    pub(crate) reader: TraceReader<Comparer<'s, 't>>,
}

impl<'s, 't> TextComparer<'s, 't> {
    /// A comparer for the port of this split and the items that are expected, a list for each of its physical streams. It was fed nothing. It
    /// takes no memory.
    pub fn new(alloc: Global, split: &'s Split<'t>, wants: List<List<Item>>) -> TextComparer<'s, 't>
        requires { OneForEach (plain_split split.now) wants }
        ensures fed { IsFed result [] }
        ensures split { split_of result ≡ plain_split split.now }
        ensures wants { wants_of result ≡ wants }
        ensures memory { HasNoMemory result → ⊥ }
    {
        TextComparer {
            reader: TraceReader::new(alloc, Comparer::new(split, wants)),
        }
    }

    /// Reads the next bytes of the text. After `Memory` every later call answers Memory.
    pub fn feed(&mut self, alloc: Global, piece: &[u8]) -> Result<(), Memory>
        requires { (bytes : List ℕ) × IsFed self.old bytes }
        ensures fed { (bytes : List ℕ) → IsFed self.old bytes → IsFed self.new (bytes ++ piece.now) }
        ensures split { split_of self.new ≡ split_of self.old }
        ensures wants { wants_of self.new ≡ wants_of self.old }
        ensures memory { IsErr result ↔ HasNoMemory self.new }
        ensures spent { HasNoMemory self.old → HasNoMemory self.new }
    {
        self.reader.feed(alloc, piece)
    }

    /// The first difference of each stream that has one, in the order of the streams; there is none exactly where the items done are the
    /// expected ones. It fails with the first error of the text, and where the text is a trace, with the first place at which its heads are
    /// not those of the port. `Memory` comes where it came before, or where there is none for the differences.
    pub fn finish(self, alloc: Global) -> Result<List<Difference>, CompareFault>
        requires { (bytes : List ℕ) × IsFed self bytes }
        ensures { (bytes : List ℕ) → IsFed self.entry bytes → IsComparedText (split_of self.entry) (wants_of self.entry) bytes result }
    {
        match self.reader.finish(alloc) {
            Ok(comparer) => comparer.finish(alloc),
            Err(fault) => Err(CompareFault::Misspelled(fault)),
        }
    }
}
