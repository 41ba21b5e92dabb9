//! How the text of a trace is read beside the items of a value: as the first difference of each stream that has one.

ghost use Rattle.std.specs.Prelude.{ℕ, List, Err};
ghost use Rattle.physical_stream.specs.declared.item.Item.{Item};
ghost use Rattle.trace_compare.specs.Standing.{OneForEach};
ghost use Rattle.trace_compare.specs.Texts.{IsComparedText};
ghost use Rattle.type_split.specs.Streams.{PlainSplit, plain_split};
ghost use Rattle.tydi_tool.specs.Comparisons.{IsFedSome, IsNewBeside, ReadsComparison, comparison_in, compares_after};
ghost use Rattle.tydi_tool.specs.Reading.{ReadsAs, Seen};

use crate::answer::Reply;
use crate::reader::Reader;
use crate::traces::faulted;
use physical_stream::Item;
use std::alloc::Global;
use trace_compare::{CompareFault, Difference, TextComparer};
use tydi_base::{List, Memory, Text};
use type_split::Split;

/// What was found of the trace of a port beside a value of it.
#[derive(Debug, Drop)]
pub enum Comparing {
    /// The heads of the trace are not those of the port, first at this place.
    OtherHeader(usize),
    /// The first difference of each stream that has one, in the order of the streams.
    Differences(List<Difference>),
}

/// Reads the text of the trace of this word as it comes, beside the items that are expected on each stream of a port.
#[derive(Drop)]
pub(crate) struct CompareFile<'a> {
    word: &'a Text,
    comparer: TextComparer<'a, 'a>,
    fed: u64,
}

impl<'a> CompareFile<'a> {
    pub(crate) fn new(
        alloc: Global,
        word: &'a Text,
        split: &'a Split<'a>,
        wants: List<List<Item>>,
    ) -> CompareFile<'a>
        requires { OneForEach (plain_split split.now) wants }
        ensures { IsNewBeside (plain_split split.now) wants word.now result }
    {
        CompareFile {
            word,
            comparer: TextComparer::new(alloc, split, wants),
            fed: 0,
        }
    }
}

impl Reader<Comparing> for CompareFile<'_> {
    ghost reads = { compares_after };

    ghost fed = { λ file. file.fed };

    ghost stands = { IsFedSome };

    fn feed(&mut self, alloc: Global, piece: &[u8]) -> Result<(), Memory> {
        self.fed += piece.len() as u64;
        self.comparer.feed(alloc, piece)
    }

    fn finish(self, alloc: Global) -> Result<Comparing, Reply> {
        let CompareFile { word, comparer, .. } = self;
        found(alloc, word, comparer.finish(alloc))
    }
}

/// What was found of a text that was read to its end, or the reply to its first error.
fn found(
    alloc: Global,
    word: &Text,
    finished: Result<List<Difference>, CompareFault>,
) -> Result<Comparing, Reply>
    ensures { (split : PlainSplit) (wants : List (List Item)) (bytes : List ℕ) → IsComparedText split wants bytes finished
        → ReadsAs (Seen comparison_in (ReadsComparison split wants word.now bytes)) result }
{
    match finished {
        Ok(differences) => Ok(Comparing::Differences(differences)),
        Err(fault) => found_none(alloc, word, fault),
    }
}

/// What was found of a text that has no differences, or the reply to its first error.
fn found_none(alloc: Global, word: &Text, fault: CompareFault) -> Result<Comparing, Reply>
    ensures { (split : PlainSplit) (wants : List (List Item)) (bytes : List ℕ) → IsComparedText split wants bytes (Err fault)
        → ReadsAs (Seen comparison_in (ReadsComparison split wants word.now bytes)) result }
{
    match fault {
        CompareFault::Misspelled(fault) => Err(faulted(alloc, word, fault)),
        CompareFault::OtherHeader(place) => Ok(Comparing::OtherHeader(place)),
        CompareFault::Memory => Err(Reply::Memory),
    }
}
