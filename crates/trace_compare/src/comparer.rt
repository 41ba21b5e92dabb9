//! A comparer of the rows of a trace.

ghost use Rattle.std.specs.Prelude.{◌≡◌, false, None, Some, OnOk};
ghost use Rattle.physical_stream.specs.Cycles.{cycle_in};
ghost use Rattle.type_split.specs.Streams.{plain_split};
ghost use Rattle.cycle_trace.specs.RowSink.{CanTake, IsHeader, begun_by, with_row};
ghost use Rattle.cycle_trace.specs.Trace.{TraceText};
ghost use Rattle.trace_compare.specs.Standing.{Asked, ComparerStands, OneForEach, asked_of};
ghost use Rattle.trace_compare.specs.Texts.{IsComparedTrace};

use crate::compare_run::CompareRun;
use crate::difference::Difference;
use crate::fault::CompareFault;
use cycle_trace::RowSink;
use physical_stream::{Header, Item, Row};
use std::alloc::Global;
use trace_decode::other_head;
use tydi_base::{List, Memory};
use type_split::Split;

/// Compares the rows of a trace with the items that are expected, as they come. It is no fixed sink: it takes memory for the items of each
/// transfer.
#[derive(Drop)]
pub(crate) struct Comparer<'s, 't> {
    pub(crate) split: &'s Split<'t>,
    /// The items that are expected of each stream.
    pub(crate) wants: List<List<Item>>,
    pub(crate) stage: Stage,
}

/// How far a comparer has come.
#[derive(Drop)]
pub(crate) enum Stage {
    /// No header came.
    Fresh,
    /// The heads of the trace are not the port's, first at this place.
    Other(usize),
    /// The heads are the port's, and rows came.
    Rows(CompareRun),
}

impl<'s, 't> Comparer<'s, 't> {
    /// A comparer for the port of this split, and these items of each of its streams. It stands for nothing yet. It takes no memory.
    pub(crate) fn new(split: &'s Split<'t>, wants: List<List<Item>>) -> Comparer<'s, 't>
        requires { OneForEach (plain_split split.now) wants }
        ensures stands { ComparerStands result None }
        ensures asked { asked_of result ≡ record { split = plain_split split.now; wants = wants } }
    {
        Comparer {
            split,
            wants,
            stage: Stage::Fresh,
        }
    }

    /// Begins with the header of a trace. `Memory` comes where there is none for the state of each stream.
    pub(crate) fn begin(&mut self, alloc: Global, header: &Header) -> Result<(), Memory>
        requires fresh { ComparerStands self.old None }
        requires header { IsHeader header.now }
        ensures begun { OnOk result (ComparerStands self.new (Some (begun_by header.now))) }
        ensures asked { asked_of self.new ≡ asked_of self.old }
    {
        match other_head(header.heads.as_slice(), self.split.streams.as_slice()) {
            Some(place) => self.stage = Stage::Other(place),
            None => {
                let run = CompareRun::of(alloc, self.split, self.wants.as_slice(), header)?;
                self.stage = Stage::Rows(run);
            }
        }
        Ok(())
    }

    /// Takes the next row. `Memory` comes where there is none for its items.
    #[inline(always)]
    pub(crate) fn take(&mut self, alloc: Global, row: Row<'_>) -> Result<(), Memory>
        requires { (t : TraceText) × (ComparerStands self.old (Some t) × CanTake t (cycle_in row)) }
        ensures taken { (t : TraceText) → ComparerStands self.old (Some t) → CanTake t (cycle_in row.entry)
            → OnOk result (ComparerStands self.new (Some (with_row t (cycle_in row.entry)))) }
        ensures asked { asked_of self.new ≡ asked_of self.old }
    {
        match &mut self.stage {
            Stage::Rows(run) => run.see(alloc, self.split, self.wants.as_slice(), row),
            _ => Ok(()),
        }
    }

    /// What is said of the rows that it was given. `Memory` comes where there is none for the differences.
    pub(crate) fn finish(self, alloc: Global) -> Result<List<Difference>, CompareFault>
        requires { (t : TraceText) × ComparerStands self (Some t) }
        ensures { (t : TraceText) → ComparerStands self.entry (Some t) → IsComparedTrace (asked_of self.entry).split (asked_of self.entry).wants t result }
    {
        let Comparer {
            split,
            wants,
            stage,
        } = self;
        match stage {
            Stage::Fresh => unreachable!(),
            Stage::Other(place) => Err(CompareFault::OtherHeader(place)),
            Stage::Rows(run) => match run.differences(alloc, split, wants.as_slice()) {
                Ok(found) => Ok(found),
                Err(Memory) => Err(CompareFault::Memory),
            },
        }
    }
}

impl RowSink for Comparer<'_, '_> {
    ghost stands_for = { ComparerStands };

    ghost fixed = { λ _. false };

    ghost Setting = { Asked };

    ghost setting = { asked_of };

    fn start(&mut self, alloc: Global, header: &Header) -> Result<(), Memory> {
        self.begin(alloc, header)
    }

    fn row(&mut self, alloc: Global, row: Row<'_>) -> Result<(), Memory> {
        self.take(alloc, row)
    }
}
