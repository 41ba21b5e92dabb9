//! A trace that is kept as its rows come.

ghost use Rattle.std.specs.Prelude.{◌≡◌, Bool, false, Option, Some, None, IfOk, OnOk, MatchOption};
ghost use Rattle.std.specs.Option.{option_copied};
ghost use Rattle.physical_stream.specs.Cycles.{cycle_in};
ghost use Rattle.cycle_trace.specs.KeepView.{IsNotWhole, KeepStands, KeptStands};
ghost use Rattle.cycle_trace.specs.RowSink.{CanTake, IsHeader, begun_by, with_row};
ghost use Rattle.cycle_trace.specs.Trace.{TraceText};
ghost use Rattle.cycle_trace.specs.TraceView.{trace_view};

use crate::reader::sink::RowSink;
use crate::trace::{OwnRow, Trace};
use physical_stream::{Header, Row, Transfer};
use std::alloc::Global;
use tydi_base::{List, Memory, TryClone};

/// Keeps a trace. It is not a fixed sink: it takes memory for each row.
#[derive(Drop)]
pub struct Keep {
    pub(crate) kept: Option<Kept>,
}

/// A header and the rows so far.
#[derive(Drop)]
pub(crate) struct Kept {
    pub(crate) header: Header,
    pub(crate) rows: List<OwnRow>,
}

impl Keep {
    /// It keeps nothing yet.
    pub fn new() -> Keep
        ensures { KeepStands result None }
    {
        Keep { kept: None }
    }

    /// The trace. None exactly where it has no whole one.
    pub fn trace(self) -> Option<Trace>
        requires { (said : Option TraceText) × KeepStands self said }
        ensures { (said : Option TraceText) → KeepStands self said → MatchOption result (IsNotWhole said) (λ trace. said ≡ Some (trace_view trace)) }
    {
        match self.kept {
            Some(kept) => kept.trace(),
            None => None,
        }
    }
}

impl Kept {
    /// No rows after this header.
    fn of(alloc: Global, header: &Header) -> Result<Kept, Memory>
        requires { IsHeader header.now }
        ensures { IfOk result (λ kept. KeptStands kept (begun_by header.now)) }
    {
        Ok(Kept {
            header: header.try_clone(alloc)?,
            rows: List::new(alloc),
        })
    }

    /// Adds one more row.
    fn push(&mut self, alloc: Global, row: Row<'_>) -> Result<(), Memory>
        ensures { (t : TraceText) → KeptStands self.old t → CanTake t (cycle_in row.entry) → OnOk result (KeptStands self.new (with_row t (cycle_in row.entry))) }
    {
        let shown = copy_of(alloc, row.shown)?;
        self.rows.push(OwnRow {
            ready: row.ready,
            shown,
        })
    }

    /// The trace, where all rows are there.
    fn trace(self) -> Option<Trace>
        requires { (t : TraceText) × KeptStands self t }
        ensures { (t : TraceText) → KeptStands self t → MatchOption result (IsNotWhole (Some t)) (λ trace. t ≡ trace_view trace) }
    {
        let want = u64::from(self.header.cycles) * self.header.heads.len() as u64;
        if self.rows.len() as u64 != want {
            return None;
        }
        Some(Trace {
            header: self.header,
            rows: self.rows,
        })
    }
}

/// A copy of what is shown.
fn copy_of(alloc: Global, shown: Option<&Transfer>) -> Result<Option<Transfer>, Memory>
    ensures { IfOk result (λ copy. copy ≡ option_copied shown.entry) }
{
    match shown {
        Some(transfer) => Ok(Some(transfer.try_clone(alloc)?)),
        None => Ok(None),
    }
}

impl RowSink for Keep {
    ghost stands_for = { KeepStands };

    ghost fixed = { λ _. false };

    ghost Setting = { Unit {0} };

    ghost setting = { λ _. tt };

    fn start(&mut self, alloc: Global, header: &Header) -> Result<(), Memory> {
        self.kept = Some(Kept::of(alloc, header)?);
        Ok(())
    }

    fn row(&mut self, alloc: Global, row: Row<'_>) -> Result<(), Memory> {
        match &mut self.kept {
            Some(kept) => kept.push(alloc, row),
            None => Ok(()),
        }
    }
}
