//! The text of a trace, kept as its rows come.

ghost use Rattle.std.specs.Prelude.{◌≡◌, ◌+◌, ◌<◌, ◌==◌, length, false, if◌then◌else◌, OnOk, Option, Some, None};
ghost use Rattle.physical_stream.specs.Cycles.{Cycle, cycle_in};
ghost use Rattle.cycle_trace.specs.RowSink.{CanTake, IsHeader, begun_by, with_row};
ghost use Rattle.cycle_trace.specs.Trace.{TraceText};
ghost use Rattle.link_check.specs.KeptTexts.{IsKept, KeptTextStands, TextStands, if_kept, text_so_far};

use cycle_trace::{RowSink, write_header, write_row};
use physical_stream::{Head, Header, Row};
use std::alloc::Global;
use tydi_base::{List, Memory, TryClone};

/// The most bytes that are kept: 64 MiB.
const MOST_KEPT: usize = 67_108_864;

/// Keeps the text of a trace as its rows come, while it has at most 64 MiB. It is not a fixed sink: it takes memory for each row.
#[derive(Drop)]
pub struct KeptText {
    pub(crate) text: List<u8>,
    pub(crate) heads: List<Head>,
    /// The stream of the next row, from 0.
    pub(crate) stream: usize,
    /// Whether the text is too long, and no longer kept.
    pub(crate) over: bool,
}

impl KeptText {
    /// It keeps nothing yet.
    pub fn new(alloc: Global) -> KeptText
        ensures { KeptTextStands result None }
    {
        KeptText {
            text: List::new(alloc),
            heads: List::new(alloc),
            stream: 0,
            over: false,
        }
    }

    /// The text. None exactly where it has over 64 MiB.
    pub fn text(self) -> Option<List<u8>>
        ensures { (t : TraceText) → KeptTextStands self (Some t) → result ≡ if_kept (text_so_far t) }
    {
        if self.over { None } else { Some(self.text) }
    }

    /// Adds the text of the next row, where the text is kept.
    fn write(&mut self, alloc: Global, row: Row<'_>) -> Result<(), Memory>
        requires { (t : TraceText) × (TextStands self.old t × CanTake t (cycle_in row)) }
        ensures text { (t : TraceText) → TextStands self.old t → CanTake t (cycle_in row.entry) → OnOk result (IsKept self.new.over self.new.text (text_so_far (with_row t (cycle_in row.entry)))) }
        ensures heads { self.new.heads ≡ self.old.heads }
        ensures stream { self.new.stream ≡ self.old.stream }
    {
        if self.over {
            return Ok(());
        }
        let Some(head) = self.heads.as_slice().get(self.stream) else {
            return Ok(());
        };
        write_row(alloc, &mut self.text, &head.params, row)?;
        if self.text.len() > MOST_KEPT {
            self.over = true;
            self.text.truncate(0);
        }
        Ok(())
    }
}

impl RowSink for KeptText {
    ghost stands_for = { KeptTextStands };

    ghost fixed = { λ _. false };

    ghost Setting = { Unit {0} };

    ghost setting = { λ _. tt };

    fn start(&mut self, alloc: Global, header: &Header) -> Result<(), Memory> {
        self.heads = header.heads.try_clone(alloc)?;
        self.text = List::new(alloc);
        write_header(alloc, &mut self.text, header)?;
        self.stream = 0;
        self.over = self.text.len() > MOST_KEPT;
        Ok(())
    }

    fn row(&mut self, alloc: Global, row: Row<'_>) -> Result<(), Memory> {
        self.write(alloc, row)?;
        self.stream = stream_behind(self.stream, self.heads.len());
        Ok(())
    }
}

/// The stream after this one of so many, which is the first after the last.
fn stream_behind(stream: usize, count: usize) -> usize
    requires { stream < count }
    ensures { result ≡ (if stream + 1 == count then 0 else stream + 1) }
{
    let next = stream + 1;
    if next == count { 0 } else { next }
}
