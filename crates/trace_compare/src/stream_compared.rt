//! One stream of a trace, as it is compared.

ghost use Rattle.std.specs.Prelude.{◌≡◌, ◌≤◌, Option, None, IfSome, OnOk, length};
ghost use Rattle.physical_stream.specs.Cycles.{cycle_in};
ghost use Rattle.physical_stream.specs.Signals.{Fits};
ghost use Rattle.trace_compare.specs.Keeping.{IsFresh, TakesCycle, TakesItems};

use crate::same_items::{copied, item_at, same_front};
use physical_stream::{Item, Params, Row, Transfer, items_of};
use std::alloc::Global;
use tydi_base::Memory;

/// The state that is kept of one stream.
#[derive(Drop)]
pub(crate) struct StreamCompared {
    /// How many items done are the expected ones, up to the first that is not.
    pub(crate) same: usize,
    /// The first item done that is not the expected one.
    pub(crate) other: Option<OtherItem>,
}

/// An item done that is not the expected one.
#[derive(Drop)]
pub(crate) struct OtherItem {
    /// The cycle in which it is done, counted from 0.
    pub(crate) cycle: u32,
    pub(crate) item: Item,
}

impl StreamCompared {
    /// The state of a stream before its first cycle.
    pub(crate) fn new() -> StreamCompared
        ensures { IsFresh result }
    {
        StreamCompared {
            same: 0,
            other: None,
        }
    }

    /// Takes the row of this cycle. `Memory` comes where there is none for its items.
    #[inline(always)]
    pub(crate) fn see(
        &mut self,
        alloc: Global,
        p: &Params,
        want: &[Item],
        cycle: u32,
        row: Row<'_>,
    ) -> Result<(), Memory>
        requires shown { IfSome (cycle_in row).shown (Fits p.now) }
        requires within { self.old.same ≤ length want.now }
        ensures { OnOk result (TakesCycle want.now p.now cycle (cycle_in row.entry) self.old self.new) }
    {
        match row.shown {
            Some(transfer) => self.see_shown(alloc, p, want, cycle, transfer, row.ready),
            None => Ok(()),
        }
    }

    /// Takes a cycle that shows this transfer.
    fn see_shown(
        &mut self,
        alloc: Global,
        p: &Params,
        want: &[Item],
        cycle: u32,
        transfer: &Transfer,
        ready: bool,
    ) -> Result<(), Memory>
        requires fits { Fits p.now transfer.now }
        requires within { self.old.same ≤ length want.now }
        ensures { OnOk result (TakesCycle want.now p.now cycle (record { ready = ready; shown = Option.Some transfer.now }) self.old self.new) }
    {
        if !ready {
            return Ok(());
        }
        let items = items_of(alloc, p, transfer)?;
        self.take(alloc, want, cycle, items.as_slice())
    }

    /// Takes the items that are done in this cycle.
    fn take(
        &mut self,
        alloc: Global,
        want: &[Item],
        cycle: u32,
        items: &[Item],
    ) -> Result<(), Memory>
        requires within { self.old.same ≤ length want.now }
        ensures { OnOk result (TakesItems want.now cycle items.now self.old self.new) }
    {
        if self.other.is_some() {
            return Ok(());
        }
        self.compare(alloc, want, cycle, items)
    }

    /// Takes the items that are done in this cycle, where all before them are the expected ones.
    fn compare(
        &mut self,
        alloc: Global,
        want: &[Item],
        cycle: u32,
        items: &[Item],
    ) -> Result<(), Memory>
        requires none { self.old.other ≡ None }
        requires within { self.old.same ≤ length want.now }
        ensures { OnOk result (TakesItems want.now cycle items.now self.old self.new) }
    {
        let count = same_front(&want[self.same..], items);
        self.same += count;
        if let Some(item) = copied(alloc, item_at(items, count))? {
            self.other = Some(OtherItem { cycle, item });
        }
        Ok(())
    }
}
