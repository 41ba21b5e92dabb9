//! The run through a reshaper, turn by turn.

ghost use Rattle.std.specs.Prelude.{◌≡◌, ◌+◌, ◌≤◌, ◌∷◌, ◌&&◌, if◌then◌else◌, [], Bool, List, length, drop, IfOk};
ghost use Rattle.std.specs.List.{All};
ghost use Rattle.physical_stream.specs.Signals.{Fits};
ghost use Rattle.physical_stream.specs.declared.transfer.Transfer.{Transfer};
ghost use Rattle.handshake.specs.Standing.{StandsFor};
ghost use Rattle.handshake.specs.Rows.{rows_behind};
ghost use Rattle.reshape.specs.Runs.{far_in, far_of_all, undone_in, FirstTurn};
ghost use Rattle.reshape.specs.Standing.{from_of, to_of};

use crate::crossing::{copy_offer, cross};
use crate::reshape_run::ReshapeRun;
use crate::reshaper::Reshaper;
use crate::turn::Turn;
use handshake::{Cursor, TransferFeed};
use physical_stream::Transfer;
use std::alloc::Global;
use tydi_base::{List, Memory};

// How many transfers a cycle does that shows one or not, under this ready bit.
fn done_in(shows: bool, ready: bool) -> usize
    ensures value { result ≡ (if shows && ready then 1 else 0) }
    ensures few { result ≤ 1 }
{
    if shows && ready { 1 } else { 0 }
}

impl<F: TransferFeed> ReshapeRun<F> {
    /// The far side before its first cycle. The near side stands before the first cycle of the run of all transfers of its feed, which fit
    /// its stream; the far side has so many transfers, as `far_count` of the items counts them. The items of the reshaper, if any,
    /// are dropped. Memory comes where there was none for one transfer.
    pub fn new(
        alloc: Global,
        near: Cursor<F>,
        reshaper: Reshaper,
        ready: List<bool>,
        planned: usize,
    ) -> Result<ReshapeRun<F>, Memory>
        requires from { from_of reshaper ≡ near.params }
        requires stands { StandsFor F.rest near (F.whole near.feed) [] }
        requires fits { All (Fits near.params) (F.whole near.feed) }
        requires planned { planned ≡ far_of_all F.whole near reshaper }
        ensures near { IfOk result (λ run. run.near ≡ near) }
        ensures to { IfOk result (λ run. to_of run.reshaper ≡ to_of reshaper) }
        ensures ready { IfOk result (λ run. run.ready ≡ ready) }
        ensures number { IfOk result (λ run. run.number ≡ 0) }
    {
        let mut reshaper = reshaper;
        reshaper.clear();
        let shown = reshaper.blank(alloc)?;
        Ok(ReshapeRun {
            near,
            reshaper,
            ready,
            number: 0,
            shown,
            planned,
            done: 0,
        })
    }

    /// Makes the next cycle of the far side: its ready bit, and whether it shows the transfer that is kept. None exactly where no cycle is
    /// left.
    pub(crate) fn turn(&mut self) -> Option<Turn>
        ensures first { FirstTurn (drop self.old.number (far_in F.whole self.old.near self.old.reshaper self.old.ready)) self.new.shown result }
        ensures rows { drop self.new.number (far_in F.whole self.new.near self.new.reshaper self.new.ready) ≡ rows_behind (drop self.old.number (far_in F.whole self.old.near self.old.reshaper self.old.ready)) }
        ensures whole { far_in F.whole self.new.near self.new.reshaper self.new.ready ≡ far_in F.whole self.old.near self.old.reshaper self.old.ready }
        ensures undone { undone_in F.whole self.new.near self.new.reshaper self.new.ready ∷ [] ≡ undone_in F.whole self.old.near self.old.reshaper self.old.ready ∷ [] }
    {
        if self.number >= self.ready.len() {
            return None;
        }
        let ready = self.ready.as_slice()[self.number];
        let shows = copy_offer(&self.reshaper, &mut self.shown);
        cross(
            &mut self.near,
            &mut self.reshaper,
            self.ready.as_slice(),
            self.number,
            shows,
        );
        self.number += 1;
        self.done += done_in(shows, ready);
        Some(Turn { ready, shows })
    }
}
