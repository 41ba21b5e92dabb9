ghost use Rattle.std.specs.Prelude.{◌≡◌, ◌++◌, ◌∷◌, [], ℕ, Bool, List, IfOk, ⊤};
ghost use Rattle.std.specs.Borrow.{sem};
ghost use Rattle.physical_stream.specs.Cycles.{Cycle, cycle_in};
ghost use Rattle.physical_stream.specs.declared.transfer.Transfer.{Transfer};
ghost use Rattle.handshake.specs.Run.{next_cycle, run_of, undone};
ghost use Rattle.handshake.specs.Offers.{StandsBefore};
ghost use Rattle.handshake.specs.Standing.{StandsFor};

use crate::cursor::Cursor;
use crate::feed::{Rewind, TransferFeed};
use physical_stream::{Params, Row, Transfer};
use std::alloc::Global;
use tydi_base::{List, Memory};

impl<F: TransferFeed> Cursor<F> {
    ghost use Rattle.handshake.specs.contracts.cursor.Cursor.{the_row};
    ghost use mathlib.Core.Option.{none};
    ghost use denote.Follow.{follows_so};

    /// The run of the transfers that are left in the feed, with these gaps in cycles, before its first cycle. Want of memory is the
    /// one error: the room for one transfer is taken here.
    pub fn new(alloc: Global, params: Params, feed: F, gaps: List<u32>) -> Result<Cursor<F>, Memory>
        requires { F.params feed ≡ params }
        ensures stands { IfOk result (λ cursor. StandsFor F.rest cursor (F.rest feed) []) }
        ensures params { IfOk result (λ cursor. cursor.params ≡ params) }
        ensures gaps { IfOk result (λ cursor. cursor.gaps ≡ gaps) }
        ensures whole { IfOk result (λ cursor. F.whole cursor.feed ≡ F.whole feed) }
    {
        let held = Transfer::zero(alloc, &params)?;
        Ok(Cursor {
            params,
            feed,
            held,
            holds: false,
            gaps,
            pause: 0,
            place: 0,
            tail: None,
        })
    }

    /// The next cycle, by its ready bit.
    pub fn cycle(&mut self, ready: bool) -> Row<'_>
        ensures row { (ts : List Transfer) (before : List Bool) → StandsFor F.rest self.old ts before
            → cycle_in result ≡ next_cycle self.old.params ts self.old.gaps (run_of self.old.params ts self.old.gaps before) ready }
        ensures* after { sem 𝓛 (follows_so (the_row F.row F.TransferFeed) (the_row F.row F.TransferFeed) self.entry.ghost_name none (λ _ _. ⊤)
            (λ n. ((ts : List Transfer) (before : List Bool) → StandsFor F.rest self.old ts before → StandsFor F.rest n ts (before ++ ready ∷ []))
            × (n.params ≡ self.old.params) × (n.gaps ≡ self.old.gaps) × (F.whole n.feed ≡ F.whole self.old.feed))) }
    {
        if self.step(ready) {
            return Row {
                ready,
                shown: Some(&self.held),
            };
        }
        Row { ready, shown: None }
    }

    /// How many transfers are not done.
    pub fn left(&self) -> usize
        ensures { (ts : List Transfer) (before : List Bool) → StandsFor F.rest self.now ts before → result ≡ undone self.now.params ts self.now.gaps before }
    {
        if self.holds {
            self.feed.left() + 1
        } else {
            self.feed.left()
        }
    }
}

impl<F: Rewind> Cursor<F> {
    /// Goes back to before the first cycle of the run of all transfers of the feed.
    pub fn rewind(&mut self)
        ensures stands { StandsFor F.rest self.new (F.whole self.old.feed) [] }
        ensures before { StandsBefore F.rest self.new (F.whole self.old.feed) }
        ensures rest { F.rest self.new.feed ≡ F.whole self.old.feed }
        ensures params { self.new.params ≡ self.old.params }
        ensures gaps { self.new.gaps ≡ self.old.gaps }
        ensures whole { F.whole self.new.feed ≡ F.whole self.old.feed }
    {
        self.feed.rewind();
        self.holds = false;
        self.pause = 0;
        self.place = 0;
        self.tail = None;
    }
}
