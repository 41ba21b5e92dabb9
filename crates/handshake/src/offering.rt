//! The transfers of a stream, one after another, without their cycles.

ghost use Rattle.std.specs.Prelude.{◌≡◌, List, false};
ghost use Rattle.physical_stream.specs.Signals.{Fits};
ghost use Rattle.physical_stream.specs.declared.transfer.Transfer.{Transfer};
ghost use Rattle.handshake.specs.Offers.{Offers, StandsBefore};

use crate::cursor::Cursor;
use crate::feed::TransferFeed;
use physical_stream::{Params, Transfer};

impl<F: TransferFeed> Cursor<F> {
    /// Takes the next transfer of the feed, which `held` then is, and gives the cycles of the gap before it: the plan's, where valid may
    /// be low there, and else 0. None exactly where no transfer is left.
    pub fn offer(&mut self) -> Option<u32>
        ensures offers { (ts : List Transfer) → StandsBefore F.rest self.old ts
            → Offers self.old.params ts self.old.gaps (F.rest self.old.feed) (F.rest self.new.feed) self.new.held result }
        ensures before { (ts : List Transfer) → StandsBefore F.rest self.old ts → StandsBefore F.rest self.new ts }
        ensures params { self.new.params ≡ self.old.params }
        ensures gaps { self.new.gaps ≡ self.old.gaps }
        ensures whole { F.whole self.new.feed ≡ F.whole self.old.feed }
    {
        self.fill();
        if !self.holds {
            return None;
        }
        let gap = self.pause;
        self.take();
        Some(gap)
    }

    /// The transfer that was taken last; all zeros before the first.
    pub fn held(&self) -> &Transfer
        ensures is { result.now ≡ self.now.held }
        ensures fits { Fits self.now.params result.now }
    {
        &self.held
    }

    /// The parameters of the stream.
    pub fn params(&self) -> Params
        ensures { result ≡ self.now.params }
    {
        self.params
    }
}
