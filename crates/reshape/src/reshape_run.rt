ghost use Rattle.std.specs.Prelude.{◌≡◌, List};
ghost use Rattle.std.specs.List.{All};
ghost use Rattle.physical_stream.specs.Counts.{transfers_of};
ghost use Rattle.physical_stream.specs.Signals.{Fits};
ghost use Rattle.physical_stream.specs.declared.transfer.Transfer.{Transfer};
ghost use Rattle.reshape.specs.Runs.{far_of_all, sides_at, IsAt};
ghost use Rattle.reshape.specs.Standing.{to_of};

use crate::reshaper::Reshaper;
use handshake::{Cursor, TransferFeed};
use physical_stream::Transfer;
use tydi_base::List;

/// The far side of a reshaper, cycle by cycle, where all transfers of a feed go in at the near side.
#[derive(Drop)]
pub struct ReshapeRun<F: TransferFeed> {
    /// The near side.
    pub(crate) near: Cursor<F>,
    pub(crate) reshaper: Reshaper,
    /// The ready bits of the far side, one for each cycle.
    pub(crate) ready: List<bool>,
    /// The cycles that were made.
    pub(crate) number: usize,
    /// The transfer that the far side showed last.
    pub(crate) shown: Transfer,
    /// The transfers that the far side has, done or not.
    pub(crate) planned: usize,
    /// The transfers done at the far side.
    pub(crate) done: usize,
    ghost at: { IsAt F.rest F.whole near reshaper ready number },
    ghost fits: { All (Fits near.params) (F.whole near.feed) },
    ghost room: { Fits (to_of reshaper) shown },
    ghost all: { planned ≡ far_of_all F.whole near reshaper },
    ghost count: { done ≡ transfers_of (sides_at F.whole near reshaper ready number).far },
}
