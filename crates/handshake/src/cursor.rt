ghost use Rattle.std.specs.Prelude.{◌≡◌, ◌<◌, ◌-◌, ◌^◌, length, true};
ghost use Rattle.physical_stream.specs.Signals.{Fits};

use crate::feed::TransferFeed;
use physical_stream::{Params, Tail, Transfer};
use tydi_base::List;

/// The run of one stream, cycle by cycle: transfers from a feed, each after its gap, and kept until it is taken. A cycle takes no
/// memory.
#[derive(Drop)]
pub struct Cursor<F: TransferFeed> {
    pub(crate) params: Params,
    pub(crate) feed: F,
    /// The transfer that is not done, where one is held.
    pub(crate) held: Transfer,
    pub(crate) holds: bool,
    /// The gaps of the plan, in cycles, by the number of the transfer.
    pub(crate) gaps: List<u32>,
    /// The cycles that the transfer that is held still waits.
    pub(crate) pause: u32,
    /// The transfers done, up to the number of gaps.
    pub(crate) place: usize,
    /// The last item done.
    pub(crate) tail: Option<Tail>,
    ghost room: { Fits params held },
    ghost same: { F.params feed ≡ params },
    ghost few: { holds ≡ true → length (F.rest feed) < 2 ^ 64 - 1 },
}
