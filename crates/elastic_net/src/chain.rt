ghost use Rattle.std.specs.Prelude.{◌≡◌, ◌<◌, ◌+◌, suc, length, sum};
ghost use Rattle.std.specs.List.{All};
ghost use Rattle.physical_stream.specs.Signals.{Fits};

use handshake::TransferFeed;
use physical_stream::{Params, Tail, Transfer};
use tydi_base::List;

/// A chain of stages behind the source of one stream: register slices and queues. A stage holds transfers up to its capacity and moves
/// its first one on. The stages hold their transfers in one ring of places, in which each stage has the places of its own. A step takes
/// no memory.
#[derive(Drop)]
pub struct Chain<F: TransferFeed> {
    pub(crate) params: Params,
    pub(crate) feed: F,
    /// The gaps of the plan, in cycles, by the number of the transfer.
    pub(crate) gaps: List<u32>,
    /// The capacities of the stages, in transfers.
    pub(crate) stages: List<u16>,
    /// The ring of places: transfer t, counted from 0, stands at t modulo their number.
    pub(crate) places: Vec<Transfer>,
    /// How many transfers each component has moved on: the source, and then the stages.
    pub(crate) past: Vec<usize>,
    /// Whether the source has the next transfer in its place.
    pub(crate) holds: bool,
    /// The cycles that this transfer still waits.
    pub(crate) pause: u32,
    /// The last item that was sent.
    pub(crate) tail: Option<Tail>,
    /// All transfers.
    pub(crate) total: usize,
    /// Whether the last component showed a transfer when it acted last.
    pub(crate) shows: bool,
    /// The number of this transfer.
    pub(crate) number: usize,
    ghost size: { sum stages + 1 < length places.items },
    ghost fits: { All (Fits params) places.items },
    ghost same: { F.params feed ≡ params },
    ghost each: { length past.items ≡ suc (length stages) },
}
