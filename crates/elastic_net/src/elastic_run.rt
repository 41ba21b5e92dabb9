ghost use Rattle.std.specs.Prelude.{◌≡◌, ◌<◌, ◌+◌, ◌^◌};
ghost use Rattle.elastic_net.specs.Nets.{AreOrders};
ghost use Rattle.elastic_net.specs.Standing.{chain_props};
ghost use Rattle.elastic_net.specs.Ports.{AreAt, stages_in};

use crate::chain::Chain;
use handshake::TransferFeed;
use tydi_base::List;

/// The chains of all streams of a port, row by row at their sinks.
#[derive(Drop)]
pub struct ElasticRun<F: TransferFeed> {
    pub(crate) chains: Vec<Chain<F>>,
    /// The ready bits of each stream, one for each cycle.
    pub(crate) ready: List<List<bool>>,
    /// The order of all components in each of the first cycles; a cycle past these has the order 0, 1, 2 and so on.
    pub(crate) orders: List<List<u32>>,
    /// The cycle of the next row, from 0.
    pub(crate) number: usize,
    /// The cycles that are left, with that of the next row.
    pub(crate) many: usize,
    /// The stream of the next row, from 0.
    pub(crate) stream: usize,
    /// The number of this stream's source among all components.
    pub(crate) first: usize,
    ghost at: { AreAt F.rest F.whole chains.items ready orders number many stream first } by { Prim.hlevel chain_props },
    ghost few: { number + many < 2 ^ 32 },
    ghost ordered: { AreOrders (stages_in chains.items) orders },
}
