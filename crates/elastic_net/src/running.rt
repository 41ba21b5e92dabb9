//! The rows of all chains of a port.

ghost use Rattle.std.specs.Prelude.{◌≡◌, ◌<◌, ◌+◌, suc, [], ℕ, Bool, List, length, take, slice_get, Some, get_or, false, Option, None};
ghost use Rattle.physical_stream.specs.declared.transfer.Transfer.{Transfer};
ghost use Rattle.elastic_net.specs.Nets.{AreOrders, sink_rows_after};
ghost use Rattle.elastic_net.specs.Orders.{IsOrder, own_order};
ghost use Rattle.elastic_net.specs.Sinks.{state_behind};
ghost use Rattle.elastic_net.specs.Ports.{AreFirst, KeepChains, net_in, stages_in};
ghost use Rattle.elastic_net.specs.Standing.{KeepChain, StandsFor};
ghost use Rattle.elastic_net.specs.States.{ChainState, first_state};
ghost use Rattle.elastic_net.specs.Turns.{FirstTurn};
ghost use Rattle.elastic_net.specs.declared.chain.Chain.{Chain};
ghost use Rattle.handshake.specs.Rows.{rows_behind};

use crate::chain::Chain;
use crate::elastic_run::ElasticRun;
use crate::ordering::act_cycle;
use crate::turn::Turn;
use handshake::{Rewind, TransferFeed};
use tydi_base::List;

impl<F: TransferFeed> ElasticRun<F> {
    /// The chains of the streams of a port, each before its first step, with the ready bits of each stream, one for each of so many cycles,
    /// and the orders of all components in the first of these cycles.
    pub fn new(
        chains: List<Chain<F>>,
        ready: List<List<bool>>,
        orders: List<List<u32>>,
        cycles: u32,
    ) -> ElasticRun<F>
        requires same { length chains ≡ length ready }
        requires long { (i : ℕ) (bits : List Bool) → slice_get ready i ≡ Some bits → length bits ≡ cycles }
        requires stands { (i : ℕ) (c : Chain F F.TransferFeed) → slice_get chains i ≡ Some c → StandsFor F.rest c (F.whole c.feed) (first_state (F.whole c.feed)) }
        requires ordered { AreOrders (stages_in chains) orders }
        ensures chains { result.chains.items ≡ chains }
        ensures ready { result.ready ≡ ready }
        ensures orders { result.orders ≡ orders }
        ensures number { result.number ≡ 0 }
        ensures many { result.many ≡ cycles }
        ensures stream { result.stream ≡ 0 }
    {
        ElasticRun {
            chains: chains.into_vec(),
            ready,
            orders,
            number: 0,
            many: cycles as usize,
            stream: 0,
            first: 0,
        }
    }

    /// Makes the next row: its stream and its ready bit. None exactly where no row is left.
    pub(crate) fn turn(&mut self) -> Option<Turn>
        ensures first { FirstTurn F.rest F.whole (sink_rows_after (net_in F.rest F.whole self.old.chains.items self.old.ready self.old.orders) self.old.stream self.old.number self.old.many) self.new.chains.items result }
        ensures rows { sink_rows_after (net_in F.rest F.whole self.new.chains.items self.new.ready self.new.orders) self.new.stream self.new.number self.new.many
            ≡ rows_behind (sink_rows_after (net_in F.rest F.whole self.old.chains.items self.old.ready self.old.orders) self.old.stream self.old.number self.old.many) }
        ensures net { net_in F.rest F.whole self.new.chains.items self.new.ready self.new.orders ≡ net_in F.rest F.whole self.old.chains.items self.old.ready self.old.orders }
        ensures cycles { self.new.number + self.new.many ≡ self.old.number + self.old.many }
    {
        if self.many == 0 {
            return None;
        }
        if self.chains.is_empty() {
            return None;
        }
        let stream = self.stream;
        let ready = bit_of(self.ready.as_slice(), stream, self.number);
        act_cycle(
            &mut self.chains[stream],
            self.orders.as_slice(),
            self.number,
            self.first,
            ready,
        );
        if stream + 1 < self.chains.len() {
            self.first = self.chains[stream].first_behind(self.first);
            self.stream = stream + 1;
            return Some(Turn { stream, ready });
        }
        self.stream = 0;
        self.first = 0;
        self.number += 1;
        self.many -= 1;
        Some(Turn { stream, ready })
    }
}

/// The ready bit of a stream in a cycle.
fn bit_of(ready: &[List<bool>], stream: usize, number: usize) -> bool
    requires within { stream < length ready.now }
    requires long { (bits : List Bool) → slice_get ready.now stream ≡ Some bits → number < length bits }
    ensures { (bits : List Bool) → slice_get ready.now stream ≡ Some bits → result ≡ get_or bits number false }
{
    let bits = &ready[stream];
    bits.as_slice()[number]
}

/// Each chain goes back to before its first step.
pub(crate) fn rewind_all<F: Rewind>(chains: &mut [Chain<F>])
    ensures first { AreFirst F.rest F.whole chains.new }
    ensures kept { KeepChains F.whole chains.old chains.new }
{
    'chains: for place in 0..chains.len() {
        chains[place].rewind();
    }
}
