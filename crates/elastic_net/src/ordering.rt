//! One cycle of a chain, in an order of all components of a port.

ghost use Rattle.std.specs.Prelude.{◌≡◌, ◌+◌, ◌-◌, ◌^◌, ◌<◌, ◌≤◌, min, suc, [], ℕ, Bool, List, length, map, slice_get, Some, true, false, if◌then◌else◌};
ghost use Rattle.physical_stream.specs.declared.transfer.Transfer.{Transfer};
ghost use Rattle.elastic_net.specs.Orders.{IsOrder, count_from, is_among, order_in, own_order};
ghost use Rattle.elastic_net.specs.Sinks.{acts_of};
ghost use Rattle.elastic_net.specs.Standing.{KeepChain, StandsFor};
ghost use Rattle.elastic_net.specs.States.{ChainState, act_of, has_acted, next_cycle_of};

use crate::chain::Chain;
use handshake::TransferFeed;
use tydi_base::List;

/// A component of a port acts where it is one of this chain, whose first component has this number.
fn act_own<F: TransferFeed>(chain: &mut Chain<F>, first: usize, component: usize, ready: bool)
    ensures stands { (ts : List Transfer) (s : ChainState) → StandsFor F.rest chain.old ts s
        → (is_among first (suc (length chain.old.stages)) component ≡ true → has_acted (component - first) s ≡ false)
        → StandsFor F.rest chain.new ts (if is_among first (suc (length chain.old.stages)) component then act_of chain.old.params ts chain.old.gaps chain.old.stages (component - first) ready s else s) }
    ensures kept { KeepChain F.whole chain.old chain.new }
{
    if component >= first && component - first <= chain.stages.len() {
        chain.act(component - first, ready);
    }
}

/// The components of a chain act in this order of all components of a port. The number of the chain's first component is given, or the
/// greatest number of 64 bits where it is greater: then no such order can be.
pub(crate) fn act_in_order<F: TransferFeed>(
    chain: &mut Chain<F>,
    first: usize,
    order: &[u32],
    ready: bool,
)
    ensures stands { (ts : List Transfer) (s : ChainState) (base total : ℕ) → StandsFor F.rest chain.old ts s → s.acted ≡ []
        → first ≡ min base (2 ^ 64 - 1) → base + suc (length chain.old.stages) ≤ total → IsOrder total order.now
        → StandsFor F.rest chain.new ts (acts_of chain.old.params ts chain.old.gaps chain.old.stages (own_order base (suc (length chain.old.stages)) order.now) ready s) }
    ensures kept { KeepChain F.whole chain.old chain.new }
{
    'components: for component in order {
        act_own(chain, first, *component as usize, ready);
    }
}

/// The components of a chain act from the source on.
pub(crate) fn act_in_turn<F: TransferFeed>(chain: &mut Chain<F>, ready: bool)
    ensures stands { (ts : List Transfer) (s : ChainState) → StandsFor F.rest chain.old ts s → s.acted ≡ []
        → StandsFor F.rest chain.new ts (acts_of chain.old.params ts chain.old.gaps chain.old.stages (count_from 0 (suc (length chain.old.stages))) ready s) }
    ensures kept { KeepChain F.whole chain.old chain.new }
{
    'components: for component in 0..chain.past.len() {
        chain.act(component, ready);
    }
}

/// One cycle of a chain, whose first component has this number in the orders of all components of a port: the order of this cycle, and past
/// the end of the orders 0, 1, 2 and so on.
pub(crate) fn act_cycle<F: TransferFeed>(
    chain: &mut Chain<F>,
    orders: &[List<u32>],
    number: usize,
    first: usize,
    ready: bool,
)
    ensures stands { (ts : List Transfer) (s : ChainState) (base total : ℕ) → StandsFor F.rest chain.old ts s → s.acted ≡ []
        → first ≡ min base (2 ^ 64 - 1) → base + suc (length chain.old.stages) ≤ total
        → ((order : List ℕ) → slice_get orders.now number ≡ Some order → IsOrder total order)
        → StandsFor F.rest chain.new ts (next_cycle_of (acts_of chain.old.params ts chain.old.gaps chain.old.stages
        (order_in (suc (length chain.old.stages)) (map (own_order base (suc (length chain.old.stages))) orders.now) number) ready s)) }
    ensures kept { KeepChain F.whole chain.old chain.new }
{
    match orders.get(number) {
        Some(order) => act_in_order(chain, first, order.as_slice(), ready),
        None => act_in_turn(chain, ready),
    }
}
