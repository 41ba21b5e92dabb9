//! New chains.

ghost use Rattle.std.specs.Prelude.{◌≡◌, ◌≤◌, ◌+◌, ℕ, List, length, sum, replicate, IfOk};
ghost use Rattle.std.specs.List.{All};
ghost use Rattle.physical_stream.specs.Signals.{Fits};
ghost use Rattle.physical_stream.specs.declared.transfer.Transfer.{Transfer};
ghost use Rattle.elastic_net.specs.States.{first_state};
ghost use Rattle.elastic_net.specs.Standing.{StandsFor};

use crate::chain::Chain;
use handshake::TransferFeed;
use physical_stream::{Params, Transfer};
use std::alloc::Global;
use tydi_base::{List, Memory};

impl<F: TransferFeed> Chain<F> {
    /// The chain of the transfers that are left in the feed, with these gaps in cycles, through stages of these capacities, before its
    /// first step. Want of memory is the one error: all places are taken here.
    pub fn new(
        alloc: Global,
        params: Params,
        feed: F,
        gaps: List<u32>,
        stages: &[u16],
    ) -> Result<Chain<F>, Memory>
        requires same { F.params feed ≡ params }
        requires few { length stages.now ≤ 16 }
        ensures stands { IfOk result (λ chain. StandsFor F.rest chain (F.rest feed) (first_state (F.rest feed))) }
        ensures params { IfOk result (λ chain. chain.params ≡ params) }
        ensures gaps { IfOk result (λ chain. chain.gaps ≡ gaps) }
        ensures stages { IfOk result (λ chain. chain.stages ≡ stages.now) }
        ensures whole { IfOk result (λ chain. F.whole chain.feed ≡ F.whole feed) }
    {
        let places = blank_places(alloc, &params, ring_size(stages))?;
        let past = no_counts(alloc, stages.len() + 1)?;
        let kept = List::from_slice(alloc, stages)?;
        let total = feed.left();
        Ok(Chain {
            params,
            feed,
            gaps,
            stages: kept,
            places,
            past,
            holds: false,
            pause: 0,
            tail: None,
            total,
            shows: false,
            number: 0,
        })
    }
}

/// The places that a chain takes: one for each transfer in its stages, one for the transfer that the source holds, and one for the
/// transfer that left the chain last.
fn ring_size(stages: &[u16]) -> usize
    requires few { length stages.now ≤ 16 }
    ensures { result ≡ sum stages.now + 2 }
{
    let mut size: usize = 2;
    'stages: for capacity in stages {
        size += *capacity as usize;
    }
    size
}

/// So many places for transfers of this stream.
fn blank_places(alloc: Global, p: &Params, count: usize) -> Result<Vec<Transfer>, Memory>
    ensures many { IfOk result (λ places. length places.items ≡ count) }
    ensures fit { IfOk result (λ places. All (Fits p.now) places.items) }
{
    let mut places = Vec::new(alloc);
    'places: for _number in 0..count {
        places.push(Transfer::zero(alloc, p)?)?;
    }
    Ok(places)
}

/// A count of nothing for each of so many components.
fn no_counts(alloc: Global, count: usize) -> Result<Vec<usize>, Memory>
    ensures { IfOk result (λ counts. counts.items ≡ replicate count 0) }
{
    let mut counts = Vec::new(alloc);
    'counts: for _number in 0..count {
        counts.push(0)?;
    }
    Ok(counts)
}
