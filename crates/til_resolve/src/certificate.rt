//! Ranks that certify that a graph has few cycles: where no rank rises along an edge, a number whose targets all have lower ranks
//! does not lead to itself.

ghost use Rattle.std.specs.Prelude.{◌≡◌, ◌<◌, ◌≤◌, ◌↔◌, ℕ, IsTrue, IfOk, length, slice_index};
ghost use Rattle.til_resolve.specs.Cycles.{LeadsTo};
ghost use Rattle.til_resolve.specs.Graph.{AreNumbers, Leads, Falls, IsRanked, NeverRises, rank_of};

use crate::ranks::find_ranks;
use crate::search::leads_to_itself;
use std::alloc::Global;
use tydi_base::{List, Memory};

/// Ranks that never rise: those that are found, or none.
pub fn ranks_of(alloc: Global, graph: &[List<usize>]) -> Result<Vec<usize>, Memory>
    ensures { IfOk result (λ ranks. NeverRises ranks.items graph.now) }
{
    let ranks = find_ranks(alloc, graph)?;
    if never_rises(graph, ranks.as_slice()) {
        return Ok(ranks);
    }
    Ok(Vec::new(alloc))
}

fn never_rises(graph: &[List<usize>], ranks: &[usize]) -> bool
    ensures { IsTrue result ↔ NeverRises ranks.now graph.now }
{
    'numbers: for number in 0..graph.len() {
        if !never_rises_from(ranks, graph[number].as_slice(), rank_of(ranks, number)) {
            return false;
        }
    }
    true
}

fn never_rises_from(ranks: &[usize], targets: &[usize], rank: usize) -> bool
    ensures { IsTrue result ↔ ((k : ℕ) → k < length targets.now → rank_of ranks.now (slice_index targets.now k) ≤ rank) }
{
    'targets: for target in targets {
        if rank_of(ranks, *target) > rank {
            return false;
        }
    }
    true
}

fn falls_from(ranks: &[usize], targets: &[usize], rank: usize) -> bool
    ensures { IsTrue result ↔ ((k : ℕ) → k < length targets.now → rank_of ranks.now (slice_index targets.now k) < rank) }
{
    'targets: for target in targets {
        if rank_of(ranks, *target) >= rank {
            return false;
        }
    }
    true
}

/// The rank of a number; 0 where it has none.
pub fn rank_of(ranks: &[usize], number: usize) -> usize
    ensures { result ≡ rank_of ranks.now number }
{
    match ranks.get(number) {
        Some(rank) => *rank,
        None => 0,
    }
}

/// Whether each number has a rank from 1 to the number of all, and leads to lower ones alone.
pub fn are_ranked(graph: &[List<usize>], ranks: &[usize]) -> bool
    ensures { IsTrue result ↔ ((one : ℕ) → one < length graph.now → IsRanked ranks.now graph.now one) }
{
    'numbers: for number in 0..graph.len() {
        if !is_ranked(graph, ranks, number) {
            return false;
        }
    }
    true
}

fn is_ranked(graph: &[List<usize>], ranks: &[usize], number: usize) -> bool
    requires { number < length graph.now }
    ensures { IsTrue result ↔ IsRanked ranks.now graph.now number }
{
    let rank = rank_of(ranks, number);
    if rank == 0 || rank > graph.len() {
        return false;
    }
    falls_from(ranks, graph[number].as_slice(), rank)
}

/// Whether a number leads to itself, by these ranks where they show it.
pub fn is_cyclic(
    alloc: Global,
    graph: &[List<usize>],
    ranks: &[usize],
    number: usize,
) -> Result<bool, Memory>
    requires within { number < length graph.now }
    requires numbers { AreNumbers graph.now }
    requires rises { NeverRises ranks.now graph.now }
    ensures { IfOk result (λ found. IsTrue found ↔ LeadsTo (Leads graph.now) number number) }
{
    if falls_from(ranks, graph[number].as_slice(), rank_of(ranks, number)) {
        return Ok(false);
    }
    leads_to_itself(alloc, graph, number)
}
