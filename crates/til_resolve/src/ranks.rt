//! Ranks by which a graph is seen to have few cycles. They are found by a walk that numbers what leads to one another alike, and
//! lower than what leads to it (Tarjan, Depth-first search and linear graph algorithms, 1972).
//!
//! Contracts promise a rank for each number, not its value, since no answer rests on ranks. `certificate` tests that no rank rises
//! along an edge, and searches where ranks don't show that a number is on no cycle; `chains` tests the table that is made in the
//! order of ranks, `tables` tests the order itself, and each has another way where a test fails. Only time rests on ranks: with
//! those that are found every test passes, so that one walk is enough.

ghost use Rattle.std.specs.Prelude.{◌≡◌, ◌+◌, ◌-◌, ◌^◌, length, min, slice_get, slice_set, IfOk};
ghost use Rattle.til_resolve.specs.Graph.{AreByRank, rank_of, steps_over, targets_of};

use std::alloc::Global;
use tydi_base::{List, Memory};

/// A number for each number of a graph.
pub fn find_ranks(alloc: Global, graph: &[List<usize>]) -> Result<Vec<usize>, Memory>
    ensures { IfOk result (λ ranks. length ranks.items ≡ length graph.now) }
{
    let mut walk = Walk::new(alloc, graph.len())?;
    'steps: for _step in 0..steps_of(graph) {
        walk.step(graph)?;
    }
    Ok(walk.ranks)
}

/// The numbers in the order of their ranks; of those of one rank, one.
pub fn numbers_by_rank(alloc: Global, ranks: &[usize]) -> Result<Vec<usize>, Memory>
    ensures whole { IfOk result (λ order. length order.items ≡ length ranks.now + 1) }
    ensures ranked { IfOk result (λ order. AreByRank ranks.now order.items (length ranks.now)) }
{
    let mut order = vec![in alloc; 0; ranks.len().saturating_add(1)]?;
    'numbers: for (number, rank) in ranks.iter().enumerate() {
        put(&mut order, *rank, number);
    }
    Ok(order)
}

// The steps of a walk over all, or the greatest number of 64 bits: one to begin at each number, one to leave it, and one along each edge.
fn steps_of(graph: &[List<usize>]) -> usize
    ensures { result ≡ min (steps_over graph.now) (2 ^ 64 - 1) }
{
    let mut steps = graph.len().saturating_mul(2);
    'numbers: for targets in graph {
        steps = steps.saturating_add(targets.len());
    }
    steps
}

// A number that is being walked, and how many of its targets were looked at.
#[derive(Clone, Copy)]
struct Visit {
    number: usize,
    looked_at: usize,
}

#[derive(Drop)]
struct Walk {
    // The next number to begin with.
    root: usize,
    // How many numbers were met, and how many ranks were given.
    met: usize,
    given: usize,
    // When each number was met, counted from 1, and the first one met that it leads back to; 0 where it was not met.
    order: Vec<usize>,
    lowest: Vec<usize>,
    // The ranks, counted from 1; 0 where there is none yet.
    ranks: Vec<usize>,
    // The way from the root, and what was met and has no rank yet.
    way: Vec<Visit>,
    open: Vec<usize>,
}

impl Walk {
    fn new(alloc: Global, len: usize) -> Result<Walk, Memory>
        ensures { IfOk result (λ walk. length walk.ranks.items ≡ len) }
    {
        Ok(Walk {
            root: 0,
            met: 0,
            given: 0,
            order: vec![in alloc; 0; len]?,
            lowest: vec![in alloc; 0; len]?,
            ranks: vec![in alloc; 0; len]?,
            way: Vec::new(alloc),
            open: Vec::new(alloc),
        })
    }

    // One step: to a new root, to a target, or back.
    fn step(&mut self, graph: &[List<usize>]) -> Result<(), Memory>
        ensures { length self.new.ranks.items ≡ length self.old.ranks.items }
    {
        let Some(visit) = self.way.pop() else {
            return self.begin();
        };
        match target_at(graph, visit) {
            Some(target) => self.look_at(visit, target),
            None => {
                self.leave(visit.number);
                Ok(())
            }
        }
    }

    fn begin(&mut self) -> Result<(), Memory>
        ensures { length self.new.ranks.items ≡ length self.old.ranks.items }
    {
        let root = self.root;
        self.root = root.saturating_add(1);
        if root < self.order.len() && at(&self.order, root) == 0 {
            self.meet(root)?;
        }
        Ok(())
    }

    fn meet(&mut self, number: usize) -> Result<(), Memory>
        ensures { length self.new.ranks.items ≡ length self.old.ranks.items }
    {
        self.met = self.met.saturating_add(1);
        put(&mut self.order, number, self.met);
        put(&mut self.lowest, number, self.met);
        self.open.push(number)?;
        self.way.push(Visit {
            number,
            looked_at: 0,
        })?;
        Ok(())
    }

    fn look_at(&mut self, visit: Visit, target: usize) -> Result<(), Memory>
        ensures { length self.new.ranks.items ≡ length self.old.ranks.items }
    {
        self.way.push(Visit {
            number: visit.number,
            looked_at: visit.looked_at.saturating_add(1),
        })?;
        if at(&self.order, target) == 0 {
            return self.meet(target);
        }
        if at(&self.ranks, target) == 0 {
            let order = at(&self.order, target);
            self.lower(visit.number, order);
        }
        Ok(())
    }

    // All targets of a number were looked at.
    fn leave(&mut self, number: usize)
        ensures { length self.new.ranks.items ≡ length self.old.ranks.items }
    {
        let lowest = at(&self.lowest, number);
        if lowest == at(&self.order, number) {
            self.rank_from(number);
        }
        let before = self.way.last().map(|visit| visit.number);
        if let Some(before) = before {
            self.lower(before, lowest);
        }
    }

    fn lower(&mut self, number: usize, order: usize)
        ensures { length self.new.ranks.items ≡ length self.old.ranks.items }
    {
        if order < at(&self.lowest, number) {
            put(&mut self.lowest, number, order);
        }
    }

    // Gives a rank to all that was met from a number on.
    fn rank_from(&mut self, number: usize)
        ensures { length self.new.ranks.items ≡ length self.old.ranks.items }
    {
        self.given = self.given.saturating_add(1);
        'open: while let Some(open) = self.open.pop() {
            put(&mut self.ranks, open, self.given);
            if open == number {
                return;
            }
        }
    }
}

fn target_at(graph: &[List<usize>], visit: Visit) -> Option<usize>
    ensures { result ≡ slice_get (targets_of graph.now visit.number) visit.looked_at }
{
    graph.get(visit.number)?.get(visit.looked_at).copied()
}

// The entry at an index; 0 where there is none.
fn at(list: &[usize], index: usize) -> usize
    ensures { result ≡ rank_of list.now index }
{
    match list.get(index) {
        Some(value) => *value,
        None => 0,
    }
}

// Puts an entry at an index, where there is one.
fn put(list: &mut [usize], index: usize, value: usize)
    ensures { list.new ≡ slice_set list.old index value }
{
    if index < list.len() {
        list[index] = value;
    }
}
