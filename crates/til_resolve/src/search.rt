//! A search in a graph: from each number, the list of those that it leads to at once.

ghost use Rattle.std.specs.Prelude.{◌≡◌, ◌<◌, ◌↔◌, [], ◌∷◌, IsTrue, IfOk, OnOk, All, length};
ghost use Rattle.til_resolve.specs.Cycles.{LeadsTo};
ghost use Rattle.til_resolve.specs.Graph.{AreNumbers, Leads, Reaches};

use std::alloc::Global;
use tydi_base::{List, Memory};

/// Whether a number leads to itself, at once or through others.
pub fn leads_to_itself(alloc: Global, graph: &[List<usize>], start: usize) -> Result<bool, Memory>
    requires within { start < length graph.now }
    requires numbers { AreNumbers graph.now }
    ensures { IfOk result (λ found. IsTrue found ↔ LeadsTo (Leads graph.now) start start) }
{
    let mut reached = vec![in alloc; false; graph.len()]?;
    let mut waiting = List::new(alloc);
    waiting.push(start)?;
    'waiting: while let Some(number) = waiting.pop() {
        prove!(number < graph.len());
        reach(&mut reached, &mut waiting, graph[number].as_slice())?;
    }
    Ok(reached[start])
}

// Marks these targets, and lets those wait that were not marked before.
fn reach(
    reached: &mut Vec<bool>,
    waiting: &mut List<usize>,
    targets: &[usize],
) -> Result<(), Memory>
    requires { All (λ one. one < length reached.old.items) targets.now }
    ensures { OnOk result (Reaches reached.old.items waiting.old targets.now reached.new.items waiting.new) }
{
    'targets: for target in targets {
        reach_one(reached, waiting, *target)?;
    }
    Ok(())
}

// Marks a target, and lets it wait if it was not marked before.
fn reach_one(
    reached: &mut Vec<bool>,
    waiting: &mut List<usize>,
    target: usize,
) -> Result<(), Memory>
    requires { target < length reached.old.items }
    ensures { OnOk result (Reaches reached.old.items waiting.old (target ∷ []) reached.new.items waiting.new) }
{
    if reached[target] {
        return Ok(());
    }
    reached[target] = true;
    waiting.push(target)
}
