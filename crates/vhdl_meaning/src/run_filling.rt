//! The run of the lines of a text, with ready bits and an order for each cycle.

ghost use Rattle.std.specs.Prelude.{◌≡◌, map, replicate, true, IfOk};
ghost use Rattle.vhdl_meaning.specs.RunText as spec;
ghost use Rattle.vhdl_meaning.specs.RunDraft.{given_in};

use crate::draft::Draft;
use crate::ordering::text_order;
use crate::run::SimRun;
use std::alloc::Global;
use tydi_base::{List, Memory};

// The ready bits of a stream, which are all ones where it has no line.
fn ready_in(alloc: Global, cycles: u32, found: Option<List<bool>>) -> Result<List<bool>, Memory>
    ensures { IfOk result (λ ready. ready ≡ spec.ready_in cycles found) }
{
    match found {
        Some(ready) => Ok(ready),
        None => {
            let mut ready = Vec::new(alloc);
            ready.resize(cycles as usize, true)?;
            Ok(List::from_vec(ready))
        }
    }
}

// The ready bits of all streams.
fn fill_ready(
    alloc: Global,
    cycles: u32,
    found: Vec<Option<List<bool>>>,
) -> Result<List<List<bool>>, Memory>
    ensures { IfOk result (λ ready. ready ≡ map (spec.ready_in cycles) found.items) }
{
    let mut ready = List::with_capacity(alloc, found.len())?;
    'streams: for one in found {
        ready.push(ready_in(alloc, cycles, one)?)?;
    }
    Ok(ready)
}

// The orders of all cycles, of so many processes.
fn fill_orders(
    alloc: Global,
    cycles: u32,
    count: u32,
    orders: List<List<u32>>,
) -> Result<List<List<u32>>, Memory>
    ensures { IfOk result (λ all. all ≡ spec.orders_in cycles count orders) }
{
    let mut all = orders;
    'cycles: while all.len() < cycles as usize {
        all.push(text_order(alloc, count)?)?;
    }
    Ok(all)
}

/// The run of these lines, of so many cycles and processes.
pub(crate) fn run_with(
    alloc: Global,
    cycles: u32,
    count: u32,
    draft: Draft,
) -> Result<SimRun, Memory>
    ensures { IfOk result (λ run. run ≡ spec.run_with cycles count (given_in draft)) }
{
    let ready = fill_ready(alloc, cycles, draft.ready)?;
    let orders = fill_orders(alloc, cycles, count, draft.orders)?;
    Ok(SimRun {
        cycles,
        ready,
        orders,
    })
}
