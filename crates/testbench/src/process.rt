//! The process of one stream.

ghost use Rattle.std.specs.Prelude.{◌≡◌, if◌then◌else◌, slice_index, IfOk};
ghost use Rattle.std.specs.List.{All};
ghost use Rattle.physical_stream.specs.Signals.{Fits};
ghost use Rattle.complexity_rules.specs.Pauses.{pauses_after};
ghost use Rattle.testbench.specs.Driving.{process_from};

use crate::statements::{add_end, add_pause, add_showing};
use complexity_rules::{may_pause, tail_after};
use physical_stream::{Params, Tail, Transfer};
use std::alloc::Global;
use tydi_base::{List, Memory};
use vhdl_text::Stmt;

/// The gap of this number, 0 past the end.
fn gap_in(gaps: &[u32], number: usize) -> u32
    ensures { result ≡ slice_index gaps.now number }
{
    match gaps.get(number) {
        Some(gap) => *gap,
        None => 0,
    }
}

/// The gap of this number, where valid may be low after an item of this kind; elsewhere 0.
fn effective_gap(p: &Params, tail: Option<Tail>, gaps: &[u32], number: usize) -> u32
    ensures { result ≡ if pauses_after p.now tail then slice_index gaps.now number else 0 }
{
    if may_pause(p, tail) {
        gap_in(gaps, number)
    } else {
        0
    }
}

/// The process that drives these transfers on the stream of this number, with gaps in cycles.
pub(crate) fn process_of(
    alloc: Global,
    stream: u32,
    p: &Params,
    transfers: &[Transfer],
    gaps: &[u32],
) -> Result<List<Stmt>, Memory>
    requires { All (Fits p.now) transfers.now }
    ensures { IfOk result (λ process. process ≡ process_from p.now stream transfers.now gaps.now 0 transfers.now) }
{
    let mut process = List::new(alloc);
    let mut tail = None;
    'transfers: for number in 0..transfers.len() {
        let transfer = &transfers[number];
        let gap = effective_gap(p, tail, gaps, number);
        add_pause(alloc, stream, gap, &mut process)?;
        add_showing(alloc, p, stream, transfer, &mut process)?;
        tail = tail_after(p, tail, transfer);
    }
    add_end(alloc, stream, &mut process)?;
    Ok(process)
}
