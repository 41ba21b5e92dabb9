//! Runs of planned transfers, by worked rows.

ghost use Rattle.std.specs.Prelude.{◌≡◌, [], length, IfOk, OnOk};
ghost use Rattle.physical_stream.specs.Signals.{Fits};
ghost use Rattle.handshake.specs.Ports.{runs_in};
ghost use Rattle.handshake.specs.Rows.{undone_in};
ghost use Rattle.handshake.specs.Standing.{StandsFor};
ghost use Rattle.scheduler.specs.Laws.{AreItems};
ghost use Rattle.scheduler.specs.Planners.{rest_of, whole_of};

use crate::calls::cut;
use crate::plans::{behind_stream, items_in, no_plan, stream_in};
use crate::schedules::write_transfer;
use handshake::{Cursor, CycleFeed, PortRun, Rewind, TransferFeed, finish_cycle};
use physical_stream::{Item, Params, Row, Transfer};
use scheduler::Planner;
use std::alloc::Global;
use tydi_base::{Hex, List, Memory, emit};

/// A stream and items; gaps, a digit for each, and ready bits: the content and the last bits that each cycle shows, how many transfers
/// are left, and after which cycle none is left.
pub(crate) const RUNS: &[(&str, &str, &str)] = &[
    (
        "1 1 3 8 0 Hi0",
        "01 00111",
        "48/0 48/0 48/0 - 69/1 left 0 after 5",
    ),
    (
        "1 1 3 8 0 Hi0",
        "01 00110",
        "48/0 48/0 48/0 - 69/1 left 1 after ",
    ),
    ("1 1 3 8 0 Hi0", " 00", "48/0 48/0 left 2 after "),
    (
        "1 1 1 8 0 \x01\x020\x030",
        "033 111111",
        "01/0 02/1 - - - 03/1 left 0 after 6",
    ),
    (
        "1 1 3 8 0 \x01\x020\x030",
        "033 111111111",
        "01/0 - - - 02/1 - - - 03/1 left 0 after 9",
    ),
    ("1 0 1 8 0 ", "5 1", "- left 0 after 0"),
];

// A number for each digit.
fn gaps_in(alloc: Global, digits: &str) -> Result<List<u32>, Memory> {
    let mut gaps = List::new(alloc);
    'digits: for digit in digits.as_bytes() {
        gaps.push(u32::from(digit.wrapping_sub(b'0')))?;
    }
    Ok(gaps)
}

// A bit for each digit.
fn bits_in(alloc: Global, digits: &str) -> Result<List<bool>, Memory> {
    let mut bits = List::new(alloc);
    'digits: for digit in digits.as_bytes() {
        bits.push(*digit == b'1')?;
    }
    Ok(bits)
}

// The planner of items by the plan without wishes.
fn planner_of(alloc: Global, p: Params, items: List<Item>) -> Result<Planner, Memory>
    requires { AreItems p items }
    ensures params { IfOk result (λ planner. planner.params ≡ p) }
    ensures rest { IfOk result (λ planner. rest_of planner ≡ whole_of planner) }
{
    match Planner::new(alloc, p, items, no_plan(alloc)) {
        Ok(planner) => Ok(planner),
        Err(_) => Err(Memory),
    }
}

// The run of items before its first cycle.
fn cursor_of(
    alloc: Global,
    p: Params,
    items: List<Item>,
    gaps: List<u32>,
) -> Result<Cursor<Planner>, Memory>
    requires { AreItems p items }
    ensures { IfOk result (λ cursor. StandsFor rest_of cursor (whole_of cursor.feed) []) }
{
    Cursor::new(alloc, p, planner_of(alloc, p, items)?, gaps)
}

// The run of a stream and items that are spelled.
fn cursor_in(alloc: Global, stream: &str, gaps: &str) -> Result<Cursor<Planner>, Memory>
    ensures { IfOk result (λ cursor. StandsFor rest_of cursor (whole_of cursor.feed) []) }
{
    let p = stream_in(stream)?;
    let items = items_in(alloc, &p, behind_stream(stream).as_bytes())?;
    cursor_of(alloc, p, items, gaps_in(alloc, gaps)?)
}

fn write_cycle(row: Row<'_>, out: &mut List<u8>) -> Result<(), Memory> {
    match row.shown {
        Some(transfer) => emit!(out; Hex(&transfer.content), "/", Hex(&transfer.last), " "),
        None => emit!(out; "- "),
    }
}

fn write_run(
    cursor: &mut Cursor<Planner>,
    ready: &[bool],
    out: &mut List<u8>,
) -> Result<(), Memory> {
    'cycles: for bit in ready {
        write_cycle(cursor.cycle(*bit), out)?;
    }
    emit!(out; "left ", cursor.left())
}

fn write_both(
    cursor: &mut Cursor<Planner>,
    ready: &[bool],
    out: &mut List<u8>,
) -> Result<(), Memory> {
    if ready.len() > 1000 {
        return Err(Memory);
    }
    write_run(cursor, ready, out)?;
    cursor.rewind();
    emit!(out; " after ", finish_cycle(cursor, ready))
}

pub(crate) fn run(
    alloc: Global,
    first: &str,
    second: &str,
    out: &mut List<u8>,
) -> Result<(), Memory> {
    let (gaps, bits) = cut(second);
    let mut cursor = cursor_in(alloc, first, gaps)?;
    let ready = bits_in(alloc, bits)?;
    write_both(&mut cursor, ready.as_slice(), out)
}
