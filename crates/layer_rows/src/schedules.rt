//! Schedules, by worked rows.

ghost use Rattle.scheduler.specs.Laws.{AreItems, UsersFit};
ghost use Rattle.scheduler.specs.Planned.{MasksFit};

use crate::plans::{behind_stream, items_in, plan_in, stream_in};
use physical_stream::{Item, Params, Transfer};
use plan_text::StreamPlan;
use scheduler::{ScheduleFault, schedule};
use std::alloc::Global;
use tydi_base::{Hex, List, Memory, emit};

/// A stream and items, and a plan of at most one wish and one user word: the signals of each transfer.
pub(crate) const SCHEDULES: &[(&str, &str, &str)] = &[
    (
        "3 1 1 8 0 \x01\x02\x03\x04\x050",
        "",
        "d=030201 l=0 s=0 e=2 b=7 u=, d=000504 l=4 s=0 e=1 b=7 u=, ",
    ),
    ("2 0 4 8 0 \x01\x02\x03", "", "not a multiple 3 2"),
    (
        "2 0 4 8 0 \x01\x02\x03\x04",
        "",
        "d=0201 l= s=0 e=1 b=3 u=, d=0403 l= s=0 e=1 b=3 u=, ",
    ),
    (
        "2 0 5 8 0 \x01\x02\x03",
        "",
        "d=0201 l= s=0 e=1 b=3 u=, d=0003 l= s=0 e=0 b=3 u=, ",
    ),
    (
        "1 2 1 8 0 011",
        "",
        "d=00 l=3 s=0 e=0 b=0 u=, d=00 l=2 s=0 e=0 b=0 u=, ",
    ),
    (
        "4 1 8 4 0 \x01\x020\x030",
        "15+laned",
        "d=0321 l=6 s=0 e=2 b=7 u=, ",
    ),
    (
        "4 1 7 4 0 \x01\x020\x030",
        "10",
        "d=2010 l=8 s=1 e=3 b=10 u=, d=0003 l=8 s=0 e=0 b=1 u=, ",
    ),
    (
        "4 1 6 4 0 \x01\x020\x030",
        "10",
        "d=0210 l=8 s=1 e=2 b=15 u=, d=0003 l=8 s=0 e=0 b=15 u=, ",
    ),
    (
        "4 1 5 4 0 \x01\x020\x030",
        "10",
        "d=0021 l=8 s=0 e=1 b=15 u=, d=0003 l=8 s=0 e=0 b=15 u=, ",
    ),
    (
        "1 1 4 8 0 \x010",
        "1+late",
        "d=01 l=0 s=0 e=0 b=1 u=, d=00 l=1 s=0 e=0 b=0 u=, ",
    ),
    ("1 1 3 8 0 \x010", "1+late", "d=01 l=1 s=0 e=0 b=1 u=, "),
    (
        "1 1 4 8 0 \x010",
        "0",
        "d=00 l=0 s=0 e=0 b=0 u=, d=01 l=1 s=0 e=0 b=1 u=, ",
    ),
    ("1 0 1 8 4 \x01", "1 10", "d=01 l= s=0 e=0 b=1 u=a, "),
    (
        "128 0 8 1 0 \x01\x01",
        "",
        "d=00000000000000000000000000000003 l= s=0 e=1 b=3 u=, ",
    ),
];

/// Writes the signals of a transfer.
pub(crate) fn write_transfer(t: &Transfer, out: &mut List<u8>) -> Result<(), Memory> {
    emit!(out; "d=", Hex(&t.content), " l=", Hex(&t.last), " s=", t.stai, " e=", t.endi, " b=", t.strb, " u=", Hex(&t.user), ", ")
}

fn write_transfers(list: &[Transfer], out: &mut List<u8>) -> Result<(), Memory> {
    for transfer in list {
        write_transfer(transfer, out)?;
    }
    Ok(())
}

fn write_schedule(
    alloc: Global,
    p: &Params,
    items: &[Item],
    plan: &StreamPlan,
    out: &mut List<u8>,
) -> Result<(), Memory>
    requires fit { AreItems p.now items.now }
    requires masks { MasksFit p.now plan.now.wishes }
    requires users { UsersFit p.now plan.now.users }
{
    match schedule(alloc, p, items, plan) {
        Ok(list) => write_transfers(list.as_slice(), out),
        Err(ScheduleFault::CountNotMultiple(count, lanes)) => {
            emit!(out; "not a multiple ", count, " ", lanes)
        }
        Err(ScheduleFault::Memory) => Err(Memory),
    }
}

pub(crate) fn scheduled(
    alloc: Global,
    first: &str,
    second: &str,
    out: &mut List<u8>,
) -> Result<(), Memory> {
    let p = stream_in(first)?;
    let items = items_in(alloc, &p, behind_stream(first).as_bytes())?;
    let plan = plan_in(alloc, &p, second)?;
    write_schedule(alloc, &p, items.as_slice(), &plan, out)
}
