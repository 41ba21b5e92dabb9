//! Plans that texts spell.

use crate::types::{project_around, split_in, type_in};
use plan_text::{Plan, StreamPlan, Wish, read};
use std::alloc::Global;
use tydi_base::{Hex, List, Memory, emit};
use type_split::Split;

// One stream of four lanes, with user words of four bits.
const ONE: &str =
    "Stream(data: Bits(8), throughput: 4, dimensionality: 1, complexity: 8, user: Bits(4))";

// A stream of two lanes, with one of four inside. They have no user words.
const TWO: &str =
    "Stream(data: Group(a: Bits(8), b: Stream(data: Bits(8), throughput: 2, dimensionality: 1)), throughput: 2)";

/// A port's type, and a text: its plan. Plans with an error are tried over `run`.
pub(crate) const PLANS: &[(&str, &str, &str)] = &[
    (ONE, "tydi-plan 1\ncycles 4", "4; g r 1111 w u"),
    (
        ONE,
        "\n// a plan\ntydi-plan 1\n\n// of so many\ncycles 4\n",
        "4; g r 1111 w u",
    ),
    (ONE, "tydi-plan 1\ncycles 0\n", "0; g r  w u"),
    (
        ONE,
        "tydi-plan 1\ncycles 4\nstream -\ngaps 0 1000000 3\nready 0011\nwishes f+late+laned 0a a+laned 1+late\nusers a 0f 0\n",
        "4; g 0 1000000 3 r 0011 w 15td 10 10d 1t u a f 0",
    ),
    (
        ONE,
        "tydi-plan 1\ncycles 4\nstream -\n\nusers a",
        "4; g r 1111 w u a",
    ),
    (
        ONE,
        "tydi-plan 1\ncycles 4\nstream -\n// pauses\ngaps 7\n//\n\nwishes 3",
        "4; g 7 r 1111 w 3 u",
    ),
    (
        ONE,
        "tydi-plan 1\ncycles 4\nstream -\nwishes 00000000000000000000000000000001 0\n",
        "4; g r 1111 w 1 0 u",
    ),
    (
        ONE,
        "tydi-plan 1\ncycles 4\nstream -\nusers 0000000000000000000000000000000000000f 0\n",
        "4; g r 1111 w u f 0",
    ),
    (
        TWO,
        "tydi-plan 1\ncycles 2\nstream -\nusers 0 00\nstream b\nwishes c\n",
        "2; g r 11 w u  ; g r 11 w 12 u",
    ),
    (TWO, "tydi-plan 1\ncycles 2\n", "2; g r 11 w u; g r 11 w u"),
    (
        TWO,
        "tydi-plan 1\ncycles 2\nstream b\nready 10\n\nstream -\ngaps 3",
        "2; g 3 r 11 w u; g r 10 w u",
    ),
    (
        TWO,
        "tydi-plan 1\ncycles 2\nstream -\nstream b\n",
        "2; g r 11 w u; g r 11 w u",
    ),
];

fn write_wish(wish: &Wish, out: &mut List<u8>) -> Result<(), Memory> {
    emit!(out; " ", wish.mask)?;
    if wish.late {
        emit!(out; "t")?;
    }
    if wish.laned {
        emit!(out; "d")?;
    }
    Ok(())
}

// Writes what the plan of a stream has: gaps, ready bits, wishes and user words.
fn write_stream(plan: &StreamPlan, out: &mut List<u8>) -> Result<(), Memory> {
    emit!(out; "; g")?;
    for gap in plan.gaps.as_slice() {
        emit!(out; " ", *gap)?;
    }
    emit!(out; " r ")?;
    for bit in plan.ready.as_slice() {
        out.push(if *bit { b'1' } else { b'0' })?;
    }
    emit!(out; " w")?;
    for wish in plan.wishes.as_slice() {
        write_wish(wish, out)?;
    }
    emit!(out; " u")?;
    for word in plan.users.as_slice() {
        emit!(out; " ", Hex(word))?;
    }
    Ok(())
}

fn write_plan(plan: &Plan, out: &mut List<u8>) -> Result<(), Memory> {
    emit!(out; plan.cycles)?;
    for stream in plan.streams.as_slice() {
        write_stream(stream, out)?;
    }
    Ok(())
}

fn write_read(
    alloc: Global,
    split: &Split<'_>,
    text: &[u8],
    out: &mut List<u8>,
) -> Result<(), Memory> {
    if text.len() > 1_000_000 {
        return Err(Memory);
    }
    match read(alloc, split, text) {
        Ok(plan) => write_plan(&plan, out),
        Err(_) => Err(Memory),
    }
}

/// Writes the plan that a text spells for a port of this type.
pub(crate) fn plan(
    alloc: Global,
    spelled: &str,
    text: &str,
    out: &mut List<u8>,
) -> Result<(), Memory> {
    let project = project_around(alloc, spelled)?;
    let split = split_in(alloc, type_in(&project)?)?;
    write_read(alloc, &split, text.as_bytes(), out)
}
