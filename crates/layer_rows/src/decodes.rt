//! Traces that are read back as values, by a table found by hand.

ghost use Rattle.type_split.specs.Streams.{IsPortSplit, plain_split};

use crate::types::{project_around, split_in, type_in};
use cycle_trace::{Trace, read};
use std::alloc::Global;
use trace_decode::{Decoded, decode};
use tydi_base::{List, Memory};
use type_split::{Split, uncarried};
use value_text::print;

// A Stream of bytes in lists.
const BYTES: &str = "Stream(data: Bits(8), dimensionality: 1, complexity: 1)";

// A Stream with user words.
const USED: &str = "Stream(data: Bits(8), complexity: 1, user: Bits(4))";

/// A port's type and a trace of its streams: the value that it carries with the user words. Others are tried over `run`.
pub(crate) const DECODED: &[(&str, &str, &str)] = &[
    (
        BYTES,
        "tydi-trace 1\ncycles 2\nstream - lanes 1 dims 1 level 1 element 8 user 0 forward\n1 1 d=48 l=0 b=1\n1 1 d=69 l=1 b=1\n",
        "root - = [72, 105];\n",
    ),
    (
        USED,
        "tydi-trace 1\ncycles 2\nstream - lanes 1 dims 0 level 1 element 8 user 4 forward\n1 0 d=01 u=a\n1 1 d=01 u=a\n",
        "root - = 1;\n// users - a\n",
    ),
];

// The value of a trace that was read back, and its user words.
fn write_decoded(
    alloc: Global,
    split: &Split<'_>,
    decoded: &Decoded,
    out: &mut List<u8>,
) -> Result<(), Memory> {
    let text = print(alloc, &decoded.value, split, decoded.users.as_slice())?;
    out.extend_from_slice(text.as_slice())
}

// The outcome of a trace of the streams of a split, each of whose nodes is carried.
fn write_outcome(
    alloc: Global,
    split: &Split<'_>,
    trace: &Trace,
    out: &mut List<u8>,
) -> Result<(), Memory>
    requires { IsPortSplit (plain_split split.now) }
{
    if uncarried(split).is_some() {
        return Err(Memory);
    }
    match decode(alloc, split, trace) {
        Ok(decoded) => write_decoded(alloc, split, &decoded, out),
        Err(_) => Err(Memory),
    }
}

pub(crate) fn decoded(
    alloc: Global,
    spelled: &str,
    text: &str,
    out: &mut List<u8>,
) -> Result<(), Memory> {
    let project = project_around(alloc, spelled)?;
    let split = split_in(alloc, type_in(&project)?)?;
    match read(alloc, text.as_bytes()) {
        Ok(trace) => write_outcome(alloc, &split, &trace, out),
        Err(_) => Err(Memory),
    }
}
