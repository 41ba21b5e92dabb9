//! Traces that are read whole and surveyed, by hand. Violations, errors and texts that come in pieces are tried over `run`.

use cycle_trace::{read, survey};
use std::alloc::Global;
use tydi_base::{List, Memory, emit};

/// Texts: the counts of each stream.
pub(crate) const TRACES: &[(&str, &str, &str)] = &[
    (
        "tydi-trace 1\ncycles 2\nstream a lanes 1 dims 0 level 1 element 4 user 0 forward\n1 1 d=f\n1 1 d=0\n",
        "",
        "2 2,",
    ),
    (
        "tydi-trace 1\ncycles 0\nstream a lanes 1 dims 0 level 1 element 4 user 0 forward\n",
        "",
        "0 0,",
    ),
];

pub(crate) fn trace(alloc: Global, text: &str, out: &mut List<u8>) -> Result<(), Memory> {
    let Ok(trace) = read(alloc, text.as_bytes()) else {
        return Err(Memory);
    };
    match survey(alloc, &trace) {
        Ok(counts) => write_counts(counts.streams.as_slice(), out),
        Err(_) => Err(Memory),
    }
}

fn write_counts(counts: &[(u64, u64)], out: &mut List<u8>) -> Result<(), Memory> {
    for (transfers, packets) in counts {
        emit!(out; *transfers, " ", *packets, ",")?;
    }
    Ok(())
}
