ghost use Rattle.std.specs.Prelude.{◌≤◌};

use std::alloc::Global;
use tydi_base::{List, Memory, Text};
use tydi_io::{MemSink, MemStore};
use tydi_tool::run;

/// The numbers of the calls that fail, and one less than the most bytes that a call takes or gives.
#[derive(Clone, Copy)]
pub(crate) struct Faults<'a> {
    pub(crate) store: &'a [u64],
    pub(crate) out: &'a [u64],
    pub(crate) err: &'a [u64],
    pub(crate) most: u16,
}

/// The outcome of a run.
#[derive(Drop)]
pub(crate) struct Outcome {
    /// The exit status.
    pub(crate) status: u8,
    pub(crate) out: List<u8>,
    pub(crate) err: List<u8>,
}

/// Runs the tool on these words, over a store with these files, and two sinks with room for 4,096 bytes.
pub(crate) fn run_over(
    alloc: Global,
    words: &[Text],
    files: List<(Text, List<u8>)>,
    faults: &Faults<'_>,
) -> Result<Outcome, Memory> {
    let most = usize::from(faults.most) + 1;
    let failing = List::from_slice(alloc, faults.store)?;
    let mut store = MemStore::new(alloc, files, most, failing)?;
    let mut out = sink(alloc, most, faults.out)?;
    let mut err = sink(alloc, most, faults.err)?;
    let status = run(alloc, words, &mut store, &mut out, &mut err);
    Ok(Outcome {
        status: status.number(),
        out: List::from_slice(alloc, out.taken())?,
        err: List::from_slice(alloc, err.taken())?,
    })
}

fn sink(alloc: Global, most: usize, failing: &[u64]) -> Result<MemSink, Memory>
    requires { 1 ≤ most }
{
    MemSink::new(alloc, 4096, most, List::from_slice(alloc, failing)?)
}
