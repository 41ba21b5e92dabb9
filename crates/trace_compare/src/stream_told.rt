//! The difference of a stream.

ghost use Rattle.std.specs.Prelude.{◌≡◌, ◌≤◌, ◌++◌, IfOk, OnOk, length, slice_get, take};
ghost use Rattle.std.specs.Option.{option_copied, option_to_list};
ghost use Rattle.physical_stream.specs.Cycles.{StreamTrace};
ghost use Rattle.trace_compare.specs.Differences.{IsCompared, done_by};
ghost use Rattle.trace_compare.specs.Keeping.{ComparesStream};
ghost use Rattle.trace_compare.specs.Places.{place_after};

use crate::difference::Difference;
use crate::places::place_after;
use crate::same_items::{copied, item_at};
use crate::stream_compared::StreamCompared;
use physical_stream::Item;
use std::alloc::Global;
use tydi_base::{List, Memory};

/// Adds what there is.
pub(crate) fn push_some(
    found: &mut List<Difference>,
    first: Option<Difference>,
) -> Result<(), Memory>
    ensures { OnOk result (found.new ≡ found.old ++ option_to_list first) }
{
    match first {
        Some(difference) => found.push(difference),
        None => Ok(()),
    }
}

/// The first difference of the stream of this number, which has so many dimensions; None where it has none.
pub(crate) fn first_difference(
    alloc: Global,
    stream: usize,
    dims: u8,
    want: &[Item],
    state: &StreamCompared,
) -> Result<Option<Difference>, Memory>
    requires { state.now.same ≤ length want.now }
    ensures { (s : StreamTrace) → s.params.dims ≡ dims → ComparesStream want.now s state.now → IfOk result (IsCompared stream want.now s) }
{
    match &state.other {
        Some(other) => {
            let cycle = Some(other.cycle);
            let difference = told(
                alloc,
                stream,
                dims,
                want,
                state.same,
                cycle,
                Some(&other.item),
            )?;
            Ok(Some(difference))
        }
        None => missing(alloc, stream, dims, want, state.same),
    }
}

/// The difference of a stream whose items done are so many, all as expected; None where no more are expected.
fn missing(
    alloc: Global,
    stream: usize,
    dims: u8,
    want: &[Item],
    same: usize,
) -> Result<Option<Difference>, Memory>
    requires { same ≤ length want.now }
    ensures { (s : StreamTrace) → s.params.dims ≡ dims → done_by s ≡ take same want.now → IfOk result (IsCompared stream want.now s) }
{
    if same == want.len() {
        return Ok(None);
    }
    let difference = told(alloc, stream, dims, want, same, None, None)?;
    Ok(Some(difference))
}

/// The difference at the item of this number.
fn told(
    alloc: Global,
    stream: usize,
    dims: u8,
    want: &[Item],
    item: usize,
    cycle: Option<u32>,
    got: Option<&Item>,
) -> Result<Difference, Memory>
    requires { item ≤ length want.now }
    ensures { let place = place_after dims (take item want.now) in let expected = slice_get want.now item in
        IfOk result (λ d. d ≡ record { stream = stream; item = item; place = place; cycle = cycle; want = expected; got = option_copied got.entry }) }
{
    let place = place_after(alloc, dims, &want[..item])?;
    let expected = copied(alloc, item_at(want, item))?;
    let got = copied(alloc, got)?;
    Ok(Difference {
        stream,
        item,
        place,
        cycle,
        want: expected,
        got,
    })
}
