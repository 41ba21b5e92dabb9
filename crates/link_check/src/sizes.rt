//! How many instances a design has.

ghost use Rattle.std.specs.Prelude.{◌≡◌, ◌↔◌, ◌≤◌, ◌<◌, ◌+◌, ℕ, IsTrue, IfOk, length, map, slice_set, nat_lt, if◌then◌else◌, false};
ghost use Rattle.til_resolve.specs.PlainProject.{plain_streamlet};
ghost use Rattle.til_resolve.specs.SoundProject.{instances_inside};
ghost use Rattle.link_check.specs.Sizes.{IsTooLarge, instances_at};
ghost use Rattle.link_check.specs.Counts.{HasSettled, IsBelow, IsRaised, counted, entry, room};

use std::alloc::Global;
use til_resolve::{Impl, Instance, Streamlet};
use tydi_base::Memory;

/// One instance more than a streamlet may have inside it; a count that is over the limit stands at this.
const TOO_MANY: u64 = 65_537;

/// Whether some streamlet has too many instances inside it, at all levels. A streamlet counts once, however many instances it has.
pub(crate) fn is_too_large(alloc: Global, streamlets: &[Streamlet]) -> Result<bool, Memory>
    ensures { IfOk result (λ large. IsTrue large ↔ IsTooLarge (map plain_streamlet streamlets.now)) }
{
    let mut counts = no_counts(alloc, streamlets.len())?;
    'rounds: while raise_all(streamlets, counts.as_mut_slice()) {}
    Ok(has_too_many(counts.as_slice()))
}

/// A count of no instance for each of so many streamlets.
fn no_counts(alloc: Global, len: usize) -> Result<Vec<u64>, Memory>
    ensures long { IfOk result (λ counts. length counts.items ≡ len) }
    ensures none { IfOk result (λ counts. (number : ℕ) → entry counts.items number ≡ 0) }
{
    let mut counts = Vec::new(alloc);
    'counts: for _number in 0..len {
        counts.push(0)?;
    }
    Ok(counts)
}

/// Whether some count is over the limit.
fn has_too_many(counts: &[u64]) -> bool
    ensures { IsTrue result ↔ ((number : ℕ) × (65536 < entry counts.now number)) }
{
    'counts: for count in counts {
        if *count >= TOO_MANY {
            return true;
        }
    }
    false
}

/// Each count by the counts of the instances, where that is more. Whether one was raised.
fn raise_all(streamlets: &[Streamlet], counts: &mut [u64]) -> bool
    requires { length counts.old ≡ length streamlets.now }
    ensures long { length counts.new ≡ length counts.old }
    ensures below { IsBelow (map plain_streamlet streamlets.now) counts.old → IsBelow (map plain_streamlet streamlets.now) counts.new }
    ensures settled { result ≡ false → HasSettled (map plain_streamlet streamlets.now) counts.new (length counts.new) }
    ensures less { room counts.new + (if result then 1 else 0) ≤ room counts.old }
{
    let mut raised = false;
    let len = streamlets.len();
    // the way down serves texts that have the outermost streamlet first, and the way up those that have it last
    'numbers: for number in 0..len {
        raised = raise_at(streamlets, counts, len - 1 - number) | raised;
        raised = raise_at(streamlets, counts, number) | raised;
    }
    raised
}

/// The count of a streamlet by the counts of its instances, where that is more. Whether it was raised.
fn raise_at(streamlets: &[Streamlet], counts: &mut [u64], number: usize) -> bool
    requires within { number < length streamlets.now }
    requires long { length counts.old ≡ length streamlets.now }
    ensures { IsRaised counts.old number (counted counts.old (instances_at (map plain_streamlet streamlets.now) number)) counts.new result }
{
    let count = count_of(counts, instances_of(&streamlets[number]));
    raise(counts, number, count)
}

/// A count, where this is more. Whether it was raised.
fn raise(counts: &mut [u64], number: usize, count: u64) -> bool
    requires { number < length counts.old }
    ensures { IsRaised counts.old number count counts.new result }
{
    if counts[number] < count {
        counts[number] = count;
        true
    } else {
        false
    }
}

/// These instances, and those inside each, as far as they are counted.
fn count_of(counts: &[u64], instances: &[Instance]) -> u64
    ensures { result ≡ counted counts.now instances.now }
{
    let mut count: u64 = 0;
    'instances: for one in instances {
        count = count
            .saturating_add(1)
            .saturating_add(count_at(counts, one.streamlet as usize))
            .min(TOO_MANY);
    }
    count
}

/// The count of a number; 0 where it has none.
fn count_at(counts: &[u64], number: usize) -> u64
    ensures { result ≡ entry counts.now number }
{
    match counts.get(number) {
        Some(count) => *count,
        None => 0,
    }
}

/// The instances in the implementation of a streamlet.
fn instances_of(streamlet: &Streamlet) -> &[Instance]
    ensures { result.now ≡ instances_inside streamlet.now.body }
{
    match &streamlet.body {
        None => &[],
        Some(Impl::Linked(_)) => &[],
        Some(Impl::Structural { instances, .. }) => instances.as_slice(),
    }
}
