//! Comparisons of the series of a node with the series around it.

ghost use Rattle.std.specs.Prelude.{◌≡◌, ◌<◌, ◌+◌, ◌∷◌, [], List, length, map, MatchOption};
ghost use Rattle.std.specs.List.{filter_map};
ghost use Rattle.std.specs.Option.{is_some};
ghost use Rattle.logical_value.specs.Tree.{Tree, plain};
ghost use Rattle.value_views.specs.Along.{along, selecting};
ghost use Rattle.value_views.specs.Comparing as spec;
ghost use Rattle.value_views.specs.Comparing.{first_difference, same_shape};
ghost use Rattle.value_views.specs.Series.{leaves, replaced};

use crate::gathering::{members_of, part_of};
use logical_types::Sync;
use logical_value::Value;

/// The first packet at which a Stream of this synchronicity disagrees with the series around it, of so many dimensions. The way leads
/// from the leaves around to the Stream. None where it agrees.
pub(crate) fn packet_of(
    way: &[usize],
    sync: Sync,
    dims: u64,
    around: &[Value],
    series: &[Value],
) -> Option<usize>
    ensures { result ≡ spec.packet_of sync dims (replaced (along way.now) dims (map plain around.now)) (map plain series.now) }
{
    match sync {
        Sync::Sync => difference(way, dims, around, series),
        Sync::Flatten => lesser(way, dims, around, series.len()),
        Sync::Desync => difference(way, dims, around, series),
        Sync::FlatDesync => lesser(way, dims, around, series.len()),
    }
}

/// The number of the first member that has other lists than that at its place, above this depth, where leaves that select nothing are
/// left out.
fn difference(way: &[usize], depth: u64, around: &[Value], series: &[Value]) -> Option<usize>
    ensures { result ≡ first_difference (same_shape depth) 0 (replaced (along way.now) depth (map plain around.now)) (map plain series.now) }
{
    if depth == 0 {
        return lesser(way, 0, around, series.len());
    }
    let mut number = 0;
    'members: while number < around.len() {
        if number >= series.len() {
            return Some(number);
        }
        let members = members_of(&series[number]);
        if difference(way, depth - 1, members_of(&around[number]), members).is_some() {
            return Some(number);
        }
        number += 1;
    }
    if number < series.len() {
        Some(number)
    } else {
        None
    }
}

/// The lesser of two numbers, where they differ: of leaves at this depth that select something, and of members.
fn lesser(way: &[usize], depth: u64, around: &[Value], count: usize) -> Option<usize>
    ensures { (series : List Tree) → length series ≡ count → result ≡ first_difference (same_shape 0) 0 (filter_map (along way.now) (leaves depth (map plain around.now))) series }
{
    match count_off(way, depth, around, count) {
        Some(left) => { if left == 0 { None } else { Some(count - left) } }
        None => Some(count),
    }
}

/// A number less the leaves at this depth that select something. None where there are more of these.
#[cycle(counts)]
fn count_off(way: &[usize], depth: u64, values: &[Value], count: usize) -> Option<usize>
    ensures { MatchOption result (count < selecting way.now depth (map plain values.now)) (λ left. left + selecting way.now depth (map plain values.now) ≡ count) }
{
    let mut left = count;
    'values: for value in values {
        match take_off(way, depth, value, left) {
            Some(rest) => left = rest,
            None => return None,
        }
    }
    Some(left)
}

/// The same of one nest.
#[cycle(counts)]
fn take_off(way: &[usize], depth: u64, value: &Value, count: usize) -> Option<usize>
    ensures { MatchOption result (count < selecting way.now depth (plain value.now ∷ [])) (λ left. left + selecting way.now depth (plain value.now ∷ []) ≡ count) }
{
    if depth > 0 {
        return count_off(way, depth - 1, members_of(value), count);
    }
    if selects(way, value) {
        count.checked_sub(1)
    } else {
        Some(count)
    }
}

/// Whether a value has a part to which the way leads.
fn selects(way: &[usize], value: &Value) -> bool
    ensures { result ≡ is_some (along way.now (plain value.now)) }
{
    let mut at = value;
    'way: for number in way {
        match part_of(at, *number) {
            Some(part) => at = part,
            None => return false,
        }
    }
    true
}
