//! Names that stand twice in a Group or a Union.

ghost use Rattle.std.specs.Prelude.{◌≡◌, ◌^◌, ◌<◌, ◌≤◌, ℕ, List, [], length, slice_index, slice_index_or, take, MatchBool};
ghost use Rattle.std.specs.List.{list_any};
ghost use Rattle.std.specs.List.Sorted.{IsSortedBy};
ghost use Rattle.std.specs.Ordering.{is_lt};
ghost use Rattle.logical_types.specs.Names as spec;
ghost use Rattle.logical_types.specs.NameOrder.{AreNeighboursApart, HasSameNeighbours, name_cmp, number_cmp};

use crate::ltype::Part;
use std::cmp::Ordering;

/// Parts with names.
pub trait Named {
    /// Their names.
    ghost names: { Self → List (List ℕ) };

    /// How many there are.
    fn len(&self) -> usize
        ensures { result ≡ length (names self.now) };

    /// The name of one of them.
    fn name(&self, index: usize) -> &[u8]
        requires { index < length (names self.now) }
        ensures { result.now ≡ slice_index_or (names self.now) index [] };
}

/// The parts of a Group or a Union, by their names.
#[derive(Clone, Copy)]
pub struct PartNames<'a>(pub &'a [Part]);

impl Named for PartNames<'_> {
    ghost names = { λ parts. spec.part_names parts.0.now };

    fn len(&self) -> usize {
        self.0.len()
    }

    fn name(&self, index: usize) -> &[u8] {
        self.0[index].name.as_bytes()
    }
}

// With this many parts or fewer, a small array of numbers serves.
const FEW: usize = 64;

// As many as a type has at most.
const MANY: usize = 65_536;

/// Whether two of these parts have names that are equal when case is ignored. The names are sorted by their numbers, so that the time
/// is that of n * log n comparisons, whatever the names are. More than 65,536 are compared each with each.
pub fn has_name_twice<N: Named>(parts: &N) -> bool
    ensures { result ≡ spec.has_name_twice (N.names parts.now) }
{
    let count = parts.len();
    if count <= FEW {
        return is_name_twice(parts, &mut [0; FEW][..count]);
    }
    if count <= MANY {
        return has_name_twice_among_many(parts);
    }
    is_name_repeated(parts)
}

// The same with a great array. It is kept apart: put into a function that calls itself, the array would take 256 KiB of the stack for
// each type that stands in another.
#[inline(never)]
fn has_name_twice_among_many<N: Named>(parts: &N) -> bool
    requires { length (N.names parts.now) ≤ MANY }
    ensures { result ≡ spec.has_name_twice (N.names parts.now) }
{
    let count = parts.len();
    is_name_twice(parts, &mut [0; MANY][..count])
}

// The same by sorting the numbers of the parts, for which there is room.
fn is_name_twice<N: Named>(parts: &N, numbers: &mut [u32]) -> bool
    requires room { length numbers.old ≡ length (N.names parts.now) }
    requires fits { length numbers.old ≤ 2 ^ 32 }
    ensures { result ≡ spec.has_name_twice (N.names parts.now) }
{
    fill_numbers(numbers);
    numbers.sort_unstable_by(|one, other| compare_numbers(parts, *one, *other));
    has_same_neighbours(parts, numbers)
}

// Becomes the numbers from 0 on.
fn fill_numbers(numbers: &mut [u32])
    requires { length numbers.old ≤ 2 ^ 32 }
    ensures long { length numbers.new ≡ length numbers.old }
    ensures numbers { (k : ℕ) → k < length numbers.new → slice_index numbers.new k ≡ k }
{
    'places: for place in 0..numbers.len() {
        numbers[place] = place as u32;
    }
}

// Whether two of these numbers that stand together have names that are equal when case is ignored.
fn has_same_neighbours<N: Named>(parts: &N, numbers: &[u32]) -> bool
    ensures { MatchBool result (HasSameNeighbours (N.names parts.now) numbers.now) (AreNeighboursApart (N.names parts.now) numbers.now) }
{
    'places: for place in 1..numbers.len() {
        if compare_numbers(parts, numbers[place - 1], numbers[place]).is_eq() {
            return true;
        }
    }
    false
}

// The order of the names of two numbers, when case is ignored.
fn compare_numbers<N: Named>(parts: &N, one: u32, other: u32) -> Ordering
    ensures { result ≡ number_cmp (N.names parts.now) one other }
{
    compare_names(name_of(parts, one), name_of(parts, other))
}

// The name of a number; the empty text where it has none.
fn name_of<N: Named>(parts: &N, number: u32) -> &[u8]
    ensures { result.now ≡ slice_index_or (N.names parts.now) number [] }
{
    let index = number as usize;
    if index < parts.len() {
        parts.name(index)
    } else {
        &[]
    }
}

// The order of two names when case is ignored.
fn compare_names(one: &[u8], other: &[u8]) -> Ordering
    ensures { result ≡ name_cmp one.now other.now }
{
    let mut left = one;
    let mut right = other;
    'bytes: while let Some((first, rest)) = left.split_first() {
        let Some((second, more)) = right.split_first() else {
            return Ordering::Greater;
        };
        let order = first.to_ascii_lowercase().cmp(&second.to_ascii_lowercase());
        if order.is_ne() {
            return order;
        }
        left = rest;
        right = more;
    }
    if right.is_empty() {
        Ordering::Equal
    } else {
        Ordering::Less
    }
}

// Whether two of these parts have equal names, where each is compared with those before it.
fn is_name_repeated<N: Named>(parts: &N) -> bool
    ensures { result ≡ spec.has_name_twice (N.names parts.now) }
{
    'parts: for index in 0..parts.len() {
        if has_name(parts, index, parts.name(index)) {
            return true;
        }
    }
    false
}

// Whether one of the parts before an index has a name equal to this one.
fn has_name<N: Named>(parts: &N, end: usize, name: &[u8]) -> bool
    requires { end ≤ length (N.names parts.now) }
    ensures { result ≡ list_any (λ other. spec.is_same_name other name.now) (take end (N.names parts.now)) }
{
    'parts: for index in 0..end {
        if parts.name(index).eq_ignore_ascii_case(name) {
            return true;
        }
    }
    false
}
