//! The series that views give to the nodes of a port, in which whatever stands for a Stream is apart.

ghost use Rattle.std.specs.Prelude.{◌≡◌, ◌≤◌, ◌<◌, ◌+◌, [], ℕ, List, length, map, IfOk, slice_set, suc};
ghost use Rattle.std.specs.List.{slice_index_or};
ghost use Rattle.logical_types.specs.Faults.{IsPlain};
ghost use Rattle.logical_types.specs.Size.{number_of_nodes};
ghost use Rattle.logical_types.specs.Tree.{plain, plain_of_stream, plain_parts};
ghost use Rattle.logical_types.specs.Width.{width_of};
ghost use Rattle.logical_value.specs.Agreement.{StandsForSome};
ghost use Rattle.logical_value.specs.Tree as values;
ghost use Rattle.nest_shape.specs.Tree as nests;
ghost use Rattle.type_split.specs.Nodes.{number_of_streams, streams_in_parts};
ghost use Rattle.type_split.specs.Streams.{plain_split};
ghost use Rattle.value_views.specs.Giving as spec;
ghost use Rattle.value_views.specs.Giving.{plain_series};
ghost use Rattle.value_views.specs.Joining.{HasWords, HaveWords, plain_views};
ghost use Rattle.value_views.specs.Words.{blank_of, given_at, in_nest, unpacked, value_of};

use crate::gathering::members_of;
use crate::viewing::dims_of;
use logical_types::{LType, Part, StreamType, Sync};
use logical_value::{UnpackFault, Value, unpack};
use nest_shape::Nest;
use std::alloc::Global;
use std::mem;
use tydi_base::{Bits, List, Memory};
use type_split::{Node, Split};

/// The series of each node of a port, that its views give.
pub(crate) fn given_series(
    alloc: Global,
    split: &Split<'_>,
    views: List<List<Nest>>,
) -> Result<Vec<List<Value>>, Memory>
    requires { spec.CanJoin (plain_split split.now) (plain_views views) }
    ensures { IfOk result (λ given. spec.GiveFrom (plain_split split.now) (plain_views views) 0 (plain_series given.items)) }
{
    let mut given = empty_series(alloc, split.nodes.len())?;
    let mut left = views;
    let mut number = split.nodes.len();
    'nodes: while number > 0 {
        number -= 1;
        let series = given_node(alloc, split, &mut left, number, given.as_slice())?;
        put(&mut given, number, series);
    }
    Ok(given)
}

/// So many series without members.
pub(crate) fn empty_series(alloc: Global, count: usize) -> Result<Vec<List<Value>>, Memory>
    ensures { IfOk result (λ series. length series.items ≡ count) }
{
    let mut series = Vec::with_capacity(alloc, count)?;
    'count: while series.len() < count {
        series.push(List::new(alloc))?;
    }
    Ok(series)
}

/// Writes the series of the node of this number, where there is one.
pub(crate) fn put(series: &mut Vec<List<Value>>, number: usize, one: List<Value>)
    ensures { series.new.items ≡ slice_set series.old.items number one }
{
    if number < series.len() {
        series[number] = one;
    }
}

/// The series of the node of this number, where those of the nodes behind it are given. The node's view is taken out of those that
/// are left.
fn given_node(
    alloc: Global,
    split: &Split<'_>,
    left: &mut List<List<Nest>>,
    number: usize,
    given: &[List<Value>],
) -> Result<List<Value>, Memory>
    requires number { number < length split.now.nodes }
    requires given { (views : List (List nests.Tree)) × (spec.GiveFrom (plain_split split.now) views (suc number) (plain_series given.now)
        × spec.AreLeft (plain_split split.now) views (suc number) (plain_views left.old)) }
    ensures { (views : List (List nests.Tree)) → spec.GiveFrom (plain_split split.now) views (suc number) (plain_series given.now)
        → spec.AreLeft (plain_split split.now) views (suc number) (plain_views left.old)
        → IfOk result (λ series. (map values.plain series ≡ given_at (plain_split split.now) views number) × spec.AreLeft (plain_split split.now) views number (plain_views left.new)) }
{
    let node = &split.nodes.as_slice()[number];
    match phys_of(node) {
        Some(phys) => {
            let view = take_view(alloc, left, phys as usize);
            unpack_nests(alloc, element_of(node), view)
        }
        None => blank_node(alloc, split, number, given),
    }
}

/// Takes out the view at this place, and leaves an empty one there. Past the end the view is empty.
fn take_view(alloc: Global, views: &mut List<List<Nest>>, at: usize) -> List<Nest>
    ensures view { result ≡ slice_index_or views.old at [] }
    ensures left { views.new ≡ slice_set views.old at [] }
{
    match views.get_mut(at) {
        Some(place) => mem::replace(place, List::new(alloc)),
        None => List::new(alloc),
    }
}

/// The series of the node of this number, which has no physical stream.
fn blank_node(
    alloc: Global,
    split: &Split<'_>,
    number: usize,
    given: &[List<Value>],
) -> Result<List<Value>, Memory>
    requires node { spec.IsUnseenNode (plain_split split.now) number }
    requires given { (views : List (List nests.Tree)) × spec.GiveFrom (plain_split split.now) views (suc number) (plain_series given.now) }
    ensures { (views : List (List nests.Tree)) → spec.GiveFrom (plain_split split.now) views (suc number) (plain_series given.now)
        → IfOk result (λ series. map values.plain series ≡ given_at (plain_split split.now) views number) }
{
    let node = &split.nodes.as_slice()[number];
    match first_sync(number as u64 + 1, element_of(node)) {
        Some(child) => {
            let shape = given[child as usize].as_slice();
            blank_nests(alloc, element_of(node), dims_of(node), shape)
        }
        None => unreachable!(),
    }
}

/// The number of the physical stream of a node.
fn phys_of(node: &Node<'_>) -> Option<u32>
    ensures { result ≡ node.now.phys }
{
    node.phys
}

/// The type of a node's elements.
pub(crate) fn element_of<'t>(node: &Node<'t>) -> &'t LType
    ensures { result.now ≡ node.now.element.now }
{
    node.element
}

/// The values of nests of words of this type.
#[cycle(unpacks)]
fn unpack_nests(alloc: Global, element: &LType, words: List<Nest>) -> Result<List<Value>, Memory>
    requires { spec.CanUnpack (plain element.now) (HaveWords (plain element.now) (nests.plain_nests words)) }
    ensures { IfOk result (λ some. map values.plain some ≡ map (unpacked (plain element.now)) (map nests.plain words)) }
{
    let mut some = List::with_capacity(alloc, words.len())?;
    'words: for nest in words.into_vec() {
        let value = unpack_nest(alloc, element, nest)?;
        some.push(value)?;
    }
    Ok(some)
}

/// The value of a nest of words of this type.
#[cycle(unpacks)]
#[inline(always)]
fn unpack_nest(alloc: Global, element: &LType, nest: Nest) -> Result<Value, Memory>
    requires { spec.CanUnpack (plain element.now) (HasWords (plain element.now) (nests.plain nest)) }
    ensures { IfOk result (λ value. values.plain value ≡ unpacked (plain element.now) (nests.plain nest)) }
{
    match nest {
        Nest::Leaf(word) => unpack_word(alloc, element, word),
        Nest::List(parts) => {
            let some = unpack_nests(alloc, element, parts)?;
            Ok(Value::List(some))
        }
    }
}

/// The value of a word of this type. That of a Bits is the word itself.
#[inline(always)]
fn unpack_word(alloc: Global, element: &LType, word: Bits) -> Result<Value, Memory>
    requires plain { IsPlain (plain element.now) }
    requires few { number_of_nodes (plain element.now) ≤ 65536 }
    requires width { length word ≡ width_of (plain element.now) }
    requires stands { StandsForSome (plain element.now) word }
    ensures { IfOk result (λ value. values.plain value ≡ value_of (plain element.now) word) }
{
    if let LType::Bits(_) = element {
        return Ok(Value::Word(word));
    }
    unpack_parts(alloc, element, &word)
}

/// The value of a word of this type, whose parts are copied.
#[inline(never)]
fn unpack_parts(alloc: Global, element: &LType, word: &Bits) -> Result<Value, Memory>
    requires plain { IsPlain (plain element.now) }
    requires few { number_of_nodes (plain element.now) ≤ 65536 }
    requires width { length word.now ≡ width_of (plain element.now) }
    requires stands { StandsForSome (plain element.now) word.now }
    ensures { IfOk result (λ value. values.plain value ≡ value_of (plain element.now) word.now) }
{
    match unpack(alloc, element, word) {
        Ok(value) => Ok(value),
        Err(UnpackFault::Memory) => Err(Memory),
        Err(UnpackFault::BadTag(_)) => unreachable!(),
    }
}

/// Nests of this depth with the lists of others, and in each leaf the value of this type, which has no bits.
#[cycle(blanks)]
fn blank_nests(
    alloc: Global,
    element: &LType,
    depth: u64,
    shape: &[Value],
) -> Result<List<Value>, Memory>
    requires plain { IsPlain (plain element.now) }
    requires few { number_of_nodes (plain element.now) ≤ 65536 }
    requires narrow { width_of (plain element.now) ≡ 0 }
    ensures { IfOk result (λ some. map values.plain some ≡ map (in_nest (λ (value : values.Tree). blank_of (plain element.now)) depth) (map values.plain shape.now)) }
{
    let mut some = List::with_capacity(alloc, shape.len())?;
    'shape: for one in shape {
        let value = blank_nest(alloc, element, depth, one)?;
        some.push(value)?;
    }
    Ok(some)
}

/// A nest of this depth with the lists of another, and in each leaf the value of this type, which has no bits.
#[cycle(blanks)]
fn blank_nest(alloc: Global, element: &LType, depth: u64, shape: &Value) -> Result<Value, Memory>
    requires plain { IsPlain (plain element.now) }
    requires few { number_of_nodes (plain element.now) ≤ 65536 }
    requires narrow { width_of (plain element.now) ≡ 0 }
    ensures { IfOk result (λ value. values.plain value ≡ in_nest (λ (other : values.Tree). blank_of (plain element.now)) depth (values.plain shape.now)) }
{
    if depth == 0 {
        blank_value(alloc, element)
    } else {
        let some = blank_nests(alloc, element, depth - 1, members_of(shape))?;
        Ok(Value::List(some))
    }
}

/// The value of this type, which has no bits.
fn blank_value(alloc: Global, element: &LType) -> Result<Value, Memory>
    requires plain { IsPlain (plain element.now) }
    requires few { number_of_nodes (plain element.now) ≤ 65536 }
    requires narrow { width_of (plain element.now) ≡ 0 }
    ensures { IfOk result (λ value. values.plain value ≡ blank_of (plain element.now)) }
{
    let word = Bits::zeros(alloc, 0)?;
    unpack_word(alloc, element, word)
}

/// The number of the first Sync Stream of a type, in no other Stream of it, where the first Stream of the type has this number.
#[cycle(first_sync)]
fn first_sync(number: u64, ltype: &LType) -> Option<u64>
    requires few { number_of_streams (plain ltype.now) + number ≤ 65536 }
    ensures { result ≡ spec.first_sync number (plain ltype.now) }
{
    match ltype {
        LType::Null => None,
        LType::Bits(_) => None,
        LType::Group(parts) => first_sync_in(number, parts.as_slice()),
        LType::Union(parts) => first_sync_in(number, parts.as_slice()),
        LType::Stream(stream) => where_sync(number, stream.get()),
    }
}

/// The number of the first Sync Stream of parts, in no other Stream of them.
#[cycle(first_sync)]
fn first_sync_in(number: u64, parts: &[Part]) -> Option<u64>
    requires few { streams_in_parts (plain_parts parts.now) + number ≤ 65536 }
    ensures { result ≡ spec.first_sync_in number (plain_parts parts.now) }
{
    let mut next = number;
    'parts: for part in parts {
        if let Some(found) = first_sync(next, &part.ltype) {
            return Some(found);
        }
        next += type_split::number_of_streams(&part.ltype);
    }
    None
}

/// This number, where the Stream is Sync.
fn where_sync(number: u64, stream: &StreamType) -> Option<u64>
    ensures { result ≡ spec.first_sync number (plain_of_stream stream.now) }
{
    match stream.sync {
        Sync::Sync => Some(number),
        Sync::Flatten => None,
        Sync::Desync => None,
        Sync::FlatDesync => None,
    }
}
