//! Values filled with the nests that their Streams take.

ghost use Rattle.std.specs.Prelude.{◌≡◌, ◌∷◌, ◌++◌, ◌≤◌, ◌<◌, ◌+◌, ◌-◌, ℕ, suc, List, IfOk, OnOk, MatchOption, [], length, map, reverse, slice_set};
ghost use Rattle.std.specs.List.{slice_index_or};
ghost use Rattle.logical_types.specs.Tree.{plain, plain_of_stream, plain_parts};
ghost use Rattle.type_split.specs.Streams.{IsPortSplit, node_view, plain_split};
ghost use Rattle.value_views.specs.Filling as spec;
ghost use Rattle.value_views.specs.Filling.{AreFilled, IsFilling};
ghost use Rattle.value_views.specs.Giving.{plain_series};
ghost use Rattle.value_views.specs.Series.{NodeSeries, leaves, series_at};
ghost use Rattle.logical_types.specs.Tree as types;
ghost use Rattle.type_split.specs.Nodes.{number_of_streams, streams_in_parts};
ghost use Rattle.logical_value.specs.Tree as values;
ghost use Rattle.logical_value.specs.declared.value.Value.TheVariants as made;
ghost use Rattle.logical_value.specs.Tree.{Tree, Trees};
ghost use Rattle.value_views.specs.Taking.{FieldsWait, IsTaken, Kept, PartsTaken, VariantWaits, Waits, left, NestsWait};

use crate::given::element_of;
use crate::viewing::dims_of;
use logical_types::{LType, Part, StreamType};
use logical_value::Value;
use std::alloc::Global;
use std::mem;
use tydi_base::{Boxed, List, Memory};
use type_split::{Node, Split};

/// Nests that are to be taken, of each node.
#[derive(Drop)]
pub(crate) struct Filling {
    pub(crate) alloc: Global,
    /// For each node the nests that are left, the next one last.
    pub(crate) queues: Vec<List<Value>>,
}

impl Filling {
    /// Fills a value of this type, whose first Stream has this number.
    #[cycle(fill)]
    fn fill(&mut self, number: u64, ltype: &LType, one: Value) -> Result<Value, Memory>
        requires few { number_of_streams (plain ltype.now) + number ≤ 65536 }
        ensures { (value : Tree) (more : List Tree) → Waits (left self.old) number (plain ltype.now) (values.plain one) value more
            → IfOk result (λ filled. (values.plain filled ≡ value) × IsTaken (left self.old) (left self.new) number (plain ltype.now) more) }
    {
        match ltype {
            LType::Null => Ok(one),
            LType::Bits(_) => Ok(one),
            LType::Group(parts) => self.fill_group(number, parts.as_slice(), one),
            LType::Union(parts) => self.fill_union(number, parts.as_slice(), one),
            LType::Stream(stream) => self.fill_stream(number, stream.get()),
        }
    }

    /// Fills what stands for a Stream.
    fn fill_stream(&mut self, number: u64, stream: &StreamType) -> Result<Value, Memory>
        ensures { (one value : Tree) (more : List Tree) → Waits (left self.old) number (plain_of_stream stream.now) one value more
            → IfOk result (λ filled. (values.plain filled ≡ value) × IsTaken (left self.old) (left self.new) number (plain_of_stream stream.now) more) }
    {
        if stream.sync.is_apart() {
            Ok(Value::Apart)
        } else {
            self.take(number)
        }
    }

    /// Takes the next nest of this node.
    fn take(&mut self, number: u64) -> Result<Value, Memory>
        ensures { (value : Tree) (more : List Tree) → left self.old number ≡ value ∷ more
            → IfOk result (λ taken. (values.plain taken ≡ value) × (left self.new number ≡ more) × Kept number (1 + number) (left self.old) (left self.new)) }
    {
        match self.queues.get_mut(number as usize) {
            Some(queue) => queue.pop().ok_or(Memory),
            None => Err(Memory),
        }
    }

    /// Fills a value of a Group.
    #[cycle(fill)]
    fn fill_group(&mut self, number: u64, parts: &[Part], one: Value) -> Result<Value, Memory>
        requires few { streams_in_parts (plain_parts parts.now) + number ≤ 65536 }
        ensures { (value : Tree) (more : List Tree) → Waits (left self.old) number (types.group (plain_parts parts.now)) (values.plain one) value more
            → IfOk result (λ filled. (values.plain filled ≡ value) × IsTaken (left self.old) (left self.new) number (types.group (plain_parts parts.now)) more) }
    {
        match into_fields(one) {
            Some(fields) => {
                let filled = self.fill_fields(number, parts, fields)?;
                Ok(Value::Group(filled))
            }
            None => Ok(Value::Null),
        }
    }

    /// Fills values of these fields, each in its place.
    #[cycle(fill)]
    fn fill_fields(
        &mut self,
        number: u64,
        parts: &[Part],
        fields: List<Value>,
    ) -> Result<List<Value>, Memory>
        requires few { streams_in_parts (plain_parts parts.now) + number ≤ 65536 }
        ensures { (some : Trees) (more : List Tree) → FieldsWait (left self.old) number (plain_parts parts.now) (values.plain_values fields) some more
            → IfOk result (λ filled. (values.plain_values filled ≡ some) × PartsTaken (left self.old) (left self.new) number (plain_parts parts.now) more) }
    {
        let mut filled = fields;
        let mut at = 0;
        let mut next = number;
        'parts: for part in parts {
            let Some(field) = take_at(&mut filled, at) else {
                return Err(Memory);
            };
            let value = self.fill(next, &part.ltype, field)?;
            put_at(&mut filled, at, value);
            next += type_split::number_of_streams(&part.ltype);
            at += 1;
        }
        Ok(filled)
    }

    /// Fills a value of a Union.
    #[cycle(fill)]
    fn fill_union(&mut self, number: u64, parts: &[Part], one: Value) -> Result<Value, Memory>
        requires few { streams_in_parts (plain_parts parts.now) + number ≤ 65536 }
        ensures { (value : Tree) (more : List Tree) → Waits (left self.old) number (types.union (plain_parts parts.now)) (values.plain one) value more
            → IfOk result (λ filled. (values.plain filled ≡ value) × IsTaken (left self.old) (left self.new) number (types.union (plain_parts parts.now)) more) }
    {
        match into_variant(one) {
            Some(Selected { tag, part }) => {
                let filled = self.fill_variant(number, parts, tag, part)?;
                Ok(Value::Union {
                    tag,
                    part: Boxed::new(self.alloc, filled)?,
                })
            }
            None => Ok(Value::Null),
        }
    }

    /// Fills a value of the variant of this number.
    #[cycle(fill)]
    fn fill_variant(
        &mut self,
        number: u64,
        parts: &[Part],
        tag: u32,
        one: Value,
    ) -> Result<Value, Memory>
        requires few { streams_in_parts (plain_parts parts.now) + number ≤ 65536 }
        ensures { (value : Tree) (more : List Tree) → VariantWaits (left self.old) number (plain_parts parts.now) tag (values.plain one) value more
            → IfOk result (λ filled. (values.plain filled ≡ value) × PartsTaken (left self.old) (left self.new) number (plain_parts parts.now) more) }
    {
        let mut rest = tag;
        let mut next = number;
        'parts: for part in parts {
            if rest == 0 {
                return self.fill(next, &part.ltype, one);
            }
            rest -= 1;
            next += type_split::number_of_streams(&part.ltype);
        }
        Err(Memory)
    }

    /// Fills nests of this depth, whose leaves are of this type, each in its place.
    #[cycle(nests)]
    fn fill_nests(
        &mut self,
        number: u64,
        ltype: &LType,
        depth: u64,
        ones: List<Value>,
    ) -> Result<List<Value>, Memory>
        requires few { number_of_streams (plain ltype.now) + number ≤ 65536 }
        ensures { (some : List Tree) (more : List Tree) → NestsWait (left self.old) number (plain ltype.now) depth (map values.plain ones) some more
            → IfOk result (λ filled. (map values.plain filled ≡ some) × IsTaken (left self.old) (left self.new) number (plain ltype.now) more) }
    {
        let mut filled = ones;
        let mut at = 0;
        'ones: while at < filled.len() {
            let Some(one) = take_at(&mut filled, at) else {
                return Err(Memory);
            };
            let value = self.fill_nest(number, ltype, depth, one)?;
            put_at(&mut filled, at, value);
            at += 1;
        }
        Ok(filled)
    }

    /// Fills a nest of this depth.
    #[cycle(nests)]
    fn fill_nest(
        &mut self,
        number: u64,
        ltype: &LType,
        depth: u64,
        one: Value,
    ) -> Result<Value, Memory>
        requires few { number_of_streams (plain ltype.now) + number ≤ 65536 }
        ensures { (value : Tree) (more : List Tree) → NestsWait (left self.old) number (plain ltype.now) depth (values.plain one ∷ []) (value ∷ []) more
            → IfOk result (λ filled. (values.plain filled ≡ value) × IsTaken (left self.old) (left self.new) number (plain ltype.now) more) }
    {
        if depth == 0 {
            self.fill(number, ltype, one)
        } else {
            let members = into_members(self.alloc, one);
            let filled = self.fill_nests(number, ltype, depth - 1, members)?;
            Ok(Value::List(filled))
        }
    }

    /// Fills the series of a node, whose elements are of this type. Where no Stream stands in the type, there is nothing to fill.
    fn fill_series(
        &mut self,
        number: u64,
        ltype: &LType,
        depth: u64,
        ones: List<Value>,
    ) -> Result<List<Value>, Memory>
        requires few { number_of_streams (plain ltype.now) + number ≤ 65536 }
        ensures { (some : List Tree) (more : List Tree) → NestsWait (left self.old) number (plain ltype.now) depth (map values.plain ones) some more
            → IfOk result (λ filled. (map values.plain filled ≡ some) × IsTaken (left self.old) (left self.new) number (plain ltype.now) more) }
    {
        if type_split::number_of_streams(ltype) == 0 {
            return Ok(ones);
        }
        self.fill_nests(number, ltype, depth, ones)
    }

    /// Fills the series of the node of this number, where those of the nodes behind it are filled.
    pub(crate) fn fill_node(
        &mut self,
        split: &Split<'_>,
        ones: List<Value>,
        number: usize,
        roots: &mut List<List<Value>>,
    ) -> Result<(), Memory>
        requires port { IsPortSplit (plain_split split.now) }
        requires number { number < length split.now.nodes }
        ensures { (given : List (List Tree)) (all : List NodeSeries) → AreFilled (plain_split split.now) given all → series_at number given ≡ map values.plain ones
            → IsFilling (plain_split split.now) all (suc number) (left self.old) (plain_series roots.old)
            → OnOk result (IsFilling (plain_split split.now) all number (left self.new) (plain_series roots.new)) }
    {
        let node = &split.nodes.as_slice()[number];
        let filled = self.fill_series(number as u64 + 1, element_of(node), dims_of(node), ones)?;
        if is_root(node) {
            return roots.push(filled);
        }
        let queue = queue_of(self.alloc, cut_of(node), filled)?;
        self.put(number, queue)
    }

    /// Writes the queue of the node of this number.
    fn put(&mut self, number: usize, queue: List<Value>) -> Result<(), Memory>
        ensures { OnOk result ((left self.new number ≡ map values.plain (reverse queue)) × ((k : ℕ) → (number ≡ k → ⊥) → left self.new k ≡ left self.old k)) }
    {
        if number < self.queues.len() {
            self.queues[number] = queue;
            Ok(())
        } else {
            Err(Memory)
        }
    }
}

/// The nests of this depth fewer, the next one last.
fn queue_of(alloc: Global, cut: u64, series: List<Value>) -> Result<List<Value>, Memory>
    ensures { IfOk result (λ queue. map values.plain (reverse queue) ≡ leaves cut (map values.plain series)) }
{
    let mut queue = List::new(alloc);
    push_last(alloc, cut, series, &mut queue)?;
    Ok(queue)
}

/// Adds the leaves at this depth to a queue, the last one first.
fn push_last(
    alloc: Global,
    depth: u64,
    series: List<Value>,
    queue: &mut List<Value>,
) -> Result<(), Memory>
    ensures { OnOk result (map values.plain (reverse queue.new) ≡ leaves depth (map values.plain series) ++ map values.plain (reverse queue.old)) }
{
    let mut rest = series;
    'rest: while let Some(value) = rest.pop() {
        if depth == 0 {
            queue.push(value)?;
        } else {
            push_last(alloc, depth - 1, into_members(alloc, value), queue)?;
        }
    }
    Ok(())
}

/// The members of a sequence; anything else has none.
fn into_members(alloc: Global, value: Value) -> List<Value>
    ensures { map values.plain result ≡ values.members (values.plain value) }
{
    match value {
        Value::List(members) => members,
        Value::Null => List::new(alloc),
        Value::Word(_) => List::new(alloc),
        Value::Group(_) => List::new(alloc),
        Value::Union { .. } => List::new(alloc),
        Value::Apart => List::new(alloc),
    }
}

/// Whether a node is a root.
fn is_root(node: &Node<'_>) -> bool
    ensures { result ≡ spec.is_root (node_view node.now) }
{
    node.parent.is_none() || node.sync.is_apart()
}

/// The dimensionality of a node around its own.
fn cut_of(node: &Node<'_>) -> u64
    ensures { result ≡ node.now.params.dims - node.now.own_dims }
{
    u64::from(node.params.dims.saturating_sub(node.own_dims))
}

/// The fields of a Group; anything else has none.
fn into_fields(value: Value) -> Option<List<Value>>
    ensures { MatchOption result ((parts : Trees) → values.plain value ≡ values.group parts → ⊥) (λ fields. values.plain value ≡ values.group (values.plain_values fields)) }
{
    match value {
        Value::Group(fields) => Some(fields),
        Value::Null => None,
        Value::Word(_) => None,
        Value::Union { .. } => None,
        Value::List(_) => None,
        Value::Apart => None,
    }
}

/// The variant that a value of a Union selects, from 0, and its value.
#[derive(Drop)]
struct Selected {
    tag: u32,
    part: Value,
}

/// The variant of a Union; anything else has none.
fn into_variant(value: Value) -> Option<Selected>
    ensures { MatchOption result ((tag : ℕ) (part : Tree) → values.plain value ≡ values.union tag part → ⊥) (λ one. values.plain value ≡ values.union one.tag (values.plain one.part)) }
{
    match value {
        Value::Union { tag, part } => Some(Selected {
            tag,
            part: part.into_inner(),
        }),
        Value::Null => None,
        Value::Word(_) => None,
        Value::Group(_) => None,
        Value::List(_) => None,
        Value::Apart => None,
    }
}

/// Takes out the value at this place, where there is one; another stands there until one is put back.
fn take_at(ones: &mut List<Value>, at: usize) -> Option<Value>
    ensures { MatchOption result ((length ones.old ≤ at) × (ones.new ≡ ones.old)) (λ one. (at < length ones.old) × (one ≡ slice_index_or ones.old at one) × (ones.new ≡ slice_set ones.old at (made.Apart))) }
{
    match ones.get_mut(at) {
        Some(place) => Some(mem::replace(place, Value::Apart)),
        None => None,
    }
}

/// Puts a value in this place, where there is one.
fn put_at(ones: &mut List<Value>, at: usize, value: Value)
    ensures { ones.new ≡ slice_set ones.old at value }
{
    if let Some(place) = ones.get_mut(at) {
        *place = value;
    }
}
