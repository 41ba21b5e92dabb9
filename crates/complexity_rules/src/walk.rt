//! A walk over the items of a transfer, lane by lane. It makes no list of them.

ghost use Rattle.std.specs.Prelude.{◌≡◌, ◌↔◌, ℕ, ◌+◌, ◌*◌, ◌<◌, ◌≤◌, ◌++◌, ◌∷◌, [], List, Bool, ◌||◌, not, ◌==◌, cond, count_ones, Option, Some, if◌then◌else◌, IsTrue};
ghost use Rattle.physical_stream.specs.Breaks.{BreaksLaneLast};
ghost use Rattle.physical_stream.specs.Items.{is_active, items_of, lane_closes, lane_items, lane_word, last_bit, parts_below};
ghost use Rattle.physical_stream.specs.Shape.{may_close};
ghost use Rattle.physical_stream.specs.Signals.{Fits};
ghost use Rattle.physical_stream.specs.declared.item.Item.{Item};
ghost use Rattle.physical_stream.specs.declared.item.Item.TheVariants as items;
ghost use Rattle.physical_stream.specs.declared.item.Tail.{Tail};
ghost use Rattle.complexity_rules.specs.Effect.{IsEffect, most_of_lane, most_packets};
ghost use Rattle.complexity_rules.specs.Unmarked.{AreUnmarked, ShowsMarks};
ghost use Rattle.complexity_rules.specs.Walk.{Finds, first_of_two};

use crate::effect::Effect;
use crate::last_item::LastItem;
use crate::unmarked::{active_between, is_lane_active, marks_of, next_marked};
use physical_stream::{Params, Transfer, is_last};

/// The findings of a walk over items so far.
#[derive(Clone, Copy)]
pub(crate) struct Walk {
    /// The kind of the last item, also of those before the walk.
    pub tail: LastItem,
    /// Whether an element came.
    pub active: bool,
    /// The dimension of the first Close that came.
    pub first_close: Option<u8>,
    /// Whether a Close stood where it may not.
    pub misplaced: bool,
    /// The items that end a packet.
    pub packets: u64,
}

impl Walk {
    /// A walk before its first item, after an item of this kind.
    #[inline(always)]
    pub(crate) fn after(tail: LastItem) -> Walk
        ensures found { (dims : ℕ) → Finds dims tail [] result }
        ensures few { result.packets ≡ 0 }
    {
        Walk {
            tail,
            active: false,
            first_close: None,
            misplaced: false,
            packets: 0,
        }
    }

    /// The changes that the items make when they are done.
    #[inline(always)]
    pub(crate) fn effect(self) -> Effect
        ensures effect { (dims : ℕ) (begins : Option Tail) (over : List Item) → Finds dims begins over self → IsEffect dims begins over result }
        ensures packets { result.packets ≡ self.packets }
    {
        Effect {
            tail: self.tail,
            packets: self.packets,
        }
    }

    /// The walk goes over an element.
    #[inline(always)]
    fn over_element(self, p: &Params) -> Walk
        requires room { self.packets < 2 * most_packets }
        ensures found { (begins : Option Tail) (over : List Item) (word : List Bool) → Finds p.now.dims begins over self → Finds p.now.dims begins (over ++ items.Elem word ∷ []) result }
        ensures few { result.packets ≤ self.packets + 1 }
    {
        Walk {
            tail: LastItem::element(),
            active: true,
            packets: self.packets + counted(p.dims == 0),
            ..self
        }
    }

    /// The walk goes over a Close.
    #[inline(always)]
    fn over_close(self, p: &Params, dim: u8) -> Walk
        requires within { dim < p.now.dims }
        requires room { self.packets < 2 * most_packets }
        ensures found { (begins : Option Tail) (over : List Item) → Finds p.now.dims begins over self → Finds p.now.dims begins (over ++ items.Close dim ∷ []) result }
        ensures few { result.packets ≤ self.packets + 1 }
    {
        Walk {
            tail: LastItem::close(dim),
            active: self.active,
            first_close: first_of_two(self.first_close, dim),
            misplaced: either(self.misplaced, is_misplaced(self.tail, dim)),
            packets: self.packets + counted(is_outermost(p, dim)),
        }
    }

    /// The walk goes over the end of this dimension where this lane marks it. Whether the only lane of a stream does is not foreseen.
    #[inline(always)]
    fn over_mark(self, p: &Params, transfer: &Transfer, lane: u16, dim: u8) -> Walk
        requires fits { Fits p.now transfer.now }
        requires within { lane < p.now.lanes }
        requires in_lane { dim < p.now.dims }
        requires room { self.packets < 2 * most_packets }
        ensures found { (begins : Option Tail) (over : List Item) → Finds p.now.dims begins over self
            → Finds p.now.dims begins (over ++ (if last_bit p.now transfer.now lane dim then items.Close dim ∷ [] else [])) result }
        ensures few { result.packets ≤ self.packets + 1 }
    {
        let marked = is_last(p, transfer, lane, dim);
        if p.lanes == 1 {
            let closed = self.over_close(p, dim);
            return chosen(marked, &closed, &self);
        }
        if marked {
            self.over_close(p, dim)
        } else {
            self
        }
    }

    /// The walk goes over the ends that this lane marks. Most streams have one dimension, for which there is no loop.
    #[inline(always)]
    fn over_marks(self, p: &Params, transfer: &Transfer, lane: u16) -> Walk
        requires fits { Fits p.now transfer.now }
        requires within { lane < p.now.lanes }
        requires room { self.packets ≤ most_packets + 1 }
        ensures found { (begins : Option Tail) (over : List Item) → Finds p.now.dims begins over self → Finds p.now.dims begins (over ++ lane_closes p.now transfer.now lane) result }
        ensures few { result.packets ≤ self.packets + 32 }
    {
        if p.dims == 1 {
            return self.over_mark(p, transfer, lane, 0);
        }
        let mut walk = self;
        'dims: for dim in 0..p.dims {
            walk = walk.over_mark(p, transfer, lane, dim);
        }
        walk
    }

    /// The walk goes over the element of this lane where it is active.
    #[inline(always)]
    fn over_lane_element(self, p: &Params, transfer: &Transfer, lane: u16) -> Walk
        requires numbered { lane < 128 }
        requires room { self.packets ≤ most_packets }
        ensures found { (begins : Option Tail) (over : List Item) → Finds p.now.dims begins over self
            → Finds p.now.dims begins (over ++ (if is_active transfer.now lane then items.Elem (lane_word p.now transfer.now lane) ∷ [] else [])) result }
        ensures few { result.packets ≤ self.packets + 1 }
    {
        if is_lane_active(transfer, lane) {
            self.over_element(p)
        } else {
            self
        }
    }

    /// The walk goes over the items of this lane.
    #[inline(always)]
    pub(crate) fn over_lane(self, p: &Params, transfer: &Transfer, lane: u16) -> Walk
        requires fits { Fits p.now transfer.now }
        requires within { lane < p.now.lanes }
        requires numbered { lane < 128 }
        requires room { self.packets ≤ most_of_lane * lane }
        ensures found { (begins : Option Tail) (over : List Item) → Finds p.now.dims begins over self → Finds p.now.dims begins (over ++ lane_items p.now transfer.now lane) result }
        ensures few { result.packets ≤ most_of_lane * (lane + 1) }
    {
        self.over_lane_element(p, transfer, lane)
            .over_marks(p, transfer, lane)
    }

    /// The walk goes over the items of the lanes from one up to another, none of which marks an end.
    #[inline(always)]
    fn over_unmarked(self, p: &Params, transfer: &Transfer, from: u16, to: u16) -> Walk
        requires order { from ≤ to }
        requires numbered { to ≤ 128 }
        requires unmarked { AreUnmarked p.now transfer.now from to }
        requires room { self.packets ≤ most_of_lane * from }
        ensures found { (begins : Option Tail) → Finds p.now.dims begins (parts_below (lane_items p.now transfer.now) from) self
            → Finds p.now.dims begins (parts_below (lane_items p.now transfer.now) to) result }
        ensures few { result.packets ≤ most_of_lane * to }
    {
        let elements = active_between(transfer, from, to);
        if elements == 0 {
            return self;
        }
        Walk {
            tail: LastItem::element(),
            active: true,
            packets: self.packets + packets_among(p, elements),
            ..self
        }
    }

    /// The walk goes over the items of the first lanes, so many of them.
    #[inline(always)]
    fn over_lanes(self, p: &Params, transfer: &Transfer, marks: Option<u128>, count: u16) -> Walk
        requires fits { Fits p.now transfer.now }
        requires shows { ShowsMarks marks transfer.now }
        requires within { count ≤ p.now.lanes }
        requires numbered { count ≤ 128 }
        requires fresh { self.packets ≡ 0 }
        ensures found { (begins : Option Tail) → Finds p.now.dims begins [] self → Finds p.now.dims begins (parts_below (lane_items p.now transfer.now) count) result }
        ensures few { result.packets ≤ most_of_lane * count }
    {
        if count == 0 {
            return self;
        }
        let mut walk = self;
        let mut lane = 0;
        'lanes: while lane < count {
            let marked = next_marked(p, marks, lane, count);
            walk = walk.over_unmarked(p, transfer, lane, marked);
            lane = marked;
            if lane < count {
                walk = walk.over_lane(p, transfer, lane);
                lane += 1;
            }
        }
        walk
    }
}

/// The findings about the items of a transfer, after an item of some kind.
#[derive(Clone, Copy)]
pub(crate) struct Shown {
    /// Whether a lane before the last one marks an end.
    pub early: bool,
    /// The walk over all its items.
    pub walk: Walk,
}

/// Walks over the items of a transfer, after an item of this kind.
#[inline(always)]
pub(crate) fn walk_over(p: &Params, transfer: &Transfer, tail: LastItem) -> Shown
    requires fits { Fits p.now transfer.now }
    ensures found { Finds p.now.dims tail (items_of p.now transfer.now) result.walk }
    ensures early { IsTrue result.early ↔ BreaksLaneLast p.now transfer.now }
    ensures few { result.walk.packets ≤ most_packets }
{
    let marks = marks_of(transfer);
    if next_marked(p, marks, 0, p.lanes) == p.lanes {
        return Shown {
            early: false,
            walk: Walk::after(tail).over_unmarked(p, transfer, 0, p.lanes),
        };
    }
    walk_over_marked(p, transfer, marks, tail)
}

/// The same, lane by lane.
#[inline(always)]
fn walk_over_marked(p: &Params, transfer: &Transfer, marks: Option<u128>, tail: LastItem) -> Shown
    requires fits { Fits p.now transfer.now }
    requires shows { ShowsMarks marks transfer.now }
    ensures found { Finds p.now.dims tail (items_of p.now transfer.now) result.walk }
    ensures early { IsTrue result.early ↔ BreaksLaneLast p.now transfer.now }
    ensures few { result.walk.packets ≤ most_packets }
{
    let last = p.lanes - 1;
    let before = Walk::after(tail).over_lanes(p, transfer, marks, last);
    Shown {
        early: before.first_close.is_some(),
        walk: before.over_lane(p, transfer, last),
    }
}

/// Whether this is the dimension of packets.
#[inline(always)]
fn is_outermost(p: &Params, dim: u8) -> bool
    ensures { result ≡ (dim + 1 == p.now.dims) }
{
    u16::from(dim) + 1 == u16::from(p.dims)
}

/// How many packets so many elements are, each of them a one of the number.
#[inline(always)]
fn packets_among(p: &Params, elements: u128) -> u64
    ensures packets { result ≡ cond (p.now.dims == 0) (count_ones elements) 0 }
    ensures few { result ≤ count_ones elements }
{
    if p.dims == 0 {
        u64::from(elements.count_ones())
    } else {
        0
    }
}

/// 1 for true.
#[inline(always)]
fn counted(counts: bool) -> u64
    ensures { result ≡ cond counts 1 0 }
{
    u64::from(counts)
}

/// One of two walks. It branches on nothing, since which one it is is not foreseen.
#[inline(always)]
fn chosen(first: bool, one: &Walk, other: &Walk) -> Walk
    ensures { result ≡ cond first one.now other.now }
{
    Walk {
        tail: one_of(first, one.tail, other.tail),
        active: one_of(first, one.active, other.active),
        first_close: one_of(first, one.first_close, other.first_close),
        misplaced: one_of(first, one.misplaced, other.misplaced),
        packets: one_of(first, one.packets, other.packets),
    }
}

/// One of two, of which both are there.
#[inline(always)]
fn one_of<T: Copy>(first: bool, one: T, other: T) -> T
    ensures { result ≡ cond first one other }
{
    if first { one } else { other }
}

/// Whether one of two holds. It looks at both, since neither is foreseen.
#[inline(always)]
fn either(one: bool, other: bool) -> bool
    ensures { result ≡ (one || other) }
{
    one | other
}

/// The first of two dimensions, where there is one.
#[inline(always)]
fn first_of_two(first: Option<u8>, dim: u8) -> Option<u8>
    ensures { result ≡ first_of_two first (Some dim) }
{
    match first {
        None => Some(dim),
        Some(first) => Some(first),
    }
}

/// Whether a Close of this dimension may not stand after an item of this kind.
#[inline(always)]
fn is_misplaced(tail: LastItem, dim: u8) -> bool
    ensures { result ≡ not (may_close tail dim) }
{
    !tail.may_close(dim)
}
