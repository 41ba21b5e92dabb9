//! The view of a node, gathered along the way to it.

ghost use Rattle.std.specs.Prelude.{◌≡◌, ◌∷◌, [], ℕ, suc, map, Some, None, MatchOption};
ghost use Rattle.logical_types.specs.Tree.{plain};
ghost use Rattle.logical_value.specs.Tree as tree;
ghost use Rattle.value_views.specs.Way as spec;
ghost use Rattle.value_views.specs.Way.{CanGather, CanGatherAll, Gathers};

use crate::way::Step;
use logical_types::LType;
use logical_value::{Value, pack};
use nest_shape::Nest;
use std::alloc::Global;
use tydi_base::{List, Memory};

/// The elements of the node whose view is gathered.
#[derive(Clone, Copy)]
pub(crate) struct Gathering<'t> {
    pub(crate) alloc: Global,
    pub(crate) element: &'t LType,
}

impl Gathering<'_> {
    /// Adds the view of values of this depth, from which the way leads to the node.
    #[cycle(gather)]
    pub(crate) fn gather(
        &self,
        way: &[Step],
        depth: u64,
        values: &[Value],
        nests: &mut List<Nest>,
    ) -> Result<(), Memory>
        requires { CanGatherAll (plain self.now.element.now) way.now depth (map tree.plain values.now) }
        ensures { Gathers (plain self.now.element.now) way.now depth (map tree.plain values.now) nests.old nests.new result }
    {
        'values: for value in values {
            self.gather_value(way, depth, value, nests)?;
        }
        Ok(())
    }

    /// Adds the view of a value of this depth.
    #[cycle(gather)]
    fn gather_value(
        &self,
        way: &[Step],
        depth: u64,
        value: &Value,
        nests: &mut List<Nest>,
    ) -> Result<(), Memory>
        requires { CanGather (plain self.now.element.now) way.now depth (tree.plain value.now) }
        ensures { Gathers (plain self.now.element.now) way.now depth (tree.plain value.now ∷ []) nests.old nests.new result }
    {
        if depth == 0 {
            self.gather_leaf(way, value, nests)
        } else {
            self.gather_members(way, depth - 1, value, nests)
        }
    }

    /// Adds the view of a list of values of this depth: in a list of its own, unless a Flatten Stream is on the way.
    #[cycle(gather)]
    fn gather_members(
        &self,
        way: &[Step],
        depth: u64,
        value: &Value,
        nests: &mut List<Nest>,
    ) -> Result<(), Memory>
        requires { CanGather (plain self.now.element.now) way.now (suc depth) (tree.plain value.now) }
        ensures { Gathers (plain self.now.element.now) way.now (suc depth) (tree.plain value.now ∷ []) nests.old nests.new result }
    {
        let members = members_of(value);
        if keeps_lists(way) {
            let mut parts = List::with_capacity(self.alloc, members.len())?;
            self.gather(way, depth, members, &mut parts)?;
            nests.push(Nest::List(parts))
        } else {
            self.gather(way, depth, members, nests)
        }
    }

    /// Adds the view of a leaf: its word at the end of the way, else the view of the value that stands in it along the way.
    #[cycle(gather)]
    fn gather_leaf(&self, way: &[Step], value: &Value, nests: &mut List<Nest>) -> Result<(), Memory>
        requires { CanGather (plain self.now.element.now) way.now 0 (tree.plain value.now) }
        ensures { Gathers (plain self.now.element.now) way.now 0 (tree.plain value.now ∷ []) nests.old nests.new result }
    {
        match way.split_first() {
            Some((step, more)) => self.gather_along(*step, more, value, nests),
            None => self.push_leaf(value, nests),
        }
    }

    /// Adds the view of the value that stands in a leaf along a step and the steps behind it. A leaf whose Union selects another variant
    /// adds nothing.
    #[cycle(gather)]
    fn gather_along(
        &self,
        step: Step,
        more: &[Step],
        value: &Value,
        nests: &mut List<Nest>,
    ) -> Result<(), Memory>
        requires { CanGather (plain self.now.element.now) (step ∷ more.now) 0 (tree.plain value.now) }
        ensures { Gathers (plain self.now.element.now) (step ∷ more.now) 0 (tree.plain value.now ∷ []) nests.old nests.new result }
    {
        match step {
            Step::Part(number) => match part_of(value, number) {
                Some(part) => self.gather_leaf(more, part, nests),
                None => Ok(()),
            },
            Step::Sync(own) => self.gather_value(more, own, value, nests),
            Step::Flatten(own) => self.gather_value(more, own, value, nests),
        }
    }

    /// Adds the word of a value of the elements.
    fn push_leaf(&self, value: &Value, nests: &mut List<Nest>) -> Result<(), Memory>
        requires { CanGather (plain self.now.element.now) [] 0 (tree.plain value.now) }
        ensures { Gathers (plain self.now.element.now) [] 0 (tree.plain value.now ∷ []) nests.old nests.new result }
    {
        let word = pack(self.alloc, self.element, value)?;
        nests.push(Nest::Leaf(word))
    }
}

/// Whether all Streams on the way are Sync.
fn keeps_lists(way: &[Step]) -> bool
    ensures { result ≡ spec.keeps_lists way.now }
{
    'way: for step in way {
        if is_flatten(*step) {
            return false;
        }
    }
    true
}

/// Whether a step goes into a Flatten Stream.
fn is_flatten(step: Step) -> bool
    ensures { result ≡ spec.is_flatten step }
{
    match step {
        Step::Part(_) => false,
        Step::Sync(_) => false,
        Step::Flatten(_) => true,
    }
}

/// The members of a sequence; anything else has none.
pub(crate) fn members_of(value: &Value) -> &[Value]
    ensures { map tree.plain result.now ≡ tree.members (tree.plain value.now) }
{
    match value.members() {
        Some(members) => members,
        None => &[],
    }
}

/// The field of this number of a Group, or the value that a Union holds where it selects the variant of this number.
pub(crate) fn part_of(value: &Value, number: usize) -> Option<&Value>
    ensures { MatchOption result (spec.part_of number (tree.plain value.now) ≡ None) (λ part. spec.part_of number (tree.plain value.now) ≡ Some (tree.plain part.now)) }
{
    match value.fields() {
        Some(fields) => fields.get(number),
        None => selected(value, number),
    }
}

/// The value that a Union holds, where it selects the variant of this number.
fn selected(value: &Value, number: usize) -> Option<&Value>
    requires { spec.HasNoFields (tree.plain value.now) }
    ensures { MatchOption result (spec.part_of number (tree.plain value.now) ≡ None) (λ part. spec.part_of number (tree.plain value.now) ≡ Some (tree.plain part.now)) }
{
    match value.variant() {
        Some(one) => {
            if one.tag as usize == number {
                Some(one.part)
            } else {
                None
            }
        }
        None => None,
    }
}
