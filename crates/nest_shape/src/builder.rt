//! A series as it is built.

ghost use Rattle.std.specs.Prelude.{◌≡◌, ◌==◌, ◌≤◌, ◌<◌, ◌∷◌, ◌++◌, [], ℕ, suc, true, false, List, MatchBool, MatchResult, IfOk, OnOk};
ghost use Rattle.physical_stream.specs.Shape.{is_misplaced, may_close, tail_of};
ghost use Rattle.physical_stream.specs.declared.item.Item.{Item};
ghost use Rattle.physical_stream.specs.declared.item.Item.TheVariants.{Close, Elem};
ghost use Rattle.nest_shape.specs.Building.{AddsTo, Descends, IsPushed, MayTakeClose, StandsFor, Takes, dims_of};
ghost use Rattle.nest_shape.specs.Flat.{HasDepth};
ghost use Rattle.nest_shape.specs.Shape.{ClosesBelow, IsSeriesOf, LeavesOpen};
ghost use Rattle.nest_shape.specs.Tree.{plain};
ghost use Rattle.nest_shape.specs.declared.builder.Open.{Open};

use crate::nest::Nest;
use physical_stream::Item;
use std::alloc::Global;
use tydi_base::{Bits, List, Memory, TryClone};

/// Nests of one depth that no Close has taken yet.
#[derive(Debug, Drop)]
pub(crate) struct Open {
    pub(crate) depth: u8,
    pub(crate) members: List<Nest>,
}

/// A series that is built of its items, one at a time. Contracts say of it which items it was given (`StandsFor`), the dimensionality of
/// its series (`dims_of`), and which Close it may take next (`MayTakeClose`). It keeps nests and no items, so who keeps one needs no
/// items either. After `Memory` it is of no more use. Which items may follow is this project's own.
#[derive(Debug, Drop)]
pub struct Builder {
    pub(crate) alloc: Global,
    pub(crate) dims: u8,
    /// The least depth that what comes next may have, but for an element.
    pub(crate) level: u8,
    /// The open sequences, the outermost first.
    pub(crate) begun: List<Open>,
}

/// The sequences that items leave open.
#[derive(Clone, Copy, Debug, PartialEq, Eq)]
pub struct Unclosed {
    /// Sequences of this level are open: 0 after an element, and one more than its dimension after a Close.
    pub level: u8,
}

impl Builder {
    /// A builder of a series of this dimensionality that was given no items. It takes no memory.
    pub fn new(alloc: Global, dims: u8) -> Builder
        ensures stands { StandsFor result [] }
        ensures dims { dims_of result ≡ dims }
    {
        Builder {
            alloc,
            dims,
            level: dims,
            begun: List::new(alloc),
        }
    }

    /// Whether a Close of this dimension may come next. It takes no memory.
    pub fn may_close(&self, dim: u8) -> bool
        requires { dim < dims_of self.now }
        ensures told { (done : List Item) → StandsFor self.now done → result ≡ may_close (tail_of done) dim }
        ensures takes { result ≡ true → MayTakeClose self.now dim }
    {
        dim <= self.level
    }

    /// Takes a copy of this item. False exactly where it is a Close that may not come next; then the builder is as before. Memory comes
    /// where there is none for it.
    pub fn add(&mut self, item: &Item) -> Result<bool, Memory>
        requires { ClosesBelow (dims_of self.old) item.now }
        ensures stands { (done : List Item) → StandsFor self.old done → IfOk result (λ placed. MatchBool placed
            ((is_misplaced (tail_of done) item.now ≡ false) × StandsFor self.new (done ++ item.now ∷ []))
            ((is_misplaced (tail_of done) item.now ≡ true) × StandsFor self.new done)) }
        ensures dims { dims_of self.new ≡ dims_of self.old }
    {
        match item {
            Item::Elem(word) => {
                let copy = word.try_clone(self.alloc)?;
                self.element(copy)?;
                Ok(true)
            }
            Item::Close(dim) => self.close_where_allowed(*dim),
        }
    }

    /// Closes a sequence where it may be closed, and answers whether it did.
    fn close_where_allowed(&mut self, dim: u8) -> Result<bool, Memory>
        requires { dim < dims_of self.old }
        ensures stands { (done : List Item) → StandsFor self.old done → IfOk result (λ placed. MatchBool placed
            ((may_close (tail_of done) dim ≡ true) × StandsFor self.new (done ++ Close dim ∷ []))
            ((may_close (tail_of done) dim ≡ false) × StandsFor self.new done)) }
        ensures dims { dims_of self.new ≡ dims_of self.old }
    {
        if self.may_close(dim) {
            self.close(dim)?;
            Ok(true)
        } else {
            Ok(false)
        }
    }

    /// Takes an element of this word. Memory comes where there is none for it.
    pub fn element(&mut self, word: Bits) -> Result<(), Memory>
        ensures stands { (done : List Item) → StandsFor self.old done → OnOk result (StandsFor self.new (done ++ Elem word ∷ [])) }
        ensures dims { dims_of self.new ≡ dims_of self.old }
    {
        self.level = 0;
        self.add_member(0, Nest::Leaf(word))
    }

    /// Takes a Close of this dimension, which may come next. Memory comes where there is none for it.
    pub fn close(&mut self, dim: u8) -> Result<(), Memory>
        requires within { dim < dims_of self.old }
        requires placed { MayTakeClose self.old dim }
        ensures stands { (done : List Item) → StandsFor self.old done → OnOk result (StandsFor self.new (done ++ Close dim ∷ [])) }
        ensures dims { dims_of self.new ≡ dims_of self.old }
    {
        let parts = self.take_members(dim);
        self.level = dim + 1;
        self.add_member(dim + 1, Nest::List(parts))
    }

    /// The series of all items that were given, or what they leave open. It takes no memory.
    pub fn finish(mut self) -> Result<List<Nest>, Unclosed>
        ensures { (done : List Item) → StandsFor self done → MatchResult result (IsSeriesOf (dims_of self) done) (λ fault. LeavesOpen (dims_of self) done fault.level) }
    {
        let level = self.level;
        let dims = self.dims;
        if level == dims {
            Ok(self.take_members(dims))
        } else {
            Err(Unclosed { level })
        }
    }

    /// Adds a nest to those of its depth, where nothing of a lower one is open.
    fn add_member(&mut self, depth: u8, nest: Nest) -> Result<(), Memory>
        ensures added { OnOk result ((dims : ℕ) → depth ≤ dims → Descends (suc dims) self.old.begun depth → HasDepth depth (plain nest)
            → AddsTo dims depth self.old.begun self.new.begun nest) }
        ensures dims { dims_of self.new ≡ dims_of self.old }
        ensures level { self.new.level ≡ self.old.level }
    {
        if self.has_open(depth) {
            return push_innermost(&mut self.begun, nest);
        }
        let mut members = List::new(self.alloc);
        members.push(nest)?;
        self.begun.push(Open { depth, members })
    }

    /// Takes out the nests of this depth that are open, where nothing of a lower one is.
    fn take_members(&mut self, depth: u8) -> List<Nest>
        ensures taken { (dims : ℕ) → depth ≤ dims → Descends (suc dims) self.old.begun depth → Takes dims depth self.old.begun self.new.begun result }
        ensures dims { dims_of self.new ≡ dims_of self.old }
        ensures level { self.new.level ≡ self.old.level }
    {
        if !self.has_open(depth) {
            return List::new(self.alloc);
        }
        match self.begun.pop() {
            Some(Open { members, .. }) => members,
            None => List::new(self.alloc),
        }
    }

    /// Whether the innermost nests that are open have this depth.
    fn has_open(&self, depth: u8) -> bool
        ensures { (front : List Open) (innermost : Open) → self.now.begun ≡ front ++ innermost ∷ [] → result ≡ (innermost.depth == depth) }
    {
        match self.begun.as_slice().last() {
            Some(innermost) => innermost.depth == depth,
            None => false,
        }
    }
}

/// Adds a nest to the innermost of open ones. Memory comes too where none is open.
fn push_innermost(begun: &mut List<Open>, nest: Nest) -> Result<(), Memory>
    ensures { OnOk result (IsPushed begun.old begun.new nest) }
{
    let last = begun.len().saturating_sub(1);
    match begun.get_mut(last) {
        Some(innermost) => innermost.members.push(nest),
        None => Err(Memory),
    }
}
