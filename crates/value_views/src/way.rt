//! The way from a root to a node inside.

ghost use Rattle.std.specs.Prelude.{◌≡◌, ◌∷◌, [], ◌++◌, ◌+◌, ◌≤◌, OnOk, IfOk, None, Some};
ghost use Rattle.std.specs.Option.{is_some};
ghost use Rattle.logical_types.specs.Tree.{plain, plain_parts, plain_of_stream};
ghost use Rattle.value_views.specs.Way as spec;

use logical_types::{LType, Part, StreamType, Sync};
use std::alloc::Global;
use tydi_base::Memory;

/// A step from values of a type towards a Stream inside.
#[derive(Clone, Copy)]
pub(crate) enum Step {
    /// To the field of a Group, or the variant of a Union, of this number.
    Part(usize),
    /// Into the nests of a Sync Stream of this dimensionality of its own.
    Sync(u64),
    /// Into the nests of a Flatten Stream of this dimensionality of its own.
    Flatten(u64),
}

/// A search for a Stream of a type by its number in preorder.
#[derive(Drop)]
pub(crate) struct Finding {
    /// How many Streams are to be passed before it.
    pub(crate) left: u32,
    /// How many roots were passed.
    pub(crate) passed: usize,
    /// The number of the root that the way begins at. None where it begins outside what was looked through.
    pub(crate) root: Option<usize>,
    /// The way from the root on, once the Stream is found.
    pub(crate) way: Vec<Step>,
}

impl Finding {
    /// A search that has to pass so many Streams.
    pub(crate) fn new(alloc: Global, left: u32) -> Finding
        ensures none { spec.HasNone result }
        ensures left { result.left ≡ left }
        ensures passed { result.passed ≡ 0 }
    {
        Finding {
            left,
            passed: 0,
            root: None,
            way: Vec::new(alloc),
        }
    }

    /// Looks for the Stream in a type. True where it is there, and then the way is found; else the type is passed. Memory comes where
    /// there is none for the way.
    #[cycle(find)]
    pub(crate) fn find(&mut self, ltype: &LType) -> Result<bool, Memory>
        ensures { spec.Finds self.old self.new result (plain ltype.now) }
    {
        match ltype {
            LType::Null => Ok(false),
            LType::Bits(_) => Ok(false),
            LType::Group(parts) => self.find_in_parts(parts.as_slice()),
            LType::Union(parts) => self.find_in_parts(parts.as_slice()),
            LType::Stream(stream) => self.find_in_stream(stream.get()),
        }
    }

    /// Looks for the Stream in parts.
    #[cycle(find)]
    fn find_in_parts(&mut self, parts: &[Part]) -> Result<bool, Memory>
        ensures { spec.FindsInParts 0 self.old self.new result (plain_parts parts.now) }
    {
        'parts: for number in 0..parts.len() {
            if self.find_in_part(number, &parts[number])? {
                return Ok(true);
            }
        }
        Ok(false)
    }

    /// Looks for the Stream in the part of this number.
    #[cycle(find)]
    fn find_in_part(&mut self, number: usize, part: &Part) -> Result<bool, Memory>
        ensures { spec.FindsPart number self.old self.new result (plain part.now.ltype) }
    {
        if !self.find(&part.ltype)? {
            return Ok(false);
        }
        self.step(Step::Part(number))?;
        Ok(true)
    }

    /// Looks for the Stream in another, which it may be itself.
    #[cycle(find)]
    fn find_in_stream(&mut self, stream: &StreamType) -> Result<bool, Memory>
        ensures { spec.Finds self.old self.new result (plain_of_stream stream.now) }
    {
        let root = self.passed;
        if !self.find_inside(stream.sync, &stream.element)? {
            return Ok(false);
        }
        self.enter(stream.sync, stream.dims, root)?;
        Ok(true)
    }

    /// Looks for the Stream: true where it is this one, of this synchronicity, or is among its elements.
    #[cycle(find)]
    fn find_inside(&mut self, sync: Sync, element: &LType) -> Result<bool, Memory>
        ensures { spec.FindsInside self.old self.new result sync (plain element.now) }
    {
        if self.left == 0 {
            return Ok(true);
        }
        self.pass(sync);
        self.find(element)
    }

    /// Looks for the Stream from the outermost one on, which has elements of this type and is the first root.
    pub(crate) fn find_in_port(&mut self, element: &LType) -> Result<(), Memory>
        ensures { spec.FindsInPort self.old self.new result (plain element.now) }
    {
        if self.find_inside(Sync::Desync, element)? {
            self.begin(0);
        }
        Ok(())
    }

    /// Passes a Stream.
    fn pass(&mut self, sync: Sync)
        requires { 1 ≤ self.old.left }
        ensures left { self.new.left + 1 ≡ self.old.left }
        ensures passed { self.old.passed ≤ 65536 → self.new.passed ≡ spec.passed_behind sync self.old.passed }
        ensures root { self.new.root ≡ self.old.root }
        ensures way { self.new.way ≡ self.old.way }
    {
        self.left -= 1;
        if sync.is_apart() {
            self.passed = self.passed.saturating_add(1);
        }
    }

    /// Lets the way lead through a Stream, or begin there where it is a root, of this number.
    fn enter(&mut self, sync: Sync, dims: u64, root: usize) -> Result<(), Memory>
        ensures { OnOk result (spec.Enters sync dims root self.old self.new) }
    {
        match sync {
            Sync::Sync => self.step(Step::Sync(dims)),
            Sync::Flatten => self.step(Step::Flatten(dims)),
            Sync::Desync => Ok(self.begin(root)),
            Sync::FlatDesync => Ok(self.begin(root)),
        }
    }

    /// Lets the way begin at the root of this number, where it does not begin at a root yet.
    fn begin(&mut self, root: usize)
        ensures root { self.new.root ≡ spec.nearest self.old.root root }
        ensures way { self.new.way ≡ self.old.way }
    {
        if self.root.is_none() {
            self.root = Some(root);
        }
    }

    /// Adds a step in front of the way, where it does not begin at a root.
    fn step(&mut self, step: Step) -> Result<(), Memory>
        ensures { OnOk result ((self.new.root ≡ self.old.root) × (self.new.way.items ≡ spec.with_step step self.old.root self.old.way.items)) }
    {
        if self.root.is_none() {
            self.way.insert(0, step)?;
        }
        Ok(())
    }
}
