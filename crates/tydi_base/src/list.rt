ghost use Rattle.std.specs.Prelude.{◌≡◌, ◌≤◌, ◌<◌, [], ◌∷◌, ◌++◌, take, length, slice_get, ◌↔◌, IsTrue, IsSome, IfSome, IfOk, OnOk, OnErr, OnSome, MatchOption};
ghost use Rattle.std.specs.Option.{option_copied};
ghost use Rattle.std.specs.List.{slice_index_or};
ghost use Rattle.std.specs.Slice.Iter.{iter_rest};
ghost use Rattle.std.specs.Borrow.{sem};
ghost use Rattle.tydi_base.specs.Lending.{LendsElement};

use crate::memory::Memory;
use std::alloc::Global;
use std::marker::Model;
use std::slice;

/// A `Vec` that contracts see as the list of its elements. Two are equal exactly where their elements are.
#[derive(Debug, Drop)]
pub struct List<T> {
    elements: Vec<T>,
}

impl<T> Model for List<T> {
    ghost use Rattle.std.specs.Prelude.{List};
    ghost use Rattle.std.specs.Coded.{coded_list};

    ghost Value = { List T };

    ghost coded = { coded_list T.code };

    ghost view = { λ list. list.elements.items };
}

impl<T> List<T> {
    /// The empty list. It takes no memory.
    pub fn new(alloc: Global) -> List<T>
        ensures { result ≡ [] }
    {
        List {
            elements: Vec::new(alloc),
        }
    }

    /// The empty list, with room for so many elements. `Memory` comes where there is none for them.
    pub fn with_capacity(alloc: Global, count: usize) -> Result<List<T>, Memory>
        ensures { IfOk result (λ list. list ≡ []) }
    {
        Ok(List {
            elements: Vec::with_capacity(alloc, count)?,
        })
    }

    /// The list of what a `Vec` holds. It takes no memory.
    pub fn from_vec(elements: Vec<T>) -> List<T>
        ensures { result ≡ elements.items }
    {
        List { elements }
    }

    /// The `Vec` of its elements. It takes no memory.
    pub fn into_vec(self) -> Vec<T>
        ensures { result.items ≡ self }
    {
        self.elements
    }

    /// Its elements, as a slice.
    pub fn as_slice(&self) -> &[T]
        ensures { result.now ≡ self.now }
    {
        self.elements.as_slice()
    }

    /// The number of its elements.
    pub fn len(&self) -> usize
        ensures { result ≡ length self.now }
    {
        self.elements.len()
    }

    /// Whether it has no element.
    pub fn is_empty(&self) -> bool
        ensures { IsTrue result ↔ (self.now ≡ []) }
    {
        self.elements.is_empty()
    }

    /// The element at this place, counted from 0. None exactly where there is none.
    pub fn get(&self, index: usize) -> Option<&T>
        ensures value { option_copied result ≡ slice_get self.now index }
        ensures within { OnSome result (index < length self.now) }
    {
        self.elements.get(index)
    }

    /// The element at this place, for writing. None exactly where there is none.
    pub fn get_mut(&mut self, index: usize) -> Option<&mut T>
        ensures* writes_back { sem 𝓛 (LendsElement T.row self.entry index result) }
        ensures some { IsSome result ↔ (index < length self.old) }
        ensures value { IfSome result (λ element. element.now ≡ slice_index_or self.old index element.now) }
    {
        self.elements.get_mut(index)
    }

    /// Its elements in order, one after another.
    pub fn iter(&self) -> slice::Iter<'_, T>
        ensures { iter_rest result ≡ self.now }
    {
        self.elements.iter()
    }
}

impl<T: Drop> List<T> {
    /// Makes room for so many more elements. The list stays as it is. `Memory` comes where there is none for them.
    pub fn reserve(&mut self, count: usize) -> Result<(), Memory>
        ensures { self.new ≡ self.old }
    {
        self.elements.reserve(count)?;
        Ok(())
    }

    /// Adds an element at the end. After `Memory` the list is as before.
    pub fn push(&mut self, element: T) -> Result<(), Memory>
        ensures ok { OnOk result (self.new ≡ self.old ++ element ∷ []) }
        ensures err { OnErr result (self.new ≡ self.old) }
    {
        self.elements.push(element)?;
        Ok(())
    }

    /// Takes the last element. None exactly where there is none.
    pub fn pop(&mut self) -> Option<T>
        ensures { MatchOption result ((self.old ≡ []) × (self.new ≡ [])) (λ last. self.old ≡ self.new ++ last ∷ []) }
    {
        self.elements.pop()
    }

    /// Keeps the first elements, up to this many.
    pub fn truncate(&mut self, len: usize)
        ensures { self.new ≡ take len self.old }
    {
        self.elements.truncate(len);
    }
}

impl<T: Copy> List<T> {
    /// A copy of these elements. `Memory` comes where there is none for the copy.
    pub fn from_slice(alloc: Global, elements: &[T]) -> Result<List<T>, Memory>
        ensures { IfOk result (λ list. list ≡ elements.now) }
    {
        Ok(List {
            elements: Vec::from_slice(alloc, elements)?,
        })
    }

    /// Adds these elements at the end. After `Memory` the list is as before.
    pub fn extend_from_slice(&mut self, elements: &[T]) -> Result<(), Memory>
        ensures ok { OnOk result (self.new ≡ self.old ++ elements.now) }
        ensures err { OnErr result (self.new ≡ self.old) }
    {
        self.elements.extend_from_slice(elements)?;
        Ok(())
    }
}
