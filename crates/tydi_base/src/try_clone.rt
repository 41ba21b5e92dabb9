//! Copies of values that keep memory.

ghost use Rattle.std.specs.Prelude.{◌≡◌, IfOk};

use crate::boxed::Boxed;
use crate::list::List;
use crate::memory::Memory;
use crate::text::Text;
use std::alloc::Global;

/// A value that can be copied where there is memory for the copy.
pub trait TryClone: Sized {
    /// A copy of it, or `Memory` where there was none for it.
    fn try_clone(&self, alloc: Global) -> Result<Self, Memory>
        ensures { IfOk result (λ copy. copy ≡ self.now) };
}

impl TryClone for u8 {
    fn try_clone(&self, _alloc: Global) -> Result<u8, Memory> {
        Ok(*self)
    }
}

impl TryClone for u32 {
    fn try_clone(&self, _alloc: Global) -> Result<u32, Memory> {
        Ok(*self)
    }
}

impl TryClone for u64 {
    fn try_clone(&self, _alloc: Global) -> Result<u64, Memory> {
        Ok(*self)
    }
}

impl TryClone for bool {
    fn try_clone(&self, _alloc: Global) -> Result<bool, Memory> {
        Ok(*self)
    }
}

impl<T: TryClone> TryClone for Option<T> {
    fn try_clone(&self, alloc: Global) -> Result<Option<T>, Memory> {
        match self {
            Some(value) => Ok(Some(value.try_clone(alloc)?)),
            None => Ok(None),
        }
    }
}

impl<T: TryClone + Drop> TryClone for List<T> {
    fn try_clone(&self, alloc: Global) -> Result<List<T>, Memory> {
        let mut copy = List::new(alloc);
        'elements: for element in self.as_slice() {
            copy.push(element.try_clone(alloc)?)?;
        }
        Ok(copy)
    }
}

impl<T: TryClone + Drop> TryClone for Boxed<T> {
    fn try_clone(&self, alloc: Global) -> Result<Boxed<T>, Memory> {
        Boxed::new(alloc, self.get().try_clone(alloc)?)
    }
}

impl TryClone for Text {
    fn try_clone(&self, alloc: Global) -> Result<Text, Memory> {
        Text::new(alloc, self.as_str())
    }
}
