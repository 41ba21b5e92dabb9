//! A value with several owners.

ghost use Rattle.std.specs.Prelude.{◌≡◌, IfOk};

use std::alloc::Global;
use std::marker::Model;
use std::rc::Rc;
use tydi_base::{List, Memory, TryClone};

/// An `Rc` that contracts see as the value in it, so that two are equal where their values are. A copy is one more owner of the
/// same value, made in constant time.
#[derive(Debug, Drop)]
pub struct Shared<T> {
    inner: Rc<T>,
}

impl<T> Model for Shared<T> {
    ghost Value = { T };

    ghost coded = { T.code };

    ghost view = { λ shared. shared.inner.value };
}

impl<T> Shared<T> {
    /// The value in it.
    pub fn get(&self) -> &T
        ensures { result.now ≡ self.now }
    {
        &self.inner
    }
}

impl<T: Drop> Shared<T> {
    /// A first owner of this value. Memory comes where there is none for it.
    pub fn new(alloc: Global, value: T) -> Result<Shared<T>, Memory>
        ensures { IfOk result (λ shared. shared ≡ value) }
    {
        Ok(Shared {
            inner: Rc::new(alloc, value)?,
        })
    }

    /// The `Rc` that it is.
    pub fn into_rc(self) -> Rc<T>
        ensures { result.value ≡ self }
    {
        self.inner
    }
}

impl<T> Shared<List<T>> {
    /// The elements of a list.
    pub fn as_slice(&self) -> &[T]
        ensures { result.now ≡ self.now }
    {
        self.get().as_slice()
    }
}

impl<T: Drop> TryClone for Shared<T> {
    fn try_clone(&self, _alloc: Global) -> Result<Shared<T>, Memory> {
        Ok(Shared {
            inner: self.inner.clone()?,
        })
    }
}
