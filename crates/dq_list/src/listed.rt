//! A vector that contracts see as a list.
ghost use Rattle.std.specs.Prelude.{◌≡◌, [], ◌∷◌, ◌++◌, length, IfOk, OnOk, OnErr};
ghost use Rattle.dq_list.specs.Lengths.{is_empty};

use std::alloc::{AllocError, Global};
use std::marker::Model;

/// A `Vec` that contracts see as the list of its items.
#[derive(Debug, Drop)]
pub struct Listed<T> {
    inner: Vec<T>,
}

impl<T> Model for Listed<T> {
    ghost use Rattle.std.specs.Prelude.{List};
    ghost use Rattle.std.specs.Coded.{coded_list};

    ghost Value = { List T };

    ghost coded = { coded_list T.code };

    ghost view = { λ a. a.inner.items };
}

impl<T> Listed<T> {
    /// The list without items. It takes no memory.
    pub fn empty(alloc: Global) -> Self
        ensures { result ≡ [] }
    {
        Listed {
            inner: Vec::new(alloc),
        }
    }

    /// The items of a vector.
    pub fn from_inner(inner: Vec<T>) -> Self
        ensures { result ≡ inner.items }
    {
        Listed { inner }
    }

    /// The vector.
    pub fn inner(&self) -> &Vec<T>
        ensures { result.now.items ≡ self.now }
    {
        &self.inner
    }

    /// The vector, taken out.
    pub fn into_inner(self) -> Vec<T>
        ensures { result.items ≡ self }
    {
        let Listed { inner } = self;
        inner
    }

    /// The items, lent.
    pub fn as_slice(&self) -> &[T]
        ensures { result.now ≡ self.now }
    {
        self.inner.as_slice()
    }

    /// Returns how many items the list has.
    pub fn len(&self) -> usize
        ensures { result ≡ length self.now }
    {
        self.inner.len()
    }

    /// Returns whether the list has no items.
    pub fn is_empty(&self) -> bool
        ensures { result ≡ is_empty self.now }
    {
        self.inner.is_empty()
    }
}

impl<T: Copy> Listed<T> {
    /// A copy of the items.
    pub fn copy_of(alloc: Global, items: &[T]) -> Result<Self, AllocError>
        ensures { IfOk result (λ copy. copy ≡ items.now) }
    {
        Ok(Listed {
            inner: Vec::from_slice(alloc, items)?,
        })
    }
}

impl<T: Drop> Listed<T> {
    /// Adds an item at the end. Want of memory changes nothing.
    pub fn push(&mut self, item: T) -> Result<(), AllocError>
        ensures ok { OnOk result (self.new ≡ self.old ++ item ∷ []) }
        ensures err { OnErr result (self.new ≡ self.old) }
    {
        self.inner.push(item)?;
        Ok(())
    }
}
