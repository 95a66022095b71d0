//! A vector that contracts see as a list.

ghost use Rattle.std.specs.Prelude.{◌≡◌, ◌==◌, ◌<◌, ◌++◌, [], ◌∷◌, length, IfOk, OnOk, OnErr, IfNone, option_to_list, slice_index_or, slice_set};

use crate::NoMemory;
use std::alloc::Global;
use std::marker::Model;
use std::ops::{DerefSlice, Index};

/// Items in order. A clause sees the list of the items and nothing of capacities or places in memory.
#[derive(Debug, Drop)]
pub struct List<T> {
    items: Vec<T>,
}

/// Bytes that are written out.
pub type Text = List<u8>;

impl<T> Model for List<T> {
    ghost use Rattle.std.specs.Prelude.{List};

    ghost Value = { List T };

    ghost view = { λ l. l.items.items };
}

impl<T> List<T> {
    /// The empty list. It takes no memory.
    pub fn new(alloc: Global) -> Self
        ensures { result ≡ [] }
    {
        List {
            items: Vec::new(alloc),
        }
    }

    /// The list of a vector's items. It takes no memory.
    pub fn from_vec(items: Vec<T>) -> Self
        ensures { result ≡ items.items }
    {
        List { items }
    }

    /// The items as a vector. It takes no memory.
    pub fn into_vec(self) -> Vec<T>
        ensures { result.items ≡ self }
    {
        let List { items } = self;
        items
    }

    /// A list of copies.
    pub fn from_slice(alloc: Global, items: &[T]) -> Result<Self, NoMemory>
    where
        T: Copy,
        ensures { IfOk result (λ list. list ≡ items.now) }
    {
        Ok(List {
            items: Vec::from_slice(alloc, items)?,
        })
    }

    /// An equal list.
    pub fn copy(&self, alloc: Global) -> Result<Self, NoMemory>
    where
        T: Copy,
        ensures { IfOk result (λ list. list ≡ self.now) }
    {
        List::from_slice(alloc, self.as_slice())
    }

    pub fn len(&self) -> usize
        ensures { result ≡ length self.now }
    {
        self.items.len()
    }

    pub fn is_empty(&self) -> bool
        ensures { result ≡ (length self.now == 0) }
    {
        self.items.is_empty()
    }

    pub fn as_slice(&self) -> &[T]
        ensures { result.now ≡ self.now }
    {
        self.items.as_slice()
    }

    /// Adds an item at the end.
    pub fn push(&mut self, item: T) -> Result<(), NoMemory>
    where
        T: Drop,
        ensures ok { OnOk result (self.new ≡ self.old ++ item ∷ []) }
        ensures err { OnErr result (self.new ≡ self.old) }
    {
        self.items.push(item)?;
        Ok(())
    }

    /// Adds copies of the items at the end.
    pub fn extend_from_slice(&mut self, items: &[T]) -> Result<(), NoMemory>
    where
        T: Copy,
        ensures ok { OnOk result (self.new ≡ self.old ++ items.now) }
        ensures err { OnErr result (self.new ≡ self.old) }
    {
        self.items.extend_from_slice(items)?;
        Ok(())
    }

    /// Puts an item in the place of another.
    pub fn set(&mut self, index: usize, item: T)
    where
        T: Drop,
        requires { index < length self.old }
        ensures { self.new ≡ slice_set self.old index item }
    {
        self.items[index] = item;
    }

    /// Takes the last item off, if there is one.
    pub fn pop(&mut self) -> Option<T>
        ensures items { self.old ≡ self.new ++ option_to_list result }
        ensures none { IfNone result (self.new ≡ []) }
    {
        self.items.pop()
    }
}

impl<T> DerefSlice for List<T> {
    type Elem = T;

    ghost deref_gives = { λ l xs. xs ≡ l };

    fn deref(&self) -> &[T]
        ensures { result.now ≡ self.now }
    {
        self.as_slice()
    }
}

impl<T> Index<usize> for List<T> {
    type Output = T;

    ghost can_index = { λ l i. i < length l };

    ghost index_gives = { λ l i x. x ≡ slice_index_or l i x };

    fn index(&self, index: usize) -> &T
        requires { index < length self.now }
        ensures { result.now ≡ slice_index_or self.now index result.now }
    {
        &self.items[index]
    }
}
