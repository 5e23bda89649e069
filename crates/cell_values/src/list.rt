//! A list that contracts see as the list of its items, and copies of values.
ghost use Rattle.std.specs.Prelude.{◌≡◌, ◌<◌, ◌≤◌, ◌^◌, ◌++◌, [], ◌∷◌, ◌↔◌, length, take, insert, remove, slice_get};
ghost use Rattle.std.specs.Prelude.{slice_index_or, slice_set, IsTrue, IsOk, IfOk, OnOk, OnErr, OnSome, MatchOption};
ghost use Rattle.std.specs.Option.{option_copied};
ghost use Rattle.std.specs.Iterator.Runs.{EveryRun, ItemsMapTo};
ghost use Rattle.std.specs.Iterator.Adapters.{IterYieldsInOrder};
ghost use Rattle.std.specs.Slice.Iter.{iter_rest, iter_steps};

use crate::Memory;
use std::alloc::Global;
use std::marker::Model;
use std::mem::replace;
use std::ops::Index;
use std::slice::Iter;

/// A text or any other bytes.
pub type Bytes = List<u8>;

/// A value that can be copied, where memory allows it.
pub trait Copies {
    /// An equal value.
    fn copy(&self) -> Result<Self, Memory>
        ensures { IfOk result (λ copy. copy ≡ self.now) };
}

/// A `Vec` that contracts see as the list of its items. It keeps the allocator with which it was made.
pub struct List<T> {
    items: Vec<T>,
}

impl<T: Drop> Drop for List<T> {
    fn drop(self) {
        let List { items: _ } = self;
    }
}

impl<T> Model for List<T> {
    ghost use Rattle.std.specs.Prelude.{List};
    ghost use Rattle.std.specs.Coded.{coded_list};

    ghost Value = { List T };

    ghost coded = { coded_list T.code };

    ghost view = { λ list. list.items.items };
}

impl<T> List<T> {
    /// No items.
    pub fn new(alloc: Global) -> List<T>
        ensures { result ≡ [] }
    {
        List {
            items: Vec::new(alloc),
        }
    }

    /// No items, and room for `room` of them. No clause tells the room.
    pub fn with_capacity(alloc: Global, room: usize) -> Result<List<T>, Memory>
        ensures { IfOk result (λ list. list ≡ []) }
    {
        Ok(List {
            items: Vec::with_capacity(alloc, room)?,
        })
    }

    /// The items of a vector, without new memory.
    pub fn from_vec(items: Vec<T>) -> List<T>
        ensures { result ≡ items.items }
    {
        List { items }
    }

    /// The items as a vector, without new memory.
    pub fn into_vec(self) -> Vec<T>
        ensures { result.items ≡ self }
    {
        let List { items } = self;
        items
    }

    /// No items, perhaps of another type, with the allocator of this list.
    pub fn another<U>(&self) -> List<U>
        ensures { result ≡ [] }
    {
        List::new(self.allocator())
    }

    /// The allocator with which the list was made.
    pub fn allocator(&self) -> Global {
        *self.items.allocator()
    }

    /// How many items there are.
    pub fn len(&self) -> usize
        ensures { result ≡ length self.now }
    {
        self.items.len()
    }

    pub fn is_empty(&self) -> bool
        ensures { IsTrue result ↔ (self.now ≡ []) }
    {
        self.items.is_empty()
    }

    /// The items.
    pub fn as_slice(&self) -> &[T]
        ensures { result.now ≡ self.now }
    {
        self.items.as_slice()
    }

    /// Goes over the items, the first one first.
    pub fn iter(&self) -> Iter<'_, T>
        ensures rest { iter_rest result ≡ self.now }
        ensures bound { length (iter_rest result) < 2 ^ 64 }
        ensures runs { IterYieldsInOrder T }
    {
        self.items.as_slice().iter()
    }

    /// The item at a place, from 0.
    pub fn get(&self, at: usize) -> Option<&T>
        ensures value { option_copied result ≡ slice_get self.now at }
        ensures within { OnSome result (at < length self.now) }
    {
        self.items.get(at)
    }

    /// Takes the last item out.
    pub fn pop(&mut self) -> Option<T>
        ensures { MatchOption result ((self.old ≡ []) × (self.new ≡ [])) (λ last. self.old ≡ self.new ++ last ∷ []) }
    {
        self.items.pop()
    }
}

impl<T: Drop> List<T> {
    /// Adds an item at the end.
    pub fn push(&mut self, item: T) -> Result<(), Memory>
        ensures ok { OnOk result (self.new ≡ self.old ++ item ∷ []) }
        ensures err { OnErr result (self.new ≡ self.old) }
    {
        self.items.push(item)?;
        Ok(())
    }

    /// Puts an item at a place, and moves the items from there on by one.
    pub fn insert(&mut self, at: usize, item: T) -> Result<(), Memory>
        requires { at ≤ length self.old }
        ensures ok { OnOk result (self.new ≡ insert self.old at item) }
        ensures err { OnErr result (self.new ≡ self.old) }
    {
        self.items.insert(at, item)?;
        Ok(())
    }

    /// Takes the item at a place out, and moves those after it by one.
    pub fn remove(&mut self, at: usize) -> T
        requires { at < length self.old }
        ensures item { slice_get self.old at ≡ Some result }
        ensures rest { self.new ≡ remove self.old at }
    {
        self.items.remove(at)
    }

    /// Puts an item in the place of another.
    pub fn set(&mut self, at: usize, item: T)
        requires { at < length self.old }
        ensures { self.new ≡ slice_set self.old at item }
    {
        self.items[at] = item;
    }

    /// Keeps the first `count` items.
    pub fn truncate(&mut self, count: usize)
        ensures { self.new ≡ take count self.old }
    {
        self.items.truncate(count);
    }

    pub fn clear(&mut self)
        ensures { self.new ≡ [] }
    {
        self.items.clear();
    }

    /// Takes all items out.
    pub fn take(&mut self) -> List<T>
        ensures items { result ≡ self.old }
        ensures left { self.new ≡ [] }
    {
        let empty = Vec::new(self.allocator());
        List {
            items: replace(&mut self.items, empty),
        }
    }

    /// Moves the items of `more` to the end.
    pub fn append(&mut self, more: List<T>) -> Result<(), Memory>
        ensures ok { OnOk result (self.new ≡ self.old ++ more) }
        ensures err { OnErr result (self.new ≡ self.old) }
    {
        let List { mut items } = more;
        self.items.append(&mut items)?;
        Ok(())
    }
}

impl<T: Copy> List<T> {
    /// A list of these items.
    pub fn from_slice(alloc: Global, items: &[T]) -> Result<List<T>, Memory>
        ensures { IfOk result (λ list. list ≡ items.now) }
    {
        Ok(List {
            items: Vec::from_slice(alloc, items)?,
        })
    }

    /// Adds items at the end.
    pub fn extend(&mut self, more: &[T]) -> Result<(), Memory>
        ensures ok { OnOk result (self.new ≡ self.old ++ more.now) }
        ensures err { OnErr result (self.new ≡ self.old) }
    {
        self.items.extend_from_slice(more)?;
        Ok(())
    }
}

impl<T: Copies + Drop> List<T> {
    /// An equal list, with the same allocator.
    pub fn copy(&self) -> Result<List<T>, Memory>
        ensures { IfOk result (λ copy. copy ≡ self.now) }
    {
        let mut copy = List::with_capacity(self.allocator(), self.len())?;
        for item in self.as_slice() {
            copy.push(item.copy()?)?;
        }
        Ok(copy)
    }
}

impl<T: Copies + Drop> Copies for List<T> {
    fn copy(&self) -> Result<List<T>, Memory> {
        self.copy()
    }
}

impl<T> Index<usize> for List<T> {
    type Output = T;

    ghost can_index = { λ list at. at < length list };

    ghost index_gives = { λ list at item. item ≡ slice_index_or list at item };

    fn index(&self, at: usize) -> &T
        requires { at < length self.now }
        ensures { result.now ≡ slice_index_or self.now at result.now }
    {
        &self.as_slice()[at]
    }
}

impl<'a, T> IntoIterator for &'a List<T> {
    type Item = &'a T;

    type IntoIter = Iter<'a, T>;

    ghost into_iter_gives = { λ list iter. (iter_rest iter ≡ list.now) × (length (iter_rest iter) < 2 ^ 64)
        × EveryRun (iter_steps {A = T}) (λ p. ItemsMapTo p (λ x. x.now) (iter_rest p.from)) };

    fn into_iter(self) -> Iter<'a, T> {
        self.as_slice().iter()
    }
}

impl Copies for u8 {
    fn copy(&self) -> Result<u8, Memory>
        ensures value { IfOk result (λ copy. copy ≡ self.now) }
        ensures succeeds { IsOk result }
    {
        Ok(*self)
    }
}

impl Copies for u16 {
    fn copy(&self) -> Result<u16, Memory>
        ensures value { IfOk result (λ copy. copy ≡ self.now) }
        ensures succeeds { IsOk result }
    {
        Ok(*self)
    }
}

impl Copies for u32 {
    fn copy(&self) -> Result<u32, Memory>
        ensures value { IfOk result (λ copy. copy ≡ self.now) }
        ensures succeeds { IsOk result }
    {
        Ok(*self)
    }
}

impl Copies for u64 {
    fn copy(&self) -> Result<u64, Memory>
        ensures value { IfOk result (λ copy. copy ≡ self.now) }
        ensures succeeds { IsOk result }
    {
        Ok(*self)
    }
}

impl Copies for usize {
    fn copy(&self) -> Result<usize, Memory>
        ensures value { IfOk result (λ copy. copy ≡ self.now) }
        ensures succeeds { IsOk result }
    {
        Ok(*self)
    }
}

impl Copies for i64 {
    fn copy(&self) -> Result<i64, Memory>
        ensures value { IfOk result (λ copy. copy ≡ self.now) }
        ensures succeeds { IsOk result }
    {
        Ok(*self)
    }
}

impl Copies for bool {
    fn copy(&self) -> Result<bool, Memory>
        ensures value { IfOk result (λ copy. copy ≡ self.now) }
        ensures succeeds { IsOk result }
    {
        Ok(*self)
    }
}
