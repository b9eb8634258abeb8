//! A list over a `Vec`. It counts its items itself, so that what gives one puts it into a place that
//! is there already, and only a list that grows calls out. 32 bits count its places.

ghost use Rattle.std.specs.Prelude.{◌≡◌, ◌++◌, ◌∷◌, [], true, false, length, slice_set, OnOk, OnErr, Some, None};
ghost use Rattle.wasm_spec_side_tables.specs.OnePassTables.{resolved_each};

use crate::entry::{Entry, Place};
use crate::places::resolve_front;
use std::alloc::{AllocError, Allocator, Global};
use std::marker::Model;

/// A list. A contract sees its items in order.
#[derive(Drop)]
pub struct Counted<T, A: Allocator = Global> {
    vec: Vec<T, A>,
    count: u32,
}

impl<T, A: Allocator> Model for Counted<T, A> {
    ghost use Rattle.std.specs.Prelude.{◌≤◌, ◌<◌, ◌^◌, List, length, take};

    ghost Value = { List T };

    ghost view = { λ s. take s.count s.vec.items };

    ghost invariant = { λ s. (s.count ≤ length s.vec.items) × (length s.vec.items < 2 ^ 32) };
}

impl<T: Copy + Drop, A: Allocator> Counted<T, A> {
    /// The empty list. It takes no memory until the first item.
    pub fn new(alloc: A) -> Counted<T, A>
        ensures { result ≡ [] }
    {
        Counted {
            vec: Vec::new(alloc),
            count: 0,
        }
    }

    /// How many items there are.
    #[inline(always)]
    #[tactic(auto, using(crate::proofs::CountedLists::reads))]
    pub fn len(&self) -> usize
        ensures { result ≡ length self.now }
    {
        self.count as usize
    }

    /// How many items there are, in 32 bits.
    #[inline(always)]
    #[tactic(auto, using(crate::proofs::CountedLists::reads))]
    pub fn number(&self) -> u32
        ensures { result ≡ length self.now }
    {
        self.count
    }

    /// The items.
    #[inline(always)]
    #[tactic(auto, using(crate::proofs::CountedLists::reads))]
    pub fn as_slice(&self) -> &[T]
        ensures { result.now ≡ self.now }
    {
        &self.vec[..self.count as usize]
    }

    /// Puts an item behind those of a list without free places.
    #[cold]
    #[inline(never)]
    #[tactic(auto, using(crate::proofs::CountedLists::pushes))]
    fn grow(&mut self, item: T) -> Result<(), AllocError>
        ensures ok { OnOk result (self.new ≡ self.old ++ item ∷ []) }
        ensures err { OnErr result (self.new ≡ self.old) }
    {
        if self.count == u32::MAX {
            return Err(AllocError);
        }
        self.vec.truncate(self.count as usize);
        match self.vec.push(item) {
            Ok(()) => {
                self.count += 1;
                Ok(())
            }
            Err(_) => Err(AllocError),
        }
    }

    /// Puts an item behind the others where there is a place for it already, and says whether it did.
    #[inline(always)]
    #[tactic(auto, using(crate::proofs::CountedLists::pushes))]
    pub fn put(&mut self, item: T) -> bool
        ensures there { result ≡ true → self.new ≡ self.old ++ item ∷ [] }
        ensures left { result ≡ false → self.new ≡ self.old }
    {
        if (self.count as usize) < self.vec.len() {
            self.vec[self.count as usize] = item;
            self.count += 1;
            return true;
        }
        false
    }

    /// Puts an item behind the others. Where memory is refused, or 32 bits wouldn't count the items,
    /// all stays.
    #[inline(always)]
    pub fn push(&mut self, item: T) -> Result<(), AllocError>
        ensures ok { OnOk result (self.new ≡ self.old ++ item ∷ []) }
        ensures err { OnErr result (self.new ≡ self.old) }
    {
        if self.put(item) {
            return Ok(());
        }
        // A copy is lent, so that the item itself can be kept in registers.
        let copy = item;
        self.grow(copy)
    }

    /// Puts an item twice behind those of a list without two free places.
    #[cold]
    #[inline(never)]
    #[tactic(auto, using(crate::proofs::CountedLists::pairs))]
    fn grow_twice(&mut self, item: T) -> Result<(), AllocError>
        ensures ok { OnOk result (self.new ≡ self.old ++ item ∷ item ∷ []) }
        ensures err { OnErr result (self.new ≡ self.old) }
    {
        if u32::MAX - 1 <= self.count {
            return Err(AllocError);
        }
        self.vec.truncate(self.count as usize);
        if self.vec.push(item).is_err() || self.vec.push(item).is_err() {
            return Err(AllocError);
        }
        self.count += 2;
        Ok(())
    }

    /// Puts an item twice behind the others where there are places for it already, and says whether it
    /// did.
    #[inline(always)]
    #[tactic(auto, using(crate::proofs::CountedLists::pairs))]
    pub fn put_twice(&mut self, item: T) -> bool
        ensures there { result ≡ true → self.new ≡ self.old ++ item ∷ item ∷ [] }
        ensures left { result ≡ false → self.new ≡ self.old }
    {
        let count = self.count;
        let start = count as usize;
        if self.vec.len() - start < 2 {
            return false;
        }
        let items = self.vec.as_mut_slice();
        items[start] = item;
        items[start + 1] = item;
        self.count = count + 2;
        true
    }

    /// Puts an item twice behind the others. Where memory is refused, or 32 bits wouldn't count the
    /// items, all stays.
    #[inline(always)]
    pub fn push_twice(&mut self, item: T) -> Result<(), AllocError>
        ensures ok { OnOk result (self.new ≡ self.old ++ item ∷ item ∷ []) }
        ensures err { OnErr result (self.new ≡ self.old) }
    {
        if self.put_twice(item) {
            return Ok(());
        }
        let copy = item;
        self.grow_twice(copy)
    }

    /// Puts an item into the place of another, if there is one at this index.
    #[inline(always)]
    #[tactic(auto, using(crate::proofs::CountedLists::writes))]
    pub fn set(&mut self, index: usize, item: T)
        ensures { self.new ≡ slice_set self.old index item }
    {
        if index < self.count as usize {
            self.vec[index] = item;
        }
    }

    /// Puts an item into the places of two others, as far as they are there.
    #[inline(always)]
    #[tactic(auto, using(crate::proofs::CountedLists::writes))]
    pub fn set_both(&mut self, index: usize, other: usize, item: T)
        ensures { self.new ≡ slice_set (slice_set self.old index item) other item }
    {
        let count = self.count as usize;
        if index < count && other < count {
            let items = self.vec.as_mut_slice();
            items[index] = item;
            items[other] = item;
            return;
        }
        self.set(index, item);
        self.set(other, item);
    }

    /// Leaves no item. The memory stays.
    #[inline(always)]
    pub fn clear(&mut self)
        ensures { self.new ≡ [] }
    {
        self.count = 0;
    }
}

impl<A: Allocator> Counted<Entry, A> {
    /// Puts the places of their numbers into the entries, and says whether each has one.
    #[inline(always)]
    pub fn resolve(&mut self, places: &[Place]) -> bool
        ensures resolved { result ≡ true → resolved_each places.now self.old ≡ Some self.new }
        ensures not_done { result ≡ false → resolved_each places.now self.old ≡ None }
    {
        let count = self.count as usize;
        resolve_front(places, self.vec.as_mut_slice(), count)
    }
}
