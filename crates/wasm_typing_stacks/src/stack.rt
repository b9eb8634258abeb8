//! A stack over a `Vec`. It counts its items itself, so that what gives one puts it into a place that
//! is there already, and only a stack that grows calls out.

ghost use Rattle.std.specs.Prelude.{◌≡◌, ◌+◌, ◌-◌, ◌++◌, take, ◌<◌, ◌≤◌, ◌∷◌, [], length, drop, reverse, slice_get, IfOk, OnOk, OnErr, true, false};

use std::alloc::{AllocError, Allocator, Global};
use std::marker::Model;

/// A stack. A contract sees the list of its items, the top first.
#[derive(Drop)]
pub struct Stack<T, A: Allocator = Global> {
    vec: Vec<T, A>,
    count: usize,
}

impl<T, A: Allocator> Model for Stack<T, A> {
    ghost use Rattle.std.specs.Prelude.{◌≤◌, List, length, reverse, take};

    ghost Value = { List T };

    ghost view = { λ s. reverse (take s.count s.vec.items) };

    ghost invariant = { λ s. s.count ≤ length s.vec.items };
}

impl<T: Copy + Drop, A: Allocator> Stack<T, A> {
    /// The empty stack. It takes no memory until the first `push`.
    pub fn new(alloc: A) -> Stack<T, A>
        ensures { result ≡ [] }
    {
        Stack {
            vec: Vec::new(alloc),
            count: 0,
        }
    }

    /// How many items there are.
    #[inline(always)]
    #[tactic(auto, using(crate::proofs::ReversedLists::stacks))]
    pub fn len(&self) -> usize
        ensures { result ≡ length self.now }
    {
        self.count
    }

    /// The item at this depth, the top at 0.
    #[inline(always)]
    #[tactic(auto, using(crate::proofs::ReversedLists::stacks))]
    pub fn get(&self, depth: usize) -> Option<T>
        ensures { result ≡ slice_get self.now depth }
    {
        if depth < self.count {
            Some(self.vec[self.count - 1 - depth])
        } else {
            None
        }
    }

    /// So many items below so many at the top, the lowest first.
    #[inline(always)]
    #[tactic(auto, using(crate::proofs::StackSlices::slices))]
    pub fn slice(&self, taken: usize, count: usize) -> &[T]
        requires { taken + count ≤ length self.now }
        ensures { result.now ≡ reverse (take count (drop taken self.now)) }
    {
        let end = self.count - taken;
        &self.vec[end - count..end]
    }

    /// Puts an item on top of a stack without free places.
    #[cold]
    #[inline(never)]
    #[tactic(auto, using(crate::proofs::ReversedLists::pushes))]
    fn grow(&mut self, item: T) -> Result<(), AllocError>
        ensures ok { OnOk result (self.new ≡ item ∷ self.old) }
        ensures err { OnErr result (self.new ≡ self.old) }
    {
        self.vec.truncate(self.count);
        match self.vec.push(item) {
            Ok(()) => {
                self.count += 1;
                Ok(())
            }
            Err(_) => Err(AllocError),
        }
    }

    /// Puts an item on top.
    #[inline(always)]
    #[tactic(auto, using(crate::proofs::ReversedLists::pushes))]
    pub fn push(&mut self, item: T) -> Result<(), AllocError>
        ensures ok { OnOk result (self.new ≡ item ∷ self.old) }
        ensures err { OnErr result (self.new ≡ self.old) }
    {
        if self.count < self.vec.len() {
            self.vec[self.count] = item;
            self.count += 1;
            return Ok(());
        }
        // A copy is lent, so that the item itself can be kept in registers.
        let copy = item;
        self.grow(copy)
    }

    /// Takes the top item.
    #[inline]
    #[tactic(auto, using(crate::proofs::ReversedLists::stacks))]
    pub fn pop(&mut self) -> Option<T>
        ensures top { result ≡ slice_get self.old 0 }
        ensures rest { self.new ≡ drop 1 self.old }
    {
        if self.count == 0 {
            return None;
        }
        let top = self.vec[self.count - 1];
        self.count -= 1;
        Some(top)
    }

    /// Takes so many items from the top.
    #[inline(always)]
    #[tactic(auto, using(crate::proofs::ReversedLists::discards))]
    pub fn discard(&mut self, taken: usize)
        requires { taken ≤ length self.old }
        ensures { self.new ≡ drop taken self.old }
    {
        self.count -= taken;
    }

    /// Takes items from the top until so many are left.
    #[inline(always)]
    #[tactic(auto, using(crate::proofs::ReversedLists::stacks))]
    pub fn truncate(&mut self, count: usize)
        ensures { self.new ≡ drop (length self.old - count) self.old }
    {
        if count < self.count {
            self.count = count;
        }
    }

    /// Gives so many items again that stand above the top still, since they were taken, where there
    /// are so many, and says whether it did.
    #[inline(always)]
    #[tactic(auto, using(crate::proofs::ReversedLists::lifts))]
    pub fn lift(&mut self, count: usize) -> bool
        ensures lifted { result ≡ true → drop count self.new ≡ self.old }
        ensures counted { result ≡ true → length self.new ≡ count + length self.old }
        ensures left { result ≡ false → self.new ≡ self.old }
    {
        if self.vec.len() - self.count < count {
            return false;
        }
        self.count += count;
        true
    }

    /// Puts an item in the place of so many at the top. Where memory is refused, all stays.
    #[inline(always)]
    #[tactic(auto, using(crate::proofs::ReversedLists::exchanges))]
    pub fn exchange(&mut self, taken: usize, item: T) -> Result<(), AllocError>
        requires { taken ≤ length self.old }
        ensures ok { OnOk result (self.new ≡ item ∷ drop taken self.old) }
        ensures err { OnErr result (self.new ≡ self.old) }
    {
        if taken == 0 {
            return self.push(item);
        }
        let count = self.count - taken;
        self.vec[count] = item;
        self.count = count + 1;
        Ok(())
    }

    /// Takes so many items from below so many at the top.
    #[tactic(auto, using(crate::proofs::ReversedLists::sinks))]
    pub fn sink(&mut self, kept: usize, taken: usize)
        requires { kept + taken ≤ length self.old }
        ensures { self.new ≡ take kept self.old ++ drop (kept + taken) self.old }
    {
        let count = self.count;
        let from = count - kept;
        self.vec.truncate(count);
        self.vec.copy_within(from..count, from - taken);
        self.count = count - taken;
    }
}

impl<T: Copy + Drop, A: Allocator + Copy> Stack<T, A> {
    /// The same items, in memory of their own.
    pub fn clone(&self) -> Result<Stack<T, A>, AllocError>
        ensures { IfOk result (λ copy. copy ≡ self.now) }
    {
        let mut vec = Vec::new(*self.vec.allocator());
        vec.extend_from_slice(&self.vec)?;
        Ok(Stack {
            vec,
            count: self.count,
        })
    }
}
