//! The locals of a body, and which of them are set.

ghost use Rattle.std.specs.Prelude.{◌≡◌, ◌+◌, ◌-◌, ◌^◌, ◌<◌, ◌≤◌, ◌∷◌, ◌++◌, [], false, length, drop, slice_get, map, replicate, IfOk, OnOk, OnErr, IsTrue, ◌↔◌};
ghost use Rattle.std.specs.Option.{option_map};
ghost use Rattle.wasm_spec_steps.specs.WasmSpecRules.Attempts.{among};
ghost use Rattle.wasm_typing_stacks.specs.Locals.{local_of};

use crate::local_word::LocalWord;
use crate::marks::Marks;
use crate::runs::Runs;
use std::alloc::{AllocError, Allocator, Global};
use std::marker::Model;

/// How many locals a function may have, its parameters among them.
pub const MAX_LOCALS: u32 = 50_000;

/// How many locals stand one by one in front, before those in runs.
const FRONT: usize = 1024;

/// How many places of the front so many locals more take up.
fn front_after(len: usize, behind: u32, count: u32) -> usize
    requires { len + count < 2 ^ 64 }
    ensures least { len ≤ result }
    ensures most { result ≤ len + count }
    ensures alone { 0 < behind → result ≡ len }
{
    if behind > 0 || len >= FRONT {
        len
    } else if count as usize <= FRONT - len {
        len + count as usize
    } else {
        FRONT
    }
}

/// The locals of a body, and those that its code has set so far and that weren't set before, the
/// latest first.
pub struct Locals<A: Allocator = Global> {
    front: Vec<LocalWord, A>,
    behind: Runs<A>,
    marks: Marks<A>,
}

// By hand: so each way out takes one call for it, and not a step for each field.
impl<A: Allocator> Drop for Locals<A> {
    fn drop(self) {
        let Locals {
            front: _,
            behind: _,
            marks: _,
        } = self;
    }
}

impl<A: Allocator> Model for Locals<A> {
    ghost use Rattle.std.specs.Prelude.{◌≤◌, ◌+◌, ◌++◌, length, map};
    ghost use Rattle.wasm_typing_stacks.specs.Locals.{Held, local_of};

    ghost Value = { Held };

    ghost view = { λ l. record {
      content = map local_of l.front.items
          ++ l.behind;
      inits = l.marks;
    } };

    ghost invariant = { λ l. length l.front.items + length l.behind ≤ 50000 };
}

impl<A: Allocator + Copy> Locals<A> {
    /// No locals. It takes no memory.
    pub fn new(alloc: A) -> Locals<A>
        ensures content { result.content ≡ [] }
        ensures inits { result.inits ≡ [] }
    {
        Locals {
            front: Vec::new(alloc),
            behind: Runs::new(alloc),
            marks: Marks::new(alloc),
        }
    }

    /// The same locals, of which the same are set, in memory of their own.
    pub fn clone(&self) -> Result<Locals<A>, AllocError>
        ensures { IfOk result (λ copy. copy ≡ self.now) }
    {
        let behind = self.behind.clone()?;
        let marks = self.marks.clone()?;
        let mut front = Vec::new(*self.front.allocator());
        front.extend_from_slice(&self.front)?;
        Ok(Locals {
            front,
            behind,
            marks,
        })
    }
}

impl<A: Allocator> Locals<A> {
    /// How many locals there are.
    #[inline]
    #[tactic(auto, using(crate::proofs::LocalFronts::counts))]
    pub fn len(&self) -> u32
        ensures value { result ≡ length self.now.content }
        ensures limit { result ≤ 50000 }
    {
        self.front.len() as u32 + self.behind.len()
    }

    /// Whether there may be so many more.
    pub fn has_room(&self, count: u32) -> bool
        ensures { IsTrue result ↔ (length self.now.content + count ≤ 50000) }
    {
        count <= MAX_LOCALS - self.len()
    }

    /// The local of this index, if there is one.
    #[inline(always)]
    #[tactic(auto, using(crate::proofs::LocalFronts::reads))]
    pub fn get(&self, index: u32) -> Option<LocalWord>
        ensures { option_map local_of result ≡ slice_get self.now.content index }
    {
        let place = index as usize;
        let count = self.front.len();
        if place < count {
            Some(self.front[place])
        } else {
            self.behind.get(index - count as u32)
        }
    }

    /// Adds so many like locals.
    pub fn define(&mut self, count: u32, local: LocalWord) -> Result<(), AllocError>
        requires { length self.old.content + count ≤ 50000 }
        ensures ok { OnOk result (self.new.content ≡ self.old.content
            ++ replicate count (local_of local)) }
        ensures inits { self.new.inits ≡ self.old.inits }
    {
        let len = self.front.len();
        let wanted = front_after(len, self.behind.len(), count);
        if count == 1 && wanted > len {
            self.front.push(local)?;
            return Ok(());
        }
        self.front.resize(wanted, local)?;
        let left = count - (wanted - len) as u32;
        if left == 0 {
            return Ok(());
        }
        self.behind.extend(left, local)
    }

    /// Whether a local was set since its function began.
    #[inline]
    pub fn was_set(&self, index: u32) -> bool
        ensures { result ≡ among index self.now.inits }
    {
        self.marks.contains(index)
    }

    /// Sets a local that wasn't set since. Where memory is refused, all stays.
    pub fn set(&mut self, index: u32) -> Result<(), AllocError>
        requires { among index self.old.inits ≡ false }
        ensures content { self.new.content ≡ self.old.content }
        ensures ok { OnOk result (self.new.inits ≡ index ∷ self.old.inits) }
        ensures err { OnErr result (self.new.inits ≡ self.old.inits) }
    {
        self.marks.mark(index)
    }

    /// How many locals were set since.
    #[inline]
    pub fn count_set(&self) -> usize
        ensures { result ≡ length self.now.inits }
    {
        self.marks.len()
    }

    /// Forgets which locals were set since, but for the first so many.
    #[inline(always)]
    pub fn unset(&mut self, count: usize)
        ensures content { self.new.content ≡ self.old.content }
        ensures inits { self.new.inits ≡ drop (length self.old.inits - count) self.old.inits }
    {
        if count < self.marks.len() {
            self.marks.truncate(count);
        }
    }

    /// Forgets the locals, and keeps the memory.
    pub fn clear(&mut self)
        ensures content { self.new.content ≡ [] }
        ensures inits { self.new.inits ≡ [] }
    {
        self.front.clear();
        self.behind.clear();
        self.marks.truncate(0);
    }
}
