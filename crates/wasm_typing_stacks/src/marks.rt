//! Numbers that were marked, the latest first.

ghost use Rattle.std.specs.Prelude.{◌≡◌, ◌-◌, ◌+◌, ◌^◌, ◌<◌, ◌∷◌, [], false, length, drop, vec_len, IfOk, OnOk, OnErr};
ghost use Rattle.wasm_spec_steps.specs.WasmSpecRules.Attempts.{among};
ghost use Rattle.wasm_typing_stacks.specs.FlagSets.{SameMarks};

use crate::stack::Stack;
use std::alloc::{AllocError, Allocator, Global};
use std::marker::Model;

/// Numbers, each at most once, the latest first. To look whether one is there takes no search, and
/// the memory for it stays when numbers are forgotten.
pub struct Marks<A: Allocator = Global> {
    flags: Vec<bool, A>,
    numbers: Stack<u32, A>,
}

// By hand: so each way out takes one call for it, and not a step for each field.
impl<A: Allocator> Drop for Marks<A> {
    fn drop(self) {
        let Marks {
            flags: _,
            numbers: _,
        } = self;
    }
}

impl<A: Allocator> Model for Marks<A> {
    ghost use Rattle.std.specs.Prelude.{ℕ, List};
    ghost use Rattle.wasm_typing_stacks.specs.FlagSets.{Stands};

    ghost Value = { List ℕ };

    ghost view = { λ m. m.numbers };

    ghost invariant = { λ m. Stands m.flags.items m.numbers };
}

/// Makes room for a flag at this place. The flags that are new aren't set.
#[tactic(auto, using(crate::proofs::NumberFlags::reaches))]
fn reach<A: Allocator>(flags: &mut Vec<bool, A>, place: usize) -> Result<(), AllocError>
    requires { place + 1 < 2 ^ 64 }
    ensures same { SameMarks flags.old.items flags.new.items }
    ensures room { OnOk result (place < vec_len flags.new) }
{
    if place < flags.len() {
        return Ok(());
    }
    flags.resize(place + 1, false)
}

impl<A: Allocator + Copy> Marks<A> {
    /// No numbers. It takes no memory until the first mark.
    #[tactic(auto, using(crate::proofs::NumberFlags::starts))]
    pub fn new(alloc: A) -> Marks<A>
        ensures { result ≡ [] }
    {
        Marks {
            flags: Vec::new(alloc),
            numbers: Stack::new(alloc),
        }
    }

    /// The same numbers, in memory of their own.
    pub fn clone(&self) -> Result<Marks<A>, AllocError>
        ensures { IfOk result (λ copy. copy ≡ self.now) }
    {
        let numbers = self.numbers.clone()?;
        let mut flags = Vec::new(*self.flags.allocator());
        flags.extend_from_slice(&self.flags)?;
        Ok(Marks { flags, numbers })
    }
}

impl<A: Allocator> Marks<A> {
    /// How many numbers there are.
    #[inline]
    pub fn len(&self) -> usize
        ensures { result ≡ length self.now }
    {
        self.numbers.len()
    }

    /// Whether a number is there.
    #[inline]
    #[tactic(auto, using(crate::proofs::NumberFlags::reads))]
    pub fn contains(&self, number: u32) -> bool
        ensures { result ≡ among number self.now }
    {
        let place = number as usize;
        if place < self.flags.len() {
            self.flags[place]
        } else {
            false
        }
    }

    /// Marks a number that isn't there. Where memory is refused, the numbers stay.
    #[tactic(auto, using(crate::proofs::NumberFlags::marks))]
    pub fn mark(&mut self, number: u32) -> Result<(), AllocError>
        requires { among number self.old ≡ false }
        ensures ok { OnOk result (self.new ≡ number ∷ self.old) }
        ensures err { OnErr result (self.new ≡ self.old) }
    {
        let place = number as usize;
        reach(&mut self.flags, place)?;
        self.numbers.push(number)?;
        self.flags[place] = true;
        Ok(())
    }

    /// Forgets the latest number.
    #[tactic(auto, using(crate::proofs::NumberFlags::undos))]
    fn undo(&mut self)
        ensures { self.new ≡ drop 1 self.old }
    {
        if let Some(number) = self.numbers.pop() {
            let place = number as usize;
            if place < self.flags.len() {
                self.flags[place] = false;
            }
        }
    }

    /// Forgets all but the first so many.
    #[tactic(auto, using(crate::proofs::NumberFlags::one_dropped))]
    pub fn truncate(&mut self, count: usize)
        ensures { self.new ≡ drop (length self.old - count) self.old }
    {
        let len = self.len();
        if len > count {
            'undoing: for _i in 0..len - count {
                self.undo();
            }
        }
    }
}
