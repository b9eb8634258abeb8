//! Runs of like locals.

ghost use Rattle.std.specs.Prelude.{◌≡◌, ◌+◌, ◌-◌, ◌^◌, ◌<◌, ◌++◌, [], length, slice_get, replicate, IfOk, OnOk, OnErr};
ghost use Rattle.std.specs.Option.{option_map};
ghost use Rattle.wasm_typing_stacks.specs.Locals.{local_of, spread, Ascend};

use crate::local_word::LocalWord;
use std::alloc::{AllocError, Allocator, Global};
use std::marker::Model;

/// So many locals of one kind, up to this place.
#[derive(Clone, Copy)]
pub struct Run {
    end: u32,
    local: LocalWord,
}

/// The local at this place.
#[tactic(auto, using(crate::proofs::LocalRuns::finds))]
fn find(runs: &[Run], place: u32) -> Option<LocalWord>
    requires { Ascend 0 runs.now }
    ensures { option_map local_of result ≡ slice_get (spread 0 runs.now) place }
{
    let mut low = 0;
    let mut high = runs.len();
    'searching: while low < high {
        let middle = low + (high - low) / 2;
        if runs[middle].end <= place {
            low = middle + 1;
        } else {
            high = middle;
        }
    }
    if low < runs.len() {
        Some(runs[low].local)
    } else {
        None
    }
}

/// A list of locals, in which many like ones take as much room as one.
#[derive(Drop)]
pub struct Runs<A: Allocator = Global> {
    runs: Vec<Run, A>,
    count: u32,
}

impl<A: Allocator> Model for Runs<A> {
    ghost use Rattle.std.specs.Prelude.{◌≡◌, List};
    ghost use Rattle.wasm_operators_plain.specs.WasmReadersTypes.WasmReadersValues.declared.indices.UnpackedIndex.{UnpackedIndex};
    ghost use Rattle.wasm_spec_steps.specs.Bodies.{Local};
    ghost use Rattle.wasm_typing_stacks.specs.Locals.{spread, Ascend, end_of_all};

    ghost Value = { List (Local UnpackedIndex) };

    ghost view = { λ r. spread 0 r.runs.items };

    ghost invariant = { λ r. Ascend 0 r.runs.items × (end_of_all 0 r.runs.items ≡ r.count) };
}

impl<A: Allocator> Runs<A> {
    /// No locals. It takes no memory.
    #[tactic(auto, using(crate::proofs::LocalRuns::runs))]
    pub fn new(alloc: A) -> Runs<A>
        ensures { result ≡ [] }
    {
        Runs {
            runs: Vec::new(alloc),
            count: 0,
        }
    }

    /// How many locals there are.
    #[inline]
    #[tactic(auto, using(crate::proofs::LocalRuns::runs))]
    pub fn len(&self) -> u32
        ensures { result ≡ length self.now }
    {
        self.count
    }

    /// The local at this place, if there is one.
    pub fn get(&self, place: u32) -> Option<LocalWord>
        ensures { option_map local_of result ≡ slice_get self.now place }
    {
        find(&self.runs, place)
    }

    /// Adds so many like locals. Where memory is refused, the list stays.
    #[tactic(auto, using(crate::proofs::LocalRuns::runs))]
    pub fn extend(&mut self, count: u32, local: LocalWord) -> Result<(), AllocError>
        requires { length self.old + count < 2 ^ 32 }
        ensures ok { OnOk result (self.new ≡ self.old ++ replicate count (local_of local)) }
        ensures err { OnErr result (self.new ≡ self.old) }
    {
        let end = self.count + count;
        self.runs.push(Run { end, local })?;
        self.count = end;
        Ok(())
    }

    /// Forgets the locals, and keeps the memory.
    #[tactic(auto, using(crate::proofs::LocalRuns::runs))]
    pub fn clear(&mut self)
        ensures { self.new ≡ [] }
    {
        self.runs.clear();
        self.count = 0;
    }
}

impl<A: Allocator + Copy> Runs<A> {
    /// The same locals, in memory of their own.
    pub fn clone(&self) -> Result<Runs<A>, AllocError>
        ensures { IfOk result (λ copy. copy ≡ self.now) }
    {
        let mut runs = Vec::new(*self.runs.allocator());
        runs.extend_from_slice(&self.runs)?;
        Ok(Runs {
            runs,
            count: self.count,
        })
    }
}
