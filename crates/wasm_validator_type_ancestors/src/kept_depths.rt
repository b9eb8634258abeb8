//! The depths of types, each at the place of its id.

ghost use Rattle.std.specs.Prelude.{◌≡◌, ◌+◌, ◌<◌, ◌^◌, [], OnOk, OnErr};
ghost use Rattle.std.specs.Vec.{vec_len};
ghost use Rattle.wasm_validator_type_ancestors.specs.Depths.{depth_of, with_depth};
ghost use Rattle.wasm_validator_type_ancestors.specs.NotedDepths.{kept_at, SameKept, IsNoted};

use std::alloc::{AllocError, Allocator, Global};
use std::marker::Model;

/// The depths of types, which are the numbers of their proper ancestors, in two bytes for each id up
/// to the last one of which a depth is kept. A contract sees the ids of which one is kept, in their
/// order, each with its depth.
#[derive(Drop)]
pub struct KeptDepths<A: Allocator = Global> {
    depths: Vec<Option<u8>, A>,
}

impl<A: Allocator> Model for KeptDepths<A> {
    ghost use Rattle.std.specs.Prelude.{ℕ, List};
    ghost use Rattle.wasm_validator_type_ancestors.specs.Depths.{in_order};
    ghost use Rattle.wasm_validator_type_ancestors.specs.NotedDepths.{kept_in};

    ghost Value = { List (ℕ × ℕ) };

    ghost view = { λ a. in_order (kept_in a.depths.items) };
}

impl<A: Allocator> KeptDepths<A> {
    /// No depths. They take no memory until one is kept.
    #[tactic(auto, using(crate::proofs::NotedDepths::starts))]
    pub fn new(alloc: A) -> KeptDepths<A>
        ensures { result ≡ [] }
    {
        KeptDepths {
            depths: Vec::new(alloc),
        }
    }

    /// The depth that is kept of the type whose id has this number, if one is.
    #[tactic(auto, using(crate::proofs::NotedDepths::reads))]
    pub fn get(&self, id: u32) -> Option<u8>
        ensures { result ≡ depth_of self.now id }
    {
        depth_at(&self.depths, id as usize)
    }

    /// Keeps the depth of the type whose id has this number.
    ///
    /// # Errors
    ///
    /// Refused where memory is. Nothing changes then.
    #[tactic(auto, using(crate::proofs::NotedDepths::notes))]
    pub fn put(&mut self, id: u32, depth: u8) -> Result<(), AllocError>
        ensures ok { OnOk result (self.new ≡ with_depth self.old id depth) }
        ensures err { OnErr result (self.new ≡ self.old) }
    {
        note_depth(&mut self.depths, id as usize, depth)?;
        Ok(())
    }
}

/// The depth that is kept at this place, if one is.
#[tactic(auto, using(crate::proofs::NotedDepths::reads_places))]
fn depth_at<A: Allocator>(depths: &Vec<Option<u8>, A>, place: usize) -> Option<u8>
    ensures { result ≡ kept_at depths.now.items place }
{
    if place < depths.len() {
        depths[place]
    } else {
        None
    }
}

/// Makes room for a depth at this place. None is kept there that wasn't before.
///
/// # Errors
///
/// Refused where memory is.
#[tactic(auto, using(crate::proofs::NotedDepths::reaches))]
fn reach<A: Allocator>(depths: &mut Vec<Option<u8>, A>, place: usize) -> Result<(), AllocError>
    requires { place + 1 < 2 ^ 64 }
    ensures same { SameKept depths.old.items depths.new.items }
    ensures err { OnErr result (depths.new.items ≡ depths.old.items) }
    ensures room { OnOk result (place < vec_len depths.new) }
{
    if place < depths.len() {
        return Ok(());
    }
    depths.resize(place + 1, None)
}

/// Keeps the depth at this place.
///
/// # Errors
///
/// Refused where memory is. Nothing changes then.
#[tactic(auto, using(crate::proofs::NotedDepths::notes_places))]
fn note_depth<A: Allocator>(
    depths: &mut Vec<Option<u8>, A>,
    place: usize,
    depth: u8,
) -> Result<(), AllocError>
    requires { place + 1 < 2 ^ 64 }
    ensures ok { OnOk result (IsNoted depths.old.items depths.new.items place depth) }
    ensures err { OnErr result (depths.new.items ≡ depths.old.items) }
{
    reach(depths, place)?;
    depths[place] = Some(depth);
    Ok(())
}
