//! Operators on globals.

ghost use Rattle.wasm_operators_plain.specs.declared.variables.VariableOperator.TheVariants.{GlobalGet, GlobalSet};
ghost use Rattle.wasm_typing_control.specs.WasmTypingChecks.WasmSpecSteps.Shapes.{variable_shape};
ghost use Rattle.wasm_typing_control.specs.WasmTypingChecks.WasmTypingStacks.BodyStacks.{Kept};
ghost use Rattle.wasm_typing_control.specs.FastSteps.{Performs};

use std::alloc::Allocator;
use wasm_typing_control::typing_checks::reaches;
use wasm_typing_control::typing_stacks::{Stacks, TypeWord};
use wasm_typing_control::validator_resources::WasmModuleResources;
use wasm_typing_control::{NotTaken, give_known, take_known};

/// `global.get`.
#[inline(always)]
#[tactic(auto, using(crate::proofs::FastActions::acts, crate::proofs::Cited::globals))]
pub fn get_global<A: Allocator, T: WasmModuleResources>(
    stacks: &mut Stacks<A>,
    resources: &T,
    index: u32,
) -> Result<(), NotTaken>
    ensures took { Performs result (T.context resources.now) (variable_shape (GlobalGet index))
        stacks.old stacks.new }
    ensures same { Kept stacks.old stacks.new }
{
    match resources.global_at(index) {
        Some(ty) => {
            if !reaches(stacks, ty.shared) {
                return Err(NotTaken::Left);
            }
            give_known(stacks, resources, TypeWord::new(ty.content_type))
        }
        None => Err(NotTaken::Left),
    }
}

/// `global.set`.
#[inline(always)]
#[tactic(auto, using(crate::proofs::FastActions::acts, crate::proofs::Cited::globals))]
pub fn set_global<A: Allocator, T: WasmModuleResources>(
    stacks: &mut Stacks<A>,
    resources: &T,
    index: u32,
) -> Result<(), NotTaken>
    ensures took { Performs result (T.context resources.now) (variable_shape (GlobalSet index))
        stacks.old stacks.new }
    ensures same { Kept stacks.old stacks.new }
{
    match resources.global_at(index) {
        Some(ty) => {
            if !reaches(stacks, ty.shared) {
                return Err(NotTaken::Left);
            }
            if !ty.mutable {
                return Err(NotTaken::Left);
            }
            take_known(stacks, resources, TypeWord::new(ty.content_type))
        }
        None => Err(NotTaken::Left),
    }
}
