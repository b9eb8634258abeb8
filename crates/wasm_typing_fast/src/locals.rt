//! Operators on locals.

ghost use Rattle.std.specs.Prelude.{◌≡◌, Some, IfOk, slice_get, true};
ghost use Rattle.std.specs.Option.{option_map};
ghost use Rattle.wasm_operators_plain.specs.declared.variables.VariableOperator.TheVariants.{LocalGet, LocalSet, LocalTee};
ghost use Rattle.wasm_typing_control.specs.WasmTypingChecks.WasmSpecSteps.Shapes.{variable_shape};
ghost use Rattle.wasm_typing_control.specs.WasmTypingChecks.WasmTypingStacks.Locals.{local_of};
ghost use Rattle.wasm_typing_control.specs.WasmTypingChecks.WasmTypingStacks.BodyStacks.{Kept};
ghost use Rattle.wasm_typing_control.specs.FastSteps.{Performs};

use std::alloc::Allocator;
use wasm_typing_control::typing_stacks::{LocalWord, Stacks};
use wasm_typing_control::validator_resources::WasmModuleResources;
use wasm_typing_control::{NotTaken, give_known, peek};

/// The local of this index, where it is set from the start.
#[inline(always)]
fn set_local<A: Allocator>(stacks: &Stacks<A>, index: u32) -> Result<LocalWord, NotTaken>
    ensures there { IfOk result (λ local. option_map local_of (Some local)
        ≡ slice_get stacks.now.locals.content index) }
    ensures set { IfOk result (λ local. (local_of local).set ≡ true) }
{
    match stacks.locals.get(index) {
        Some(local) => {
            if local.is_set() {
                Ok(local)
            } else {
                Err(NotTaken::Left)
            }
        }
        None => Err(NotTaken::Left),
    }
}

/// `local.get`.
#[inline(always)]
#[tactic(auto, using(crate::proofs::FastActions::acts, crate::proofs::LocalOperators::gets))]
pub fn local_get<A: Allocator, T: WasmModuleResources>(
    stacks: &mut Stacks<A>,
    resources: &T,
    index: u32,
) -> Result<(), NotTaken>
    ensures took { Performs result (T.context resources.now) (variable_shape (LocalGet index))
        stacks.old stacks.new }
    ensures same { Kept stacks.old stacks.new }
{
    let local = set_local(stacks, index)?;
    give_known(stacks, resources, local.ty())
}

/// `local.set`.
#[inline(always)]
#[tactic(auto, using(crate::proofs::FastActions::acts, crate::proofs::LocalOperators::puts))]
pub fn local_set<A: Allocator, T: WasmModuleResources>(
    stacks: &mut Stacks<A>,
    resources: &T,
    index: u32,
) -> Result<(), NotTaken>
    ensures took { Performs result (T.context resources.now) (variable_shape (LocalSet index))
        stacks.old stacks.new }
    ensures same { Kept stacks.old stacks.new }
{
    let local = set_local(stacks, index)?;
    peek(stacks, resources, 0, local.ty())?;
    stacks.take(1);
    Ok(())
}

/// `local.tee`, which leaves the operand where it is.
#[inline(always)]
#[tactic(auto, using(crate::proofs::FastActions::acts, crate::proofs::LocalOperators::puts))]
pub fn local_tee<A: Allocator, T: WasmModuleResources>(
    stacks: &mut Stacks<A>,
    resources: &T,
    index: u32,
) -> Result<(), NotTaken>
    ensures took { Performs result (T.context resources.now) (variable_shape (LocalTee index))
        stacks.old stacks.new }
    ensures same { Kept stacks.old stacks.new }
{
    let local = set_local(stacks, index)?;
    peek(stacks, resources, 0, local.ty())?;
    Ok(())
}
