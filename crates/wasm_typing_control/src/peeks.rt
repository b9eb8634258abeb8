//! Looks at operands whose types are known.

ghost use Rattle.std.specs.Prelude.{◌≡◌, ◌≤◌, ◌+◌, Some, length, map, OnOk, IfOk};
ghost use Rattle.wasm_typing_numbers.specs.WasmTypingChecks.WasmTypingStacks.SeenTypeWords.{val_in};
ghost use Rattle.wasm_typing_numbers.specs.WasmTypingChecks.WasmSpecSteps.Machine.{known, pop_any, pop_val, pop_vals, push_operand, push_vals};
ghost use Rattle.wasm_typing_numbers.specs.WasmTypingChecks.WasmValidatorResources.Answers.{world};
ghost use Rattle.wasm_typing_numbers.specs.WasmTypingChecks.WasmTypingStacks.BodyStacks.{state_of, below};
ghost use Rattle.wasm_typing_numbers.specs.WasmTypingChecks.SeenTypes.{types_seen};
ghost use Rattle.wasm_readers_types.specs.WasmReadersValues.SeenValues.{val_of};
ghost use Rattle.wasm_typing_control.specs.FastSteps.{Peeked};

use crate::not_taken::NotTaken;
use std::alloc::Allocator;
use wasm_readers_types::ValType;
use wasm_typing_numbers::typing_checks::{ValTypes, look_many};
use wasm_typing_numbers::typing_stacks::{Stacks, TypeWord};
use wasm_typing_numbers::validator_resources::WasmModuleResources;

/// Looks whether an operand that is known to be of this type is in the innermost frame, below so
/// many others.
#[inline(always)]
#[tactic(auto, using(crate::proofs::OperandPeeks::peeks))]
pub fn peek<A: Allocator, T: WasmModuleResources>(
    stacks: &Stacks<A>,
    _resources: &T,
    depth: usize,
    ty: TypeWord,
) -> Result<(), NotTaken>
    ensures found { OnOk result (pop_any (below depth (state_of stacks.now))
        ≡ Some (known (val_in ty), below (depth + 1) (state_of stacks.now))) }
    ensures popped { OnOk result (pop_val (world (T.context _resources.now)) (val_in ty)
        (below depth (state_of stacks.now)) ≡ Some (below (depth + 1) (state_of stacks.now))) }
    ensures there { OnOk result (push_operand (known (val_in ty))
        (below (depth + 1) (state_of stacks.now)) ≡ below depth (state_of stacks.now)) }
    ensures within { OnOk result (depth + 1 ≤ length (state_of stacks.now).operands) }
{
    if !stacks.is_open {
        return Err(NotTaken::Left);
    }
    let count = stacks.operands.len();
    let height = stacks.frame.height;
    if count <= height {
        return Err(NotTaken::Left);
    }
    if count - height <= depth {
        return Err(NotTaken::Left);
    }
    let Some(operand) = stacks.operands.get(depth) else {
        return Err(NotTaken::Left);
    };
    if !operand.is(ty) {
        return Err(NotTaken::Left);
    }
    Ok(())
}

/// Looks whether an operand that is known to be of this type is in the innermost frame, below so
/// many others, and how many are taken with it.
#[inline(always)]
fn peek_next<A: Allocator, T: WasmModuleResources>(
    stacks: &Stacks<A>,
    resources: &T,
    taken: usize,
    ty: TypeWord,
) -> Result<usize, NotTaken>
    ensures popped { Peeked result (pop_val (world (T.context resources.now)) (val_in ty)
        (below taken (state_of stacks.now))) (state_of stacks.now) }
    ensures there { IfOk result (λ k. push_operand (known (val_in ty))
        (below k (state_of stacks.now)) ≡ below taken (state_of stacks.now)) }
{
    peek(stacks, resources, taken, ty)?;
    if taken >= stacks.operands.len() {
        return Err(NotTaken::Left);
    }
    Ok(taken + 1)
}

/// Looks whether operands that are known to be of these types, the last one on top, are in the
/// innermost frame, below so many others.
#[inline(always)]
fn peek_many<A: Allocator, T: WasmModuleResources>(
    stacks: &Stacks<A>,
    resources: &T,
    first: usize,
    types: &[ValType],
) -> Result<usize, NotTaken>
    ensures popped { Peeked result (pop_vals (world (T.context resources.now))
        (map val_of types.now) (below first (state_of stacks.now))) (state_of stacks.now) }
    ensures there { IfOk result (λ k. push_vals (map val_of types.now)
        (below k (state_of stacks.now)) ≡ below first (state_of stacks.now)) }
{
    match look_many(stacks, resources, first, types) {
        Some(taken) => Ok(taken),
        None => Err(NotTaken::Left),
    }
}

/// Looks whether operands that are known to be of these types are in the innermost frame, below so
/// many others, and how many are taken with them.
#[inline(always)]
#[tactic(auto, using(crate::proofs::Cited::two))]
pub fn peek_types<'a, A: Allocator, T: WasmModuleResources>(
    stacks: &Stacks<A>,
    resources: &T,
    first: usize,
    types: ValTypes<'a>,
) -> Result<usize, NotTaken>
    requires { first ≤ length (state_of stacks.now).operands }
    ensures popped { Peeked result (pop_vals (world (T.context resources.now))
        (types_seen types.entry) (below first (state_of stacks.now))) (state_of stacks.now) }
    ensures there { IfOk result (λ k. push_vals (types_seen types.entry)
        (below k (state_of stacks.now)) ≡ below first (state_of stacks.now)) }
{
    match types {
        ValTypes::None => Ok(first),
        ValTypes::One(ty) => peek_next(stacks, resources, first, ty),
        ValTypes::Many(types) => peek_many(stacks, resources, first, types),
    }
}
