//! Operators that take some operands, whose types are known, and give others.

ghost use Rattle.std.specs.Prelude.{◌∷◌, [], Option};
ghost use Rattle.wasm_readers_types.specs.WasmReadersValues.declared.indices.UnpackedIndex.{UnpackedIndex};
ghost use Rattle.wasm_typing_numbers.specs.WasmTypingChecks.WasmSpecSteps.Machine.{State};
ghost use Rattle.wasm_typing_numbers.specs.WasmTypingChecks.WasmValidatorResources.Answers.{world};
ghost use Rattle.wasm_typing_numbers.specs.WasmTypingChecks.WasmTypingStacks.BodyStacks.{state_of, Kept};
ghost use Rattle.wasm_typing_numbers.specs.WasmTypingChecks.Steps.{Took};
ghost use Rattle.wasm_typing_numbers.specs.WasmTypingChecks.WasmTypingStacks.SeenTypeWords.{val_in};
ghost use Rattle.wasm_typing_numbers.specs.WasmTypingChecks.SeenTypes.{exchanged};
ghost use Rattle.wasm_typing_control.specs.FastSteps.{Fast};

use crate::not_taken::NotTaken;
use crate::peeks::peek;
use std::alloc::Allocator;
use wasm_typing_numbers::typing_checks::OperatorError;
use wasm_typing_numbers::typing_stacks::{Stacks, TypeWord, Word};
use wasm_typing_numbers::validator_resources::WasmModuleResources;

/// Gives an operand of this type.
#[inline(always)]
#[tactic(auto, using(crate::proofs::KnownOperands::gives), unfolding(crate::specs::FastSteps::Fast))]
pub fn give_known<A: Allocator, T: WasmModuleResources>(
    stacks: &mut Stacks<A>,
    _resources: &T,
    gives: TypeWord,
) -> Result<(), NotTaken>
    ensures took { Fast result (exchanged (world (T.context _resources.now)) []
        (val_in gives ∷ []) (state_of stacks.old)) (state_of stacks.old) (state_of stacks.new) }
    ensures same { Kept stacks.old stacks.new }
{
    match stacks.push(Word::known(gives)) {
        Ok(()) => Ok(()),
        Err(_) => Err(NotTaken::OutOfMemory),
    }
}

/// Takes an operand that is known to be of a type. Where it isn't known to be, all stays.
#[inline(always)]
#[tactic(auto, unfolding(crate::specs::FastSteps::Fast))]
pub fn take_known<A: Allocator, T: WasmModuleResources>(
    stacks: &mut Stacks<A>,
    resources: &T,
    takes: TypeWord,
) -> Result<(), NotTaken>
    ensures took { Fast result (exchanged (world (T.context resources.now))
        (val_in takes ∷ []) [] (state_of stacks.old)) (state_of stacks.old)
        (state_of stacks.new) }
    ensures same { Kept stacks.old stacks.new }
{
    peek(stacks, resources, 0, takes)?;
    stacks.take(1);
    Ok(())
}

/// Takes two operands that are known to be of these types, the second one on top. Where they
/// aren't known to be, all stays.
#[inline(always)]
#[tactic(auto, unfolding(crate::specs::FastSteps::Fast))]
pub fn take_two_known<A: Allocator, T: WasmModuleResources>(
    stacks: &mut Stacks<A>,
    resources: &T,
    first: TypeWord,
    second: TypeWord,
) -> Result<(), NotTaken>
    ensures took { Fast result (exchanged (world (T.context resources.now))
        (val_in first ∷ val_in second ∷ []) [] (state_of stacks.old)) (state_of stacks.old)
        (state_of stacks.new) }
    ensures same { Kept stacks.old stacks.new }
{
    peek(stacks, resources, 1, first)?;
    peek(stacks, resources, 0, second)?;
    stacks.take(2);
    Ok(())
}

/// Takes an operand that is known to be of a type, and gives one. Where it isn't known to be, all
/// stays.
#[inline(always)]
#[tactic(auto, unfolding(crate::specs::FastSteps::Fast))]
pub fn exchange_known<A: Allocator, T: WasmModuleResources>(
    stacks: &mut Stacks<A>,
    resources: &T,
    takes: TypeWord,
    gives: TypeWord,
) -> Result<(), NotTaken>
    ensures took { Fast result (exchanged (world (T.context resources.now))
        (val_in takes ∷ []) (val_in gives ∷ []) (state_of stacks.old)) (state_of stacks.old)
        (state_of stacks.new) }
    ensures same { Kept stacks.old stacks.new }
{
    peek(stacks, resources, 0, takes)?;
    match stacks.exchange(1, Word::known(gives)) {
        Ok(()) => Ok(()),
        Err(_) => Err(NotTaken::OutOfMemory),
    }
}

/// Takes two operands that are known to be of these types, the second one on top, and gives one.
/// Where they aren't known to be, all stays.
#[inline(always)]
#[tactic(auto, unfolding(crate::specs::FastSteps::Fast))]
pub fn exchange_two_known<A: Allocator, T: WasmModuleResources>(
    stacks: &mut Stacks<A>,
    resources: &T,
    first: TypeWord,
    second: TypeWord,
    gives: TypeWord,
) -> Result<(), NotTaken>
    ensures took { Fast result (exchanged (world (T.context resources.now))
        (val_in first ∷ val_in second ∷ []) (val_in gives ∷ []) (state_of stacks.old))
        (state_of stacks.old) (state_of stacks.new) }
    ensures same { Kept stacks.old stacks.new }
{
    peek(stacks, resources, 1, first)?;
    peek(stacks, resources, 0, second)?;
    match stacks.exchange(2, Word::known(gives)) {
        Ok(()) => Ok(()),
        Err(_) => Err(NotTaken::OutOfMemory),
    }
}

/// A step of the general way as a fast one: where the operator is refused it is left to that way.
#[inline(always)]
#[tactic(auto, unfolding(crate::specs::FastSteps::Fast, crate::proofs::Cited::Took))]
pub fn as_fast(step: Result<(), OperatorError>) -> Result<(), NotTaken>
    ensures { (o : Option (State UnpackedIndex)) (old new : State UnpackedIndex)
        → Took step o old new → Fast result o old new }
{
    match step {
        Ok(()) => Ok(()),
        Err(OperatorError::Refused(_)) => Err(NotTaken::Left),
        Err(OperatorError::OutOfMemory) => Err(NotTaken::OutOfMemory),
    }
}
