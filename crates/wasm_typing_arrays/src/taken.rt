//! Many operands, and like ones.

ghost use Rattle.std.specs.Prelude.{◌∷◌, []};
ghost use Rattle.wasm_typing_checks.specs.WasmTypingStacks.SeenTypeWords.{val_in};
ghost use Rattle.wasm_typing_checks.specs.WasmSpecSteps.Machine.{pop_vals};
ghost use Rattle.wasm_typing_checks.specs.WasmSpecSteps.Meanings.{copies};
ghost use Rattle.wasm_typing_checks.specs.WasmValidatorResources.Answers.{world};
ghost use Rattle.wasm_typing_checks.specs.WasmTypingStacks.BodyStacks.{state_of, Kept};
ghost use Rattle.wasm_typing_checks.specs.Steps.{Checked, Turns};
ghost use Rattle.wasm_typing_checks.specs.SeenTypes.{exchanged};

use std::alloc::Allocator;
use wasm_typing_checks::typing_stacks::{Stacks, TypeWord, Word};
use wasm_typing_checks::validator_resources::WasmModuleResources;
use wasm_typing_checks::{OperatorError, OperatorFault, Takes, check_takes, check_type};

/// Takes operands of four types. Where that can't be, all stays.
#[tactic(auto, using(crate::proofs::ManyOperands::many), unfolding(wasm_typing_checks::specs::Steps::Took))]
pub fn take_four<A: Allocator, T: WasmModuleResources>(
    stacks: &mut Stacks<A>,
    resources: &T,
    first: TypeWord,
    second: TypeWord,
    third: TypeWord,
    fourth: TypeWord,
) -> Result<(), OperatorError>
    ensures took { Turns result (exchanged (world (T.context resources.now))
        (val_in first ∷ val_in second ∷ val_in third ∷ val_in fourth ∷ []) [])
        stacks.old stacks.new }
    ensures same { Kept stacks.old stacks.new }
{
    let upper = match check_takes(stacks, resources, Takes::Three(second, third, fourth)) {
        Ok(upper) => upper,
        Err(fault) => return Err(OperatorError::Refused(fault)),
    };
    let taken = match check_type(stacks, resources, upper, first) {
        Ok(taken) => taken,
        Err(fault) => return Err(OperatorError::Refused(fault)),
    };
    stacks.take(taken);
    Ok(())
}

/// Takes operands of five types. Where that can't be, all stays.
#[tactic(auto, using(crate::proofs::ManyOperands::many), unfolding(wasm_typing_checks::specs::Steps::Took))]
pub fn take_five<A: Allocator, T: WasmModuleResources>(
    stacks: &mut Stacks<A>,
    resources: &T,
    first: TypeWord,
    second: TypeWord,
    third: TypeWord,
    fourth: TypeWord,
    fifth: TypeWord,
) -> Result<(), OperatorError>
    ensures took { Turns result (exchanged (world (T.context resources.now))
        (val_in first ∷ val_in second ∷ val_in third ∷ val_in fourth ∷ val_in fifth ∷ []) [])
        stacks.old stacks.new }
    ensures same { Kept stacks.old stacks.new }
{
    let upper = match check_takes(stacks, resources, Takes::Three(third, fourth, fifth)) {
        Ok(upper) => upper,
        Err(fault) => return Err(OperatorError::Refused(fault)),
    };
    let more = match check_type(stacks, resources, upper, second) {
        Ok(more) => more,
        Err(fault) => return Err(OperatorError::Refused(fault)),
    };
    let taken = match check_type(stacks, resources, more, first) {
        Ok(taken) => taken,
        Err(fault) => return Err(OperatorError::Refused(fault)),
    };
    stacks.take(taken);
    Ok(())
}

/// Whether so many operands of one type are on top, and how many are taken with them. It looks at
/// no more than are there: where code isn't reached and none is left, any number can be taken.
#[tactic(auto, using(crate::proofs::LikeOperands::repeats))]
fn check_repeated<A: Allocator, T: WasmModuleResources>(
    stacks: &Stacks<A>,
    resources: &T,
    count: u32,
    ty: TypeWord,
) -> Result<usize, OperatorFault>
    ensures { Checked result (pop_vals (world (T.context resources.now))
        (copies count (val_in ty ∷ [])) (state_of stacks.now)) (state_of stacks.now) }
{
    let mut taken = 0;
    'repeating: for i in 0..count {
        let next = check_type(stacks, resources, taken, ty)?;
        if next == taken {
            return Ok(taken);
        }
        taken = next;
    }
    Ok(taken)
}

/// Takes so many operands of one type, and gives one. Where that can't be, all stays.
#[tactic(auto, using(wasm_typing_checks::proofs::OperandExchanges::exchanges), unfolding(wasm_typing_checks::specs::Steps::Took))]
pub fn exchange_repeated<A: Allocator, T: WasmModuleResources>(
    stacks: &mut Stacks<A>,
    resources: &T,
    count: u32,
    ty: TypeWord,
    given: TypeWord,
) -> Result<(), OperatorError>
    ensures took { Turns result (exchanged (world (T.context resources.now))
        (copies count (val_in ty ∷ [])) (val_in given ∷ [])) stacks.old stacks.new }
    ensures same { Kept stacks.old stacks.new }
{
    let taken = match check_repeated(stacks, resources, count, ty) {
        Ok(taken) => taken,
        Err(fault) => return Err(OperatorError::Refused(fault)),
    };
    match stacks.exchange(taken, Word::known(given)) {
        Ok(()) => Ok(()),
        Err(_) => Err(OperatorError::OutOfMemory),
    }
}
