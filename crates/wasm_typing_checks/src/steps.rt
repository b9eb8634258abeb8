//! Operators that take some operands and give others.

ghost use Rattle.std.specs.Prelude.{◌++◌, ◌∷◌, []};
ghost use Rattle.wasm_typing_stacks.specs.SeenTypeWords.{val_in};
ghost use Rattle.wasm_validator_resources.specs.Answers.{world};
ghost use Rattle.wasm_typing_stacks.specs.BodyStacks.{Kept};
ghost use Rattle.wasm_typing_checks.specs.Steps.{Turns};
ghost use Rattle.wasm_typing_checks.specs.SeenTypes.{types_seen, takes_seen, exchanged, halted};

use crate::faults::{OperatorError, OperatorFault};
use crate::looks::check_type;
use crate::types::{Takes, ValTypes, check_takes, check_types, exchange_types};
use std::alloc::Allocator;
use wasm_typing_stacks::{Stacks, TypeWord};
use wasm_validator_resources::WasmModuleResources;
use wasm_validator_resources::readers_errors::OperatorRule;

/// Takes operands of some types, and gives others. Where that can't be, all stays.
#[inline(always)]
#[tactic(auto, using(crate::proofs::OperandExchanges::exchanges), unfolding(crate::specs::Steps::Took))]
pub fn plain<'a, A: Allocator, T: WasmModuleResources>(
    stacks: &mut Stacks<A>,
    resources: &T,
    takes: Takes<'a>,
    gives: ValTypes<'a>,
) -> Result<(), OperatorError>
    ensures took { Turns result (exchanged (world (T.context resources.now))
        (takes_seen takes.entry) (types_seen gives.entry)) stacks.old stacks.new }
    ensures same { Kept stacks.old stacks.new }
{
    let taken = match check_takes(stacks, resources, takes) {
        Ok(taken) => taken,
        Err(fault) => return Err(OperatorError::Refused(fault)),
    };
    match exchange_types(stacks, taken, gives) {
        Ok(()) => Ok(()),
        Err(_) => Err(OperatorError::OutOfMemory),
    }
}

/// Takes operands of some types with one of another type on top, and gives others. Where that can't
/// be, all stays.
#[tactic(auto, using(crate::proofs::OperandExchanges::with_one), unfolding(crate::specs::Steps::Took))]
pub fn plain_with<'a, A: Allocator, T: WasmModuleResources>(
    stacks: &mut Stacks<A>,
    resources: &T,
    takes: ValTypes<'a>,
    top: TypeWord,
    gives: ValTypes<'a>,
) -> Result<(), OperatorError>
    ensures took { Turns result (exchanged (world (T.context resources.now))
        (types_seen takes.entry ++ val_in top ∷ []) (types_seen gives.entry))
        stacks.old stacks.new }
    ensures same { Kept stacks.old stacks.new }
{
    let first = match check_type(stacks, resources, 0, top) {
        Ok(first) => first,
        Err(fault) => return Err(OperatorError::Refused(fault)),
    };
    let taken = match check_types(stacks, resources, first, takes) {
        Ok(taken) => taken,
        Err(fault) => return Err(OperatorError::Refused(fault)),
    };
    match exchange_types(stacks, taken, gives) {
        Ok(()) => Ok(()),
        Err(_) => Err(OperatorError::OutOfMemory),
    }
}

/// Takes operands of some types, and leaves the rest of the innermost frame's code unreached. Where
/// that can't be, all stays.
#[tactic(auto, using(crate::proofs::OperandExchanges::halts), unfolding(crate::specs::Steps::Took))]
pub fn halt<'a, A: Allocator, T: WasmModuleResources>(
    stacks: &mut Stacks<A>,
    resources: &T,
    takes: ValTypes<'a>,
) -> Result<(), OperatorError>
    ensures took { Turns result (halted (world (T.context resources.now)) (types_seen takes.entry))
        stacks.old stacks.new }
    ensures same { Kept stacks.old stacks.new }
{
    let taken = match check_types(stacks, resources, 0, takes) {
        Ok(taken) => taken,
        Err(fault) => return Err(OperatorError::Refused(fault)),
    };
    if !stacks.is_open {
        return Err(OperatorError::Refused(OperatorFault::new(OperatorRule::Ended)));
    }
    stacks.take(taken);
    stacks.stop();
    Ok(())
}
