//! Operators behind which code isn't reached.

ghost use Rattle.std.specs.Prelude.{◌++◌, ◌∷◌, []};
ghost use Rattle.wasm_typing_numbers.specs.WasmTypingStacks.SeenTypeWords.{val_in};
ghost use Rattle.wasm_typing_numbers.specs.WasmTypingChecks.WasmValidatorResources.Answers.{world};
ghost use Rattle.wasm_typing_numbers.specs.WasmTypingStacks.BodyStacks.{Kept};
ghost use Rattle.wasm_typing_numbers.specs.WasmTypingChecks.Steps.{Turns};
ghost use Rattle.wasm_typing_numbers.specs.WasmTypingChecks.SeenTypes.{types_seen, halted};

use std::alloc::Allocator;
use wasm_typing_numbers::typing_checks::{
    OperatorError, OperatorFault, OperatorRule, ValTypes, check_type, check_types,
};
use wasm_typing_numbers::typing_stacks::{Stacks, TypeWord};
use wasm_typing_numbers::validator_resources::WasmModuleResources;

/// Takes operands of some types with one of another type on top, and leaves the rest of the
/// innermost frame's code unreached. Where that can't be, all stays.
#[tactic(auto, using(crate::proofs::UnreachedOperands::halts), unfolding(crate::proofs::Cited::Took))]
pub fn halt_with<'a, A: Allocator, T: WasmModuleResources>(
    stacks: &mut Stacks<A>,
    resources: &T,
    takes: ValTypes<'a>,
    top: TypeWord,
) -> Result<(), OperatorError>
    ensures took { Turns result (halted (world (T.context resources.now))
        (types_seen takes.entry ++ val_in top ∷ [])) stacks.old stacks.new }
    ensures same { Kept stacks.old stacks.new }
{
    let first = match check_type(stacks, resources, 0, top) {
        Ok(first) => first,
        Err(fault) => return Err(OperatorError::Refused(fault)),
    };
    let taken = match check_types(stacks, resources, first, takes) {
        Ok(taken) => taken,
        Err(fault) => return Err(OperatorError::Refused(fault)),
    };
    if !stacks.is_open {
        return Err(OperatorError::Refused(OperatorFault::new(OperatorRule::Ended)));
    }
    stacks.take(taken);
    stacks.stop();
    Ok(())
}
