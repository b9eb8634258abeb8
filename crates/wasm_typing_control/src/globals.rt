//! Operators on globals.

ghost use Rattle.wasm_typing_numbers.specs.WasmOperators.WasmOperatorsPlain.declared.variables.VariableOperator.TheVariants.{GlobalGet, GlobalSet};
ghost use Rattle.wasm_typing_numbers.specs.WasmSpecSteps.Shapes.{variable_shape};
ghost use Rattle.wasm_typing_numbers.specs.WasmTypingStacks.BodyStacks.{Kept};
ghost use Rattle.wasm_typing_numbers.specs.WasmTypingChecks.Steps.{Performs};

use std::alloc::Allocator;
use wasm_readers_types::GlobalType;
use wasm_typing_numbers::typing_checks::{
    OperatorError, OperatorFault, OperatorRule, Takes, ValTypes, plain, reaches,
};
use wasm_typing_numbers::typing_stacks::{Stacks, TypeWord};
use wasm_typing_numbers::validator_resources::WasmModuleResources;

/// `global.get`.
#[tactic(auto, using(crate::proofs::Cited::acts, crate::proofs::GlobalLookups::globals))]
pub fn global_get<A: Allocator, T: WasmModuleResources>(
    stacks: &mut Stacks<A>,
    resources: &T,
    index: u32,
) -> Result<(), OperatorError>
    ensures took { Performs result (T.context resources.now) (variable_shape (GlobalGet index))
        stacks.old stacks.new }
    ensures same { Kept stacks.old stacks.new }
{
    match resources.global_at(index) {
        Some(ty) => {
            if !reaches(stacks, ty.shared) {
                return Err(OperatorError::Refused(OperatorFault::at(OperatorRule::Shared, index)));
            }
            plain(
                stacks,
                resources,
                Takes::None,
                ValTypes::One(TypeWord::new(ty.content_type)),
            )
        }
        None => Err(OperatorError::Refused(OperatorFault::at(OperatorRule::UnknownGlobal, index))),
    }
}

/// `global.set`.
#[tactic(auto, using(crate::proofs::Cited::acts, crate::proofs::GlobalLookups::globals))]
pub fn global_set<A: Allocator, T: WasmModuleResources>(
    stacks: &mut Stacks<A>,
    resources: &T,
    index: u32,
) -> Result<(), OperatorError>
    ensures took { Performs result (T.context resources.now) (variable_shape (GlobalSet index))
        stacks.old stacks.new }
    ensures same { Kept stacks.old stacks.new }
{
    match resources.global_at(index) {
        Some(ty) => {
            if !reaches(stacks, ty.shared) {
                return Err(OperatorError::Refused(OperatorFault::at(OperatorRule::Shared, index)));
            }
            if !ty.mutable {
                return Err(OperatorError::Refused(OperatorFault::at(
                    OperatorRule::ImmutableGlobal,
                    index,
                )));
            }
            plain(
                stacks,
                resources,
                Takes::One(TypeWord::new(ty.content_type)),
                ValTypes::None,
            )
        }
        None => Err(OperatorError::Refused(OperatorFault::at(OperatorRule::UnknownGlobal, index))),
    }
}
