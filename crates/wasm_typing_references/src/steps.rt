//! Steps of operators on references.

ghost use Rattle.wasm_typing_control.specs.WasmOperators.Maps.{map_reference};
ghost use Rattle.wasm_typing_control.specs.WasmOperators.SeenReferences.{reference_of};
ghost use Rattle.wasm_typing_control.specs.WasmTypingChecks.WasmSpecSteps.Shapes.{reference_shape};
ghost use Rattle.wasm_typing_control.specs.WasmTypingChecks.WasmValidatorResources.Answers.{written_index};
ghost use Rattle.wasm_typing_control.specs.WasmTypingChecks.WasmTypingStacks.BodyStacks.{Kept};
ghost use Rattle.wasm_typing_control.specs.WasmTypingChecks.Steps.{Performs};
ghost use Rattle.wasm_typing_references.specs.WrittenReferences.{IsWrittenReference};

use crate::branches::{br_on_non_null, br_on_null};
use crate::comparing::ref_eq;
use crate::functions::ref_func;
use crate::nulls::{ref_as_non_null, ref_is_null, ref_null};
use std::alloc::Allocator;
use wasm_typing_control::operators::ReferenceOperator;
use wasm_typing_control::typing_checks::OperatorError;
use wasm_typing_control::typing_stacks::Stacks;
use wasm_typing_control::validator_resources::WasmModuleResources;

/// An operator on references (Core Specification 3.0, Validation, Instructions, Reference
/// Instructions), with the branches on null, as it is written in a module.
///
/// # Errors
///
/// Refuses what the operator's rule refuses, and then all stays. Where memory is refused all stays
/// too.
pub fn step_reference<A: Allocator, T: WasmModuleResources>(
    stacks: &mut Stacks<A>,
    resources: &T,
    op: ReferenceOperator,
) -> Result<(), OperatorError>
    requires { IsWrittenReference (reference_of op) }
    ensures took { Performs result (T.context resources.now)
        (reference_shape (map_reference written_index (reference_of op))) stacks.old stacks.new }
    ensures same { Kept stacks.old stacks.new }
{
    match op {
        ReferenceOperator::RefNull { hty } => ref_null(stacks, resources, hty),
        ReferenceOperator::RefIsNull => ref_is_null(stacks, resources),
        ReferenceOperator::RefFunc { function_index } => {
            ref_func(stacks, resources, function_index)
        }
        ReferenceOperator::RefEq => ref_eq(stacks, resources),
        ReferenceOperator::RefAsNonNull => ref_as_non_null(stacks, resources),
        ReferenceOperator::BrOnNull { relative_depth } => {
            br_on_null(stacks, resources, relative_depth)
        }
        ReferenceOperator::BrOnNonNull { relative_depth } => {
            br_on_non_null(stacks, resources, relative_depth)
        }
    }
}
