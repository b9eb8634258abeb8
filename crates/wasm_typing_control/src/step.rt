//! Any call.

ghost use Rattle.wasm_typing_numbers.specs.WasmSpecSteps.Shapes.{call_shape};
ghost use Rattle.wasm_typing_numbers.specs.WasmTypingStacks.BodyStacks.{Kept};
ghost use Rattle.wasm_typing_numbers.specs.WasmTypingChecks.Steps.{Performs};

use crate::calls::{call, call_indirect, call_ref};
use crate::tails::{return_call, return_call_indirect, return_call_ref};
use std::alloc::Allocator;
use wasm_typing_numbers::operators_plain::CallOperator;
use wasm_typing_numbers::typing_checks::OperatorError;
use wasm_typing_numbers::typing_stacks::Stacks;
use wasm_typing_numbers::validator_resources::WasmModuleResources;

/// A call or a tail call (Core Specification 3.0, Validation, Control Instructions).
///
/// # Errors
///
/// Refuses a call that isn't valid here, with the rule that it breaks, and where memory for
/// operands is refused. All stays then.
pub fn step_call<A: Allocator, T: WasmModuleResources>(
    stacks: &mut Stacks<A>,
    resources: &T,
    op: CallOperator,
) -> Result<(), OperatorError>
    ensures took { Performs result (T.context resources.now) (call_shape op) stacks.old stacks.new }
    ensures same { Kept stacks.old stacks.new }
{
    match op {
        CallOperator::Call { function_index } => call(stacks, resources, function_index),
        CallOperator::CallIndirect {
            type_index,
            table_index,
        } => call_indirect(stacks, resources, type_index, table_index),
        CallOperator::ReturnCall { function_index } => return_call(
            stacks,
            resources,
            function_index,
        ),
        CallOperator::ReturnCallIndirect {
            type_index,
            table_index,
        } => return_call_indirect(stacks, resources, type_index, table_index),
        CallOperator::CallRef { type_index } => call_ref(stacks, resources, type_index),
        CallOperator::ReturnCallRef { type_index } => return_call_ref(
            stacks, resources, type_index,
        ),
    }
}
