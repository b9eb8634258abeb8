//! One step by any operator.

ghost use Rattle.wasm_operators.specs.SeenOperators.{operator_of};
ghost use Rattle.wasm_typing_blocks.specs.WasmTypingChecks.WasmTypingStacks.BodyStacks.{Kept};
ghost use Rattle.wasm_typing_families.specs.StackSteps.{Steps, IsWrittenInstruction};

use std::alloc::Allocator;
use wasm_operators::Operator;
use wasm_operators::operators_plain::{numeric_signature, saturating_signature};
use wasm_typing_arrays::step_array;
use wasm_typing_blocks::typing_checks::{OperatorError, OperatorFault, OperatorRule};
use wasm_typing_blocks::typing_stacks::Stacks;
use wasm_typing_blocks::validator_resources::WasmModuleResources;
use wasm_typing_blocks::{step_call, step_control, step_legacy, step_parametric, step_variable};
use wasm_typing_casts::{step_cast, step_continuation, step_conversion, step_reference};
use wasm_typing_steps::typing_numbers::{
    access_memory, bulk_memory, compute, constant, step_atomic, step_table, step_vector, step_wide,
};
use wasm_typing_structs::{step_shared, step_struct};

/// Takes one step by an operator, where its types name type indices of the module. Where that can't
/// be, all stays.
///
/// # Errors
///
/// Refuses an operator that isn't valid on these stacks, and one behind the last `end`.
#[tactic(auto, using(crate::proofs::FamilySteps::steps))]
pub fn step<'a, A: Allocator, T: WasmModuleResources>(
    stacks: &mut Stacks<A>,
    resources: &T,
    op: &Operator<'a>,
) -> Result<(), OperatorError>
    requires { IsWrittenInstruction (operator_of op.now) }
    ensures took { Steps result (T.context resources.now) (operator_of op.now)
        stacks.old stacks.new }
    ensures same { Kept stacks.old stacks.new }
{
    if !stacks.is_open {
        return Err(OperatorError::Refused(OperatorFault::new(OperatorRule::Ended)));
    }
    match *op {
        Operator::Control(op) => step_control(stacks, resources, op),
        Operator::Legacy(op) => step_legacy(stacks, resources, op),
        Operator::Call(op) => step_call(stacks, resources, op),
        Operator::Parametric(op) => step_parametric(stacks, resources, op),
        Operator::Variable(op) => step_variable(stacks, resources, op),
        Operator::Table(op) => step_table(stacks, resources, op),
        Operator::Memory(op, arg) => access_memory(stacks, resources, op, arg),
        Operator::BulkMemory(op) => bulk_memory(stacks, resources, op),
        Operator::Constant(op) => constant(stacks, resources, op),
        Operator::Numeric(op) => compute(stacks, resources, numeric_signature(op)),
        Operator::Saturating(op) => compute(stacks, resources, saturating_signature(op)),
        Operator::Reference(op) => step_reference(stacks, resources, op),
        Operator::Cast(op) => step_cast(stacks, resources, op),
        Operator::Conversion(op) => step_conversion(stacks, resources, op),
        Operator::Struct(op) => step_struct(stacks, resources, op),
        Operator::Array(op) => step_array(stacks, resources, op),
        Operator::Vector(op, values) => step_vector(stacks, resources, op, values),
        Operator::Atomic(op, values) => step_atomic(stacks, resources, op, values),
        Operator::Wide(op) => step_wide(stacks, resources, op),
        Operator::Continuation(op) => step_continuation(stacks, resources, op),
        Operator::Shared(op, values) => step_shared(stacks, resources, op, values),
    }
}
