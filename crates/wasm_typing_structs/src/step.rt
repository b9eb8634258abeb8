//! All operators on structures.

ghost use Rattle.wasm_typing_checks.specs.WasmSpecSteps.Shapes.{struct_shape};
ghost use Rattle.wasm_typing_checks.specs.WasmTypingStacks.BodyStacks.{Kept};
ghost use Rattle.wasm_typing_checks.specs.Steps.{Performs};

use crate::accesses::{struct_get, struct_get_s, struct_get_u, struct_set};
use crate::made::{struct_new, struct_new_default, struct_new_default_desc, struct_new_desc};
use std::alloc::Allocator;
use wasm_operators_plain::StructOperator;
use wasm_typing_checks::OperatorError;
use wasm_typing_checks::typing_stacks::Stacks;
use wasm_typing_checks::validator_resources::WasmModuleResources;

/// An operator on structures (Core Specification 3.0, Validation, Instructions, Aggregate
/// Instructions), or one of the proposal for custom descriptors.
///
/// # Errors
///
/// Refuses, for the code, an operator that the rules don't allow there. Then, and where memory is
/// refused, the stacks stay as they were.
pub fn step_struct<A: Allocator, T: WasmModuleResources>(
    stacks: &mut Stacks<A>,
    resources: &T,
    op: StructOperator,
) -> Result<(), OperatorError>
    ensures took { Performs result (T.context resources.now) (struct_shape op)
        stacks.old stacks.new }
    ensures same { Kept stacks.old stacks.new }
{
    match op {
        StructOperator::StructNew { struct_type_index } => struct_new(
            stacks,
            resources,
            struct_type_index,
        ),
        StructOperator::StructNewDefault { struct_type_index } => struct_new_default(
            stacks,
            resources,
            struct_type_index,
        ),
        StructOperator::StructGet {
            struct_type_index,
            field_index,
        } => struct_get(stacks, resources, struct_type_index, field_index),
        StructOperator::StructGetS {
            struct_type_index,
            field_index,
        } => struct_get_s(stacks, resources, struct_type_index, field_index),
        StructOperator::StructGetU {
            struct_type_index,
            field_index,
        } => struct_get_u(stacks, resources, struct_type_index, field_index),
        StructOperator::StructSet {
            struct_type_index,
            field_index,
        } => struct_set(stacks, resources, struct_type_index, field_index),
        StructOperator::StructNewDesc { struct_type_index } => struct_new_desc(
            stacks,
            resources,
            struct_type_index,
        ),
        StructOperator::StructNewDefaultDesc { struct_type_index } => struct_new_default_desc(
            stacks,
            resources,
            struct_type_index,
        ),
    }
}
