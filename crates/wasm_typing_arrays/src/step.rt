//! All operators on arrays.

ghost use Rattle.wasm_typing_checks.specs.WasmSpecSteps.Shapes.{array_shape};
ghost use Rattle.wasm_typing_checks.specs.WasmTypingStacks.BodyStacks.{Kept};
ghost use Rattle.wasm_typing_checks.specs.Steps.{Performs};

use crate::accesses::{array_get, array_get_s, array_get_u, array_set};
use crate::bulk::{array_copy, array_fill, array_init_data, array_init_elem};
use crate::lengths::array_len;
use crate::made::{array_new, array_new_data, array_new_default, array_new_elem, array_new_fixed};
use std::alloc::Allocator;
use wasm_operators_plain::ArrayOperator;
use wasm_typing_checks::OperatorError;
use wasm_typing_checks::typing_stacks::Stacks;
use wasm_typing_checks::validator_resources::WasmModuleResources;

/// An operator on arrays (Core Specification 3.0, Validation, Instructions, Aggregate
/// Instructions).
///
/// # Errors
///
/// Refuses, for the code, an operator that the rules don't allow there. Then, and where memory is
/// refused, the stacks stay as they were.
pub fn step_array<A: Allocator, T: WasmModuleResources>(
    stacks: &mut Stacks<A>,
    resources: &T,
    op: ArrayOperator,
) -> Result<(), OperatorError>
    ensures took { Performs result (T.context resources.now)
        (array_shape op) stacks.old stacks.new }
    ensures same { Kept stacks.old stacks.new }
{
    match op {
        ArrayOperator::ArrayNew { array_type_index } => array_new(
            stacks,
            resources,
            array_type_index,
        ),
        ArrayOperator::ArrayNewDefault { array_type_index } => array_new_default(
            stacks,
            resources,
            array_type_index,
        ),
        ArrayOperator::ArrayNewFixed {
            array_type_index,
            array_size,
        } => array_new_fixed(stacks, resources, array_type_index, array_size),
        ArrayOperator::ArrayNewData {
            array_type_index,
            array_data_index,
        } => array_new_data(stacks, resources, array_type_index, array_data_index),
        ArrayOperator::ArrayNewElem {
            array_type_index,
            array_elem_index,
        } => array_new_elem(stacks, resources, array_type_index, array_elem_index),
        ArrayOperator::ArrayGet { array_type_index } => array_get(
            stacks,
            resources,
            array_type_index,
        ),
        ArrayOperator::ArrayGetS { array_type_index } => array_get_s(
            stacks,
            resources,
            array_type_index,
        ),
        ArrayOperator::ArrayGetU { array_type_index } => array_get_u(
            stacks,
            resources,
            array_type_index,
        ),
        ArrayOperator::ArraySet { array_type_index } => array_set(
            stacks,
            resources,
            array_type_index,
        ),
        ArrayOperator::ArrayLen => array_len(stacks, resources),
        ArrayOperator::ArrayFill { array_type_index } => array_fill(
            stacks,
            resources,
            array_type_index,
        ),
        ArrayOperator::ArrayCopy {
            array_type_index_dst,
            array_type_index_src,
        } => array_copy(
            stacks,
            resources,
            array_type_index_dst,
            array_type_index_src,
        ),
        ArrayOperator::ArrayInitData {
            array_type_index,
            array_data_index,
        } => array_init_data(stacks, resources, array_type_index, array_data_index),
        ArrayOperator::ArrayInitElem {
            array_type_index,
            array_elem_index,
        } => array_init_elem(stacks, resources, array_type_index, array_elem_index),
    }
}
