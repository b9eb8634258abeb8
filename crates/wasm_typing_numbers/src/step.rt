//! Any operator on tables.

ghost use Rattle.wasm_typing_checks.specs.WasmSpecSteps.Shapes.{table_shape};
ghost use Rattle.wasm_typing_checks.specs.WasmTypingStacks.BodyStacks.{Kept};
ghost use Rattle.wasm_typing_checks.specs.Steps.{Performs};

use crate::bulk::{elem_drop, table_copy, table_init};
use crate::tables::{table_fill, table_get, table_grow, table_set, table_size};
use std::alloc::Allocator;
use wasm_operators::operators_plain::TableOperator;
use wasm_typing_checks::OperatorError;
use wasm_typing_checks::typing_stacks::Stacks;
use wasm_typing_checks::validator_resources::WasmModuleResources;

/// An operator on tables (Core Specification 3.0, Validation, Table Instructions).
///
/// # Errors
///
/// Refuses an operator that isn't valid here, with the rule that it breaks, and where memory for
/// operands is refused. All stays then.
pub fn step_table<A: Allocator, T: WasmModuleResources>(
    stacks: &mut Stacks<A>,
    resources: &T,
    op: TableOperator,
) -> Result<(), OperatorError>
    ensures took { Performs result (T.context resources.now) (table_shape op)
        stacks.old stacks.new }
    ensures same { Kept stacks.old stacks.new }
{
    match op {
        TableOperator::TableGet { table } => table_get(stacks, resources, table),
        TableOperator::TableSet { table } => table_set(stacks, resources, table),
        TableOperator::TableInit { elem_index, table } => table_init(
            stacks, resources, elem_index, table,
        ),
        TableOperator::ElemDrop { elem_index } => elem_drop(stacks, resources, elem_index),
        TableOperator::TableCopy {
            dst_table,
            src_table,
        } => table_copy(stacks, resources, dst_table, src_table),
        TableOperator::TableGrow { table } => table_grow(stacks, resources, table),
        TableOperator::TableSize { table } => table_size(stacks, resources, table),
        TableOperator::TableFill { table } => table_fill(stacks, resources, table),
    }
}
