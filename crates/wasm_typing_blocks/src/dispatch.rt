//! Control, parametric and variable operators by their name.

ghost use Rattle.wasm_operators.specs.SeenControl.{control_of};
ghost use Rattle.wasm_typing_control.specs.WasmTypingChecks.WasmSpecSteps.Shapes.{control_shape, parametric_shape, variable_shape};
ghost use Rattle.wasm_typing_control.specs.WasmTypingChecks.WasmTypingStacks.BodyStacks.{Kept};
ghost use Rattle.wasm_typing_control.specs.WasmTypingChecks.Steps.{Performs};
ghost use Rattle.wasm_typing_blocks.specs.WrittenOperators.{control_written, parametric_written, IsWrittenControl};

use crate::alternatives::turn_to_else;
use crate::blocks::{open_block, open_if, open_loop};
use crate::choices::{select, select_typed};
use crate::exceptions::{throw, throw_ref};
use crate::tables::branch_by_table;
use crate::tries::open_try_table;
use std::alloc::Allocator;
use wasm_operators::{ControlOperator, ParametricOperator, VariableOperator};
use wasm_typing_control::typing_checks::OperatorError;
use wasm_typing_control::typing_stacks::Stacks;
use wasm_typing_control::validator_resources::WasmModuleResources;
use wasm_typing_control::{
    branch, branch_if, do_nothing, drop_any, end, give_back, global_get, global_set, local_get,
    local_set, local_tee, trap,
};

/// A control operator, calls aside (Core Specification 3.0, Validation, Instructions, Control
/// Instructions), as it is written in a module.
///
/// # Errors
///
/// Refuses what the function of the operator refuses. Where it is refused, all stays.
pub fn step_control<'a, A: Allocator, T: WasmModuleResources>(
    stacks: &mut Stacks<A>,
    resources: &T,
    op: ControlOperator<'a>,
) -> Result<(), OperatorError>
    requires { IsWrittenControl (control_of op) }
    ensures took { Performs result (T.context resources.now)
        (control_shape (control_written op.entry)) stacks.old stacks.new }
    ensures same { Kept stacks.old stacks.new }
{
    match op {
        ControlOperator::Unreachable => trap(stacks, resources),
        ControlOperator::Nop => do_nothing(stacks, resources),
        ControlOperator::Block { blockty } => open_block(stacks, resources, blockty),
        ControlOperator::Loop { blockty } => open_loop(stacks, resources, blockty),
        ControlOperator::If { blockty } => open_if(stacks, resources, blockty),
        ControlOperator::Else => turn_to_else(stacks, resources),
        ControlOperator::TryTable { try_table } => open_try_table(stacks, resources, try_table),
        ControlOperator::Throw { tag_index } => throw(stacks, resources, tag_index),
        ControlOperator::ThrowRef => throw_ref(stacks, resources),
        ControlOperator::End => end(stacks, resources),
        ControlOperator::Br { relative_depth } => branch(stacks, resources, relative_depth),
        ControlOperator::BrIf { relative_depth } => branch_if(stacks, resources, relative_depth),
        ControlOperator::BrTable { targets } => branch_by_table(stacks, resources, targets),
        ControlOperator::Return => give_back(stacks, resources),
    }
}

/// A parametric operator (Core Specification 3.0, Validation, Instructions, Parametric
/// Instructions), as it is written in a module.
///
/// # Errors
///
/// Refuses what the function of the operator refuses. Where it is refused, all stays.
pub fn step_parametric<'a, A: Allocator, T: WasmModuleResources>(
    stacks: &mut Stacks<A>,
    resources: &T,
    op: ParametricOperator<'a>,
) -> Result<(), OperatorError>
    ensures took { Performs result (T.context resources.now)
        (parametric_shape (parametric_written op.entry)) stacks.old stacks.new }
    ensures same { Kept stacks.old stacks.new }
{
    match op {
        ParametricOperator::Drop => drop_any(stacks, resources),
        ParametricOperator::Select => select(stacks, resources),
        ParametricOperator::TypedSelect { tys } => select_typed(stacks, resources, tys),
    }
}

/// An operator on a local or a global (Core Specification 3.0, Validation, Instructions, Variable
/// Instructions).
///
/// # Errors
///
/// Refuses what the function of the operator refuses. Where it is refused, all stays.
pub fn step_variable<A: Allocator, T: WasmModuleResources>(
    stacks: &mut Stacks<A>,
    resources: &T,
    op: VariableOperator,
) -> Result<(), OperatorError>
    ensures took { Performs result (T.context resources.now) (variable_shape op)
        stacks.old stacks.new }
    ensures same { Kept stacks.old stacks.new }
{
    match op {
        VariableOperator::LocalGet { local_index } => local_get(stacks, resources, local_index),
        VariableOperator::LocalSet { local_index } => local_set(stacks, resources, local_index),
        VariableOperator::LocalTee { local_index } => local_tee(stacks, resources, local_index),
        VariableOperator::GlobalGet { global_index } => global_get(stacks, resources, global_index),
        VariableOperator::GlobalSet { global_index } => global_set(stacks, resources, global_index),
    }
}
