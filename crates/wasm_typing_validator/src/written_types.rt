//! Whether types name type indices of a module, as `op` and `define_locals` of a validator ask of
//! those that they are given. What is read of bytes does; what is made otherwise is asked here.

ghost use Rattle.std.specs.Bool.{Decides};
ghost use Rattle.wasm_readers_types.specs.WasmReadersValues.SeenValues.{val_of};
ghost use Rattle.wasm_operators.specs.SeenControl.{block_of, control_of};
ghost use Rattle.wasm_operators.specs.SeenLegacy.{legacy_of};
ghost use Rattle.wasm_operators.specs.SeenOperators.{operator_of};
ghost use Rattle.wasm_typing_families.specs.WasmTypingBlocks.WasmTypingChecks.WasmValidatorResources.Answers.{IsWrittenVal};
ghost use Rattle.wasm_typing_families.specs.WasmTypingBlocks.WrittenOperators.{IsWrittenBlock, IsWrittenControl, IsWrittenLegacy};
ghost use Rattle.wasm_typing_validator.specs.StackSteps.{IsWrittenInstruction};

use wasm_operators::{BlockType, ControlOperator, LegacyOperator, Operator};
use wasm_readers_types::ValType;
use wasm_typing_families::typing_casts::{is_written_cast, is_written_heap, is_written_reference};

/// Whether an index in this type, if there is one, is a type index of a module, and neither a
/// position in a recursion group nor the id of a type in a list.
pub fn is_written_type(ty: ValType) -> bool
    ensures { Decides result (IsWrittenVal (val_of ty)) }
{
    match ty {
        ValType::I32 | ValType::I64 | ValType::F32 | ValType::F64 | ValType::V128 => true,
        ValType::Ref(ty) => is_written_heap(ty.heap_type()),
    }
}

fn is_written_block(ty: BlockType) -> bool
    ensures { Decides result (IsWrittenBlock (block_of ty)) }
{
    match ty {
        BlockType::Empty | BlockType::FuncType(_) => true,
        BlockType::Value(ty) => is_written_type(ty),
    }
}

fn is_written_control(op: ControlOperator<'_>) -> bool
    ensures { Decides result (IsWrittenControl (control_of op.entry)) }
{
    match op {
        ControlOperator::Block { blockty } => is_written_block(blockty),
        ControlOperator::Loop { blockty } => is_written_block(blockty),
        ControlOperator::If { blockty } => is_written_block(blockty),
        ControlOperator::TryTable { try_table } => is_written_block(try_table.ty),
        _ => true,
    }
}

fn is_written_legacy(op: LegacyOperator) -> bool
    ensures { Decides result (IsWrittenLegacy (legacy_of op)) }
{
    match op {
        LegacyOperator::Try { blockty } => is_written_block(blockty),
        _ => true,
    }
}

/// Whether each index in a type of this operator is a type index of a module.
pub fn is_written_operator(op: &Operator<'_>) -> bool
    ensures { Decides result (IsWrittenInstruction (operator_of op.now)) }
{
    match *op {
        Operator::Control(op) => is_written_control(op),
        Operator::Legacy(op) => is_written_legacy(op),
        Operator::Reference(op) => is_written_reference(op),
        Operator::Cast(op) => is_written_cast(op),
        _ => true,
    }
}
