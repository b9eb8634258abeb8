//! The operators that bodies are mostly made of, without refusals.

ghost use Rattle.std.specs.Prelude.{◌≡◌, ◌≤◌, ◌<◌, Some, None, IfSome, OnSome};
ghost use Rattle.wasm_operators_proposals.specs.WasmOperatorsPlain.WasmReaders.WasmReadersBytes.Reader.{SameInput, position_in, rest};
ghost use Rattle.wasm_operators_proposals.specs.WasmOperatorsPlain.WasmReaders.WrittenIndices.{written};
ghost use Rattle.wasm_operators_proposals.specs.WasmOperatorsPlain.Memories.{memarg_at};
ghost use Rattle.wasm_operators.specs.Control.{block_at};
ghost use Rattle.wasm_operators.specs.Instructions.{plain_from, instruction_at};
ghost use Rattle.wasm_operators.specs.SeenControl.{block_of};
ghost use Rattle.wasm_operators.specs.SeenOperators.{operator_of};

use crate::control::{BlockType, ControlOperator, ParametricOperator};
use crate::operators::Operator;
use wasm_operators_proposals::operators_plain::readers::BinaryReader;
use wasm_operators_proposals::operators_plain::readers_types::ValType;
use wasm_operators_proposals::operators_plain::{
    CallOperator, ConstantOperator, MemArg, VariableOperator, access_from_opcode,
    numeric_from_opcode,
};

/// The memory argument that is next, if it is there and of the first memory.
#[inline(always)]
#[tactic(auto, unfolding(crate::proofs::Cited::memarg_at))]
fn next_memarg(reader: &mut BinaryReader) -> Option<MemArg>
    ensures same { SameInput reader.old reader.new }
    ensures onward { position_in reader.old ≤ position_in reader.new }
    ensures some { IfSome result (λ arg. memarg_at (rest reader.old)
        ≡ Some (arg, rest reader.new)) }
{
    let flags = reader.next_var_u32()?;
    if flags >= 64 {
        return None;
    }
    let offset = reader.next_var_u64()?;
    Some(MemArg {
        align: flags as u8,
        memory: 0,
        offset,
    })
}

/// The numeric operator, the load or the store of this opcode, if it is there.
#[inline(always)]
#[tactic(auto, unfolding(crate::specs::Instructions::plain_from))]
fn next_by_table<'a>(reader: &mut BinaryReader<'a>, opcode: u8) -> Option<Operator<'a>>
    ensures same { SameInput reader.old reader.new }
    ensures onward { position_in reader.old ≤ position_in reader.new }
    ensures below { OnSome result (opcode < 0xfb) }
    ensures some { IfSome result (λ op. plain_from written opcode (rest reader.old)
        ≡ Some (operator_of op, rest reader.new)) }
{
    if 0x45 <= opcode && opcode < 0xd0 {
        Some(Operator::Numeric(numeric_from_opcode(opcode)?))
    } else if 0x28 <= opcode && opcode < 0x3f {
        let op = access_from_opcode(opcode)?;
        Some(Operator::Memory(op, next_memarg(reader)?))
    } else {
        None
    }
}

/// The block type that is next, if it is there and has no value or one of a number.
#[inline(always)]
fn next_block_type(reader: &mut BinaryReader) -> Option<BlockType>
    ensures same { SameInput reader.old reader.new }
    ensures onward { position_in reader.old ≤ position_in reader.new }
    ensures some { IfSome result (λ b. block_at written (rest reader.old)
        ≡ Some (block_of b, rest reader.new)) }
{
    match reader.next_u8()? {
        0x40 => Some(BlockType::Empty),
        0x7c => Some(BlockType::Value(ValType::F64)),
        0x7d => Some(BlockType::Value(ValType::F32)),
        0x7e => Some(BlockType::Value(ValType::I64)),
        0x7f => Some(BlockType::Value(ValType::I32)),
        _ => None,
    }
}

/// The control or parametric operator or the call of this opcode, if it is a frequent one.
#[inline(always)]
#[tactic(auto, unfolding(crate::proofs::plain_from, crate::proofs::control_from, crate::proofs::parametric_from, crate::proofs::call_from))]
fn next_structural<'a>(reader: &mut BinaryReader<'a>, opcode: u8) -> Option<Operator<'a>>
    ensures same { SameInput reader.old reader.new }
    ensures onward { position_in reader.old ≤ position_in reader.new }
    ensures below { OnSome result (opcode < 0xfb) }
    ensures some { IfSome result (λ op. plain_from written opcode (rest reader.old)
        ≡ Some (operator_of op, rest reader.new)) }
{
    match opcode {
        0x02 => Some(Operator::Control(ControlOperator::Block {
            blockty: next_block_type(reader)?,
        })),
        0x03 => Some(Operator::Control(ControlOperator::Loop {
            blockty: next_block_type(reader)?,
        })),
        0x04 => Some(Operator::Control(ControlOperator::If {
            blockty: next_block_type(reader)?,
        })),
        0x05 => Some(Operator::Control(ControlOperator::Else)),
        0x0b => Some(Operator::Control(ControlOperator::End)),
        0x0c => Some(Operator::Control(ControlOperator::Br {
            relative_depth: reader.next_var_u32()?,
        })),
        0x0d => Some(Operator::Control(ControlOperator::BrIf {
            relative_depth: reader.next_var_u32()?,
        })),
        0x0f => Some(Operator::Control(ControlOperator::Return)),
        0x10 => Some(Operator::Call(CallOperator::Call {
            function_index: reader.next_var_u32()?,
        })),
        0x1a => Some(Operator::Parametric(ParametricOperator::Drop)),
        0x1b => Some(Operator::Parametric(ParametricOperator::Select)),
        _ => next_by_table(reader, opcode),
    }
}

/// The next operator, if it is a frequent one. Else the reader may stand anywhere in its input.
#[inline(always)]
#[tactic(auto, unfolding(crate::proofs::instruction_at, crate::proofs::plain_from, crate::proofs::variable_from, crate::proofs::constant_from))]
pub(crate) fn next_frequent<'a>(reader: &mut BinaryReader<'a>) -> Option<Operator<'a>>
    ensures same { SameInput reader.old reader.new }
    ensures some { IfSome result (λ op. instruction_at written (rest reader.old)
        ≡ Some (operator_of op, rest reader.new)) }
    ensures further { OnSome result (position_in reader.old < position_in reader.new) }
{
    match reader.next_u8()? {
        0x20 => Some(Operator::Variable(VariableOperator::LocalGet {
            local_index: reader.next_var_u32()?,
        })),
        0x21 => Some(Operator::Variable(VariableOperator::LocalSet {
            local_index: reader.next_var_u32()?,
        })),
        0x22 => Some(Operator::Variable(VariableOperator::LocalTee {
            local_index: reader.next_var_u32()?,
        })),
        0x23 => Some(Operator::Variable(VariableOperator::GlobalGet {
            global_index: reader.next_var_u32()?,
        })),
        0x24 => Some(Operator::Variable(VariableOperator::GlobalSet {
            global_index: reader.next_var_u32()?,
        })),
        0x41 => Some(Operator::Constant(ConstantOperator::I32Const {
            value: reader.next_var_i32()?,
        })),
        0x42 => Some(Operator::Constant(ConstantOperator::I64Const {
            value: reader.next_var_i64()?,
        })),
        opcode => next_structural(reader, opcode),
    }
}
