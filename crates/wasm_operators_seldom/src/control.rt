//! Control operators that open or end frames or throw, calls, `select`, and operators that write a local
//! or a global.

ghost use Rattle.std.specs.Prelude.{◌≡◌, ◌≤◌, Some, IfSome};
ghost use Rattle.wasm_operators.specs.WasmOperatorsPlain.WasmReaders.WasmReadersBytes.Reader.{SameInput, position_in, rest};
ghost use Rattle.wasm_operators.specs.WasmOperatorsPlain.WasmReaders.WrittenIndices.{written};
ghost use Rattle.wasm_operators.specs.Control.{try_table_at};
ghost use Rattle.wasm_operators.specs.Instructions.{call, control, parametric, plain_from, variable};
ghost use Rattle.wasm_operators.specs.SeenControl.{catches_of, control_of, parametric_of};

use crate::types::next_block_type;
use wasm_operators::readers::BinaryReader;
use wasm_operators::{
    CallOperator, ControlOperator, ParametricOperator, TryTable, VariableOperator, read_listed,
};

/// The call of this opcode, if it is one by a reference or instead of a return, and its indices are
/// next.
#[inline(always)]
#[tactic(auto, unfolding(crate::proofs::Cited::plain_from, crate::proofs::Cited::call_from))]
pub fn next_call(reader: &mut BinaryReader, opcode: u8) -> Option<CallOperator>
    ensures same { SameInput reader.old reader.new }
    ensures onward { position_in reader.old ≤ position_in reader.new }
    ensures some { IfSome result (λ op. plain_from written opcode (rest reader.old)
        ≡ Some (call op, rest reader.new)) }
{
    match opcode {
        0x12 => Some(CallOperator::ReturnCall {
            function_index: reader.next_var_u32()?,
        }),
        0x13 => Some(CallOperator::ReturnCallIndirect {
            type_index: reader.next_var_u32()?,
            table_index: reader.next_var_u32()?,
        }),
        0x14 => Some(CallOperator::CallRef {
            type_index: reader.next_var_u32()?,
        }),
        0x15 => Some(CallOperator::ReturnCallRef {
            type_index: reader.next_var_u32()?,
        }),
        _ => None,
    }
}

/// `select`, with types or without, if it has this opcode and its types are next.
#[inline(always)]
#[tactic(auto, unfolding(crate::proofs::Cited::plain_from, crate::proofs::Cited::parametric_from))]
pub fn next_select<'a>(reader: &mut BinaryReader<'a>, opcode: u8) -> Option<ParametricOperator<'a>>
    ensures same { SameInput reader.old reader.new }
    ensures onward { position_in reader.old ≤ position_in reader.new }
    ensures some { IfSome result (λ op. plain_from written opcode (rest reader.old)
        ≡ Some (parametric (parametric_of op), rest reader.new)) }
{
    match opcode {
        0x1b => Some(ParametricOperator::Select),
        0x1c => match read_listed(reader) {
            Ok(tys) => Some(ParametricOperator::TypedSelect { tys }),
            Err(_) => None,
        },
        _ => None,
    }
}

/// The operator of this opcode, if it is one that writes a local or a global and its index is next.
#[inline(always)]
#[tactic(auto, unfolding(crate::proofs::Cited::plain_from, crate::proofs::Cited::variable_from))]
pub fn next_write(reader: &mut BinaryReader, opcode: u8) -> Option<VariableOperator>
    ensures same { SameInput reader.old reader.new }
    ensures onward { position_in reader.old ≤ position_in reader.new }
    ensures some { IfSome result (λ op. plain_from written opcode (rest reader.old)
        ≡ Some (variable op, rest reader.new)) }
{
    match opcode {
        0x21 => Some(VariableOperator::LocalSet {
            local_index: reader.next_var_u32()?,
        }),
        0x22 => Some(VariableOperator::LocalTee {
            local_index: reader.next_var_u32()?,
        }),
        0x24 => Some(VariableOperator::GlobalSet {
            global_index: reader.next_var_u32()?,
        }),
        _ => None,
    }
}

/// The type and the catch clauses of a `try_table`, if they are next.
#[inline(always)]
fn next_try_table<'a>(reader: &mut BinaryReader<'a>) -> Option<TryTable<'a>>
    ensures same { SameInput reader.old reader.new }
    ensures onward { position_in reader.old ≤ position_in reader.new }
    ensures some { IfSome result (λ t. try_table_at written (rest reader.old)
        ≡ Some (catches_of t, rest reader.new)) }
{
    let ty = next_block_type(reader)?;
    match read_listed(reader) {
        Ok(catches) => Some(TryTable { ty, catches }),
        Err(_) => None,
    }
}

/// The control operator of this opcode, if it is one that opens or ends a frame, or throws, and what
/// follows it is next.
#[inline(always)]
#[tactic(auto, unfolding(crate::proofs::Cited::plain_from, crate::proofs::Cited::control_from))]
pub fn next_control<'a>(reader: &mut BinaryReader<'a>, opcode: u8) -> Option<ControlOperator<'a>>
    ensures same { SameInput reader.old reader.new }
    ensures onward { position_in reader.old ≤ position_in reader.new }
    ensures some { IfSome result (λ op. plain_from written opcode (rest reader.old)
        ≡ Some (control (control_of op), rest reader.new)) }
{
    match opcode {
        0x02 => Some(ControlOperator::Block {
            blockty: next_block_type(reader)?,
        }),
        0x03 => Some(ControlOperator::Loop {
            blockty: next_block_type(reader)?,
        }),
        0x04 => Some(ControlOperator::If {
            blockty: next_block_type(reader)?,
        }),
        0x05 => Some(ControlOperator::Else),
        0x08 => Some(ControlOperator::Throw {
            tag_index: reader.next_var_u32()?,
        }),
        0x0a => Some(ControlOperator::ThrowRef),
        0x0b => Some(ControlOperator::End),
        0x1f => Some(ControlOperator::TryTable {
            try_table: next_try_table(reader)?,
        }),
        _ => None,
    }
}
