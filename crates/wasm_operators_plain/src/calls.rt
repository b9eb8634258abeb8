//! Calls and tail calls.

ghost use Rattle.std.specs.Prelude.{◌≡◌, ◌≤◌, ◌+◌, Some, None, IfOk, IfErr, OnErr};
ghost use Rattle.wasm_readers.specs.WasmReadersBytes.Reader.{SameInput, position_in, original, rest};
ghost use Rattle.wasm_operators_plain.specs.Refusals.{RefusedBetween};
ghost use Rattle.wasm_operators_plain.specs.Calls.{call_from};

use crate::opcodes::unknown_opcode;
use wasm_readers::BinaryReader;
use wasm_readers::readers_errors::Refusal;

/// Calls and tail calls (Core Specification 3.0, Binary Format, Instructions, Control
/// Instructions).
#[derive(Clone, Copy, Debug)]
pub enum CallOperator {
    Call { function_index: u32 },
    CallIndirect { type_index: u32, table_index: u32 },
    ReturnCall { function_index: u32 },
    ReturnCallIndirect { type_index: u32, table_index: u32 },
    CallRef { type_index: u32 },
    ReturnCallRef { type_index: u32 },
}

/// The call of this opcode, which stood at this offset.
#[inline]
#[tactic(auto, unfolding(crate::specs::Calls::call_from))]
pub fn read_call(
    reader: &mut BinaryReader,
    opcode: u8,
    offset: u64,
) -> Result<CallOperator, Refusal>
    requires { offset ≤ original reader.old + position_in reader.old }
    ensures same { SameInput reader.old reader.new }
    ensures onward { position_in reader.old ≤ position_in reader.new }
    ensures refusal { IfErr result (RefusedBetween offset reader.old) }
    ensures ok { IfOk result (λ op. call_from opcode (rest reader.old)
        ≡ Some (op, rest reader.new)) }
    ensures err { OnErr result (call_from opcode (rest reader.old) ≡ None) }
{
    match opcode {
        0x10 => Ok(CallOperator::Call {
            function_index: reader.read_var_u32()?,
        }),
        0x11 => Ok(CallOperator::CallIndirect {
            type_index: reader.read_var_u32()?,
            table_index: reader.read_var_u32()?,
        }),
        0x12 => Ok(CallOperator::ReturnCall {
            function_index: reader.read_var_u32()?,
        }),
        0x13 => Ok(CallOperator::ReturnCallIndirect {
            type_index: reader.read_var_u32()?,
            table_index: reader.read_var_u32()?,
        }),
        0x14 => Ok(CallOperator::CallRef {
            type_index: reader.read_var_u32()?,
        }),
        0x15 => Ok(CallOperator::ReturnCallRef {
            type_index: reader.read_var_u32()?,
        }),
        _ => Err(unknown_opcode(opcode, offset)),
    }
}
