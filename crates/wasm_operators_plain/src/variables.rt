//! Operators on locals and globals.

ghost use Rattle.std.specs.Prelude.{◌≡◌, ◌≤◌, ◌+◌, Some, None, IfOk, IfErr, OnErr};
ghost use Rattle.wasm_readers.specs.WasmReadersBytes.Reader.{SameInput, position_in, original, rest};
ghost use Rattle.wasm_operators_plain.specs.Refusals.{RefusedBetween};
ghost use Rattle.wasm_operators_plain.specs.Variables.{variable_from};

use crate::opcodes::unknown_opcode;
use wasm_readers::BinaryReader;
use wasm_readers::readers_errors::Refusal;

/// Operators on locals and globals (Core Specification 3.0, Binary Format, Instructions, Variable
/// Instructions).
#[derive(Clone, Copy, Debug)]
pub enum VariableOperator {
    LocalGet { local_index: u32 },
    LocalSet { local_index: u32 },
    LocalTee { local_index: u32 },
    GlobalGet { global_index: u32 },
    GlobalSet { global_index: u32 },
}

/// The operator on a local or a global of this opcode, which stood at this offset.
#[inline]
#[tactic(auto, unfolding(crate::specs::Variables::variable_from))]
pub fn read_variable(
    reader: &mut BinaryReader,
    opcode: u8,
    offset: u64,
) -> Result<VariableOperator, Refusal>
    requires { offset ≤ original reader.old + position_in reader.old }
    ensures same { SameInput reader.old reader.new }
    ensures onward { position_in reader.old ≤ position_in reader.new }
    ensures refusal { IfErr result (RefusedBetween offset reader.old) }
    ensures ok { IfOk result (λ op. variable_from opcode (rest reader.old)
        ≡ Some (op, rest reader.new)) }
    ensures err { OnErr result (variable_from opcode (rest reader.old) ≡ None) }
{
    match opcode {
        0x20 => Ok(VariableOperator::LocalGet {
            local_index: reader.read_var_u32()?,
        }),
        0x21 => Ok(VariableOperator::LocalSet {
            local_index: reader.read_var_u32()?,
        }),
        0x22 => Ok(VariableOperator::LocalTee {
            local_index: reader.read_var_u32()?,
        }),
        0x23 => Ok(VariableOperator::GlobalGet {
            global_index: reader.read_var_u32()?,
        }),
        0x24 => Ok(VariableOperator::GlobalSet {
            global_index: reader.read_var_u32()?,
        }),
        _ => Err(unknown_opcode(opcode, offset)),
    }
}
