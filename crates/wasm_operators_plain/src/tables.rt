//! Operators on tables.

ghost use Rattle.std.specs.Prelude.{◌≡◌, ◌≤◌, ◌+◌, Some, None, IfOk, IfErr, OnErr};
ghost use Rattle.wasm_readers.specs.WasmReadersBytes.Reader.{SameInput, position_in, original, rest};
ghost use Rattle.wasm_operators_plain.specs.Refusals.{RefusedBetween};
ghost use Rattle.wasm_operators_plain.specs.Tables.{table_access_from, table_from};

use crate::opcodes::{unknown_opcode, unknown_prefixed_opcode};
use wasm_readers::BinaryReader;
use wasm_readers::readers_errors::Refusal;

/// Operators on tables (Core Specification 3.0, Binary Format, Instructions, Table Instructions).
#[derive(Clone, Copy, Debug)]
pub enum TableOperator {
    TableGet { table: u32 },
    TableSet { table: u32 },
    TableInit { elem_index: u32, table: u32 },
    ElemDrop { elem_index: u32 },
    TableCopy { dst_table: u32, src_table: u32 },
    TableGrow { table: u32 },
    TableSize { table: u32 },
    TableFill { table: u32 },
}

/// The operator on one element of a table of this opcode, which stood at this offset.
#[inline]
#[tactic(auto, unfolding(crate::specs::Tables::table_access_from))]
pub fn read_table_access(
    reader: &mut BinaryReader,
    opcode: u8,
    offset: u64,
) -> Result<TableOperator, Refusal>
    requires { offset ≤ original reader.old + position_in reader.old }
    ensures same { SameInput reader.old reader.new }
    ensures onward { position_in reader.old ≤ position_in reader.new }
    ensures refusal { IfErr result (RefusedBetween offset reader.old) }
    ensures ok { IfOk result (λ op. table_access_from opcode (rest reader.old)
        ≡ Some (op, rest reader.new)) }
    ensures err { OnErr result (table_access_from opcode (rest reader.old) ≡ None) }
{
    match opcode {
        0x25 => Ok(TableOperator::TableGet {
            table: reader.read_var_u32()?,
        }),
        0x26 => Ok(TableOperator::TableSet {
            table: reader.read_var_u32()?,
        }),
        _ => Err(unknown_opcode(opcode, offset)),
    }
}

/// The operator on a table of this code behind the prefix `0xfc`, which stood at this offset.
#[tactic(auto, unfolding(crate::specs::Tables::table_from))]
pub fn read_table(
    reader: &mut BinaryReader,
    code: u32,
    offset: u64,
) -> Result<TableOperator, Refusal>
    requires { offset ≤ original reader.old + position_in reader.old }
    ensures same { SameInput reader.old reader.new }
    ensures onward { position_in reader.old ≤ position_in reader.new }
    ensures refusal { IfErr result (RefusedBetween offset reader.old) }
    ensures ok { IfOk result (λ op. table_from code (rest reader.old)
        ≡ Some (op, rest reader.new)) }
    ensures err { OnErr result (table_from code (rest reader.old) ≡ None) }
{
    match code {
        12 => Ok(TableOperator::TableInit {
            elem_index: reader.read_var_u32()?,
            table: reader.read_var_u32()?,
        }),
        13 => Ok(TableOperator::ElemDrop {
            elem_index: reader.read_var_u32()?,
        }),
        14 => Ok(TableOperator::TableCopy {
            dst_table: reader.read_var_u32()?,
            src_table: reader.read_var_u32()?,
        }),
        15 => Ok(TableOperator::TableGrow {
            table: reader.read_var_u32()?,
        }),
        16 => Ok(TableOperator::TableSize {
            table: reader.read_var_u32()?,
        }),
        17 => Ok(TableOperator::TableFill {
            table: reader.read_var_u32()?,
        }),
        _ => Err(unknown_prefixed_opcode(0xfc, code, offset)),
    }
}
