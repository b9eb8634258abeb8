//! Operators on tables, memories and references, and saturating truncations.

ghost use Rattle.std.specs.Prelude.{◌≡◌, ◌≤◌, Some, IfSome};
ghost use Rattle.wasm_operators.specs.WasmOperatorsPlain.WasmReaders.WasmReadersBytes.Reader.{SameInput, position_in, rest};
ghost use Rattle.wasm_operators.specs.WasmOperatorsPlain.WasmReaders.WrittenIndices.{written};
ghost use Rattle.wasm_operators.specs.Instructions.{bulk_from, memory, plain_from, reference, saturating, table};
ghost use Rattle.wasm_operators.specs.SeenReferences.{reference_of};

use crate::types::next_heap_type;
use wasm_operators::readers::BinaryReader;
use wasm_operators::{BulkMemoryOperator, ReferenceOperator, SaturatingOperator, TableOperator};
use wasm_operators_proposals::operators_plain::saturating_from_code;

/// The operator on memories of this code, if it is one of the standard and what follows it is next.
#[inline(always)]
#[tactic(auto, unfolding(crate::proofs::Cited::bulk_from, crate::proofs::Cited::memory_from))]
pub fn next_on_memories(reader: &mut BinaryReader, code: u32) -> Option<BulkMemoryOperator>
    ensures same { SameInput reader.old reader.new }
    ensures onward { position_in reader.old ≤ position_in reader.new }
    ensures some { IfSome result (λ op. bulk_from written code (rest reader.old)
        ≡ Some (memory op, rest reader.new)) }
{
    match code {
        8 => Some(BulkMemoryOperator::MemoryInit {
            data_index: reader.next_var_u32()?,
            mem: reader.next_var_u32()?,
        }),
        9 => Some(BulkMemoryOperator::DataDrop {
            data_index: reader.next_var_u32()?,
        }),
        10 => Some(BulkMemoryOperator::MemoryCopy {
            dst_mem: reader.next_var_u32()?,
            src_mem: reader.next_var_u32()?,
        }),
        11 => Some(BulkMemoryOperator::MemoryFill {
            mem: reader.next_var_u32()?,
        }),
        _ => None,
    }
}

/// The operator on tables of this code, if it is one and what follows it is next.
#[inline(always)]
#[tactic(auto, unfolding(crate::proofs::Cited::bulk_from, crate::proofs::Cited::table_from))]
pub fn next_on_tables(reader: &mut BinaryReader, code: u32) -> Option<TableOperator>
    ensures same { SameInput reader.old reader.new }
    ensures onward { position_in reader.old ≤ position_in reader.new }
    ensures some { IfSome result (λ op. bulk_from written code (rest reader.old)
        ≡ Some (table op, rest reader.new)) }
{
    match code {
        12 => Some(TableOperator::TableInit {
            elem_index: reader.next_var_u32()?,
            table: reader.next_var_u32()?,
        }),
        13 => Some(TableOperator::ElemDrop {
            elem_index: reader.next_var_u32()?,
        }),
        14 => Some(TableOperator::TableCopy {
            dst_table: reader.next_var_u32()?,
            src_table: reader.next_var_u32()?,
        }),
        15 => Some(TableOperator::TableGrow {
            table: reader.next_var_u32()?,
        }),
        16 => Some(TableOperator::TableSize {
            table: reader.next_var_u32()?,
        }),
        17 => Some(TableOperator::TableFill {
            table: reader.next_var_u32()?,
        }),
        _ => None,
    }
}

/// The saturating truncation of this code, if it is one.
#[inline(always)]
#[tactic(auto, unfolding(crate::proofs::Cited::bulk_from))]
pub fn next_saturating(reader: &mut BinaryReader, code: u32) -> Option<SaturatingOperator>
    ensures same { SameInput reader.old reader.new }
    ensures onward { position_in reader.old ≤ position_in reader.new }
    ensures some { IfSome result (λ op. bulk_from written code (rest reader.old)
        ≡ Some (saturating op, rest reader.new)) }
{
    let _stays = &*reader;
    if code < 8 {
        saturating_from_code(code)
    } else {
        None
    }
}

/// The operator on references of this opcode, if it is one and what follows it is next.
#[inline(always)]
#[tactic(auto, unfolding(crate::proofs::Cited::plain_from, crate::proofs::Cited::reference_from))]
pub fn next_on_references(reader: &mut BinaryReader, opcode: u8) -> Option<ReferenceOperator>
    ensures same { SameInput reader.old reader.new }
    ensures onward { position_in reader.old ≤ position_in reader.new }
    ensures some { IfSome result (λ op. plain_from written opcode (rest reader.old)
        ≡ Some (reference (reference_of op), rest reader.new)) }
{
    match opcode {
        0xd0 => Some(ReferenceOperator::RefNull {
            hty: next_heap_type(reader)?,
        }),
        0xd1 => Some(ReferenceOperator::RefIsNull),
        0xd2 => Some(ReferenceOperator::RefFunc {
            function_index: reader.next_var_u32()?,
        }),
        0xd3 => Some(ReferenceOperator::RefEq),
        0xd4 => Some(ReferenceOperator::RefAsNonNull),
        0xd5 => Some(ReferenceOperator::BrOnNull {
            relative_depth: reader.next_var_u32()?,
        }),
        0xd6 => Some(ReferenceOperator::BrOnNonNull {
            relative_depth: reader.next_var_u32()?,
        }),
        _ => None,
    }
}

/// The operator on one element of a table of this opcode, if it is one and the table's index is next.
#[inline(always)]
#[tactic(auto, unfolding(crate::proofs::Cited::plain_from, crate::proofs::Cited::table_access_from))]
pub fn next_table_access(reader: &mut BinaryReader, opcode: u8) -> Option<TableOperator>
    ensures same { SameInput reader.old reader.new }
    ensures onward { position_in reader.old ≤ position_in reader.new }
    ensures some { IfSome result (λ op. plain_from written opcode (rest reader.old)
        ≡ Some (table op, rest reader.new)) }
{
    match opcode {
        0x25 => Some(TableOperator::TableGet {
            table: reader.next_var_u32()?,
        }),
        0x26 => Some(TableOperator::TableSet {
            table: reader.next_var_u32()?,
        }),
        _ => None,
    }
}

/// `memory.size` or `memory.grow`, if it has this opcode and the memory's index is next.
#[inline(always)]
#[tactic(auto, unfolding(crate::proofs::Cited::plain_from, crate::proofs::Cited::memory_size_from))]
pub fn next_memory_size(reader: &mut BinaryReader, opcode: u8) -> Option<BulkMemoryOperator>
    ensures same { SameInput reader.old reader.new }
    ensures onward { position_in reader.old ≤ position_in reader.new }
    ensures some { IfSome result (λ op. plain_from written opcode (rest reader.old)
        ≡ Some (memory op, rest reader.new)) }
{
    match opcode {
        0x3f => Some(BulkMemoryOperator::MemorySize {
            mem: reader.next_var_u32()?,
        }),
        0x40 => Some(BulkMemoryOperator::MemoryGrow {
            mem: reader.next_var_u32()?,
        }),
        _ => None,
    }
}
