//! Operators on structures.

ghost use Rattle.std.specs.Prelude.{◌≡◌, ◌≤◌, ◌+◌, Some, None, IfOk, IfErr, OnErr};
ghost use Rattle.wasm_readers.specs.WasmReadersBytes.Reader.{SameInput, position_in, original, rest, RefusedFrom};
ghost use Rattle.wasm_operators_plain.specs.Refusals.{RefusedBetween};
ghost use Rattle.wasm_operators_plain.specs.Indices.{indices_at, struct_indices, struct_with};
ghost use Rattle.wasm_operators_plain.specs.Structs.{struct_from};

use crate::opcodes::unknown_prefixed_opcode;
use wasm_readers::BinaryReader;
use wasm_readers::readers_errors::Refusal;

/// Operators on structures (Core Specification 3.0, Binary Format, Instructions, Aggregate
/// Instructions), with those that take a descriptor.
#[derive(Clone, Copy, Debug)]
pub enum StructOperator {
    StructNew {
        struct_type_index: u32,
    },
    StructNewDefault {
        struct_type_index: u32,
    },
    StructGet {
        struct_type_index: u32,
        field_index: u32,
    },
    StructGetS {
        struct_type_index: u32,
        field_index: u32,
    },
    StructGetU {
        struct_type_index: u32,
        field_index: u32,
    },
    StructSet {
        struct_type_index: u32,
        field_index: u32,
    },
    StructNewDesc {
        struct_type_index: u32,
    },
    StructNewDefaultDesc {
        struct_type_index: u32,
    },
}

/// No index, one or two: what isn't there is 0.
#[tactic(auto, unfolding(crate::specs::Indices::indices_at))]
pub(crate) fn read_indices(reader: &mut BinaryReader, count: u8) -> Result<(u32, u32), Refusal>
    ensures same { SameInput reader.old reader.new }
    ensures onward { position_in reader.old ≤ position_in reader.new }
    ensures refusal { IfErr result (RefusedFrom reader.old) }
    ensures ok { IfOk result (λ x. indices_at count (rest reader.old)
        ≡ Some (x, rest reader.new)) }
    ensures err { OnErr result (indices_at count (rest reader.old) ≡ None) }
{
    match count {
        0 => Ok((0, 0)),
        1 => Ok((reader.read_var_u32()?, 0)),
        _ => Ok((reader.read_var_u32()?, reader.read_var_u32()?)),
    }
}

/// How many indices the operator on structures of this code has, if there is one.
#[tactic(auto, unfolding(crate::specs::Indices::struct_indices))]
fn struct_indices(code: u32) -> Option<u8>
    ensures { result ≡ struct_indices code }
{
    match code {
        0 | 1 | 32 | 33 => Some(1),
        2 | 3 | 4 | 5 => Some(2),
        _ => None,
    }
}

/// The operator on structures of this code with these indices, of which it may have fewer.
#[tactic(auto, unfolding(crate::specs::Indices::struct_with))]
fn struct_with(code: u32, struct_type_index: u32, field_index: u32) -> StructOperator
    ensures { result ≡ struct_with code struct_type_index field_index }
{
    match code {
        0 => StructOperator::StructNew { struct_type_index },
        1 => StructOperator::StructNewDefault { struct_type_index },
        2 => StructOperator::StructGet {
            struct_type_index,
            field_index,
        },
        3 => StructOperator::StructGetS {
            struct_type_index,
            field_index,
        },
        4 => StructOperator::StructGetU {
            struct_type_index,
            field_index,
        },
        5 => StructOperator::StructSet {
            struct_type_index,
            field_index,
        },
        32 => StructOperator::StructNewDesc { struct_type_index },
        _ => StructOperator::StructNewDefaultDesc { struct_type_index },
    }
}

/// The operator on structures of this code behind the prefix `0xfb`, which stood at this offset.
pub fn read_struct(
    reader: &mut BinaryReader,
    code: u32,
    offset: u64,
) -> Result<StructOperator, Refusal>
    requires { offset ≤ original reader.old + position_in reader.old }
    ensures same { SameInput reader.old reader.new }
    ensures onward { position_in reader.old ≤ position_in reader.new }
    ensures refusal { IfErr result (RefusedBetween offset reader.old) }
    ensures ok { IfOk result (λ op. struct_from code (rest reader.old)
        ≡ Some (op, rest reader.new)) }
    ensures err { OnErr result (struct_from code (rest reader.old) ≡ None) }
{
    match struct_indices(code) {
        Some(count) => {
            let (first, second) = read_indices(reader, count)?;
            Ok(struct_with(code, first, second))
        }
        None => Err(unknown_prefixed_opcode(0xfb, code, offset)),
    }
}
