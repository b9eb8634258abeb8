//! Operators on arrays.

ghost use Rattle.std.specs.Prelude.{◌≡◌, ◌≤◌, ◌+◌, Some, None, IfOk, IfErr, OnErr};
ghost use Rattle.wasm_readers.specs.WasmReadersBytes.Reader.{SameInput, position_in, original, rest};
ghost use Rattle.wasm_operators_plain.specs.Refusals.{RefusedBetween};
ghost use Rattle.wasm_operators_plain.specs.Indices.{array_indices, array_with};
ghost use Rattle.wasm_operators_plain.specs.Arrays.{array_from};

use crate::opcodes::unknown_prefixed_opcode;
use crate::structs::read_indices;
use wasm_readers::BinaryReader;
use wasm_readers::readers_errors::Refusal;

/// Operators on arrays (Core Specification 3.0, Binary Format, Instructions, Aggregate
/// Instructions).
#[derive(Clone, Copy, Debug)]
pub enum ArrayOperator {
    ArrayNew {
        array_type_index: u32,
    },
    ArrayNewDefault {
        array_type_index: u32,
    },
    ArrayNewFixed {
        array_type_index: u32,
        array_size: u32,
    },
    ArrayNewData {
        array_type_index: u32,
        array_data_index: u32,
    },
    ArrayNewElem {
        array_type_index: u32,
        array_elem_index: u32,
    },
    ArrayGet {
        array_type_index: u32,
    },
    ArrayGetS {
        array_type_index: u32,
    },
    ArrayGetU {
        array_type_index: u32,
    },
    ArraySet {
        array_type_index: u32,
    },
    ArrayLen,
    ArrayFill {
        array_type_index: u32,
    },
    ArrayCopy {
        array_type_index_dst: u32,
        array_type_index_src: u32,
    },
    ArrayInitData {
        array_type_index: u32,
        array_data_index: u32,
    },
    ArrayInitElem {
        array_type_index: u32,
        array_elem_index: u32,
    },
}

/// How many indices the operator on arrays of this code has, if there is one.
#[tactic(auto, unfolding(crate::specs::Indices::array_indices))]
fn array_indices(code: u32) -> Option<u8>
    ensures { result ≡ array_indices code }
{
    match code {
        15 => Some(0),
        6 | 7 | 11 | 12 | 13 | 14 | 16 => Some(1),
        8 | 9 | 10 | 17 | 18 | 19 => Some(2),
        _ => None,
    }
}

/// The operator on arrays of this code with these indices, of which it may have fewer.
#[tactic(auto, unfolding(crate::specs::Indices::array_with))]
fn array_with(code: u32, array_type_index: u32, second: u32) -> ArrayOperator
    ensures { result ≡ array_with code array_type_index second }
{
    match code {
        6 => ArrayOperator::ArrayNew { array_type_index },
        7 => ArrayOperator::ArrayNewDefault { array_type_index },
        8 => ArrayOperator::ArrayNewFixed {
            array_type_index,
            array_size: second,
        },
        9 => ArrayOperator::ArrayNewData {
            array_type_index,
            array_data_index: second,
        },
        10 => ArrayOperator::ArrayNewElem {
            array_type_index,
            array_elem_index: second,
        },
        11 => ArrayOperator::ArrayGet { array_type_index },
        12 => ArrayOperator::ArrayGetS { array_type_index },
        13 => ArrayOperator::ArrayGetU { array_type_index },
        14 => ArrayOperator::ArraySet { array_type_index },
        15 => ArrayOperator::ArrayLen,
        16 => ArrayOperator::ArrayFill { array_type_index },
        17 => ArrayOperator::ArrayCopy {
            array_type_index_dst: array_type_index,
            array_type_index_src: second,
        },
        18 => ArrayOperator::ArrayInitData {
            array_type_index,
            array_data_index: second,
        },
        _ => ArrayOperator::ArrayInitElem {
            array_type_index,
            array_elem_index: second,
        },
    }
}

/// The operator on arrays of this code behind the prefix `0xfb`, which stood at this offset.
pub fn read_array(
    reader: &mut BinaryReader,
    code: u32,
    offset: u64,
) -> Result<ArrayOperator, Refusal>
    requires { offset ≤ original reader.old + position_in reader.old }
    ensures same { SameInput reader.old reader.new }
    ensures onward { position_in reader.old ≤ position_in reader.new }
    ensures refusal { IfErr result (RefusedBetween offset reader.old) }
    ensures ok { IfOk result (λ op. array_from code (rest reader.old)
        ≡ Some (op, rest reader.new)) }
    ensures err { OnErr result (array_from code (rest reader.old) ≡ None) }
{
    match array_indices(code) {
        Some(count) => {
            let (first, second) = read_indices(reader, count)?;
            Ok(array_with(code, first, second))
        }
        None => Err(unknown_prefixed_opcode(0xfb, code, offset)),
    }
}
