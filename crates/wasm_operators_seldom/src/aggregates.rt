//! Operators behind the prefix `0xfb`: on structures and arrays, casts, and conversions of references.

ghost use Rattle.std.specs.Prelude.{◌≡◌, ◌≤◌, Some, IfSome};
ghost use Rattle.wasm_operators.specs.WasmOperatorsPlain.WasmReaders.WasmReadersBytes.Reader.{SameInput, position_in, rest};
ghost use Rattle.wasm_operators.specs.WasmOperatorsPlain.WasmReaders.WrittenIndices.{written};
ghost use Rattle.wasm_operators.specs.Instructions.{aggregate_from, array, cast, conversion, structure};
ghost use Rattle.wasm_operators.specs.SeenReferences.{cast_of};

use crate::types::{next_branch, next_heap_type};
use wasm_operators::readers::BinaryReader;
use wasm_operators::{ArrayOperator, CastOperator, ConversionOperator, StructOperator};
use wasm_operators_proposals::operators_plain::conversion_from_code;

/// The operator on structures of this code, if it is one of the standard and its indices are next.
#[inline(always)]
#[tactic(auto, unfolding(crate::proofs::Cited::aggregate_from, crate::proofs::Cited::struct_from))]
pub fn next_struct(reader: &mut BinaryReader, code: u32) -> Option<StructOperator>
    ensures same { SameInput reader.old reader.new }
    ensures onward { position_in reader.old ≤ position_in reader.new }
    ensures some { IfSome result (λ op. aggregate_from written code (rest reader.old)
        ≡ Some (structure op, rest reader.new)) }
{
    match code {
        0 => Some(StructOperator::StructNew {
            struct_type_index: reader.next_var_u32()?,
        }),
        1 => Some(StructOperator::StructNewDefault {
            struct_type_index: reader.next_var_u32()?,
        }),
        2 => Some(StructOperator::StructGet {
            struct_type_index: reader.next_var_u32()?,
            field_index: reader.next_var_u32()?,
        }),
        3 => Some(StructOperator::StructGetS {
            struct_type_index: reader.next_var_u32()?,
            field_index: reader.next_var_u32()?,
        }),
        4 => Some(StructOperator::StructGetU {
            struct_type_index: reader.next_var_u32()?,
            field_index: reader.next_var_u32()?,
        }),
        5 => Some(StructOperator::StructSet {
            struct_type_index: reader.next_var_u32()?,
            field_index: reader.next_var_u32()?,
        }),
        _ => None,
    }
}

/// The operator on arrays of this code that writes several elements, if it is one and its indices
/// are next.
#[inline(always)]
#[tactic(auto, unfolding(crate::proofs::Cited::aggregate_from, crate::proofs::Cited::array_from))]
fn next_write_of_array(reader: &mut BinaryReader, code: u32) -> Option<ArrayOperator>
    ensures same { SameInput reader.old reader.new }
    ensures onward { position_in reader.old ≤ position_in reader.new }
    ensures some { IfSome result (λ op. aggregate_from written code (rest reader.old)
        ≡ Some (array op, rest reader.new)) }
{
    match code {
        16 => Some(ArrayOperator::ArrayFill {
            array_type_index: reader.next_var_u32()?,
        }),
        17 => Some(ArrayOperator::ArrayCopy {
            array_type_index_dst: reader.next_var_u32()?,
            array_type_index_src: reader.next_var_u32()?,
        }),
        18 => Some(ArrayOperator::ArrayInitData {
            array_type_index: reader.next_var_u32()?,
            array_data_index: reader.next_var_u32()?,
        }),
        19 => Some(ArrayOperator::ArrayInitElem {
            array_type_index: reader.next_var_u32()?,
            array_elem_index: reader.next_var_u32()?,
        }),
        _ => None,
    }
}

/// The operator on arrays of this code that gets or sets an element, gives the length, or writes
/// several elements, if it is one and its indices are next.
#[inline(always)]
#[tactic(auto, unfolding(crate::proofs::Cited::aggregate_from, crate::proofs::Cited::array_from))]
fn next_access_of_array(reader: &mut BinaryReader, code: u32) -> Option<ArrayOperator>
    ensures same { SameInput reader.old reader.new }
    ensures onward { position_in reader.old ≤ position_in reader.new }
    ensures some { IfSome result (λ op. aggregate_from written code (rest reader.old)
        ≡ Some (array op, rest reader.new)) }
{
    match code {
        11 => Some(ArrayOperator::ArrayGet {
            array_type_index: reader.next_var_u32()?,
        }),
        12 => Some(ArrayOperator::ArrayGetS {
            array_type_index: reader.next_var_u32()?,
        }),
        13 => Some(ArrayOperator::ArrayGetU {
            array_type_index: reader.next_var_u32()?,
        }),
        14 => Some(ArrayOperator::ArraySet {
            array_type_index: reader.next_var_u32()?,
        }),
        15 => Some(ArrayOperator::ArrayLen),
        _ => next_write_of_array(reader, code),
    }
}

/// The operator on arrays of this code, if it is one and its indices are next.
#[inline(always)]
#[tactic(auto, unfolding(crate::proofs::Cited::aggregate_from, crate::proofs::Cited::array_from))]
pub fn next_array(reader: &mut BinaryReader, code: u32) -> Option<ArrayOperator>
    ensures same { SameInput reader.old reader.new }
    ensures onward { position_in reader.old ≤ position_in reader.new }
    ensures some { IfSome result (λ op. aggregate_from written code (rest reader.old)
        ≡ Some (array op, rest reader.new)) }
{
    match code {
        6 => Some(ArrayOperator::ArrayNew {
            array_type_index: reader.next_var_u32()?,
        }),
        7 => Some(ArrayOperator::ArrayNewDefault {
            array_type_index: reader.next_var_u32()?,
        }),
        8 => Some(ArrayOperator::ArrayNewFixed {
            array_type_index: reader.next_var_u32()?,
            array_size: reader.next_var_u32()?,
        }),
        9 => Some(ArrayOperator::ArrayNewData {
            array_type_index: reader.next_var_u32()?,
            array_data_index: reader.next_var_u32()?,
        }),
        10 => Some(ArrayOperator::ArrayNewElem {
            array_type_index: reader.next_var_u32()?,
            array_elem_index: reader.next_var_u32()?,
        }),
        _ => next_access_of_array(reader, code),
    }
}

/// The cast of this code, if it is one without a descriptor and what follows it is next.
#[inline(always)]
#[tactic(auto, unfolding(crate::proofs::Cited::aggregate_from, crate::proofs::Cited::cast_from))]
pub fn next_cast(reader: &mut BinaryReader, code: u32) -> Option<CastOperator>
    ensures same { SameInput reader.old reader.new }
    ensures onward { position_in reader.old ≤ position_in reader.new }
    ensures some { IfSome result (λ op. aggregate_from written code (rest reader.old)
        ≡ Some (cast (cast_of op), rest reader.new)) }
{
    match code {
        20 => Some(CastOperator::RefTestNonNull {
            hty: next_heap_type(reader)?,
        }),
        21 => Some(CastOperator::RefTestNullable {
            hty: next_heap_type(reader)?,
        }),
        22 => Some(CastOperator::RefCastNonNull {
            hty: next_heap_type(reader)?,
        }),
        23 => Some(CastOperator::RefCastNullable {
            hty: next_heap_type(reader)?,
        }),
        24 => {
            let (relative_depth, from_ref_type, to_ref_type) = next_branch(reader)?;
            Some(CastOperator::BrOnCast {
                relative_depth,
                from_ref_type,
                to_ref_type,
            })
        }
        25 => {
            let (relative_depth, from_ref_type, to_ref_type) = next_branch(reader)?;
            Some(CastOperator::BrOnCastFail {
                relative_depth,
                from_ref_type,
                to_ref_type,
            })
        }
        _ => None,
    }
}

/// The conversion of this code, if it is one.
#[inline(always)]
#[tactic(auto, unfolding(crate::proofs::Cited::aggregate_from))]
pub fn next_conversion(reader: &mut BinaryReader, code: u32) -> Option<ConversionOperator>
    ensures same { SameInput reader.old reader.new }
    ensures onward { position_in reader.old ≤ position_in reader.new }
    ensures some { IfSome result (λ op. aggregate_from written code (rest reader.old)
        ≡ Some (conversion op, rest reader.new)) }
{
    let _stays = &*reader;
    if 26 <= code && code < 32 {
        conversion_from_code(code)
    } else {
        None
    }
}
