//! Reading of defined types: composite types, sub types and recursion groups.

ghost use Rattle.std.specs.Prelude.{◌≡◌, ◌≤◌, ◌<◌, OnOk, OnErr, IfOk, Some, None, map, IfErr};
ghost use Rattle.wasm_readers_bytes.specs.WasmSpec.Values.{list_at};
ghost use Rattle.wasm_readers_bytes.specs.WasmSpec.BinaryTypes.{index_at, func_at, comp_at, marked_at, marked_index_at, field_at, final_or_not, sub_at, rec_at};
ghost use Rattle.wasm_readers_bytes.specs.Reader.{SameInput, position_in, rest, RefusedFrom, FailedFrom};
ghost use Rattle.wasm_readers_bytes.specs.WasmReadersErrors.Errors.{Reads};
ghost use Rattle.wasm_readers.specs.WrittenIndices.{written};
ghost use Rattle.wasm_readers_types.specs.SeenTypes.{func_of, comp_of, sub_of, rec_of};
ghost use Rattle.std.specs.Option.{option_map};
ghost use Rattle.wasm_readers_types.specs.WasmReadersValues.SeenValues.{index_of, field_of};

use crate::lists::read_list;
use crate::section_limited::FromReader;
use crate::types::read_field_type;
use std::alloc::Allocator;
use wasm_readers_bytes::BinaryReader;
use wasm_readers_bytes::readers_errors::{Error, Fault, Malformed, Refusal};
use wasm_readers_types::{
    ArrayType, CompositeInnerType, CompositeType, ContType, FieldType, FuncType, Items,
    PackedIndex, RecGroup, StructType, SubType, ValType,
};

/// A type index (Core Specification 3.0, Binary Format, Modules, Indices).
///
/// # Errors
///
/// Refused where the bytes encode none, at a byte offset from the start of the input.
pub fn read_type_index(reader: &mut BinaryReader<'_>) -> Result<PackedIndex, Refusal>
    ensures same { SameInput reader.old reader.new }
    ensures onward { position_in reader.old ≤ position_in reader.new }
    ensures refusal { IfErr result (RefusedFrom reader.old) }
    ensures ok { IfOk result (λ x. index_at written (rest reader.old)
        ≡ Some (index_of x, rest reader.new)) }
    ensures further { OnOk result (position_in reader.old < position_in reader.new) }
    ensures err { OnErr result (index_at written (rest reader.old) ≡ None) }
{
    Ok(PackedIndex::from_module_index(reader.read_var_u32()?))
}

/// Whether the next byte is this mark, which is then read.
fn read_mark(reader: &mut BinaryReader<'_>, mark: u8) -> bool
    ensures same { SameInput reader.old reader.new }
    ensures onward { position_in reader.old ≤ position_in reader.new }
    ensures marked { marked_at mark (rest reader.old) ≡ (result, rest reader.new) }
{
    let start = *reader;
    match reader.read_u8() {
        Ok(byte) => {
            if byte == mark {
                return true;
            }
            *reader = start;
            false
        }
        Err(_) => {
            *reader = start;
            false
        }
    }
}

/// A type index after this mark, where the mark is there.
#[tactic(auto, unfolding(crate::proofs::Cited::marked_index_at))]
fn read_marked_index(
    reader: &mut BinaryReader<'_>,
    mark: u8,
) -> Result<Option<PackedIndex>, Refusal>
    ensures same { SameInput reader.old reader.new }
    ensures onward { position_in reader.old ≤ position_in reader.new }
    ensures refusal { IfErr result (RefusedFrom reader.old) }
    ensures ok { IfOk result (λ x. marked_index_at written mark (rest reader.old)
        ≡ Some (option_map index_of x, rest reader.new)) }
    ensures err { OnErr result (marked_index_at written mark (rest reader.old) ≡ None) }
{
    if read_mark(reader, mark) {
        Ok(Some(read_type_index(reader)?))
    } else {
        Ok(None)
    }
}

impl<'a, A: Allocator> FromReader<'a, A> for PackedIndex {
    ghost use Rattle.wasm_readers_types.specs.WasmReadersValues.declared.indices.UnpackedIndex.{UnpackedIndex};

    ghost Value = { UnpackedIndex };

    ghost encoded = { index_at written };

    ghost value = { index_of };

    ghost refuses = { RefusedFrom };

    fn from_reader(_alloc: A, reader: &mut BinaryReader<'a>) -> Result<PackedIndex, Error> {
        Ok(read_type_index(reader)?)
    }
}

/// A function type, after its byte.
#[tactic(auto, unfolding(crate::proofs::Cited::func_at))]
fn read_func_type<'a, A: Allocator + Copy>(
    alloc: A,
    reader: &mut BinaryReader<'a>,
) -> Result<FuncType<A>, Error>
    ensures same { SameInput reader.old reader.new }
    ensures onward { position_in reader.old ≤ position_in reader.new }
    ensures failure { IfErr result (FailedFrom reader.old) }
    ensures reads { Reads func_of result (func_at written (rest reader.old)) (rest reader.new) }
{
    let params: Vec<ValType, A> = read_list(alloc, reader)?;
    let results: Vec<ValType, A> = read_list(alloc, reader)?;
    Ok(FuncType::new(params, results))
}

/// A structure type, after its byte.
fn read_struct_type<'a, A: Allocator + Copy>(
    alloc: A,
    reader: &mut BinaryReader<'a>,
) -> Result<StructType<A>, Error>
    ensures same { SameInput reader.old reader.new }
    ensures onward { position_in reader.old ≤ position_in reader.new }
    ensures failure { IfErr result (FailedFrom reader.old) }
    ensures reads { Reads (λ s. map field_of s.fields) result
        (list_at (field_at written) (rest reader.old)) (rest reader.new) }
{
    let fields: Vec<FieldType, A> = read_list(alloc, reader)?;
    Ok(StructType {
        fields: Items::from_vec(fields),
    })
}

/// A composite type without the clauses before it.
#[tactic(auto, unfolding(crate::proofs::Cited::comp_at))]
fn read_composite_inner_type<'a, A: Allocator + Copy>(
    alloc: A,
    reader: &mut BinaryReader<'a>,
) -> Result<CompositeInnerType<A>, Error>
    ensures same { SameInput reader.old reader.new }
    ensures onward { position_in reader.old ≤ position_in reader.new }
    ensures failure { IfErr result (FailedFrom reader.old) }
    ensures reads { Reads comp_of result (comp_at written (rest reader.old)) (rest reader.new) }
{
    let offset = reader.original_position();
    match reader.read_u8()? {
        0x60 => Ok(CompositeInnerType::Func(read_func_type(alloc, reader)?)),
        0x5f => Ok(CompositeInnerType::Struct(read_struct_type(alloc, reader)?)),
        0x5e => Ok(CompositeInnerType::Array(ArrayType(read_field_type(reader)?))),
        0x5d => Ok(CompositeInnerType::Cont(ContType(read_type_index(reader)?))),
        _ => Err(Error::Refused(Refusal::new(Fault::Malformed(Malformed::CompositeType), offset))),
    }
}

/// A composite type after its marks, as a sub type of these supertypes.
#[tactic(auto, unfolding(crate::proofs::Cited::final_or_not))]
fn read_final_or_not<'a, A: Allocator + Copy>(
    alloc: A,
    is_final: bool,
    supertypes: Vec<PackedIndex, A>,
    reader: &mut BinaryReader<'a>,
) -> Result<SubType<A>, Error>
    ensures same { SameInput reader.old reader.new }
    ensures onward { position_in reader.old ≤ position_in reader.new }
    ensures failure { IfErr result (FailedFrom reader.old) }
    ensures reads { Reads sub_of result (final_or_not written is_final
        (map index_of supertypes.items) (rest reader.old)) (rest reader.new) }
{
    let shared = read_mark(reader, 0x65);
    let describes_idx = read_marked_index(reader, 0x4c)?;
    let descriptor_idx = read_marked_index(reader, 0x4d)?;
    let inner = read_composite_inner_type(alloc, reader)?;
    Ok(SubType {
        is_final,
        supertype_idxs: Items::from_vec(supertypes),
        composite_type: CompositeType {
            inner,
            shared,
            descriptor_idx,
            describes_idx,
        },
    })
}

impl<'a, A: Allocator + Copy> FromReader<'a, A> for SubType<A> {
    ghost use Rattle.wasm_readers_bytes.specs.WasmSpec.Syntax.{Sub};
    ghost use Rattle.wasm_readers_types.specs.WasmReadersValues.declared.indices.UnpackedIndex.{UnpackedIndex};

    ghost Value = { Sub UnpackedIndex };

    ghost encoded = { sub_at written };

    ghost value = { sub_of };

    ghost refuses = { RefusedFrom };

    #[tactic(auto, unfolding(crate::proofs::Cited::sub_at))]
    fn from_reader(alloc: A, reader: &mut BinaryReader<'a>) -> Result<SubType<A>, Error> {
        let start = *reader;
        match reader.read_u8()? {
            0x50 => {
                let supertypes: Vec<PackedIndex, A> = read_list(alloc, reader)?;
                read_final_or_not(alloc, false, supertypes, reader)
            }
            0x4f => {
                let supertypes: Vec<PackedIndex, A> = read_list(alloc, reader)?;
                read_final_or_not(alloc, true, supertypes, reader)
            }
            _ => {
                *reader = start;
                read_final_or_not(alloc, true, Vec::new(alloc), reader)
            }
        }
    }
}

impl<'a, A: Allocator + Copy> FromReader<'a, A> for RecGroup<A> {
    ghost use Rattle.wasm_readers_bytes.specs.WasmSpec.Syntax.{Rec};
    ghost use Rattle.wasm_readers_types.specs.WasmReadersValues.declared.indices.UnpackedIndex.{UnpackedIndex};

    ghost Value = { Rec UnpackedIndex };

    ghost encoded = { rec_at written };

    ghost value = { rec_of };

    ghost refuses = { RefusedFrom };

    #[tactic(auto, unfolding(crate::proofs::Cited::rec_at))]
    fn from_reader(alloc: A, reader: &mut BinaryReader<'a>) -> Result<RecGroup<A>, Error> {
        let start = *reader;
        if reader.read_u8()? == 0x4e {
            let types: Vec<SubType<A>, A> = read_list(alloc, reader)?;
            return Ok(RecGroup::explicit(types));
        }
        *reader = start;
        let ty = SubType::from_reader(alloc, reader)?;
        Ok(RecGroup::implicit(alloc, ty)?)
    }
}
