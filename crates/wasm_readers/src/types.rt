//! Reading of types.

ghost use Rattle.std.specs.Prelude.{◌≡◌, ◌≤◌, ◌<◌, Option, Some, None, IfOk, OnOk, OnErr, IfErr, true};
ghost use Rattle.std.specs.Option.{option_map};
ghost use Rattle.wasm_readers_bytes.specs.WasmSpec.Syntax.{abstract_heap};
ghost use Rattle.wasm_readers_bytes.specs.WasmSpec.BinaryTypes.{abstract_heap_from, abstract_heap_at, flag_at, heap_at, ref_at, val_at, storage_at, field_at};
ghost use Rattle.wasm_readers_bytes.specs.Reader.{SameInput, position_in, rest, RefusedFrom, place_of_next, byte_fault};
ghost use Rattle.wasm_readers_bytes.specs.WasmReadersErrors.Refusals.{plain};
ghost use Rattle.wasm_readers.specs.WrittenIndices.{written};
ghost use Rattle.wasm_readers.specs.Refusals.{begins_reference, IsToldOfFirst};
ghost use Rattle.wasm_readers_types.specs.WasmReadersValues.SeenValues.{abstract_heap_of, heap_of, HeapFits, ref_of, val_of, storage_of, field_of};

use crate::section_limited::FromReader;
use std::alloc::Allocator;
use wasm_readers_bytes::BinaryReader;
use wasm_readers_bytes::readers_errors::{Error, Fault, Malformed, Refusal};
use wasm_readers_types::{
    AbstractHeapType, FieldType, HeapType, RefType, StorageType, UnpackedIndex, ValType,
};

/// The abstract heap type of this byte, if it is one.
fn abstract_heap_type(byte: u8) -> Option<AbstractHeapType>
    ensures { option_map abstract_heap_of result ≡ abstract_heap_from byte }
{
    match byte {
        0x70 => Some(AbstractHeapType::Func),
        0x6f => Some(AbstractHeapType::Extern),
        0x6e => Some(AbstractHeapType::Any),
        0x6d => Some(AbstractHeapType::Eq),
        0x6c => Some(AbstractHeapType::I31),
        0x6b => Some(AbstractHeapType::Struct),
        0x6a => Some(AbstractHeapType::Array),
        0x69 => Some(AbstractHeapType::Exn),
        0x68 => Some(AbstractHeapType::Cont),
        0x71 => Some(AbstractHeapType::None),
        0x72 => Some(AbstractHeapType::NoExtern),
        0x73 => Some(AbstractHeapType::NoFunc),
        0x74 => Some(AbstractHeapType::NoExn),
        0x75 => Some(AbstractHeapType::NoCont),
        _ => None,
    }
}

/// The nullable reference type to an abstract heap type.
fn abstract_reference(shared: bool, ty: AbstractHeapType) -> RefType
    ensures { ref_of result ≡ record {
      nullable = true;
      heap = abstract_heap shared
          (abstract_heap_of ty);
    } }
{
    match RefType::new(true, HeapType::Abstract { shared, ty }) {
        Some(ty) => ty,
        None => unreachable!(),
    }
}

/// An abstract heap type (Core Specification 3.0, Binary Format, Types, Heap Types).
///
/// # Errors
///
/// Refused where the next byte stands for none, or there is no byte: at its byte offset from the
/// start of the input.
#[tactic(auto, unfolding(crate::proofs::Cited::abstract_heap_at))]
pub fn read_abstract_heap_type(reader: &mut BinaryReader<'_>) -> Result<AbstractHeapType, Refusal>
    ensures same { SameInput reader.old reader.new }
    ensures onward { position_in reader.old ≤ position_in reader.new }
    ensures refusal { IfErr result (RefusedFrom reader.old) }
    ensures ok { IfOk result (λ a. abstract_heap_at (rest reader.old)
        ≡ Some (abstract_heap_of a, rest reader.new)) }
    ensures further { OnOk result (position_in reader.old < position_in reader.new) }
    ensures err { OnErr result (abstract_heap_at (rest reader.old) ≡ None) }
{
    let offset = reader.original_position();
    let byte = reader.read_u8()?;
    match abstract_heap_type(byte) {
        Some(ty) => Ok(ty),
        None => Err(Refusal::new(Fault::Malformed(Malformed::HeapType), offset)),
    }
}

/// A heap type (Core Specification 3.0, Binary Format, Types, Heap Types): abstract, or a type
/// index, and with the proposals also a shared or an exact one.
///
/// # Errors
///
/// Refused where the bytes encode none, at a byte offset from the start of the input.
#[tactic(auto, unfolding(crate::proofs::Cited::heap_at))]
pub fn read_heap_type(reader: &mut BinaryReader<'_>) -> Result<HeapType, Refusal>
    ensures same { SameInput reader.old reader.new }
    ensures onward { position_in reader.old ≤ position_in reader.new }
    ensures refusal { IfErr result (RefusedFrom reader.old) }
    ensures ok { IfOk result (λ h. heap_at written (rest reader.old)
        ≡ Some (heap_of h, rest reader.new)) }
    ensures further { OnOk result (position_in reader.old < position_in reader.new) }
    ensures fits { IfOk result HeapFits }
    ensures err { OnErr result (heap_at written (rest reader.old) ≡ None) }
{
    let start = *reader;
    match reader.read_u8()? {
        0x62 => Ok(HeapType::Exact(UnpackedIndex::Module(reader.read_var_u32()?))),
        0x65 => Ok(HeapType::Abstract {
            shared: true,
            ty: read_abstract_heap_type(reader)?,
        }),
        byte => match abstract_heap_type(byte) {
            Some(ty) => Ok(HeapType::Abstract { shared: false, ty }),
            None => {
                *reader = start;
                Ok(HeapType::Concrete(UnpackedIndex::Module(reader.read_var_s33_index()?)))
            }
        },
    }
}

/// A reference type (Core Specification 3.0, Binary Format, Types, Reference Types).
///
/// # Errors
///
/// Refused where the bytes encode none, at a byte offset from the start of the input.
pub fn read_ref_type(reader: &mut BinaryReader<'_>) -> Result<RefType, Refusal>
    ensures same { SameInput reader.old reader.new }
    ensures onward { position_in reader.old ≤ position_in reader.new }
    ensures refusal { IfErr result (RefusedFrom reader.old) }
    ensures ok { IfOk result (λ x. ref_at written (rest reader.old)
        ≡ Some (ref_of x, rest reader.new)) }
    ensures further { OnOk result (position_in reader.old < position_in reader.new) }
    ensures err { OnErr result (ref_at written (rest reader.old) ≡ None) }
    ensures told { IfErr result (λ r. IsToldOfFirst Malformed.ReferenceType
        (begins_reference (rest reader.old)) reader.old r) }
{
    read_ref_type_or(reader, Malformed::ReferenceType)
}

/// The same, with the fault of a byte that begins none.
#[tactic(auto, unfolding(crate::proofs::Cited::ref_at))]
fn read_ref_type_or(reader: &mut BinaryReader<'_>, malformed: Malformed) -> Result<RefType, Refusal>
    ensures same { SameInput reader.old reader.new }
    ensures onward { position_in reader.old ≤ position_in reader.new }
    ensures refusal { IfErr result (RefusedFrom reader.old) }
    ensures ok { IfOk result (λ x. ref_at written (rest reader.old)
        ≡ Some (ref_of x, rest reader.new)) }
    ensures further { OnOk result (position_in reader.old < position_in reader.new) }
    ensures err { OnErr result (ref_at written (rest reader.old) ≡ None) }
    ensures told { IfErr result (λ r. IsToldOfFirst malformed
        (begins_reference (rest reader.old)) reader.old r) }
{
    let offset = reader.original_position();
    match reader.read_u8()? {
        0x63 => read_reference(reader, true),
        0x64 => read_reference(reader, false),
        0x65 => Ok(abstract_reference(true, read_abstract_heap_type(reader)?)),
        byte => match abstract_heap_type(byte) {
            Some(ty) => Ok(abstract_reference(false, ty)),
            None => Err(Refusal::new(Fault::Malformed(malformed), offset)),
        },
    }
}

/// A reference type's heap type.
fn read_reference(reader: &mut BinaryReader<'_>, nullable: bool) -> Result<RefType, Refusal>
    ensures same { SameInput reader.old reader.new }
    ensures onward { position_in reader.old ≤ position_in reader.new }
    ensures refusal { IfErr result (RefusedFrom reader.old) }
    ensures ok { IfOk result (λ x. heap_at written (rest reader.old)
        ≡ Some ((ref_of x).heap, rest reader.new)) }
    ensures null { IfOk result (λ x. (ref_of x).nullable ≡ nullable) }
    ensures err { OnErr result (heap_at written (rest reader.old) ≡ None) }
{
    let heap_type = read_heap_type(reader)?;
    match RefType::new(nullable, heap_type) {
        Some(ty) => Ok(ty),
        None => unreachable!(),
    }
}

/// A value type (Core Specification 3.0, Binary Format, Types, Value Types).
///
/// # Errors
///
/// Refused where the bytes encode none, at a byte offset from the start of the input.
#[tactic(auto, unfolding(crate::proofs::Cited::val_at))]
pub fn read_val_type(reader: &mut BinaryReader<'_>) -> Result<ValType, Refusal>
    ensures same { SameInput reader.old reader.new }
    ensures onward { position_in reader.old ≤ position_in reader.new }
    ensures refusal { IfErr result (RefusedFrom reader.old) }
    ensures ok { IfOk result (λ x. val_at written (rest reader.old)
        ≡ Some (val_of x, rest reader.new)) }
    ensures further { OnOk result (position_in reader.old < position_in reader.new) }
    ensures err { OnErr result (val_at written (rest reader.old) ≡ None) }
    ensures told { IfErr result (λ r. IsToldOfFirst Malformed.ValueType
        (begins_reference (rest reader.old)) reader.old r) }
{
    let start = *reader;
    match reader.read_u8()? {
        0x7f => Ok(ValType::I32),
        0x7e => Ok(ValType::I64),
        0x7d => Ok(ValType::F32),
        0x7c => Ok(ValType::F64),
        0x7b => Ok(ValType::V128),
        _ => {
            *reader = start;
            Ok(ValType::Ref(read_ref_type_or(reader, Malformed::ValueType)?))
        }
    }
}

/// A storage type (Core Specification 3.0, Binary Format, Types, Composite Types).
///
/// # Errors
///
/// Refused where the bytes encode none, at a byte offset from the start of the input.
#[tactic(auto, unfolding(crate::proofs::Cited::storage_at))]
pub fn read_storage_type(reader: &mut BinaryReader<'_>) -> Result<StorageType, Refusal>
    ensures same { SameInput reader.old reader.new }
    ensures onward { position_in reader.old ≤ position_in reader.new }
    ensures refusal { IfErr result (RefusedFrom reader.old) }
    ensures ok { IfOk result (λ x. storage_at written (rest reader.old)
        ≡ Some (storage_of x, rest reader.new)) }
    ensures further { OnOk result (position_in reader.old < position_in reader.new) }
    ensures err { OnErr result (storage_at written (rest reader.old) ≡ None) }
{
    let start = *reader;
    match reader.read_u8()? {
        0x78 => Ok(StorageType::I8),
        0x77 => Ok(StorageType::I16),
        _ => {
            *reader = start;
            Ok(StorageType::Val(read_val_type(reader)?))
        }
    }
}

/// A field type (Core Specification 3.0, Binary Format, Types, Composite Types).
///
/// # Errors
///
/// Refused where the bytes encode none, at a byte offset from the start of the input.
#[tactic(auto, unfolding(crate::proofs::Cited::field_at))]
pub fn read_field_type(reader: &mut BinaryReader<'_>) -> Result<FieldType, Refusal>
    ensures same { SameInput reader.old reader.new }
    ensures onward { position_in reader.old ≤ position_in reader.new }
    ensures refusal { IfErr result (RefusedFrom reader.old) }
    ensures ok { IfOk result (λ x. field_at written (rest reader.old)
        ≡ Some (field_of x, rest reader.new)) }
    ensures further { OnOk result (position_in reader.old < position_in reader.new) }
    ensures err { OnErr result (field_at written (rest reader.old) ≡ None) }
{
    let element_type = read_storage_type(reader)?;
    let mutable = read_mutability(reader)?;
    Ok(FieldType {
        element_type,
        mutable,
    })
}

/// Whether a field may be set: a byte that is 0 or 1 (Core Specification 3.0, Binary Format, Types,
/// Composite Types).
///
/// # Errors
///
/// Refused where the next byte is another, or there is no byte: at its byte offset from the start
/// of the input.
#[tactic(auto, unfolding(crate::proofs::Cited::flag_at))]
pub fn read_mutability(reader: &mut BinaryReader<'_>) -> Result<bool, Refusal>
    ensures same { SameInput reader.old reader.new }
    ensures onward { position_in reader.old ≤ position_in reader.new }
    ensures refusal { IfErr result (RefusedFrom reader.old) }
    ensures ok { IfOk result (λ f. flag_at (rest reader.old) ≡ Some (f, rest reader.new)) }
    ensures further { OnOk result (position_in reader.old < position_in reader.new) }
    ensures err { OnErr result (flag_at (rest reader.old) ≡ None) }
    ensures told { IfErr result (λ r. r ≡ plain
        (Fault.Malformed (byte_fault Malformed.Mutability (rest reader.old)))
        (place_of_next reader.old)) }
{
    let offset = reader.original_position();
    match reader.read_u8()? {
        0 => Ok(false),
        1 => Ok(true),
        _ => Err(Refusal::new(Fault::Malformed(Malformed::Mutability), offset)),
    }
}

impl<'a, A: Allocator> FromReader<'a, A> for ValType {
    ghost use Rattle.wasm_readers_bytes.specs.WasmSpec.Syntax.{Val};
    ghost use Rattle.wasm_readers_types.specs.WasmReadersValues.declared.indices.UnpackedIndex.{UnpackedIndex};

    ghost Value = { Val UnpackedIndex };

    ghost encoded = { val_at written };

    ghost value = { val_of };

    ghost refuses = { RefusedFrom };

    fn from_reader(_alloc: A, reader: &mut BinaryReader<'a>) -> Result<ValType, Error> {
        Ok(read_val_type(reader)?)
    }
}

impl<'a, A: Allocator> FromReader<'a, A> for FieldType {
    ghost use Rattle.wasm_readers_bytes.specs.WasmSpec.Syntax.{Field};
    ghost use Rattle.wasm_readers_types.specs.WasmReadersValues.declared.indices.UnpackedIndex.{UnpackedIndex};

    ghost Value = { Field UnpackedIndex };

    ghost encoded = { field_at written };

    ghost value = { field_of };

    ghost refuses = { RefusedFrom };

    fn from_reader(_alloc: A, reader: &mut BinaryReader<'a>) -> Result<FieldType, Error> {
        Ok(read_field_type(reader)?)
    }
}
