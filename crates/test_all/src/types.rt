//! The types of the sample.

use rows_files::Trouble;
use std::alloc::Global;
use wasm_readers_types::{
    ArrayType, CompositeInnerType, CompositeType, CoreTypeId, FieldType, FuncType, Items,
    PackedIndex, RefType, StorageType, StructType, SubType, ValType,
};

/// A field or an element that can be written.
fn mutable(element_type: StorageType) -> FieldType {
    FieldType {
        element_type,
        mutable: true,
    }
}

/// A field or an element that can't be written.
fn immutable(element_type: StorageType) -> FieldType {
    FieldType {
        element_type,
        mutable: false,
    }
}

/// The index of the type with this index, as types hold it.
fn packed(index: u32) -> Result<PackedIndex, Trouble> {
    match PackedIndex::from_id(CoreTypeId::from_index(index)) {
        Some(index) => Ok(index),
        None => Err(Trouble::Malformed("a type index that is too large")),
    }
}

/// The reference type to the type with this index.
pub fn reference(nullable: bool, index: u32) -> Result<RefType, Trouble> {
    Ok(RefType::concrete(nullable, packed(index)?))
}

/// What is stored where a field holds references of this type.
fn stored(nullable: bool, index: u32) -> Result<StorageType, Trouble> {
    Ok(StorageType::Val(ValType::Ref(reference(nullable, index)?)))
}

fn values(alloc: Global, types: &[ValType]) -> Result<Vec<ValType>, Trouble> {
    let mut list = Vec::new(alloc);
    list.extend_from_slice(types)?;
    Ok(list)
}

/// The final type of functions from these values to those.
fn function(alloc: Global, takes: &[ValType], gives: &[ValType]) -> Result<SubType, Trouble> {
    let signature = FuncType::new(values(alloc, takes)?, values(alloc, gives)?);
    Ok(SubType::func(alloc, signature, false))
}

/// A type that isn't shared and has no descriptor.
fn plain(is_final: bool, supertype_idxs: Items<PackedIndex>, inner: CompositeInnerType) -> SubType {
    SubType {
        is_final,
        supertype_idxs,
        composite_type: CompositeType {
            inner,
            shared: false,
            descriptor_idx: None,
            describes_idx: None,
        },
    }
}

/// The final type of arrays of this element.
fn array(alloc: Global, element: FieldType) -> SubType {
    plain(
        true,
        Items::new(alloc),
        CompositeInnerType::Array(ArrayType(element)),
    )
}

/// The type of structures of these fields.
fn structure(
    alloc: Global,
    is_final: bool,
    supertype_idxs: Items<PackedIndex>,
    fields: &[FieldType],
) -> Result<SubType, Trouble> {
    let mut list = Vec::new(alloc);
    list.extend_from_slice(fields)?;
    let inner = CompositeInnerType::Struct(StructType {
        fields: Items::from_vec(list),
    });
    Ok(plain(is_final, supertype_idxs, inner))
}

/// The first fields of types 3 and 5: an integer that can't be written, one of 64 bits and one of 8
/// that can.
fn common_fields() -> [FieldType; 3] {
    [
        immutable(StorageType::Val(ValType::I32)),
        mutable(StorageType::Val(ValType::I64)),
        mutable(StorageType::I8),
    ]
}

/// Type 3, which may be extended.
fn extended(alloc: Global) -> Result<SubType, Trouble> {
    structure(alloc, false, Items::new(alloc), &common_fields())
}

/// Type 5, which extends type 3 by a reference to arrays of type 4.
fn extending(alloc: Global) -> Result<SubType, Trouble> {
    let mut supertypes = Items::new(alloc);
    supertypes.push(packed(3)?)?;
    let [first, second, third] = common_fields();
    let fields = [first, second, third, mutable(stored(true, 4)?)];
    structure(alloc, true, supertypes, &fields)
}

/// Puts a type behind the others, if it could be made.
fn put(types: &mut Vec<SubType>, ty: Result<SubType, Trouble>) -> Result<(), Trouble> {
    types.push(ty?)?;
    Ok(())
}

/// Puts the type of functions from these values to those behind the others.
fn put_function(
    alloc: Global,
    types: &mut Vec<SubType>,
    takes: &[ValType],
    gives: &[ValType],
) -> Result<(), Trouble> {
    put(types, function(alloc, takes, gives))
}

/// Puts the type of arrays of this element behind the others.
fn put_array(alloc: Global, types: &mut Vec<SubType>, element: FieldType) -> Result<(), Trouble> {
    put(types, Ok(array(alloc, element)))
}

/// The types from 0 to 3.
fn push_first(alloc: Global, types: &mut Vec<SubType>) -> Result<(), Trouble> {
    use ValType::{I32, I64};
    put_function(alloc, types, &[], &[])?;
    put_function(alloc, types, &[I32, I32], &[I32])?;
    put_function(alloc, types, &[I32], &[I64, I64])?;
    put(types, extended(alloc))
}

/// The types from 4 to 7.
fn push_second(alloc: Global, types: &mut Vec<SubType>) -> Result<(), Trouble> {
    put_array(alloc, types, mutable(StorageType::Val(ValType::I32)))?;
    put(types, extending(alloc))?;
    put_array(alloc, types, mutable(StorageType::I8))?;
    put_array(alloc, types, immutable(StorageType::Val(ValType::I64)))
}

/// The types from 8 to 11.
fn push_third(alloc: Global, types: &mut Vec<SubType>) -> Result<(), Trouble> {
    use ValType::{I32, I64};
    put_function(alloc, types, &[I32], &[])?;
    put_function(alloc, types, &[], &[I32])?;
    put_function(alloc, types, &[I64], &[I64])?;
    put_array(alloc, types, mutable(StorageType::Val(ValType::FUNCREF)))
}

/// Type 12, the structures of a reference to one of type 3.
fn of_structures(alloc: Global) -> Result<SubType, Trouble> {
    let field = immutable(stored(false, 3)?);
    structure(alloc, true, Items::new(alloc), &[field])
}

/// The types from 12 to 15.
fn push_others(alloc: Global, types: &mut Vec<SubType>) -> Result<(), Trouble> {
    let exception = ValType::Ref(RefType::EXNREF.as_non_null());
    put(types, of_structures(alloc))?;
    put_array(alloc, types, mutable(stored(false, 3)?))?;
    put_function(alloc, types, &[ValType::I32], &[ValType::I32])?;
    put_function(alloc, types, &[], &[ValType::I32, exception])
}

/// The types of the sample, in the order of their indices.
pub fn sample_types(alloc: Global) -> Result<Vec<SubType>, Trouble> {
    let mut types = Vec::new(alloc);
    push_first(alloc, &mut types)?;
    push_second(alloc, &mut types)?;
    push_third(alloc, &mut types)?;
    push_others(alloc, &mut types)?;
    Ok(types)
}
