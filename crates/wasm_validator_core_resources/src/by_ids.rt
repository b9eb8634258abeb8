//! Types written with ids in the place of positions in their groups.

ghost use Rattle.std.specs.Prelude.{◌≡◌, map, IfOk, option_map};
ghost use Rattle.std.specs.List.{All};
ghost use Rattle.wasm_spec.specs.Syntax.{map_ref, map_val, map_field, map_comp, map_sub};
ghost use Rattle.wasm_spec.specs.References.{refs_option, refs_heap, refs_val, refs_field, refs_comp, refs_sub};
ghost use Rattle.wasm_readers_types.specs.WasmReadersValues.SeenValues.{index_of, ref_of, val_of, field_of};
ghost use Rattle.wasm_readers_types.specs.SeenTypes.{func_of, comp_of, sub_of};
ghost use Rattle.wasm_validator_core_resources.specs.ById.{as_id, Reaches};

use std::alloc::{AllocError, Allocator};
use wasm_readers_types::{
    ArrayType, CompositeInnerType, CompositeType, ContType, CoreTypeId, FieldType, FuncType,
    HeapType, Items, PackedIndex, RefType, StorageType, StructType, SubType, UnpackedIndex,
    ValType,
};

/// The id that a reference leads to, in a group whose first id has the number `start`.
fn id(start: u32, index: UnpackedIndex) -> UnpackedIndex
    requires { Reaches start index }
    ensures { result ≡ as_id start index }
{
    let number = match index {
        UnpackedIndex::Module(number) => number,
        UnpackedIndex::RecGroup(position) => start + position,
        UnpackedIndex::Id(id) => id.index() as u32,
    };
    UnpackedIndex::Id(CoreTypeId::from_index(number))
}

/// The same of a packed reference.
fn index_by_id(start: u32, index: PackedIndex) -> PackedIndex
    requires { Reaches start (index_of index) }
    ensures { index_of result ≡ as_id start (index_of index) }
{
    match id(start, index.unpack()).pack() {
        Some(packed) => packed,
        None => unreachable!(),
    }
}

/// The same of a packed reference, where there is one.
fn optional(start: u32, index: Option<PackedIndex>) -> Option<PackedIndex>
    requires { All (Reaches start) (refs_option (option_map index_of index)) }
    ensures { option_map index_of result
        ≡ option_map (as_id start) (option_map index_of index) }
{
    match index {
        Some(index) => Some(index_by_id(start, index)),
        None => None,
    }
}

/// A reference type with its reference as an id.
fn reference(start: u32, ty: RefType) -> RefType
    requires { All (Reaches start) (refs_heap (ref_of ty).heap) }
    ensures { ref_of result ≡ map_ref (as_id start) (ref_of ty) }
{
    let heap = match ty.heap_type() {
        HeapType::Abstract { .. } => return ty,
        HeapType::Concrete(index) => HeapType::Concrete(id(start, index)),
        HeapType::Exact(index) => HeapType::Exact(id(start, index)),
    };
    match RefType::new(ty.is_nullable(), heap) {
        Some(reference) => reference,
        None => unreachable!(),
    }
}

/// A value type with its reference as an id.
fn value(start: u32, ty: ValType) -> ValType
    requires { All (Reaches start) (refs_val (val_of ty)) }
    ensures { val_of result ≡ map_val (as_id start) (val_of ty) }
{
    match ty {
        ValType::Ref(ty) => ValType::Ref(reference(start, ty)),
        other => other,
    }
}

/// A field with its reference as an id.
fn field(start: u32, ty: FieldType) -> FieldType
    requires { All (Reaches start) (refs_field (field_of ty)) }
    ensures { field_of result ≡ map_field (as_id start) (field_of ty) }
{
    match ty.element_type {
        StorageType::Val(inside) => FieldType {
            element_type: StorageType::Val(value(start, inside)),
            mutable: ty.mutable,
        },
        _ => ty,
    }
}

/// Value types with their references as ids.
fn values<A: Allocator + Copy>(
    alloc: A,
    start: u32,
    types: &[ValType],
) -> Result<Vec<ValType, A>, AllocError>
    requires { All (λ v. All (Reaches start) (refs_val (val_of v))) types.now }
    ensures { IfOk result (λ vs. map val_of vs.items
        ≡ map (map_val (as_id start)) (map val_of types.now)) }
{
    let mut copies = Vec::with_capacity(alloc, types.len())?;
    for ty in types {
        copies.push(value(start, *ty))?;
    }
    Ok(copies)
}

/// Fields with their references as ids.
fn fields<A: Allocator + Copy>(
    alloc: A,
    start: u32,
    types: &[FieldType],
) -> Result<Vec<FieldType, A>, AllocError>
    requires { All (λ x. All (Reaches start) (refs_field (field_of x))) types.now }
    ensures { IfOk result (λ xs. map field_of xs.items
        ≡ map (map_field (as_id start)) (map field_of types.now)) }
{
    let mut copies = Vec::with_capacity(alloc, types.len())?;
    for ty in types {
        copies.push(field(start, *ty))?;
    }
    Ok(copies)
}

/// References as ids.
fn supertypes<A: Allocator + Copy>(
    alloc: A,
    start: u32,
    indices: &[PackedIndex],
) -> Result<Items<PackedIndex, A>, AllocError>
    requires { All (λ p. Reaches start (index_of p)) indices.now }
    ensures { IfOk result (λ ps. map index_of ps
        ≡ map (as_id start) (map index_of indices.now)) }
{
    let mut copies = Vec::with_capacity(alloc, indices.len())?;
    for index in indices {
        copies.push(index_by_id(start, *index))?;
    }
    Ok(Items::from_vec(copies))
}

/// A function type with its references as ids.
fn function<A: Allocator + Copy>(
    alloc: A,
    start: u32,
    ty: &FuncType<A>,
) -> Result<FuncType<A>, AllocError>
    requires { All (Reaches start) (refs_comp (func_of ty.now)) }
    ensures { IfOk result (λ f. func_of f ≡ map_comp (as_id start) (func_of ty.now)) }
{
    let params = values(alloc, start, ty.params())?;
    let results = values(alloc, start, ty.results())?;
    Ok(FuncType::new(params, results))
}

/// A composite type with its references as ids.
fn composite<A: Allocator + Copy>(
    alloc: A,
    start: u32,
    ty: &CompositeInnerType<A>,
) -> Result<CompositeInnerType<A>, AllocError>
    requires { All (Reaches start) (refs_comp (comp_of ty.now)) }
    ensures { IfOk result (λ c. comp_of c ≡ map_comp (as_id start) (comp_of ty.now)) }
{
    match ty {
        CompositeInnerType::Func(signature) => {
            Ok(CompositeInnerType::Func(function(alloc, start, signature)?))
        }
        CompositeInnerType::Array(array) => {
            Ok(CompositeInnerType::Array(ArrayType(field(start, array.0))))
        }
        CompositeInnerType::Struct(structure) => {
            let fields = fields(alloc, start, structure.fields.as_slice())?;
            Ok(CompositeInnerType::Struct(StructType {
                fields: Items::from_vec(fields),
            }))
        }
        CompositeInnerType::Cont(continuation) => {
            Ok(CompositeInnerType::Cont(ContType(index_by_id(start, continuation.0))))
        }
    }
}

/// A copy of a sub type with its references as ids, in a group whose first id has the number
/// `start`.
///
/// # Errors
///
/// Fails where memory is refused.
pub(crate) fn sub_type<A: Allocator + Copy>(
    alloc: A,
    start: u32,
    ty: &SubType<A>,
) -> Result<SubType<A>, AllocError>
    requires { All (Reaches start) (refs_sub (sub_of ty.now)) }
    ensures { IfOk result (λ s. sub_of s ≡ map_sub (as_id start) (sub_of ty.now)) }
{
    let composite_type = &ty.composite_type;
    let shared = composite_type.shared;
    let descriptor_idx = optional(start, composite_type.descriptor_idx);
    let describes_idx = optional(start, composite_type.describes_idx);
    let supertype_idxs = supertypes(alloc, start, ty.supertype_idxs.as_slice())?;
    let inner = composite(alloc, start, &composite_type.inner)?;
    Ok(SubType {
        is_final: ty.is_final,
        supertype_idxs,
        composite_type: CompositeType {
            inner,
            shared,
            descriptor_idx,
            describes_idx,
        },
    })
}
