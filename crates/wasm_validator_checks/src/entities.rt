//! What a module imports and exports: external types with the ids of types in place of type
//! indices, and how much they count in the effective size (Core Specification 3.0, Validation,
//! Types, External Types).

ghost use Rattle.std.specs.Prelude.{◌≡◌, ◌+◌, length, IsTrue, is_ok, IfOk, IfErr};
ghost use Rattle.wasm_validator_checks.specs.Answers.{IsRefusalAt};
ghost use Rattle.wasm_spec.specs.Syntax.{map_ref, map_table, map_global, map_extern};
ghost use Rattle.wasm_validator_resources.specs.WasmSpecRules.FeatureFlags.{features_of};
ghost use Rattle.wasm_readers_types.specs.WasmReadersValues.Indices.{Fits};
ghost use Rattle.wasm_readers_types.specs.WasmReadersValues.SeenValues.{ref_of};
ghost use Rattle.wasm_readers_types.specs.SeenExterns.{table_of, global_of, extern_of};
ghost use Rattle.wasm_validator_canonical.specs.Indices.{numbers, canonical_index};
ghost use Rattle.wasm_validator_checks.specs.ModuleTypes.{AreKnown, module_types};
ghost use Rattle.wasm_validator_checks.specs.Items.{is_in_range, is_ref_in_range, is_val_in_range, is_valid_extern};
ghost use Rattle.wasm_validator_types.specs.Entities.{entity_of, IsAmong};
ghost use Rattle.wasm_validator_type_list.specs.DefTypes.{types_of_list};
ghost use Rattle.wasm_validator_checks.specs.ModuleTypeIds.{AreHeld, AreSmall, IsTyped};
ghost use Rattle.wasm_validator_checks.specs.ListedExterns.{entity};
ghost use Rattle.wasm_validator_checks.specs.Sizes.{entity_size, grown};
ghost use Rattle.wasm_readers.specs.WasmReadersErrors.Refusals.{refused};
ghost use Rattle.wasm_validator_checks.specs.ItemRefusals.{told_of_extern};

use crate::check_type_ref;
use crate::signatures::function_arity;
use std::alloc::Allocator;
use wasm_readers::{
    CoreTypeId, GlobalType, HeapType, RefType, Refusal, TableType, TypeRef, UnpackedIndex, ValType,
    WasmFeatures,
};
use wasm_validator_types::{EntityType, IndexSpaces, TypeList};

/// The effective size of a module's type stays below this.
pub const MAX_EFFECTIVE_SIZE: u32 = 1_000_000;

/// The ids of the module's types, which the list has.
pub fn known_ids<'a, A: Allocator + Copy>(
    list: &TypeList<A>,
    spaces: &'a IndexSpaces<A>,
) -> &'a [CoreTypeId]
    requires { AreHeld list.now spaces.now.types }
    ensures ids { numbers result.now ≡ spaces.now.types }
    ensures known { AreKnown list.now result.now }
    ensures small { AreSmall result.now }
    ensures count { length result.now ≡ length spaces.now.types }
{
    // Ids are small.
    list.recall_promises();
    spaces.type_ids()
}

/// The type index as the list has it: the id of the type.
fn listed_index(ids: &[CoreTypeId], index: UnpackedIndex) -> UnpackedIndex
    requires small { AreSmall ids.now }
    requires in_range { IsTrue (is_in_range (length ids.now) index) }
    ensures value { result ≡ canonical_index (numbers ids.now) index }
    ensures fits { Fits result }
{
    match index {
        UnpackedIndex::Module(number) => UnpackedIndex::Id(ids[number as usize]),
        UnpackedIndex::RecGroup(_) | UnpackedIndex::Id(_) => unreachable!(),
    }
}

/// A reference type with its type index as the list has it.
fn listed_ref(ids: &[CoreTypeId], ty: RefType) -> RefType
    requires small { AreSmall ids.now }
    requires in_range { IsTrue (is_ref_in_range (length ids.now) (ref_of ty)) }
    ensures { ref_of result ≡ map_ref (canonical_index (numbers ids.now)) (ref_of ty) }
{
    let heap = match ty.heap_type() {
        HeapType::Abstract { .. } => return ty,
        HeapType::Concrete(index) => HeapType::Concrete(listed_index(ids, index)),
        HeapType::Exact(index) => HeapType::Exact(listed_index(ids, index)),
    };
    match RefType::new(ty.is_nullable(), heap) {
        Some(reference) => reference,
        None => unreachable!(),
    }
}

/// A table type with its type index as the list has it.
pub fn listed_table(ids: &[CoreTypeId], ty: TableType) -> TableType
    requires small { AreSmall ids.now }
    requires in_range { IsTrue (is_ref_in_range (length ids.now) (table_of ty).element) }
    ensures { table_of result ≡ map_table (canonical_index (numbers ids.now)) (table_of ty) }
{
    TableType {
        element_type: listed_ref(ids, ty.element_type),
        ..ty
    }
}

/// A global type with its type index as the list has it.
fn listed_global(ids: &[CoreTypeId], ty: GlobalType) -> GlobalType
    requires small { AreSmall ids.now }
    requires in_range { IsTrue (is_val_in_range (length ids.now) (global_of ty).content) }
    ensures { global_of result ≡ map_global (canonical_index (numbers ids.now)) (global_of ty) }
{
    let content_type = match ty.content_type {
        ValType::Ref(reference) => ValType::Ref(listed_ref(ids, reference)),
        other => other,
    };
    GlobalType { content_type, ..ty }
}

/// Accepts what an import asks for, and gives it with its type index as the list has it. The
/// indices of the types of functions and tags stay. The list must have types under the ids.
///
/// # Errors
///
/// Refused, at `offset`, where the type breaks a rule on the types of these ids.
pub fn listed_type_ref<A: Allocator + Copy>(
    features: WasmFeatures,
    list: &TypeList<A>,
    ids: &[CoreTypeId],
    ty: TypeRef,
    offset: u64,
) -> Result<TypeRef, Refusal>
    requires known { AreKnown list.now ids.now }
    requires small { AreSmall ids.now }
    ensures allowed { is_ok result ≡ is_valid_extern (features_of features)
        (module_types list.now ids.now) (extern_of ty) }
    ensures listed { IfOk result (λ r. extern_of r
        ≡ map_extern (canonical_index (numbers ids.now)) (extern_of ty)) }
    ensures typed { IfOk result (λ r. IsTyped (length ids.now) (extern_of r)) }
    ensures refusal { IfErr result (IsRefusalAt features offset) }
    ensures told { refused result ≡ told_of_extern features offset
        (module_types list.now ids.now) (extern_of ty) }
{
    check_type_ref(features, list, ids, ty, offset)?;
    match ty {
        TypeRef::Table(table) => Ok(TypeRef::Table(listed_table(ids, table))),
        TypeRef::Global(global) => Ok(TypeRef::Global(listed_global(ids, global))),
        TypeRef::Func(_) => Ok(ty),
        TypeRef::FuncExact(_) => Ok(ty),
        TypeRef::Memory(_) => Ok(ty),
        TypeRef::Tag(_) => Ok(ty),
    }
}

/// The entity of an external type whose type index is as the list has it.
pub fn entity_type<A: Allocator + Copy>(spaces: &IndexSpaces<A>, ty: TypeRef) -> EntityType
    requires { IsTyped (length spaces.now.types) (extern_of ty) }
    ensures value { entity_of result ≡ entity spaces.now (extern_of ty) }
    ensures typed { IsAmong spaces.now.types (entity_of result) }
{
    match ty {
        TypeRef::Func(index) => EntityType::Func(spaces.type_at(index)),
        TypeRef::FuncExact(index) => EntityType::FuncExact(spaces.type_at(index)),
        TypeRef::Table(table) => EntityType::Table(table),
        TypeRef::Memory(memory) => EntityType::Memory(memory),
        TypeRef::Global(global) => EntityType::Global(global),
        TypeRef::Tag(tag) => EntityType::Tag(spaces.type_at(tag.func_type_idx)),
    }
}

/// The effective size with so many parameters and results more, and two: none where it would reach
/// the limit.
fn size_with_function(size: u32, arity: (usize, usize)) -> Option<u32>
    ensures { result ≡ grown size (2 + (arity.0 + arity.1)) }
{
    let limit = MAX_EFFECTIVE_SIZE as usize;
    let (params, results) = arity;
    if params >= limit || results >= limit {
        return None;
    }
    let size = size as usize + (2 + (params + results));
    if size < limit {
        Some(size as u32)
    } else {
        None
    }
}

/// The effective size with one more: none where it would reach the limit.
fn size_with_one(size: u32) -> Option<u32>
    ensures { result ≡ grown size 1 }
{
    if size < MAX_EFFECTIVE_SIZE - 1 {
        Some(size + 1)
    } else {
        None
    }
}

/// The effective size with one more import or export: none where it would reach the limit.
pub fn size_with<A: Allocator + Copy>(
    list: &TypeList<A>,
    size: u32,
    entity: EntityType,
) -> Option<u32>
    ensures { result ≡ grown size (entity_size (types_of_list list.now) (entity_of entity)) }
{
    match entity {
        EntityType::Func(id) | EntityType::FuncExact(id) | EntityType::Tag(id) => {
            match function_arity(list, id) {
                Some(arity) => size_with_function(size, arity),
                None => size_with_function(size, (0, 0)),
            }
        }
        EntityType::Table(_) | EntityType::Memory(_) | EntityType::Global(_) => size_with_one(size),
    }
}
