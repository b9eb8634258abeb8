//! What an import asks for and what an export names, in a module with these index spaces (Core
//! Specification 3.0, Validation, Modules, Imports and Exports).

ghost use Rattle.std.specs.Prelude.{◌≡◌, slice_get, IfSome};
ghost use Rattle.std.specs.Option.{option_map};
ghost use Rattle.wasm_spec_rules.specs.WasmSpec.Syntax.{func_extern, table_extern, memory_extern, global_extern};
ghost use Rattle.wasm_readers.specs.WasmReadersTypes.SeenExterns.{extern_of};
ghost use Rattle.wasm_readers.specs.Items.{export_of};
ghost use Rattle.wasm_validator_types.specs.Entities.{entity_of, IsAmong};
ghost use Rattle.wasm_validator_types.specs.NamedEntities.{imported_entity, named_entity, named_function, named_tag};

use crate::index_spaces::IndexSpaces;
use std::alloc::Allocator;
use wasm_readers::Export;
use wasm_readers::readers_types::{CoreTypeId, EntityType, ExternalKind, TypeRef};

/// The id of the type with this index, if there is one.
fn type_id_at<A: Allocator + Copy>(spaces: &IndexSpaces<A>, index: u32) -> Option<CoreTypeId>
    ensures value { option_map (λ id. id.index) result ≡ slice_get spaces.now.types index }
    ensures among { IfSome result (λ id. IsAmong spaces.now.types (func_extern id.index)) }
{
    if index < spaces.type_count() {
        Some(spaces.type_at(index))
    } else {
        None
    }
}

/// What an import asks for: nothing where the type of its function or tag isn't there.
pub(crate) fn imported_entity<A: Allocator + Copy>(
    spaces: &IndexSpaces<A>,
    ty: TypeRef,
) -> Option<EntityType>
    ensures value { option_map entity_of result ≡ imported_entity spaces.now (extern_of ty) }
    ensures among { IfSome result (λ e. IsAmong spaces.now.types (entity_of e)) }
{
    match ty {
        TypeRef::Func(index) => Some(EntityType::Func(type_id_at(spaces, index)?)),
        TypeRef::FuncExact(index) => Some(EntityType::FuncExact(type_id_at(spaces, index)?)),
        TypeRef::Table(table) => Some(EntityType::Table(table)),
        TypeRef::Memory(memory) => Some(EntityType::Memory(memory)),
        TypeRef::Global(global) => Some(EntityType::Global(global)),
        TypeRef::Tag(tag) => Some(EntityType::Tag(type_id_at(spaces, tag.func_type_idx)?)),
    }
}

/// The function with this index as an entity, if there is one. `descriptors` says whether custom
/// descriptors are on.
fn named_function<A: Allocator + Copy>(
    spaces: &IndexSpaces<A>,
    descriptors: bool,
    index: u32,
) -> Option<EntityType>
    ensures value { option_map entity_of result ≡ option_map
        (named_function descriptors spaces.now index) (slice_get spaces.now.functions index) }
    ensures among { IfSome result (λ e. IsAmong spaces.now.types (entity_of e)) }
{
    if index >= spaces.function_count() {
        return None;
    }
    let id = spaces.function_type_id(index);
    if descriptors && spaces.is_exact_function(index) {
        Some(EntityType::FuncExact(id))
    } else {
        Some(EntityType::Func(id))
    }
}

/// The type of the table with this index, if there is one.
fn named_table<A: Allocator + Copy>(spaces: &IndexSpaces<A>, index: u32) -> Option<EntityType>
    ensures value { option_map entity_of result
        ≡ option_map table_extern (slice_get spaces.now.tables index) }
    ensures among { IfSome result (λ e. IsAmong spaces.now.types (entity_of e)) }
{
    if index < spaces.table_count() {
        Some(EntityType::Table(spaces.table_at(index)))
    } else {
        None
    }
}

/// The type of the memory with this index, if there is one.
fn named_memory<A: Allocator + Copy>(spaces: &IndexSpaces<A>, index: u32) -> Option<EntityType>
    ensures value { option_map entity_of result
        ≡ option_map memory_extern (slice_get spaces.now.memories index) }
    ensures among { IfSome result (λ e. IsAmong spaces.now.types (entity_of e)) }
{
    if index < spaces.memory_count() {
        Some(EntityType::Memory(spaces.memory_at(index)))
    } else {
        None
    }
}

/// The type of the global with this index, if there is one.
fn named_global<A: Allocator + Copy>(spaces: &IndexSpaces<A>, index: u32) -> Option<EntityType>
    ensures value { option_map entity_of result
        ≡ option_map global_extern (slice_get spaces.now.globals index) }
    ensures among { IfSome result (λ e. IsAmong spaces.now.types (entity_of e)) }
{
    if index < spaces.global_count() {
        Some(EntityType::Global(spaces.global_at(index)))
    } else {
        None
    }
}

/// The tag with this index as an entity, if there is one.
fn named_tag<A: Allocator + Copy>(spaces: &IndexSpaces<A>, index: u32) -> Option<EntityType>
    ensures value { option_map entity_of result
        ≡ option_map (named_tag spaces.now) (slice_get spaces.now.tags index) }
    ensures among { IfSome result (λ e. IsAmong spaces.now.types (entity_of e)) }
{
    if index < spaces.tag_count() {
        Some(EntityType::Tag(spaces.tag_type_id(index)))
    } else {
        None
    }
}

/// What an export names: nothing where it isn't there. `descriptors` says whether custom
/// descriptors are on.
pub(crate) fn named_entity<A: Allocator + Copy>(
    spaces: &IndexSpaces<A>,
    descriptors: bool,
    export: &Export,
) -> Option<EntityType>
    ensures value { option_map entity_of result
        ≡ named_entity descriptors spaces.now (export_of export.now) }
    ensures among { IfSome result (λ e. IsAmong spaces.now.types (entity_of e)) }
{
    match export.kind {
        ExternalKind::Func => named_function(spaces, descriptors, export.index),
        ExternalKind::Table => named_table(spaces, export.index),
        ExternalKind::Memory => named_memory(spaces, export.index),
        ExternalKind::Global => named_global(spaces, export.index),
        ExternalKind::Tag => named_tag(spaces, export.index),
    }
}
