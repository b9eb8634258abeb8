//! What a module exports (Core Specification 3.0, Validation, Modules, Exports).

ghost use Rattle.std.specs.Prelude.{◌≡◌, OnErr, IfOk, IfErr, IfSome};
ghost use Rattle.std.specs.declared.option.Option.TheVariants.{Some, None};
ghost use Rattle.std.specs.Option.{option_map};
ghost use Rattle.wasm_spec_rules.specs.FeatureFlags.{features_of};
ghost use Rattle.wasm_readers.specs.Items.{export_of};
ghost use Rattle.wasm_validator_checks.specs.Answers.{IsPlainRefusalAt};
ghost use Rattle.wasm_validator_checks.specs.WasmValidatorTypes.Entities.{entity_of, IsAmong};
ghost use Rattle.wasm_validator_checks.specs.WasmValidatorTypeList.DefTypes.{types_of_list};
ghost use Rattle.wasm_validator_core.specs.Errors.{IsAt};
ghost use Rattle.wasm_validator_core.specs.Answers.{Adds};
ghost use Rattle.wasm_validator_core.specs.Items.{exported_function, exported_table, exported_memory, exported_global, exported_tag, exported_entity, with_export, add_exporting};
ghost use Rattle.wasm_validator_core.specs.AddedItemRefusals.{TellsExport, told_of_size, told_of_entity_there, told_of_entity};
ghost use Rattle.wasm_readers_errors.specs.Refusals.{refused};

use crate::error::Error;
use bitflags::Flags;
use std::alloc::Allocator;
use wasm_readers::{Export, ExternalKind, Fault, ItemKind, Refusal, Rule, WasmFeatures};
use wasm_validator_checks::validator_types::{EntityType, IndexSpaces, TypeList};
use wasm_validator_checks::{check_movable_global, size_with};

/// The function with this index as an entity, if there is one.
pub(crate) fn function_entity<A: Allocator + Copy>(
    features: WasmFeatures,
    spaces: &IndexSpaces<A>,
    index: u32,
) -> Option<EntityType>
    ensures value { option_map entity_of result
        ≡ exported_function (features_of features) spaces.now index }
    ensures typed { IfSome result (λ e. IsAmong spaces.now.types (entity_of e)) }
{
    if index >= spaces.function_count() {
        return None;
    }
    let id = spaces.function_type_id(index);
    if features.contains(WasmFeatures::CUSTOM_DESCRIPTORS) && spaces.is_exact_function(index) {
        Some(EntityType::FuncExact(id))
    } else {
        Some(EntityType::Func(id))
    }
}

/// The table with this index as an entity, if there is one.
fn table_entity<A: Allocator + Copy>(spaces: &IndexSpaces<A>, index: u32) -> Option<EntityType>
    ensures value { option_map entity_of result ≡ exported_table spaces.now index }
    ensures typed { IfSome result (λ e. IsAmong spaces.now.types (entity_of e)) }
{
    if index < spaces.table_count() {
        Some(EntityType::Table(spaces.table_at(index)))
    } else {
        None
    }
}

/// The memory with this index as an entity, if there is one.
fn memory_entity<A: Allocator + Copy>(spaces: &IndexSpaces<A>, index: u32) -> Option<EntityType>
    ensures value { option_map entity_of result ≡ exported_memory spaces.now index }
    ensures typed { IfSome result (λ e. IsAmong spaces.now.types (entity_of e)) }
{
    if index < spaces.memory_count() {
        Some(EntityType::Memory(spaces.memory_at(index)))
    } else {
        None
    }
}

/// The global with this index as an entity, if there is one.
fn global_entity<A: Allocator + Copy>(spaces: &IndexSpaces<A>, index: u32) -> Option<EntityType>
    ensures value { option_map entity_of result ≡ exported_global spaces.now index }
    ensures typed { IfSome result (λ e. IsAmong spaces.now.types (entity_of e)) }
{
    if index < spaces.global_count() {
        Some(EntityType::Global(spaces.global_at(index)))
    } else {
        None
    }
}

/// The tag with this index as an entity, if there is one.
fn tag_entity<A: Allocator + Copy>(spaces: &IndexSpaces<A>, index: u32) -> Option<EntityType>
    ensures value { option_map entity_of result ≡ exported_tag spaces.now index }
    ensures typed { IfSome result (λ e. IsAmong spaces.now.types (entity_of e)) }
{
    if index < spaces.tag_count() {
        Some(EntityType::Tag(spaces.tag_type_id(index)))
    } else {
        None
    }
}

/// What an export names.
pub(crate) fn exported<A: Allocator + Copy>(
    features: WasmFeatures,
    spaces: &IndexSpaces<A>,
    export: &Export,
    offset: u64,
) -> Result<EntityType, Refusal>
    ensures ok { IfOk result (λ e. exported_entity (features_of features) spaces.now
        (export_of export.now) ≡ Some (entity_of e)) }
    ensures typed { IfOk result (λ e. IsAmong spaces.now.types (entity_of e)) }
    ensures err { OnErr result (exported_entity (features_of features) spaces.now
        (export_of export.now) ≡ None) }
    ensures place { IfErr result (IsPlainRefusalAt offset) }
    ensures told { refused result ≡ told_of_entity_there offset export.now.kind export.now.index
        (exported_entity (features_of features) spaces.now (export_of export.now)) }
{
    let index = export.index;
    let (kind, entity) = match export.kind {
        ExternalKind::Func => (ItemKind::Function, function_entity(features, spaces, index)),
        ExternalKind::Table => (ItemKind::Table, table_entity(spaces, index)),
        ExternalKind::Memory => (ItemKind::Memory, memory_entity(spaces, index)),
        ExternalKind::Global => (ItemKind::Global, global_entity(spaces, index)),
        ExternalKind::Tag => (ItemKind::Tag, tag_entity(spaces, index)),
    };
    match entity {
        Some(entity) => Ok(entity),
        None => Err(Refusal::new(Fault::UnknownExport(kind, index), offset)),
    }
}

/// Puts an entity under the name of an export. Its type, if it is a function or a tag, is one of
/// the module's.
fn name_export<A: Allocator + Copy>(
    alloc: A,
    list: &TypeList<A>,
    spaces: &mut IndexSpaces<A>,
    name: &str,
    entity: EntityType,
    offset: u64,
) -> Result<(), Error<A>>
    requires { IsAmong spaces.old.types (entity_of entity) }
    ensures added { Adds result (with_export (types_of_list list.now) name.now (entity_of entity)
        spaces.old) spaces.new }
    ensures types { spaces.new.types ≡ spaces.old.types }
    ensures place { IfErr result (IsAt offset) }
    ensures told { TellsExport spaces.old name.now offset result
        (told_of_size offset (types_of_list list.now) spaces.old.size (entity_of entity)) }
{
    let Some(size) = size_with(list, spaces.effective_size(), entity) else {
        return Err(Error::new(Fault::Rule(Rule::EffectiveSize), offset));
    };
    if spaces.has_export(name) {
        let name = String::from_str(alloc, name)?;
        return Err(Error::DuplicateExport { name, offset });
    }
    spaces.add_export(name, entity)?;
    spaces.set_effective_size(size);
    Ok(())
}

/// Adds one export, however long its name is.
pub(crate) fn add_one_export<A: Allocator + Copy>(
    features: WasmFeatures,
    alloc: A,
    list: &TypeList<A>,
    spaces: &mut IndexSpaces<A>,
    export: &Export,
    offset: u64,
) -> Result<(), Error<A>>
    ensures added { Adds result (add_exporting (features_of features) (types_of_list list.now)
        spaces.old (export_of export.now)) spaces.new }
    ensures types { spaces.new.types ≡ spaces.old.types }
    ensures place { IfErr result (IsAt offset) }
    ensures told { TellsExport spaces.old export.now.name.now offset result
        (told_of_entity features offset (types_of_list list.now) spaces.old export.now.kind
        export.now.index (exported_entity (features_of features) spaces.old
        (export_of export.now))) }
{
    let entity = exported(features, spaces, export, offset)?;
    if let EntityType::Global(global) = entity {
        check_movable_global(features, global, offset)?;
    }
    name_export(alloc, list, spaces, export.name, entity, offset)
}
