//! What a module imports (Core Specification 3.0, Validation, Modules, Imports).

ghost use Rattle.std.specs.Prelude.{◌≡◌, length, IfErr};
ghost use Rattle.wasm_spec_rules.specs.FeatureFlags.{features_of};
ghost use Rattle.wasm_readers.specs.Items.{import_of};
ghost use Rattle.wasm_readers_types.specs.SeenExterns.{extern_of};
ghost use Rattle.wasm_validator_checks.specs.WasmValidatorTypes.Entities.{entity_of, IsAmong};
ghost use Rattle.wasm_validator_checks.specs.WasmValidatorTypeList.DefTypes.{types_of_list};
ghost use Rattle.wasm_validator_core.specs.Errors.{IsAt};
ghost use Rattle.wasm_validator_core.specs.Answers.{Adds};
ghost use Rattle.wasm_validator_core.specs.Items.{with_imported, with_named, add_importing};
ghost use Rattle.wasm_validator_core.specs.OpenLists.{AreHeld, IsTyped};
ghost use Rattle.wasm_validator_core.specs.AddedItemRefusals.{Tells, told_of_imported, told_of_size, told_of_importing};

use crate::error::Error;
use crate::items::{place_function, place_imported_global, place_memory, place_table, place_tag};
use std::alloc::Allocator;
use wasm_readers::{Fault, Import, Rule, TypeRef, WasmFeatures};
use wasm_validator_checks::validator_types::{EntityType, IndexSpaces, TypeList};
use wasm_validator_checks::{
    check_movable_global, entity_type, known_ids, listed_type_ref, size_with,
};

/// One more item at the end of its index space, which is imported. Its type index is as the list of
/// types has it.
fn place_imported<A: Allocator + Copy>(
    features: WasmFeatures,
    spaces: &mut IndexSpaces<A>,
    ty: TypeRef,
    offset: u64,
) -> Result<(), Error<A>>
    requires { IsTyped (length spaces.old.types) (extern_of ty) }
    ensures added { Adds result (with_imported (features_of features) spaces.old
        (extern_of ty)) spaces.new }
    ensures types { spaces.new.types ≡ spaces.old.types }
    ensures size { spaces.new.size ≡ spaces.old.size }
    ensures place { IfErr result (IsAt offset) }
    ensures told { Tells result (told_of_imported features offset spaces.old (extern_of ty)) }
{
    match ty {
        TypeRef::Func(index) => {
            place_function(spaces, index, offset)?;
            spaces.note_imported_function(false)?;
            Ok(())
        }
        TypeRef::FuncExact(index) => {
            place_function(spaces, index, offset)?;
            spaces.note_imported_function(true)?;
            Ok(())
        }
        TypeRef::Table(table) => place_table(features, spaces, table, offset),
        TypeRef::Memory(memory) => place_memory(features, spaces, memory, offset),
        TypeRef::Global(global) => place_imported_global(spaces, global, offset),
        TypeRef::Tag(tag) => place_tag(spaces, tag.func_type_idx, offset),
    }
}

/// Puts an entity under the names of an import. Its type, if it is a function or a tag, is one of
/// the module's.
fn name_import<A: Allocator + Copy>(
    list: &TypeList<A>,
    spaces: &mut IndexSpaces<A>,
    import: &Import,
    entity: EntityType,
    offset: u64,
) -> Result<(), Error<A>>
    requires { IsAmong spaces.old.types (entity_of entity) }
    ensures added { Adds result (with_named (types_of_list list.now) (import_of import.now)
        (entity_of entity) spaces.old) spaces.new }
    ensures types { spaces.new.types ≡ spaces.old.types }
    ensures place { IfErr result (IsAt offset) }
    ensures told { Tells result (told_of_size offset (types_of_list list.now)
        spaces.old.size (entity_of entity)) }
{
    let Some(size) = size_with(list, spaces.effective_size(), entity) else {
        return Err(Error::new(Fault::Rule(Rule::EffectiveSize), offset));
    };
    spaces.add_import(import.module, import.name, entity)?;
    spaces.set_effective_size(size);
    Ok(())
}

/// Adds one import, whatever its names.
pub(crate) fn add_one_import<A: Allocator + Copy>(
    features: WasmFeatures,
    list: &TypeList<A>,
    spaces: &mut IndexSpaces<A>,
    import: &Import,
    offset: u64,
) -> Result<(), Error<A>>
    requires { AreHeld list.now spaces.old.types }
    ensures added { Adds result (add_importing (features_of features) (types_of_list list.now)
        spaces.old (import_of import.now)) spaces.new }
    ensures types { spaces.new.types ≡ spaces.old.types }
    ensures place { IfErr result (IsAt offset) }
    ensures told { Tells result (told_of_importing features offset (types_of_list list.now) spaces.old
        (import_of import.now)) }
{
    let ty = listed_type_ref(features, list, known_ids(list, spaces), import.ty, offset)?;
    if let TypeRef::Global(global) = import.ty {
        check_movable_global(features, global, offset)?;
    }
    let entity = entity_type(spaces, ty);
    place_imported(features, spaces, ty, offset)?;
    name_import(list, spaces, import, entity, offset)
}
