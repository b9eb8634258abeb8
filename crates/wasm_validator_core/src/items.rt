//! Functions, tables, memories and tags that a module defines (Core Specification 3.0, Validation,
//! Modules), and all items at the ends of their index spaces.

ghost use Rattle.std.specs.Prelude.{◌≡◌, ◌+◌, ◌<◌, ◌^◌, ◌++◌, ◌∷◌, [], length, is_ok, IfOk, IfErr};
ghost use Rattle.std.specs.declared.option.Option.TheVariants.{Some};
ghost use Rattle.wasm_spec_rules.specs.FeatureFlags.{features_of};
ghost use Rattle.wasm_spec.specs.Syntax.{map_table};
ghost use Rattle.wasm_readers_errors.specs.Refusals.{refused};
ghost use Rattle.wasm_readers_types.specs.SeenExterns.{table_of, memory_of, global_of};
ghost use Rattle.wasm_readers_types.specs.WasmReadersValues.SeenValues.{ref_of};
ghost use Rattle.wasm_validator_checks.specs.WasmValidatorCanonical.Indices.{canonical_index};
ghost use Rattle.wasm_validator_checks.specs.Answers.{IsRefusalAt};
ghost use Rattle.wasm_validator_checks.specs.Items.{is_valid_defined_table};
ghost use Rattle.wasm_validator_checks.specs.ItemRefusals.{told_of_defined_table};
ghost use Rattle.wasm_validator_checks.specs.WasmValidatorTypeList.DefTypes.{types_of_list};
ghost use Rattle.wasm_validator_core.specs.Errors.{IsAt, IsMemory};
ghost use Rattle.wasm_validator_core.specs.Answers.{Adds};
ghost use Rattle.wasm_validator_core.specs.Items.{types_of_module, with_function, with_table, with_memory, with_imported_global, with_global, with_tag, add_function, add_table, add_memory, add_tag};
ghost use Rattle.wasm_validator_core.specs.OpenLists.{AreHeld};
ghost use Rattle.wasm_validator_core.specs.AddedItemRefusals.{Tells, told_of_limit, told_of_table_limit, told_of_memory_limit, told_of_added_function, told_of_added_table, told_of_added_memory, told_of_added_tag};

use crate::error::Error;
use crate::limits::{MAX_FUNCTIONS, MAX_GLOBALS, MAX_TAGS, check_max, max_memories, max_tables};
use std::alloc::Allocator;
use wasm_readers::{Counted, GlobalType, MemoryType, Refusal, TableType, TagType, WasmFeatures};
use wasm_readers_types::RefType;
use wasm_validator_checks::validator_types::{IndexSpaces, TypeList};
use wasm_validator_checks::{
    check_defined_table, check_memory_type, check_tag_type, func_type_at, known_ids, listed_table,
};

/// One more function, of the type with this index.
pub(crate) fn place_function<A: Allocator + Copy>(
    spaces: &mut IndexSpaces<A>,
    type_index: u32,
    offset: u64,
) -> Result<(), Error<A>>
    requires { type_index < length spaces.old.types }
    ensures added { Adds result (with_function spaces.old type_index) spaces.new }
    ensures types { spaces.new.types ≡ spaces.old.types }
    ensures size { spaces.new.size ≡ spaces.old.size }
    ensures place { IfErr result (IsAt offset) }
    ensures told { Tells result (told_of_limit offset Counted.Functions
        (length spaces.old.functions) MAX_FUNCTIONS) }
{
    let count = spaces.function_count() as usize;
    check_max(count, 1, MAX_FUNCTIONS, Counted::Functions, offset)?;
    spaces.push_function(type_index)?;
    Ok(())
}

/// One more table, whose type is as the list of types has it.
pub(crate) fn place_table<A: Allocator + Copy>(
    features: WasmFeatures,
    spaces: &mut IndexSpaces<A>,
    ty: TableType,
    offset: u64,
) -> Result<(), Error<A>>
    ensures added { Adds result (with_table (features_of features) spaces.old
        (table_of ty)) spaces.new }
    ensures types { spaces.new.types ≡ spaces.old.types }
    ensures size { spaces.new.size ≡ spaces.old.size }
    ensures place { IfErr result (IsAt offset) }
    ensures told { Tells result (told_of_table_limit features offset spaces.old) }
{
    let count = spaces.table_count() as usize;
    check_max(count, 1, max_tables(features), Counted::Tables, offset)?;
    spaces.push_table(ty)?;
    Ok(())
}

/// One more memory.
pub(crate) fn place_memory<A: Allocator + Copy>(
    features: WasmFeatures,
    spaces: &mut IndexSpaces<A>,
    ty: MemoryType,
    offset: u64,
) -> Result<(), Error<A>>
    ensures added { Adds result (with_memory (features_of features) spaces.old
        (memory_of ty)) spaces.new }
    ensures types { spaces.new.types ≡ spaces.old.types }
    ensures size { spaces.new.size ≡ spaces.old.size }
    ensures place { IfErr result (IsAt offset) }
    ensures told { Tells result (told_of_memory_limit features offset spaces.old) }
{
    let count = spaces.memory_count() as usize;
    check_max(count, 1, max_memories(features), Counted::Memories, offset)?;
    spaces.push_memory(ty)?;
    Ok(())
}

/// One more global that is imported, whose type is as the list of types has it.
pub(crate) fn place_imported_global<A: Allocator + Copy>(
    spaces: &mut IndexSpaces<A>,
    ty: GlobalType,
    offset: u64,
) -> Result<(), Error<A>>
    ensures added { Adds result (with_imported_global spaces.old (global_of ty)) spaces.new }
    ensures types { spaces.new.types ≡ spaces.old.types }
    ensures size { spaces.new.size ≡ spaces.old.size }
    ensures place { IfErr result (IsAt offset) }
    ensures told { Tells result (told_of_limit offset Counted.Globals
        (length spaces.old.globals) MAX_GLOBALS) }
{
    let count = spaces.global_count() as usize;
    check_max(count, 1, MAX_GLOBALS, Counted::Globals, offset)?;
    spaces.push_imported_global(ty)?;
    Ok(())
}

/// One more global that is defined, whose type is as the list of types has it.
pub(crate) fn place_global<A: Allocator + Copy>(
    spaces: &mut IndexSpaces<A>,
    ty: GlobalType,
    offset: u64,
) -> Result<(), Error<A>>
    ensures added { Adds result (with_global spaces.old (global_of ty)) spaces.new }
    ensures types { spaces.new.types ≡ spaces.old.types }
    ensures place { IfErr result (IsAt offset) }
    ensures told { Tells result (told_of_limit offset Counted.Globals
        (length spaces.old.globals) MAX_GLOBALS) }
{
    let count = spaces.global_count() as usize;
    check_max(count, 1, MAX_GLOBALS, Counted::Globals, offset)?;
    spaces.push_global(ty)?;
    Ok(())
}

/// One more tag, of the type with this index.
pub(crate) fn place_tag<A: Allocator + Copy>(
    spaces: &mut IndexSpaces<A>,
    type_index: u32,
    offset: u64,
) -> Result<(), Error<A>>
    requires { type_index < length spaces.old.types }
    ensures added { Adds result (with_tag spaces.old type_index) spaces.new }
    ensures types { spaces.new.types ≡ spaces.old.types }
    ensures size { spaces.new.size ≡ spaces.old.size }
    ensures place { IfErr result (IsAt offset) }
    ensures told { Tells result (told_of_limit offset Counted.Tags
        (length spaces.old.tags) MAX_TAGS) }
{
    let count = spaces.tag_count() as usize;
    check_max(count, 1, MAX_TAGS, Counted::Tags, offset)?;
    spaces.push_tag(type_index)?;
    Ok(())
}

/// One more element segment, whose items are of this type, as the list of types has it.
pub(crate) fn place_element<A: Allocator + Copy>(
    spaces: &mut IndexSpaces<A>,
    ty: RefType,
) -> Result<(), Error<A>>
    requires room { length spaces.old.elements + 1 < 2 ^ 32 }
    ensures added { Adds result (Some (record spaces.old
        { elements = spaces.old.elements ++ ref_of ty ∷ [] })) spaces.new }
    ensures types { spaces.new.types ≡ spaces.old.types }
    ensures memory { IfErr result IsMemory }
{
    spaces.push_element(ty)?;
    Ok(())
}

/// Adds a function that is defined.
pub(crate) fn add_defined_function<A: Allocator + Copy>(
    list: &TypeList<A>,
    spaces: &mut IndexSpaces<A>,
    type_index: u32,
    offset: u64,
) -> Result<(), Error<A>>
    requires { AreHeld list.now spaces.old.types }
    ensures added { Adds result (add_function (types_of_list list.now) spaces.old
        type_index) spaces.new }
    ensures types { spaces.new.types ≡ spaces.old.types }
    ensures place { IfErr result (IsAt offset) }
    ensures told { Tells result (told_of_added_function offset (types_of_list list.now)
        spaces.old type_index) }
{
    func_type_at(list, known_ids(list, spaces), type_index, offset)?;
    place_function(spaces, type_index, offset)
}

/// The type of a table that is defined, as the list of types has it.
pub(crate) fn listed_defined_table<A: Allocator + Copy>(
    features: WasmFeatures,
    list: &TypeList<A>,
    spaces: &IndexSpaces<A>,
    ty: TableType,
    has_init: bool,
    offset: u64,
) -> Result<TableType, Refusal>
    requires { AreHeld list.now spaces.now.types }
    ensures allowed { is_ok result ≡ is_valid_defined_table (features_of features)
        (types_of_module (types_of_list list.now) spaces.now) (table_of ty) has_init }
    ensures listed { IfOk result (λ t. table_of t
        ≡ map_table (canonical_index spaces.now.types) (table_of ty)) }
    ensures refusal { IfErr result (IsRefusalAt features offset) }
    ensures told { refused result ≡ told_of_defined_table features offset
        (types_of_module (types_of_list list.now) spaces.now) (table_of ty) has_init }
{
    let ids = known_ids(list, spaces);
    check_defined_table(features, list, ids, ty, has_init, offset)?;
    Ok(listed_table(ids, ty))
}

/// Adds a table that is defined without an initializer.
pub(crate) fn add_defined_table<A: Allocator + Copy>(
    features: WasmFeatures,
    list: &TypeList<A>,
    spaces: &mut IndexSpaces<A>,
    ty: TableType,
    offset: u64,
) -> Result<(), Error<A>>
    requires { AreHeld list.now spaces.old.types }
    ensures added { Adds result (add_table (features_of features) (types_of_list list.now)
        spaces.old (table_of ty)) spaces.new }
    ensures types { spaces.new.types ≡ spaces.old.types }
    ensures place { IfErr result (IsAt offset) }
    ensures told { Tells result (told_of_added_table features offset (types_of_list list.now)
        spaces.old (table_of ty)) }
{
    let ty = listed_defined_table(features, list, spaces, ty, false, offset)?;
    place_table(features, spaces, ty, offset)
}

/// Adds a memory that is defined.
pub(crate) fn add_defined_memory<A: Allocator + Copy>(
    features: WasmFeatures,
    spaces: &mut IndexSpaces<A>,
    ty: MemoryType,
    offset: u64,
) -> Result<(), Error<A>>
    ensures added { Adds result (add_memory (features_of features) spaces.old
        (memory_of ty)) spaces.new }
    ensures types { spaces.new.types ≡ spaces.old.types }
    ensures place { IfErr result (IsAt offset) }
    ensures told { Tells result (told_of_added_memory features offset spaces.old (memory_of ty)) }
{
    check_memory_type(features, ty, offset)?;
    place_memory(features, spaces, ty, offset)
}

/// Adds a tag that is defined.
pub(crate) fn add_defined_tag<A: Allocator + Copy>(
    features: WasmFeatures,
    list: &TypeList<A>,
    spaces: &mut IndexSpaces<A>,
    ty: TagType,
    offset: u64,
) -> Result<(), Error<A>>
    requires { AreHeld list.now spaces.old.types }
    ensures added { Adds result (add_tag (features_of features) (types_of_list list.now) spaces.old
        ty.func_type_idx) spaces.new }
    ensures types { spaces.new.types ≡ spaces.old.types }
    ensures place { IfErr result (IsAt offset) }
    ensures told { Tells result (told_of_added_tag features offset (types_of_list list.now)
        spaces.old ty.func_type_idx) }
{
    check_tag_type(features, list, known_ids(list, spaces), ty, offset)?;
    place_tag(spaces, ty.func_type_idx, offset)
}
