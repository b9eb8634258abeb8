//! Tables, memories, tags, globals and imports.

ghost use Rattle.std.specs.Prelude.{◌≡◌, ◌≤◌, is_ok, IfOk, IfErr};
ghost use Rattle.std.specs.declared.option.Option.TheVariants.{Some};
ghost use Rattle.wasm_validator_resources.specs.WasmSpecRules.FeatureFlags.{features_of};
ghost use Rattle.wasm_readers_types.specs.WasmReadersValues.SeenValues.{ref_of, val_of};
ghost use Rattle.wasm_readers_types.specs.SeenExterns.{table_of, memory_of, global_of, extern_of};
ghost use Rattle.wasm_validator_checks.specs.Answers.{IsRefusalAt, IsPlainRefusalAt};
ghost use Rattle.wasm_validator_checks.specs.ModuleTypes.{AreKnown, module_types};
ghost use Rattle.wasm_validator_checks.specs.Items.{is_funcref, is_allowed_element, is_allowed_content, are_at_most, is_allowed_page, log_of, most_of, is_valid_table, is_valid_defined_table, is_valid_memory, is_valid_tag, is_valid_global, is_movable_global, is_valid_extern};
ghost use Rattle.wasm_readers.specs.WasmReadersErrors.Refusals.{refused};
ghost use Rattle.wasm_validator_checks.specs.ItemRefusals.{told_of_content, told_of_defined_table, told_of_element, told_of_extern, told_of_global, told_of_memory, told_of_movable, told_of_page, told_of_pages, told_of_table, told_of_tag};

use crate::limits::{check_limits, check_sizes};
use crate::module_types::{
    check_ref_index, check_val_index, func_type_at, is_ref_shared, is_val_shared,
};
use std::alloc::Allocator;
use wasm_readers::readers_errors::{
    Fault, ItemRule, Refusal, Rule, WasmFeatures, hold, require, require_if,
};
use wasm_readers_types::{
    AbstractHeapType, CoreTypeId, GlobalType, HeapType, MemoryType, RefType, TableType, TagType,
    TypeRef, ValType,
};
use wasm_validator_resources::{check_ref_type, check_value_type};
use wasm_validator_type_list::TypeList;

/// Whether this is the type of references that may be null to any function.
fn is_funcref(ty: RefType) -> bool
    ensures { result ≡ is_funcref (ref_of ty) }
{
    let is_func = match ty.heap_type() {
        HeapType::Abstract { shared, ty: heap } => {
            !shared && matches!(heap, AbstractHeapType::Func)
        }
        HeapType::Concrete(_) | HeapType::Exact(_) => false,
    };
    ty.is_nullable() && is_func
}

/// Accepts the type of a table's elements.
fn check_element_type(
    features: WasmFeatures,
    count: usize,
    ty: RefType,
    offset: u64,
) -> Result<(), Refusal>
    ensures allowed { is_ok result ≡ is_allowed_element (features_of features) count (ref_of ty) }
    ensures refusal { IfErr result (IsRefusalAt features offset) }
    ensures told { refused result ≡ told_of_element features offset count (ref_of ty) }
{
    if !is_funcref(ty) {
        check_ref_type(features, ty, offset)?;
    }
    check_ref_index(count, ty, offset)
}

/// Accepts the type of what a global holds.
fn check_content_type(
    features: WasmFeatures,
    count: usize,
    ty: ValType,
    offset: u64,
) -> Result<(), Refusal>
    ensures allowed { is_ok result ≡ is_allowed_content (features_of features) count (val_of ty) }
    ensures refusal { IfErr result (IsRefusalAt features offset) }
    ensures told { refused result ≡ told_of_content features offset count (val_of ty) }
{
    check_value_type(features, ty, offset)?;
    check_val_index(count, ty, offset)
}

/// Accepts a table type (Core Specification 3.0, Validation, Types, Table Types), where `ids` are
/// those of the module's types in the list `types`. It is that of an import, or of a table that is
/// defined.
///
/// The list must have a type under each of the ids.
///
/// # Errors
///
/// Refuses, at `offset`, an element type that the features don't allow or that refers to no type of
/// the module, a minimum above the maximum, more entries than 32 or 64 bits count, and 64-bit and
/// shared tables without their proposals, or shared ones of what isn't shared.
pub fn check_table_type<A: Allocator + Copy>(
    features: WasmFeatures,
    types: &TypeList<A>,
    ids: &[CoreTypeId],
    ty: TableType,
    offset: u64,
) -> Result<(), Refusal>
    requires { AreKnown types.now ids.now }
    ensures allowed { is_ok result ≡ is_valid_table (features_of features)
        (module_types types.now ids.now) (table_of ty) }
    ensures refusal { IfErr result (IsRefusalAt features offset) }
    ensures told { refused result ≡ told_of_table features offset
        (module_types types.now ids.now) (table_of ty) }
{
    check_element_type(features, ids.len(), ty.element_type, offset)?;
    check_limits(ty.initial, ty.maximum, offset)?;
    let fault = Fault::Item(ItemRule::Tables64);
    require_if(ty.table64, features, WasmFeatures::MEMORY64, fault, offset)?;
    let fault = Fault::Item(ItemRule::SharedTables);
    require_if(
        ty.shared,
        features,
        WasmFeatures::SHARED_EVERYTHING_THREADS,
        fault,
        offset,
    )?;
    let most = if ty.table64 {
        u64::MAX
    } else {
        u32::MAX as u64
    };
    let fault = Fault::Item(ItemRule::TableSize);
    check_sizes(most, ty.initial, ty.maximum, fault, offset)?;
    let holds = !ty.shared || is_ref_shared(types, ids, ty.element_type);
    hold(holds, Fault::Item(ItemRule::SharedElements), offset)
}

/// Accepts the type of a table that is defined (Core Specification 3.0, Validation, Modules,
/// Tables), with an initializer for its entries or without one, where `ids` are those of the
/// module's types in the list `types`. What the initializer is typed as isn't asked here.
///
/// The list must have a type under each of the ids.
///
/// # Errors
///
/// Refuses, at `offset`, what [`check_table_type`] refuses, entries that may not be null without an
/// initializer, and an initializer without `FUNCTION_REFERENCES`.
pub fn check_defined_table<A: Allocator + Copy>(
    features: WasmFeatures,
    types: &TypeList<A>,
    ids: &[CoreTypeId],
    ty: TableType,
    has_init: bool,
    offset: u64,
) -> Result<(), Refusal>
    requires { AreKnown types.now ids.now }
    ensures allowed { is_ok result ≡ is_valid_defined_table (features_of features)
        (module_types types.now ids.now) (table_of ty) has_init }
    ensures refusal { IfErr result (IsRefusalAt features offset) }
    ensures told { refused result ≡ told_of_defined_table features offset
        (module_types types.now ids.now) (table_of ty) has_init }
{
    check_table_type(features, types, ids, ty, offset)?;
    let has_entries = has_init || ty.element_type.is_nullable();
    let fault = Fault::Item(ItemRule::NonDefaultableElements);
    hold(has_entries, fault, offset)?;
    let fault = Fault::Item(ItemRule::TableInitializers);
    require_if(
        has_init,
        features,
        WasmFeatures::FUNCTION_REFERENCES,
        fault,
        offset,
    )
}

/// Accepts the size of a page, by its logarithm, where one is written, and says which size it is.
fn check_page_size(
    features: WasmFeatures,
    page_size_log2: Option<u32>,
    offset: u64,
) -> Result<u32, Refusal>
    ensures allowed { is_ok result ≡ is_allowed_page (features_of features) page_size_log2 }
    ensures size { IfOk result (λ log. log ≡ log_of page_size_log2) }
    ensures served { IfOk result (λ log. log ≤ 16) }
    ensures refusal { IfErr result (IsRefusalAt features offset) }
    ensures told { refused result ≡ told_of_page features offset page_size_log2 }
{
    let Some(log) = page_size_log2 else {
        return Ok(16);
    };
    let fault = Fault::Item(ItemRule::CustomPageSizes);
    require(features, WasmFeatures::CUSTOM_PAGE_SIZES, fault, offset)?;
    let fault = Fault::Item(ItemRule::PageSize);
    hold(log <= 16, fault, offset)?;
    Ok(log)
}

/// The most pages of a memory whose pages have so many bytes, by their logarithm.
#[tactic(auto, using(std::proofs::lemmas::Nat::one_shl))]
fn max_pages(memory64: bool, log: u32) -> u64
    requires { log ≤ 16 }
    ensures { result ≡ most_of memory64 log }
{
    if !memory64 {
        1 << (32 - log)
    } else if log == 0 {
        u64::MAX
    } else {
        1 << (64 - log)
    }
}

/// Accepts the number of pages of a memory whose pages have so many bytes, by their logarithm.
fn check_pages(ty: MemoryType, log: u32, offset: u64) -> Result<(), Refusal>
    requires { log ≤ 16 }
    ensures allowed { is_ok result ≡ are_at_most (most_of ty.memory64 log) ty.initial ty.maximum }
    ensures refusal { IfErr result (IsPlainRefusalAt offset) }
    ensures told { refused result ≡ told_of_pages offset ty.memory64 log ty.initial ty.maximum }
{
    let pages = max_pages(ty.memory64, log);
    let fault = Fault::MemorySize(pages, 1 << log);
    check_sizes(pages, ty.initial, ty.maximum, fault, offset)
}

/// Accepts a memory type (Core Specification 3.0, Validation, Types, Memory Types): that of an
/// import, or of a memory that is defined.
///
/// # Errors
///
/// Refuses, at `offset`, a minimum above the maximum, 64-bit and shared memories and written page
/// sizes without their proposals, a page of more than 65,536 bytes, more pages than 32 or 64
/// bits address, and a shared memory without a maximum.
pub fn check_memory_type(features: WasmFeatures, ty: MemoryType, offset: u64) -> Result<(), Refusal>
    ensures allowed { is_ok result ≡ is_valid_memory (features_of features) (memory_of ty) }
    ensures refusal { IfErr result (IsRefusalAt features offset) }
    ensures told { refused result ≡ told_of_memory features offset (memory_of ty) }
{
    check_limits(ty.initial, ty.maximum, offset)?;
    let fault = Fault::Item(ItemRule::Memories64);
    require_if(ty.memory64, features, WasmFeatures::MEMORY64, fault, offset)?;
    let fault = Fault::Item(ItemRule::SharedMemories);
    require_if(ty.shared, features, WasmFeatures::THREADS, fault, offset)?;
    let log = check_page_size(features, ty.page_size_log2, offset)?;
    check_pages(ty, log, offset)?;
    let holds = !ty.shared || ty.maximum.is_some();
    hold(holds, Fault::Item(ItemRule::SharedMemoryMaximum), offset)
}

/// Accepts a tag type (Core Specification 3.0, Validation, Types, Tag Types), where `ids` are those
/// of the module's types in the list `types`.
///
/// The list must have a type under each of the ids.
///
/// # Errors
///
/// Refuses, at `offset`, every tag without `EXCEPTIONS`, an index that is out of range or not of a
/// function type, and a function type with results without `STACK_SWITCHING`.
pub fn check_tag_type<A: Allocator + Copy>(
    features: WasmFeatures,
    types: &TypeList<A>,
    ids: &[CoreTypeId],
    ty: TagType,
    offset: u64,
) -> Result<(), Refusal>
    requires { AreKnown types.now ids.now }
    ensures allowed { is_ok result ≡ is_valid_tag (features_of features)
        (module_types types.now ids.now) ty.func_type_idx }
    ensures refusal { IfErr result (IsRefusalAt features offset) }
    ensures told { refused result ≡ told_of_tag features offset
        (module_types types.now ids.now) ty.func_type_idx }
{
    let fault = Fault::Rule(Rule::Exceptions);
    require(features, WasmFeatures::EXCEPTIONS, fault, offset)?;
    let signature = func_type_at(types, ids, ty.func_type_idx, offset)?;
    let has_results = !signature.results().is_empty();
    let fault = Fault::Item(ItemRule::TagResults);
    require_if(
        has_results,
        features,
        WasmFeatures::STACK_SWITCHING,
        fault,
        offset,
    )
}

/// Accepts a global type (Core Specification 3.0, Validation, Types, Global Types), where `ids` are
/// those of the module's types in the list `types`.
///
/// The list must have a type under each of the ids.
///
/// # Errors
///
/// Refuses, at `offset`, a value type that the features don't allow or that refers to no type of
/// the module, and a shared global without its proposal, or of what isn't shared.
pub fn check_global_type<A: Allocator + Copy>(
    features: WasmFeatures,
    types: &TypeList<A>,
    ids: &[CoreTypeId],
    ty: GlobalType,
    offset: u64,
) -> Result<(), Refusal>
    requires { AreKnown types.now ids.now }
    ensures allowed { is_ok result ≡ is_valid_global (features_of features)
        (module_types types.now ids.now) (global_of ty) }
    ensures refusal { IfErr result (IsRefusalAt features offset) }
    ensures told { refused result ≡ told_of_global features offset
        (module_types types.now ids.now) (global_of ty) }
{
    check_content_type(features, ids.len(), ty.content_type, offset)?;
    let fault = Fault::Item(ItemRule::SharedGlobals);
    require_if(
        ty.shared,
        features,
        WasmFeatures::SHARED_EVERYTHING_THREADS,
        fault,
        offset,
    )?;
    let holds = !ty.shared || is_val_shared(types, ids, ty.content_type);
    hold(holds, Fault::Item(ItemRule::SharedContents), offset)
}

/// Accepts a global that a module may import or export.
///
/// # Errors
///
/// Refuses, at `offset`, a mutable global without `MUTABLE_GLOBAL`, which it names.
pub fn check_movable_global(
    features: WasmFeatures,
    ty: GlobalType,
    offset: u64,
) -> Result<(), Refusal>
    ensures allowed { is_ok result ≡ is_movable_global (features_of features) (global_of ty) }
    ensures refusal { IfErr result (IsRefusalAt features offset) }
    ensures told { refused result ≡ told_of_movable features offset (global_of ty) }
{
    let fault = Fault::Item(ItemRule::MutableGlobals);
    require_if(
        ty.mutable,
        features,
        WasmFeatures::MUTABLE_GLOBAL,
        fault,
        offset,
    )
}

/// Accepts what an import asks for (Core Specification 3.0, Validation, Types, External Types),
/// where `ids` are those of the module's types in the list `types`. Whether a mutable global may be
/// imported is for [`check_movable_global`] to say.
///
/// The list must have a type under each of the ids.
///
/// # Errors
///
/// Refuses, at `offset`, what the checks of each kind refuse, and an exactly typed function without
/// `CUSTOM_DESCRIPTORS`.
pub fn check_type_ref<A: Allocator + Copy>(
    features: WasmFeatures,
    types: &TypeList<A>,
    ids: &[CoreTypeId],
    ty: TypeRef,
    offset: u64,
) -> Result<(), Refusal>
    requires { AreKnown types.now ids.now }
    ensures allowed { is_ok result ≡ is_valid_extern (features_of features)
        (module_types types.now ids.now) (extern_of ty) }
    ensures refusal { IfErr result (IsRefusalAt features offset) }
    ensures told { refused result ≡ told_of_extern features offset
        (module_types types.now ids.now) (extern_of ty) }
{
    match ty {
        TypeRef::Func(index) => {
            func_type_at(types, ids, index, offset)?;
            Ok(())
        }
        TypeRef::FuncExact(index) => {
            let fault = Fault::Item(ItemRule::ExactFunctionImports);
            require(features, WasmFeatures::CUSTOM_DESCRIPTORS, fault, offset)?;
            func_type_at(types, ids, index, offset)?;
            Ok(())
        }
        TypeRef::Table(table) => check_table_type(features, types, ids, table, offset),
        TypeRef::Memory(memory) => check_memory_type(features, memory, offset),
        TypeRef::Global(global) => check_global_type(features, types, ids, global, offset),
        TypeRef::Tag(tag) => check_tag_type(features, types, ids, tag, offset),
    }
}
