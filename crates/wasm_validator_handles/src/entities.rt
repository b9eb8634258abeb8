//! The imports and the exports of a module: their types, written as numbers, and their names.

ghost use Rattle.std.specs.Prelude.{◌≡◌, ◌≤◌, ◌++◌, ◌∷◌, [], if◌then◌else◌, length, IfOk, OnOk};
ghost use Rattle.wasm_validator.specs.WasmValidatorTypes.Entities.{entity_of};
ghost use Rattle.wasm_validator.specs.WasmValidatorTypes.Rows.{all_imports};
ghost use Rattle.wasm_validator.specs.WasmValidatorTypes.ShownModules.{shown_by};
ghost use Rattle.wasm_readers_types.specs.SeenExterns.{global_of, memory_of, table_of};
ghost use Rattle.wasm_validator_handles.specs.Entities.{AreOf, Joins, counted, export_rows, extern_type_of};
ghost use Rattle.wasm_validator_handles.specs.Entities.{by_id, entity_type_of, global_type_of, limit_flags, memory_type_of, plain_of, table_type_of};

use crate::values::{ValueType, no_value, tell_reference, tell_value};
use std::alloc::{AllocError, Global};
use wasm_validator::{CoreTypeId, EntityType, GlobalType, MemoryType, TableType, TypesRef};

/// The kind of a function, in the place of an import's or an export's.
pub const FUNCTION: u32 = 0;
/// The kind of a table.
pub const TABLE: u32 = 1;
/// The kind of a memory.
pub const MEMORY: u32 = 2;
/// The kind of a global.
pub const GLOBAL: u32 = 3;
/// The kind of a tag.
pub const TAG: u32 = 4;
/// The kind of a function that has exactly its type.
pub const EXACT_FUNCTION: u32 = 32;
/// In the place of a type's id, where it is neither a function nor a tag.
pub const NO_ID: u32 = 4_294_967_295;

/// The flag of a table or a memory whose size has a limit.
pub const HAS_MAXIMUM: u32 = 1;
/// The flag of a table or a memory whose addresses have 64 bits.
pub const HAS_64_BITS: u32 = 2;
/// The flag of a table, a memory or a global that is shared between threads.
pub const IS_SHARED: u32 = 4;
/// The flag of a global that can be written.
pub const IS_MUTABLE: u32 = 8;

/// The base-2 logarithm of a page's size in bytes, where a memory's type writes none.
pub const PAGE_SIZE_LOG2: u32 = 16;

/// How many bytes an import or an export takes.
pub const EXTERN_SIZE: u64 = 96;

/// An import or an export: where its names stand in the text of all names, and its type. What its
/// kind doesn't have is 0. C reads it as `struct ruthvelka_extern_type`.
#[repr(C)]
#[derive(Clone, Copy)]
pub struct ExternType {
    pub size: u64,
    pub module_start: u64,
    pub module_length: u64,
    pub name_start: u64,
    pub name_length: u64,
    pub minimum: u64,
    pub maximum: u64,
    pub kind: u32,
    pub type_id: u32,
    pub flags: u32,
    pub page_size_log2: u32,
    pub value: ValueType,
}

/// The same without its type, but for its kind and the id of a function type. C reads it as `struct
/// ruthvelka_extern`.
#[repr(C)]
#[derive(Clone, Copy)]
pub struct Extern {
    pub module_start: u64,
    pub module_length: u64,
    pub name_start: u64,
    pub name_length: u64,
    pub kind: u32,
    pub type_id: u32,
}

impl ExternType {
    /// Without its type, but for its kind and the id of a function type.
    pub fn plain(self) -> Extern
        ensures { result ≡ plain_of self }
    {
        Extern {
            module_start: self.module_start,
            module_length: self.module_length,
            name_start: self.name_start,
            name_length: self.name_length,
            kind: self.kind,
            type_id: self.type_id,
        }
    }
}

/// The imports and the exports of a module, and all their names one after another.
pub struct Externs {
    pub imports: Vec<ExternType>,
    pub exports: Vec<ExternType>,
    pub names: Vec<u8>,
}

impl Drop for Externs {
    fn drop(self) {
        let Externs {
            imports: _,
            exports: _,
            names: _,
        } = self;
    }
}

impl Externs {
    /// Those of no module.
    pub fn new(alloc: Global) -> Externs
        ensures imports { result.imports.items ≡ [] }
        ensures exports { result.exports.items ≡ [] }
        ensures names { result.names.items ≡ [] }
    {
        Externs {
            imports: Vec::new(alloc),
            exports: Vec::new(alloc),
            names: Vec::new(alloc),
        }
    }
}

/// How many imports the module has, as far as 64 bits count.
pub fn count_imports(types: &TypesRef<'_>) -> u64
    ensures { result ≡ counted (length (all_imports (shown_by types.now).spaces.imports)) }
{
    let mut count = 0u64;
    let Some(mut imports) = types.core_imports() else {
        return count;
    };
    'imports: while let Some(_) = imports.next() {
        count = count.saturating_add(1);
    }
    count
}

/// How many exports the module has, as far as 64 bits count.
pub fn count_exports(types: &TypesRef<'_>) -> u64
    ensures { result ≡ counted (length (shown_by types.now).spaces.exports) }
{
    let mut count = 0u64;
    let Some(mut exports) = types.core_exports() else {
        return count;
    };
    'exports: while let Some(_) = exports.next() {
        count = count.saturating_add(1);
    }
    count
}

/// Those of the module that has these types.
pub fn gather_externs(alloc: Global, types: &TypesRef<'_>) -> Result<Externs, AllocError>
    ensures { IfOk result (λ externs. AreOf (shown_by types.now).spaces externs.imports.items
        externs.exports.items externs.names.items) }
{
    let mut externs = Externs::new(alloc);
    fill(&mut externs, types)?;
    Ok(externs)
}

fn fill(externs: &mut Externs, types: &TypesRef<'_>) -> Result<(), AllocError>
    requires imports { externs.old.imports.items ≡ [] }
    requires exports { externs.old.exports.items ≡ [] }
    requires names { externs.old.names.items ≡ [] }
    ensures { OnOk result (AreOf (shown_by types.now).spaces externs.new.imports.items
        externs.new.exports.items externs.new.names.items) }
{
    push_imports(&mut externs.imports, &mut externs.names, types)?;
    push_exports(&mut externs.exports, &mut externs.names, types)
}

fn push_imports(
    externs: &mut Vec<ExternType>,
    names: &mut Vec<u8>,
    types: &TypesRef<'_>,
) -> Result<(), AllocError>
    ensures { OnOk result (Joins (all_imports (shown_by types.now).spaces.imports)
        externs.old.items names.old.items externs.new.items names.new.items) }
{
    let Some(mut imports) = types.core_imports() else {
        return Ok(());
    };
    'imports: while let Some((source, name, entity)) = imports.next() {
        push_extern(externs, names, source, name, entity)?;
    }
    Ok(())
}

fn push_exports(
    externs: &mut Vec<ExternType>,
    names: &mut Vec<u8>,
    types: &TypesRef<'_>,
) -> Result<(), AllocError>
    ensures { OnOk result (Joins (export_rows (shown_by types.now).spaces.exports)
        externs.old.items names.old.items externs.new.items names.new.items) }
{
    let Some(mut exports) = types.core_exports() else {
        return Ok(());
    };
    'exports: while let Some((name, entity)) = exports.next() {
        push_extern(externs, names, "", name, entity)?;
    }
    Ok(())
}

/// One more, whose names come behind the others.
fn push_extern(
    externs: &mut Vec<ExternType>,
    names: &mut Vec<u8>,
    source: &str,
    name: &str,
    entity: EntityType,
) -> Result<(), AllocError>
    ensures externs { OnOk result (externs.new.items ≡ externs.old.items
        ++ extern_type_of names.old.items source.now name.now (entity_of entity) ∷ []) }
    ensures names { OnOk result (names.new.items
        ≡ (names.old.items ++ source.now) ++ name.now) }
{
    let module_start = names.len() as u64;
    names.extend_from_slice(source.as_bytes())?;
    let name_start = names.len() as u64;
    names.extend_from_slice(name.as_bytes())?;
    let told = tell_entity(entity);
    externs.push(ExternType {
        module_start,
        module_length: source.len() as u64,
        name_start,
        name_length: name.len() as u64,
        ..told
    })?;
    Ok(())
}

/// The type of what is imported or exported, with no names.
fn tell_entity(entity: EntityType) -> ExternType
    ensures { result ≡ entity_type_of (entity_of entity) }
{
    match entity {
        EntityType::Func(id) => tell_by_id(FUNCTION, id),
        EntityType::FuncExact(id) => tell_by_id(EXACT_FUNCTION, id),
        EntityType::Table(ty) => tell_table(ty),
        EntityType::Memory(ty) => tell_memory(ty),
        EntityType::Global(ty) => tell_global(ty),
        EntityType::Tag(id) => tell_by_id(TAG, id),
    }
}

fn tell_by_id(kind: u32, id: CoreTypeId) -> ExternType
    ensures { result ≡ by_id kind id.index }
{
    ExternType {
        size: EXTERN_SIZE,
        module_start: 0,
        module_length: 0,
        name_start: 0,
        name_length: 0,
        minimum: 0,
        maximum: 0,
        kind,
        type_id: id.index() as u32,
        flags: 0,
        page_size_log2: 0,
        value: no_value(),
    }
}

fn tell_table(ty: TableType) -> ExternType
    ensures { result ≡ table_type_of (table_of ty) }
{
    ExternType {
        size: EXTERN_SIZE,
        module_start: 0,
        module_length: 0,
        name_start: 0,
        name_length: 0,
        minimum: ty.initial,
        maximum: ty.maximum.unwrap_or(0),
        kind: TABLE,
        type_id: NO_ID,
        flags: limit_flags(ty.maximum.is_some(), ty.table64, ty.shared),
        page_size_log2: 0,
        value: tell_reference(0, ty.element_type),
    }
}

fn tell_memory(ty: MemoryType) -> ExternType
    ensures { result ≡ memory_type_of (memory_of ty) }
{
    ExternType {
        size: EXTERN_SIZE,
        module_start: 0,
        module_length: 0,
        name_start: 0,
        name_length: 0,
        minimum: ty.initial,
        maximum: ty.maximum.unwrap_or(0),
        kind: MEMORY,
        type_id: NO_ID,
        flags: limit_flags(ty.maximum.is_some(), ty.memory64, ty.shared),
        page_size_log2: ty.page_size_log2.unwrap_or(PAGE_SIZE_LOG2),
        value: no_value(),
    }
}

fn tell_global(ty: GlobalType) -> ExternType
    ensures { result ≡ global_type_of (global_of ty) }
{
    ExternType {
        size: EXTERN_SIZE,
        module_start: 0,
        module_length: 0,
        name_start: 0,
        name_length: 0,
        minimum: 0,
        maximum: 0,
        kind: GLOBAL,
        type_id: NO_ID,
        flags: flag(IS_MUTABLE, ty.mutable) + flag(IS_SHARED, ty.shared),
        page_size_log2: 0,
        value: tell_value(0, ty.content_type),
    }
}

fn limit_flags(has_maximum: bool, has_64_bits: bool, is_shared: bool) -> u32
    ensures { result ≡ limit_flags has_maximum has_64_bits is_shared }
{
    flag(HAS_MAXIMUM, has_maximum) + flag(HAS_64_BITS, has_64_bits) + flag(IS_SHARED, is_shared)
}

fn flag(bit: u32, is_set: bool) -> u32
    ensures value { result ≡ (if is_set then bit else 0) }
    ensures most { result ≤ bit }
{
    if is_set { bit } else { 0 }
}
