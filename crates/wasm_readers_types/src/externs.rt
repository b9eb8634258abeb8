//! External types, and the types of what a module defines: tables, memories, globals and tags (Core
//! Specification 3.0, Structure, Types). Limits count elements or pages; a page has 65,536 bytes,
//! unless the memory's type says another power of two.

ghost use Rattle.std.proofs.Common.{rules};

use std::fmt;
use wasm_readers_values::{CoreTypeId, Exact, Faithful, RefType, ValType};

/// A table type (Core Specification 3.0, Structure, Types, Table Types).
#[derive(Clone, Copy, PartialEq, Eq, Hash, Debug)]
pub struct TableType {
    /// What each place of the table holds.
    pub element_type: RefType,
    /// Whether addresses have 64 bits.
    pub table64: bool,
    /// The smallest size, in elements.
    pub initial: u64,
    /// The largest size, in elements, if there is one.
    pub maximum: Option<u64>,
    /// Whether it is shared between threads.
    pub shared: bool,
}

/// A memory type (Core Specification 3.0, Structure, Types, Memory Types).
#[derive(Clone, Copy, PartialEq, Eq, Hash, Debug)]
pub struct MemoryType {
    /// Whether addresses have 64 bits.
    pub memory64: bool,
    /// Whether it is shared between threads.
    pub shared: bool,
    /// The smallest size, in pages.
    pub initial: u64,
    /// The largest size, in pages, if there is one.
    pub maximum: Option<u64>,
    /// The base-2 logarithm of a page's size in bytes, if it is written. It is 16 where it isn't.
    pub page_size_log2: Option<u32>,
}

/// A global type (Core Specification 3.0, Structure, Types, Global Types).
#[derive(Clone, Copy, PartialEq, Eq, Hash, Debug)]
pub struct GlobalType {
    /// What the global holds.
    pub content_type: ValType,
    /// Whether it can be written.
    pub mutable: bool,
    /// Whether it is shared between threads.
    pub shared: bool,
}

/// What a tag is for.
#[derive(Clone, Copy, PartialEq, Eq, Hash, Debug)]
pub enum TagKind {
    /// Exceptions.
    Exception,
}

/// A tag type (Core Specification 3.0, Structure, Types, Tag Types).
#[derive(Clone, Copy, PartialEq, Eq, Hash, Debug)]
pub struct TagType {
    /// What the tag is for.
    pub kind: TagKind,
    /// The type index of its function type.
    pub func_type_idx: u32,
}

/// What an import asks for (Core Specification 3.0, Structure, Types, External Types). Functions
/// and tags name their type by its type index.
#[derive(Clone, Copy, PartialEq, Eq, Hash)]
pub enum TypeRef {
    /// A function of this type or of a subtype.
    Func(u32),
    /// A function of exactly this type.
    FuncExact(u32),
    /// A table.
    Table(TableType),
    /// A memory.
    Memory(MemoryType),
    /// A global.
    Global(GlobalType),
    /// A tag.
    Tag(TagType),
}

/// The type of what a module imports or exports (Core Specification 3.0, Validation, Types,
/// External Types). A reference in the type of a table or a global is the id of a type.
#[derive(Clone, Copy, PartialEq, Eq)]
pub enum EntityType {
    /// A function of the type with this id, or of a subtype.
    Func(CoreTypeId),
    /// A function of exactly the type with this id.
    FuncExact(CoreTypeId),
    /// A table of this type.
    Table(TableType),
    /// A memory of this type.
    Memory(MemoryType),
    /// A global of this type.
    Global(GlobalType),
    /// A tag of the function type with this id.
    Tag(CoreTypeId),
}

/// The kinds of what a module imports and exports (Core Specification 3.0, Binary Format, Modules,
/// Export Section).
#[derive(Clone, Copy, PartialEq, Eq, Hash, Debug)]
pub enum ExternalKind {
    /// A function.
    Func,
    /// A table.
    Table,
    /// A memory.
    Memory,
    /// A global.
    Global,
    /// A tag.
    Tag,
}

/// A variant and its field, as a derived `Debug` writes them.
fn write_variant<T: fmt::Debug, W: fmt::Write>(
    f: &mut fmt::Formatter<W>,
    name: &str,
    field: &T,
) -> fmt::Result {
    f.debug_tuple(name).field(field).finish()
}

// By hand: so each variant takes one call for it, and not three.
impl fmt::Debug for TypeRef {
    fn fmt<W: fmt::Write>(&self, f: &mut fmt::Formatter<W>) -> fmt::Result {
        match self {
            TypeRef::Func(index) => write_variant(f, "Func", index),
            TypeRef::FuncExact(index) => write_variant(f, "FuncExact", index),
            TypeRef::Table(ty) => write_variant(f, "Table", ty),
            TypeRef::Memory(ty) => write_variant(f, "Memory", ty),
            TypeRef::Global(ty) => write_variant(f, "Global", ty),
            TypeRef::Tag(ty) => write_variant(f, "Tag", ty),
        }
    }
}

// By hand, as that of `TypeRef`.
impl fmt::Debug for EntityType {
    fn fmt<W: fmt::Write>(&self, f: &mut fmt::Formatter<W>) -> fmt::Result {
        match self {
            EntityType::Func(id) => write_variant(f, "Func", id),
            EntityType::FuncExact(id) => write_variant(f, "FuncExact", id),
            EntityType::Table(ty) => write_variant(f, "Table", ty),
            EntityType::Memory(ty) => write_variant(f, "Memory", ty),
            EntityType::Global(ty) => write_variant(f, "Global", ty),
            EntityType::Tag(id) => write_variant(f, "Tag", id),
        }
    }
}

impl Exact for TableType {
    ghost use Rattle.wasm_readers_types.specs.ExternsExact.{table-exact};

    ghost exact = { table-exact };
}

impl Exact for MemoryType {
    ghost use Rattle.wasm_readers_types.specs.ExternsExact.{memory-exact};

    ghost exact = { memory-exact };
}

impl Exact for GlobalType {
    ghost use Rattle.wasm_readers_types.specs.ExternsExact.{global-exact};

    ghost exact = { global-exact };
}

impl Exact for TagKind {
    ghost use Rattle.wasm_readers_types.specs.ExternsExact.{tag_kind-exact};

    ghost exact = { tag_kind-exact };
}

impl Exact for TagType {
    ghost use Rattle.wasm_readers_types.specs.ExternsExact.{tag-exact};

    ghost exact = { tag-exact };
}

impl Exact for TypeRef {
    ghost use Rattle.wasm_readers_types.specs.ExternsExact.{extern-exact};

    ghost exact = { extern-exact };
}

impl Exact for ExternalKind {
    ghost use Rattle.wasm_readers_types.specs.ExternsExact.{external_kind-exact};

    ghost exact = { external_kind-exact };
}

impl Faithful for TableType {
    ghost faithful = { Prim.search rules };
}

impl Faithful for MemoryType {
    ghost faithful = { Prim.search rules };
}

impl Faithful for GlobalType {
    ghost faithful = { Prim.search rules };
}

impl Faithful for TagKind {
    ghost faithful = { Prim.search rules };
}

impl Faithful for TagType {
    ghost faithful = { Prim.search rules };
}

impl Faithful for TypeRef {
    ghost faithful = { Prim.search rules };
}

impl Faithful for ExternalKind {
    ghost faithful = { Prim.search rules };
}
