//! Reading of the items of WebAssembly modules: types, imports, exports, and sections of items.
//!
//! Each `offset` counts bytes from the start of the input.
#![tactic(auto)]

ghost use Rattle.wasm_readers.specs.Tables.{TableHeadsBeginTables};

pub mod defined_types;
pub mod externs;
pub mod imports;
pub mod items;
pub mod lists;
pub mod section_limited;
pub mod types;

pub use imports::{CompactImports, Imports};
pub use items::{Export, Import, TableHead};
pub use lists::read_list;
pub use section_limited::{FromReader, SectionItems, SectionLimited};
pub use wasm_readers_bytes::BinaryReader;
pub use wasm_readers_bytes::readers_errors::{
    Counted, DescriptorRule, Error, Fault, GroupRule, Integer, ItemKind, ItemRule, Malformed,
    OutOfOrder, Refusal, Rule, ValueTypeRule, WasmFeatures,
};
pub use wasm_readers_types::{
    AbstractHeapType, ArrayType, CompositeInnerType, CompositeType, ContType, CoreTypeId,
    ExternalKind, FieldType, FuncType, GlobalType, HeapType, Items, MAX_IDS, MemoryType,
    PackedIndex, RecGroup, RefType, StorageType, StructType, SubType, TableType, TagKind, TagType,
    TypeRef, UnpackedIndex, ValType,
};

/// However expressions are read, a table of the table section is its first part and what is after
/// it: an expression, where it has an initializer (Core Specification 3.0, Binary Format, Modules,
/// Table Section).
pub fn table_heads_begin_tables()
    ensures { TableHeadsBeginTables }
{}

/// Passed on from `wasm_readers_types`.
pub mod readers_types {
    pub use wasm_readers_types::{
        AbstractHeapType, CoreTypeId, EntityType, ExternalKind, GlobalType, HeapType, Items,
        MemoryType, RecGroup, RefType, SubType, TableType, TypeRef, UnpackedIndex, ValType,
    };
}

/// Passed on from `wasm_readers_errors`.
pub mod readers_errors {
    pub use wasm_readers_bytes::readers_errors::{
        Error, Fault, GatedConstant, ItemRule, Malformed, OperatorRule, Refusal, Rule,
        WasmFeatures, hold, require, require_if,
    };
}
