//! Types of WebAssembly and the indices that name them, as plain data.
#![tactic(auto)]

mod externs;
mod items;
mod kinds;
mod links;
mod text;
mod types;

pub use externs::{
    EntityType, ExternalKind, GlobalType, MemoryType, TableType, TagKind, TagType, TypeRef,
};
pub use items::Items;
pub use links::limits_match;
pub use text::write_signature;
pub use types::{
    ArrayType, CompositeInnerType, CompositeType, ContType, FuncType, RecGroup, StructType,
    SubType, same_group, same_sub,
};
pub use wasm_readers_values::{
    AbstractHeapType, CoreTypeId, Exact, Faithful, FieldType, HeapType, MAX_IDS, PackedIndex,
    RefType, StorageType, UnpackedIndex, ValType, copied, same, same_flag, same_val,
};
