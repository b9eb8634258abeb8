//! What the validator knows of types: the index spaces of a module, and the views of them and of
//! the list of all types that outlive validation.
#![tactic(auto)]

mod id;
mod imports_exports;
pub mod index_spaces;
mod name_keys;
mod named;
mod shown;

pub use id::ValidatorId;
pub use imports_exports::{CoreExports, CoreImports};
pub use index_spaces::IndexSpaces;
pub use shown::{Types, TypesRef};
pub use wasm_readers::readers_types::EntityType;
pub use wasm_validator_type_list::{
    EntityDisplay, RecGroupElements, RecGroupId, SnapshotList, TypeAlloc, TypeList,
};
