//! What operators look up of a module, and value types and composite types by the proposals that a
//! module may use.
//!
//! Each `offset` counts bytes from the start of the input.
#![tactic(auto)]

mod composite_types;
mod declared;
mod forwarded;
mod matching;
mod resources;
mod value_types;

pub use composite_types::{
    MAX_WASM_FUNCTION_PARAMS, MAX_WASM_FUNCTION_RETURNS, MAX_WASM_STRUCT_FIELDS,
    check_composite_type,
};
pub use declared::{is_above_bottom, is_shared, matches_kind, same_index};
pub use matching::{DeclaredTypes, val_matches};
pub use resources::WasmModuleResources;
pub use value_types::{check_ref_type, check_value_type};

/// Passed on from `wasm_readers_types`.
pub mod readers_types {
    pub use wasm_readers_types::{
        AbstractHeapType, HeapType, PackedIndex, RefType, StorageType, UnpackedIndex, ValType,
    };
}

/// Passed on from `wasm_readers_errors`.
pub mod readers_errors {
    pub use wasm_readers_errors::{
        DescriptorRule, Error, Fault, GroupRule, OperatorRule, Refusal, Rule, WasmFeatures, hold,
        require, require_if,
    };
}
