//! The rules of tables, memories, tags, globals and imports, over the types of a module; external types
//! with the ids of types in place of type indices, and how much they count in the effective size (Core
//! Specification 3.0, Validation, Types, External Types).
//!
//! Each `offset` counts bytes from the start of the input.
#![tactic(auto)]

pub mod entities;
mod items;
mod laws;
mod limits;
mod module_types;
mod names;
mod signatures;

pub use entities::{
    MAX_EFFECTIVE_SIZE, entity_type, known_ids, listed_table, listed_type_ref, size_with,
};
pub use items::{
    check_defined_table, check_global_type, check_memory_type, check_movable_global,
    check_table_type, check_tag_type, check_type_ref,
};
pub use laws::{functions_are_decided, items_are_decided};
pub use module_types::func_type_at;
pub use names::{MAX_STRING_SIZE, check_name, check_names};
pub use signatures::function_arity;

/// Passed on from `wasm_validator_types`.
pub mod validator_types {
    pub use wasm_validator_types::{
        EntityType, IndexSpaces, SnapshotList, TypeList, Types, ValidatorId,
    };
}

/// Passed on from `wasm_validator_canonical`.
pub mod validator_canonical {
    pub use wasm_validator_canonical::{InternRecGroup, intern_rec_group_of};
}
