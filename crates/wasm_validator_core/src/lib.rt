//! What each item adds to a module, with the limits; and the errors of validation.
//!
//! Each `offset` counts bytes from the start of the input.
#![tactic(auto)]

pub mod error;
mod exports;
mod imports;
mod items;
mod limits;
mod module;
mod start;

pub use error::Error;
pub use limits::{
    MAX_DATA_SEGMENTS, MAX_ELEMENT_SEGMENTS, MAX_EXPORTS, MAX_FUNCTIONS, MAX_GLOBALS, MAX_IMPORTS,
    MAX_MEMORIES, MAX_TABLES, MAX_TAGS, MAX_TYPES, check_data_count, check_max, max_memories,
    max_tables,
};
pub use module::Module;
pub use wasm_validator_checks::MAX_EFFECTIVE_SIZE;
