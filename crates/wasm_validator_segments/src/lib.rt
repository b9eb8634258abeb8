//! Items that hold constant expressions, read and typed in one pass: globals, data segments and
//! element segments (Core Specification 3.0, Validation, Modules).
//!
//! Each `offset` counts bytes from the start of the input.
#![tactic(auto)]

mod data;
mod elements;
mod expressions;
mod globals;
mod laws;
mod lists;
mod memory;
mod numbers;
mod offsets;
mod plain;

pub use data::check_data;
pub use elements::check_element;
pub use expressions::check_expression_of_type;
pub use globals::check_global_entry;
pub use laws::expressions_are_found;
pub use lists::{check_expression_list, check_function_list};
pub use memory::ExpressionMemory;
pub use offsets::{check_memory_offset, check_table_offset};

/// Passed on from `wasm_validator_references`.
pub mod references {
    pub use wasm_validator_constants::references::ReferencedFunctions;
}
