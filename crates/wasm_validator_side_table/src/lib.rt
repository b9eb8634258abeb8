//! Side tables: where each branch of a body goes, how many operands it keeps and how many it drops,
//! for interpreters that run a body in place. A table is made beside the validation of the body, in
//! one pass.
#![tactic(auto)]

mod body;
mod error;

pub use body::{is_too_large, validate_next_with_side_table, validate_with_side_table};
pub use error::SideTableError;
pub use wasm_validator_side_notes::SideTable;

/// Passed on from `wasm_spec_side_tables`.
pub mod side_tables {
    pub use wasm_validator_side_notes::side_tables::Entry;
}

/// Passed on from `wasm_validator_func`.
pub mod validator_func {
    pub use wasm_validator_side_notes::validator_func::{
        FuncToValidate, FuncValidator, FuncValidatorAllocations, read_operator,
    };
}
