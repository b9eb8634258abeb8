//! What is noted of a body for its side table, operator by operator: the table while it is made, its
//! blocks, and its branches.
#![tactic(auto)]

mod blocks;
mod branches;
mod frequent;
mod handlers;
mod labels;
mod notes;
mod seldom;
mod table;

pub use seldom::Taken;
pub use table::SideTable;
pub use wasm_validator_func::operator_validator::Told;

/// Passed on from `wasm_spec_side_tables`.
pub mod side_tables {
    pub use wasm_spec_side_tables::{Entry, narrow_offset};
}

/// Passed on from `wasm_validator_func`.
pub mod validator_func {
    pub use wasm_validator_func::{
        FuncToValidate, FuncValidator, FuncValidatorAllocations, read_operator, read_served,
    };
}
