//! Blocks, branches by a table, exceptions, also by the legacy proposal, and choices, and the
//! dispatch of control, parametric and variable operators.
#![tactic(auto)]

mod alternatives;
mod blocks;
mod catches;
mod choices;
mod dispatch;
mod exceptions;
mod legacy;
mod openings;
mod tables;
mod tries;

pub use alternatives::turn_to_else;
pub use blocks::{open_block, open_if, open_loop};
pub use choices::{select, select_of, select_typed};
pub use dispatch::{step_control, step_parametric, step_variable};
pub use exceptions::{throw, throw_ref};
pub use legacy::step_legacy;
pub use tables::branch_by_table;
pub use tries::{MAX_WASM_CATCHES, open_try_table};

// Blocks stand on calls, so who steps through blocks finds these here.
pub use wasm_typing_control::step_call;

/// Passed on from `wasm_typing_stacks`.
pub mod typing_stacks {
    pub use wasm_typing_control::typing_stacks::{
        BlockWord, LocalWord, Locals, MAX_LOCALS, Operand, Stacks, TypeWord, Word,
    };
}

/// Passed on from `wasm_validator_resources`.
pub mod validator_resources {
    pub use wasm_typing_control::validator_resources::WasmModuleResources;
}

/// Passed on from `wasm_typing_checks`.
pub mod typing_checks {
    pub use wasm_typing_control::typing_checks::{OperatorError, OperatorFault, OperatorRule};
}
