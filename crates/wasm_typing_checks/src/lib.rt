//! What operators check of their operands, the steps of those that take some and give others, and what
//! operators on structures and arrays look up.
#![tactic(auto)]

mod faults;
mod fields;
mod known;
mod known_lists;
mod lists;
mod looks;
mod matching;
mod named;
mod reach;
mod steps;
mod types;

pub use faults::{OperatorError, OperatorFault};
pub use fields::{has_default, is_packed, same_flag, unpack};
pub use known::has_known;
pub use lists::match_all;
pub use looks::{check_many, check_type, look, look_many};
pub use matching::matches;
pub use named::{exact_or_null, identity, new_reference, nullable};
pub use reach::{address, has, lesser, reaches};
pub use steps::{halt, plain, plain_with};
pub use types::{Takes, ValTypes, check_takes, check_types, exchange_types};
pub use wasm_validator_resources::readers_errors::OperatorRule;

/// Passed on from `wasm_validator_resources`.
pub mod validator_resources {
    pub use wasm_validator_resources::{WasmModuleResources, check_ref_type};
}

/// Passed on from `wasm_typing_stacks`.
pub mod typing_stacks {
    pub use wasm_typing_stacks::{
        Block, BlockWord, Frame, LocalWord, Locals, MAX_LOCALS, Operand, Stacks, TypeWord, Word,
    };
}

/// Passed on from `wasm_typing_stacks`.
pub mod spec_steps {
    pub use wasm_typing_stacks::{
        Access, AccessValues, SharedAtomicOperator, SharedForm, shared_code, shared_form,
    };
}
