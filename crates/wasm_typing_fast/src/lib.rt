//! Frequent operators, and the reading of what follows their first bytes.
#![tactic(auto)]

mod accesses;
mod blocks;
mod branches;
mod calls;
mod choices;
mod ends;
mod general;
mod globals;
mod immediates;
mod locals;
mod numbers;

pub use accesses::access;
pub use blocks::{open_block, open_if, open_loop};
pub use branches::{branch_away, branch_perhaps, do_nothing, return_all, trap};
pub use calls::{call_function, call_in_table};
pub use choices::{drop_one, select_of_two};
pub use ends::end;
pub use globals::{get_global, set_global};
pub use immediates::{next_block, next_byte, next_index, next_memarg, pass_i32, pass_i64};
pub use locals::{local_get, local_set, local_tee};
pub use numbers::{compute, constant};
pub use wasm_typing_control::NotTaken;

/// Passed on from `wasm_typing_numbers`.
pub mod typing_numbers {
    pub use wasm_typing_control::typing_numbers::{
        access_memory, bulk_memory, compute, constant, step_atomic, step_table, step_vector,
        step_wide,
    };
}

/// Passed on from `wasm_typing_control`.
pub mod typing_control {
    pub use wasm_typing_control::typing_stacks::{Block, Stacks};
    pub use wasm_typing_control::validator_resources::WasmModuleResources;
    pub use wasm_typing_control::{as_fast, frame_at, peek};
}

/// Passed on from `wasm_operators_plain`.
pub mod operators_plain {
    pub use wasm_operators_plain::readers::BinaryReader;
    pub use wasm_operators_plain::{
        NumberType, access_from_opcode, numeric_from_opcode, signature_in_place,
    };
}
