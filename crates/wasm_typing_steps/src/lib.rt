//! Frequent operators by their first bytes, read and typed at once, with what each does to blocks.
#![tactic(auto)]

mod steps;
mod told;

pub use steps::told_step;
pub use told::Told;
pub use wasm_typing_fast::{NotTaken, pass_i32, pass_i64};

/// Passed on from `wasm_typing_numbers`.
pub mod typing_numbers {
    pub use wasm_typing_fast::typing_numbers::{
        access_memory, bulk_memory, compute, constant, step_atomic, step_table, step_vector,
        step_wide,
    };
}

/// Passed on from `wasm_typing_control`.
pub mod typing_control {
    pub use wasm_typing_fast::typing_control::{Block, as_fast, frame_at, peek};
}

/// Passed on from `wasm_operators_seldom`.
pub mod operators_seldom {
    pub use wasm_operators_seldom::{
        next_array, next_atomic, next_call, next_cast, next_control, next_conversion,
        next_memory_size, next_on_memories, next_on_references, next_on_tables, next_on_vectors,
        next_saturating, next_select, next_struct, next_table_access, next_vector_constant,
        next_write,
    };
}
