//! One step by any operator, and the steps of operators that compilers write less often, read and
//! typed at once.
#![tactic(auto)]

mod plain;
mod prefixed;
mod seldom;
mod steps;

pub use seldom::seldom_step;
pub use steps::step;

/// Passed on from `wasm_typing_blocks`.
pub mod typing_blocks {
    pub use wasm_typing_blocks::{typing_checks, typing_stacks, validator_resources};
}

/// Passed on from `wasm_typing_casts`.
pub mod typing_casts {
    pub use wasm_typing_casts::{is_written_cast, is_written_heap, is_written_reference};
}

/// Passed on from `wasm_typing_steps`.
pub mod typing_steps {
    pub use wasm_typing_steps::typing_control::{Block, frame_at, peek};
    pub use wasm_typing_steps::{NotTaken, Told, pass_i32, pass_i64, told_step};
}
