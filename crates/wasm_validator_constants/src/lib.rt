//! Constant expressions from their bytes: which operators they may have, and their types (Core
//! Specification 3.0, Validation, Instructions, Constant Expressions).
//!
//! Each `offset` counts bytes from the start of the input.
#![tactic(auto)]

mod expressions;
mod item_bytes;
mod item_types;
mod laws;
mod operators;
mod references_alone;

pub use expressions::{check_constant_expression, check_constant_operator, note_function};
pub use item_bytes::next_end;
pub use laws::constants_are_lists_of_instructions;
pub use operators::{is_constant, reads_constants};
pub use references_alone::{KnownReferences, pass_reference};

/// What constant expressions are validated by.
pub use wasm_typing_validator::{OperatorValidator, OperatorValidatorAllocations};

/// What goes past the number of a constant.
pub use wasm_typing_validator::{pass_i32, pass_i64};

/// Passed on from `wasm_validator_references`.
pub mod references {
    pub use wasm_validator_references::{NoNotes, NotesFunctions, ReferencedFunctions};
}
