//! What the validation of a body keeps: operands, frames, and locals with which of them are set. Value
//! types are kept as numbers, so that one comparison tells whether two are the same.
#![tactic(auto)]

mod block_word;
mod codes;
mod local_word;
mod locals;
mod marks;
mod runs;
mod stack;
mod stacks;
mod steps;
mod type_word;
mod word;

pub use block_word::{Block, BlockWord};
pub use codes::{abstract_code, abstract_from_code};
pub use local_word::LocalWord;
pub use locals::{Locals, MAX_LOCALS};
pub use marks::Marks;
pub use runs::Runs;
pub use stack::Stack;
pub use stacks::{Frame, Stacks};
pub use type_word::TypeWord;
pub use word::{Operand, Word};
// What atomic accesses reach and do, for the crates that stand on this one.
pub use wasm_spec_steps::{
    Access, AccessValues, SharedAtomicOperator, SharedForm, shared_code, shared_form,
};

/// Passed on from `wasm_operators_plain`.
pub mod operators_plain {
    pub use wasm_operators_plain::NumberType;
}
