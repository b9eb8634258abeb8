//! The typing of operators, one by one, over any look-ups: function bodies and constant expressions
//! (Core Specification 3.0, Validation, Instructions, and Appendix, Validation Algorithm).
#![tactic(auto)]

mod arity;
mod bytes;
mod labels;
mod queries;
mod validator;
mod visitor;
mod written_types;

pub use arity::{func_type_of, tag_arity};
pub use queries::Frame;
pub use validator::{OperatorValidator, OperatorValidatorAllocations};
pub use visitor::OperatorVisitor;
pub use wasm_typing_arity::{
    FrameStack, ModuleArity, counts_are_lengths, operator_arity, read_served,
};
pub use wasm_typing_families::step;
pub use wasm_typing_families::typing_blocks::typing_checks::{OperatorError, OperatorFault};
pub use wasm_typing_families::typing_blocks::typing_stacks::{MAX_LOCALS, Operand, TypeWord, Word};
pub use wasm_typing_families::typing_steps::{NotTaken, Told, pass_i32, pass_i64};
pub use written_types::{is_written_operator, is_written_type};
