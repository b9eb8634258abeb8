//! How many operands an operator takes and gives, in a module and in the frames that are open (Core
//! Specification 3.0, Validation, Instructions); and which operators the features serve.
#![tactic(auto)]

mod continuations;
mod control;
mod counts;
mod forms;
mod frame_stack;
mod heap;
mod laws;
mod legacy;
mod module;
mod operators;
mod served;
mod values;

pub use frame_stack::FrameStack;
pub use laws::counts_are_lengths;
pub use module::ModuleArity;
pub use operators::operator_arity;
pub use served::{is_served, read_served};
