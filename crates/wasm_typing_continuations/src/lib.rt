//! Operators on continuations (the stack-switching proposal).
#![tactic(auto)]

mod continuations;
mod continued;
mod handlers;
mod resuming;

pub use continuations::step_continuation;
