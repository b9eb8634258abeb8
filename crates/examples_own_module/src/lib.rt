//! What is looked up of a module that a user keeps in a form of its own, as plain lists: the context
//! in which the bodies of its functions are validated (Core Specification 3.0, Validation,
//! Conventions, Contexts).
#![tactic(auto)]

mod own_module;
mod parts;

pub use own_module::OwnModule;
pub use parts::{OwnFunction, OwnParts};
