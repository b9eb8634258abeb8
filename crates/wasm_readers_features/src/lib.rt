//! The proposals that a module may use, and the rules of types and of operators, with the proposal
//! that would lift a refusal by each.
#![tactic(auto)]

mod atomic_rules;
pub mod features;
pub mod operator_rules;
pub mod type_rules;

pub use features::WasmFeatures;
pub use operator_rules::{GatedConstant, OperatorRule};
pub use type_rules::{DescriptorRule, GroupRule, ValueTypeRule};
