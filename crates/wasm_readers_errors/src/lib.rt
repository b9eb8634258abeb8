//! Why bytes or a module are refused.
#![tactic(auto)]

pub mod error;
pub mod item_rules;
pub mod refusals;

pub use error::{Counted, Error, Fault, Integer, ItemKind, Malformed, OutOfOrder, Refusal, Rule};
pub use item_rules::ItemRule;
pub use refusals::{hold, require, require_if};
pub use wasm_readers_features::{
    DescriptorRule, GatedConstant, GroupRule, OperatorRule, ValueTypeRule, WasmFeatures,
};
