//! Reading of bytes, numbers and names, from the front of a part of an input.
//!
//! Each `offset` counts bytes from the start of the input.
#![tactic(auto)]

pub mod binary_reader;
mod leb128;

pub use binary_reader::BinaryReader;

/// Passed on from `wasm_readers_errors`.
pub mod readers_errors {
    pub use wasm_readers_errors::{
        Counted, DescriptorRule, Error, Fault, GatedConstant, GroupRule, Integer, ItemKind,
        ItemRule, Malformed, OperatorRule, OutOfOrder, Refusal, Rule, ValueTypeRule, WasmFeatures,
        hold, require, require_if,
    };
}
