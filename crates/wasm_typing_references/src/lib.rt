//! Operators on references: null, functions, comparison, and branches on null.
#![tactic(auto)]

mod branches;
mod comparing;
mod functions;
mod given;
mod nulls;
mod referenced;
mod steps;
mod written;

pub use branches::{br_on_non_null, br_on_null};
pub use comparing::{look_below, matches_abstract, ref_eq};
pub use functions::ref_func;
pub use given::{exchange_with, front_types, last_type};
pub use nulls::{ref_as_non_null, ref_is_null, ref_null};
pub use referenced::{Referenced, look_reference, non_null};
pub use steps::step_reference;
pub use written::{allows_heap, disallowed, resolve, unknown_type};

/// Passed on from `wasm_typing_control`.
pub mod typing_control {
    pub use wasm_typing_control::label_types;
}

/// Passed on from `wasm_typing_stacks`.
pub mod typing_stacks {
    pub use wasm_typing_control::typing_stacks::{Stacks, TypeWord, Word};
}

/// Passed on from `wasm_validator_resources`.
pub mod validator_resources {
    pub use wasm_typing_control::validator_resources::{WasmModuleResources, check_ref_type};
}

/// Passed on from `wasm_typing_checks`.
pub mod typing_checks {
    pub use wasm_typing_control::typing_checks::{
        OperatorError, OperatorFault, OperatorRule, Takes, ValTypes, check_type, check_types,
        exact_or_null, has, identity, nullable, plain, reaches,
    };
}

/// Passed on from `wasm_readers_types`.
pub mod readers_types {
    pub use wasm_typing_control::readers_types::{
        AbstractHeapType, HeapType, PackedIndex, RefType, UnpackedIndex, ValType,
    };
}

/// Passed on from `wasm_readers_errors`.
pub mod readers_errors {
    pub use wasm_typing_control::readers_errors::WasmFeatures;
}

/// Passed on from `wasm_operators`.
pub mod operators {
    pub use wasm_typing_control::operators::{
        CastOperator, ConversionOperator, ReferenceOperator, operators_plain,
    };
}
