//! Constants, numeric operators, loads and stores, and operators on memories and tables.
#![tactic(auto)]

mod accesses;
mod allowed;
mod bulk;
mod forms;
mod memories;
mod numbers;
mod reach;
mod step;
mod tables;
mod wide;

pub use accesses::access_memory;
pub use allowed::allows_number;
pub use bulk::{elem_drop, table_copy, table_init};
pub use forms::{step_atomic, step_vector};
pub use memories::bulk_memory;
pub use numbers::{compute, constant};
pub use reach::table_reached;
pub use step::step_table;
pub use tables::{table_fill, table_get, table_grow, table_set, table_size};
pub use wide::step_wide;

/// Passed on from `wasm_typing_stacks`.
pub mod typing_stacks {
    pub use wasm_typing_checks::typing_stacks::{
        Block, BlockWord, Frame, LocalWord, Locals, MAX_LOCALS, Operand, Stacks, TypeWord, Word,
    };
}

/// Passed on from `wasm_typing_checks`.
pub mod typing_checks {
    pub use wasm_typing_checks::{
        OperatorError, OperatorFault, OperatorRule, Takes, ValTypes, address, check_type,
        check_types, exact_or_null, exchange_types, halt, has, has_known, identity, look,
        look_many, match_all, matches, nullable, plain, plain_with, reaches,
    };
}

/// Passed on from `wasm_validator_resources`.
pub mod validator_resources {
    pub use wasm_typing_checks::validator_resources::{WasmModuleResources, check_ref_type};
}

/// Passed on from `wasm_readers_errors`.
pub mod readers_errors {
    pub use wasm_readers_errors::WasmFeatures;
}

/// Passed on from `wasm_operators_plain`.
pub mod operators_plain {
    pub use wasm_operators::operators_plain::{CallOperator, NumberType};
}

/// Passed on from `wasm_operators`.
pub mod operators {
    pub use wasm_operators::{
        CastOperator, ContinuationOperator, ConversionOperator, FrameKind, Handle, Listed,
        ReferenceOperator, ResumeTable, operators_plain,
    };
}
