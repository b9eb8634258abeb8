//! Operators on locals and globals, blocks, branches, calls and tail calls, and looks at operands whose
//! types are known.
#![tactic(auto)]

mod branches;
mod calls;
mod ends;
mod frames;
mod globals;
mod halts;
mod known;
mod labels;
mod locals;
mod not_taken;
mod peeks;
mod reach;
mod results;
mod step;
mod tails;

pub use branches::{branch, branch_if, do_nothing, give_back, trap};
pub use calls::{call, call_indirect, call_ref};
pub use ends::end;
pub use frames::open_frame;
pub use globals::{global_get, global_set};
pub use halts::halt_with;
pub use known::{
    as_fast, exchange_known, exchange_two_known, give_known, take_known, take_two_known,
};
pub use labels::{block_gives, block_takes, frame_at, function_type, label_types, returned_types};
pub use locals::{drop_any, local_get, local_set, local_tee};
pub use not_taken::NotTaken;
pub use peeks::{peek, peek_types};
pub use reach::{function_reached, null_or, type_reached};
pub use results::{match_types, returns, val_types_of};
pub use step::step_call;
pub use tails::{return_call, return_call_indirect, return_call_ref};

/// Passed on from `wasm_typing_numbers`.
pub mod typing_numbers {
    pub use wasm_typing_numbers::{
        access_memory, allows_number, bulk_memory, compute, constant, step_atomic, step_table,
        step_vector, step_wide, table_reached,
    };
}

/// Passed on from `wasm_typing_stacks`.
pub mod typing_stacks {
    pub use wasm_typing_numbers::typing_stacks::{
        Block, BlockWord, LocalWord, Locals, MAX_LOCALS, Operand, Stacks, TypeWord, Word,
    };
}

/// Passed on from `wasm_validator_resources`.
pub mod validator_resources {
    pub use wasm_typing_numbers::validator_resources::{WasmModuleResources, check_ref_type};
}

/// Passed on from `wasm_typing_checks`.
pub mod typing_checks {
    pub use wasm_typing_numbers::typing_checks::{
        OperatorError, OperatorFault, OperatorRule, Takes, ValTypes, address, check_type,
        check_types, exact_or_null, exchange_types, halt, has, has_known, identity, look,
        look_many, match_all, matches, nullable, plain, plain_with, reaches,
    };
}

/// Passed on from `wasm_readers_types`.
pub mod readers_types {
    pub use wasm_readers_types::{
        AbstractHeapType, CompositeInnerType, FuncType, HeapType, PackedIndex, RefType, SubType,
        UnpackedIndex, ValType,
    };
}

/// Passed on from `wasm_readers_errors`.
pub mod readers_errors {
    pub use wasm_typing_numbers::readers_errors::WasmFeatures;
}

/// Passed on from `wasm_operators`.
pub mod operators {
    pub use wasm_typing_numbers::operators::{
        CastOperator, ContinuationOperator, ConversionOperator, Handle, Listed, ReferenceOperator,
        ResumeTable, operators_plain,
    };
}
