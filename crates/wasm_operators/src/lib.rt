//! Operators of WebAssembly and their reading.
#![tactic(auto)]

mod control;
mod expressions;
mod frequent;
mod immediates;
pub mod laws;
mod legacy;
mod operators;
mod references;

pub use control::{
    BlockType, BrTable, Catch, ControlOperator, FrameKind, ParametricOperator, TryTable,
    read_block_type,
};
pub use expressions::read_expression;
pub use immediates::{ImmediateValues, read_immediates};
pub use legacy::LegacyOperator;
pub use operators::{Operator, read_operator};
pub use references::{CastOperator, ReferenceOperator};
pub use wasm_operators_proposals::operators_atomic::{WideOperator, wide_code};
pub use wasm_operators_proposals::operators_plain::{
    ArrayOperator, BulkMemoryOperator, CallOperator, ConstantOperator, ConversionOperator, Ieee32,
    Ieee64, MemArg, MemoryOperator, NumericOperator, SaturatingOperator, StructOperator,
    TableOperator, V128, VariableOperator, max_align, read_memarg, unknown_opcode,
    unknown_prefixed_opcode,
};
pub use wasm_operators_proposals::{
    AccessValues, ContinuationOperator, Handle, Immediate, Listed, ListedItems, Ordering,
    ResumeTable, read_access_values, read_listed,
};

/// Passed on from `wasm_operators_atomic`.
pub mod operators_atomic {
    pub use wasm_operators_proposals::operators_atomic::operators_vector::{
        Alignment, Form, Immediates, Operands, ValueType, VectorOperator, vector_form,
    };
    pub use wasm_operators_proposals::operators_atomic::{
        Access, AtomicOperator, SharedAtomicOperator, SharedForm, atomic_form, shared_code,
        shared_form,
    };
}

/// Passed on from `wasm_readers`.
pub mod readers {
    pub use wasm_operators_proposals::operators_plain::readers::BinaryReader;
}

/// Passed on from `wasm_readers_errors`.
pub mod readers_errors {
    pub use wasm_operators_proposals::operators_plain::readers_errors::{Refusal, WasmFeatures};
}

/// Passed on from `wasm_operators_plain`.
pub mod operators_plain {
    pub use wasm_operators_proposals::operators_plain::{
        ArrayOperator, BulkMemoryOperator, CallOperator, ConversionOperator, NumberType,
        NumericOperator, Signature, StructOperator, TableOperator, VariableOperator, max_align,
        numeric_signature, saturating_signature,
    };
}
