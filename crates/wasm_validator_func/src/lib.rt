//! The validation of function bodies, one by one, over any look-ups (Core Specification 3.0,
//! Validation, Modules, Functions).
//!
//! Each `offset` counts bytes from the start of the input.
#![tactic(auto)]

mod arity;
mod bodies;
mod copies;
mod frequent;
mod func_validator;
mod labels;
mod laws;
mod locals;
mod next_body;
mod next_operator;
mod visitors;

pub use func_validator::{FuncToValidate, FuncValidator, FuncValidatorAllocations, validate_body};
pub use labels::block_arity;
pub use laws::bodies_are_declarations_and_instructions;
pub use next_operator::{read_operator, read_served};

/// Passed on from `wasm_operators`.
pub mod operators {
    pub use wasm_operators::operators_atomic::{
        AtomicOperator, SharedAtomicOperator, VectorOperator,
    };
    pub use wasm_operators::operators_plain::NumberType;
    pub use wasm_operators::{
        AccessValues, ArrayOperator, BlockType, BrTable, BulkMemoryOperator, CallOperator,
        CastOperator, Catch, ConstantOperator, ContinuationOperator, ControlOperator,
        ConversionOperator, FrameKind, Handle, Ieee32, Ieee64, Immediate, ImmediateValues,
        LegacyOperator, Listed, ListedItems, MemArg, MemoryOperator, NumericOperator, Operator,
        Ordering, ParametricOperator, ReferenceOperator, ResumeTable, SaturatingOperator,
        StructOperator, TableOperator, TryTable, V128, VariableOperator, WideOperator, max_align,
        read_block_type, read_expression, read_memarg,
    };
}

/// Passed on from `wasm_typing_validator`.
pub mod operator_validator {
    pub use wasm_typing_validator::{
        Frame, FrameStack, ModuleArity, NotTaken, Operand, OperatorError, OperatorFault,
        OperatorValidator, OperatorValidatorAllocations, OperatorVisitor, Told, TypeWord, Word,
        is_written_operator, is_written_type, operator_arity,
    };
}
