//! A module while its sections are read: their items are added one by one to its index spaces, or an item
//! is refused; and its code section, whose bodies are handed out.
#![tactic(auto)]

mod code;
pub mod code_state;
mod entry_items;
mod module_sections;
pub mod module_state;
mod plain_items;

pub use code::started;
pub use code_state::{CodeState, MAX_FUNCTION_SIZE};
pub use module_sections::{
    add_elements, add_exports, add_functions, add_globals, add_imports, add_memories, add_tables,
    add_tags, add_types, check_data_segments,
};
pub use module_state::ModuleState;
pub use wasm_validator_items::references::ReferencedFunctions;
pub use wasm_validator_items::{Constants, ExpressionMemory, tells_types_apart};

/// Passed on from `wasm_validator_core`.
pub mod validator_core {
    pub use wasm_validator_items::validator_core::{
        Error, MAX_DATA_SEGMENTS, MAX_ELEMENT_SEGMENTS, MAX_EXPORTS, MAX_FUNCTIONS, MAX_GLOBALS,
        MAX_IMPORTS, MAX_MEMORIES, MAX_TABLES, MAX_TAGS, MAX_TYPES, Module, check_data_count,
    };
}

/// Passed on from `wasm_validator_func`.
pub mod validator_func {
    pub use wasm_validator_func::{
        FuncToValidate, FuncValidator, FuncValidatorAllocations, validate_body,
    };
}

/// Passed on from `wasm_operators`.
pub mod operators {
    pub use wasm_validator_func::operators::{
        AccessValues, ArrayOperator, AtomicOperator, BlockType, BrTable, BulkMemoryOperator,
        CallOperator, CastOperator, Catch, ConstantOperator, ContinuationOperator, ControlOperator,
        ConversionOperator, FrameKind, Handle, Ieee32, Ieee64, Immediate, ImmediateValues,
        LegacyOperator, Listed, ListedItems, MemArg, MemoryOperator, NumberType, NumericOperator,
        Operator, Ordering, ParametricOperator, ReferenceOperator, ResumeTable, SaturatingOperator,
        SharedAtomicOperator, StructOperator, TableOperator, TryTable, V128, VariableOperator,
        VectorOperator, WideOperator, max_align, read_block_type, read_expression, read_memarg,
    };
    pub use wasm_validator_func::read_operator;
}

/// Passed on from `wasm_typing_validator`.
pub mod operator_validator {
    pub use wasm_validator_func::operator_validator::{
        Frame, FrameStack, ModuleArity, NotTaken, Operand, OperatorError, OperatorFault,
        OperatorValidator, OperatorValidatorAllocations, OperatorVisitor, Told, TypeWord, Word,
        is_written_operator, is_written_type, operator_arity,
    };
}

/// Passed on from `wasm_validator_core_resources`.
pub mod validator_core_resources {
    pub use wasm_validator_items::validator_core_resources::{TypesByIds, ValidatorResources};
}
