//! Lists of immediates that are borrowed from the bytes, and the immediates of operators of proposals
//! beyond the standard: of atomic accesses to globals, tables, structures and arrays, and of operators
//! on continuations.
#![tactic(auto)]

mod accesses;
mod continuations;
mod lists;

pub use accesses::{AccessValues, Ordering, read_access_values};
pub use continuations::{ContinuationOperator, Handle, ResumeTable, read_continuation};
pub use lists::{Immediate, Listed, ListedItems, read_listed};

/// Passed on from `wasm_operators_atomic`.
pub mod operators_atomic {
    pub use wasm_operators_atomic::{
        Access, AtomicOperator, SharedAtomicOperator, SharedForm, WideOperator, atomic_form,
        operator_from_code, operators_vector, shared_code, shared_form, shared_operator_from_code,
        wide_code, wide_from_code,
    };
}

/// Passed on from `wasm_operators_plain`.
pub mod operators_plain {
    pub use wasm_operators_plain::{
        ArrayOperator, BulkMemoryOperator, CallOperator, ConstantOperator, ConversionOperator,
        Ieee32, Ieee64, MemArg, MemoryOperator, NumberType, NumericOperator, SaturatingOperator,
        Signature, StructOperator, TableOperator, V128, VariableOperator, access_from_opcode,
        accesses_are_a_table, conversion_from_code, max_align, numeric_from_opcode,
        numeric_signature, read_array, read_bits_128, read_call, read_constant, read_memarg,
        read_memory, read_memory_size, read_struct, read_table, read_table_access, read_variable,
        read_vector, readers, readers_errors, readers_types, saturating_from_code,
        saturating_signature, shared_from_code, unknown_opcode, unknown_prefixed_opcode,
    };
}
