//! Operators whose immediates, where they have some, are numbers: their opcodes, what numeric ones take
//! and give, and how indices, constants and memory arguments are read. None has a type or a list among
//! its immediates. Each reading function takes the byte or the code that was read before the immediates.
#![tactic(auto)]

ghost use Rattle.wasm_operators_plain.specs.Opcodes.{IsTableOf};
ghost use Rattle.wasm_operators_plain.specs.Numeric.{numeric_opcode, numeric_from, saturating_code, saturating_from};
ghost use Rattle.wasm_operators_plain.specs.Signatures.{SignaturesByOpcode};
ghost use Rattle.wasm_operators_plain.specs.Memories.{access_opcode, access_from};

mod arrays;
mod calls;
mod constants;
mod conversions;
mod memories;
mod numeric;
mod opcodes;
mod signatures;
mod structs;
mod tables;
mod variables;

pub use arrays::{ArrayOperator, read_array};
pub use calls::{CallOperator, read_call};
pub use constants::{
    ConstantOperator, Ieee32, Ieee64, V128, read_bits_128, read_constant, read_vector,
};
pub use conversions::{ConversionOperator, conversion_from_code, shared_from_code};
pub use memories::{
    BulkMemoryOperator, MemArg, MemoryOperator, access_from_opcode, max_align, read_memarg,
    read_memory, read_memory_size,
};
pub use numeric::{NumericOperator, SaturatingOperator, numeric_from_opcode, saturating_from_code};
pub use opcodes::{unknown_opcode, unknown_prefixed_opcode};
pub use signatures::{
    NumberType, Signature, numeric_signature, saturating_signature, signature_in_place,
};
pub use structs::{StructOperator, read_struct};
pub use tables::{TableOperator, read_table, read_table_access};
pub use variables::{VariableOperator, read_variable};

/// The tables in the order of the opcodes say what the operators' own opcodes say, and nothing
/// more. What the numeric operators take and give is told by their opcodes.
pub fn laws()
    ensures numeric { IsTableOf numeric_opcode numeric_from }
    ensures saturating { IsTableOf saturating_code saturating_from }
    ensures signatures { SignaturesByOpcode }
{}

/// The table of loads and stores in the order of their opcodes says what their own opcodes say, and
/// nothing more.
pub fn accesses_are_a_table()
    ensures { IsTableOf access_opcode access_from }
{}

/// Passed on from `wasm_readers_types`.
pub mod readers_types {
    pub use wasm_readers::readers_types::{
        AbstractHeapType, CoreTypeId, HeapType, RefType, UnpackedIndex, ValType,
    };
}

/// Passed on from `wasm_readers_errors`.
pub mod readers_errors {
    pub use wasm_readers::readers_errors::{Fault, Malformed, Refusal, WasmFeatures};
}

/// Passed on from `wasm_readers`.
pub mod readers {
    pub use wasm_readers::{BinaryReader, types};
}
