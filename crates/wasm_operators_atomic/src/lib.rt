//! The atomic operators: their names, numbers and forms; atomic accesses to globals, tables, structures
//! and arrays, by what they reach and do; and the names and numbers of those of wide arithmetic.
#![tactic(auto)]

ghost use Rattle.wasm_operators_vector.specs.Tables.{IsTableOf};
ghost use Rattle.wasm_operators_atomic.specs.Codes.{operator_code, operator_from};
ghost use Rattle.wasm_operators_atomic.specs.WideArithmetic.{wide_code, wide_from};
ghost use Rattle.wasm_operators_atomic.specs.SharedCodes.{shared_code, shared_operator_from};

mod forms;
mod operators;
mod shared;
mod shared_forms;
mod wide;

pub use forms::atomic_form;
pub use operators::{AtomicOperator, operator_from_code};
pub use shared::{SharedAtomicOperator, shared_code, shared_operator_from_code};
pub use shared_forms::{Access, SharedForm, shared_form};
pub use wide::{WideOperator, wide_code, wide_from_code};

/// The tables of the operators say what their own numbers say, and nothing more.
pub fn laws()
    ensures atomics { IsTableOf operator_code operator_from }
    ensures wide { IsTableOf wide_code wide_from }
    ensures shared { IsTableOf shared_code shared_operator_from }
{}

/// Passed on from `wasm_operators_vector`.
pub mod operators_vector {
    pub use wasm_operators_vector::{
        Alignment, Form, Immediates, Operands, ValueType, VectorOperator, operator_from_code,
        vector_form,
    };
}
