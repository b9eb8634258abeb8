//! The operators on vectors but `v128.const`: their names and numbers, and their forms, which the atomic
//! operators have too.
#![tactic(auto)]

ghost use Rattle.wasm_operators_vector.specs.Tables.{IsTableOf};
ghost use Rattle.wasm_operators_vector.specs.Codes.{operator_code, operator_from};

mod forms;
mod operators;

pub use forms::{Alignment, Form, Immediates, Operands, ValueType, vector_form};
pub use operators::{VectorOperator, operator_from_code};

/// The table of the operators says what their own numbers say, and nothing more.
pub fn laws()
    ensures { IsTableOf operator_code operator_from }
{}
