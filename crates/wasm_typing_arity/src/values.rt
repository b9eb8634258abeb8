//! How many operands operators on variables, tables, memories and numbers take and give, which no
//! index tells.

ghost use Rattle.std.specs.Prelude.{◌≡◌, Some};
ghost use Rattle.wasm_spec_steps.specs.Shapes.{variable_shape, table_shape, access_shape, memory_shape, computing, wide_shape};
ghost use Rattle.wasm_typing_arity.specs.Arities.{arity};
ghost use Rattle.wasm_typing_arity.specs.ArityQueries.{Asked};
ghost use Rattle.wasm_operators.specs.WasmOperatorsPlain.Signatures.{signature_of, saturating_signature_of};

use wasm_operators::operators_plain::{Signature, numeric_signature, saturating_signature};
use wasm_operators::{
    BulkMemoryOperator, MemArg, MemoryOperator, NumericOperator, SaturatingOperator, TableOperator,
    VariableOperator, WideOperator,
};

/// How many operands an operator on a local or a global takes and gives.
pub(crate) fn variable_arity(op: &VariableOperator) -> (u128, u128)
    ensures { (M : Asked) → Some result ≡ arity M (variable_shape op.now) }
{
    match op {
        VariableOperator::LocalGet { .. } | VariableOperator::GlobalGet { .. } => (0, 1),
        VariableOperator::LocalSet { .. } | VariableOperator::GlobalSet { .. } => (1, 0),
        VariableOperator::LocalTee { .. } => (1, 1),
    }
}

/// How many operands an operator on tables takes and gives.
pub(crate) fn table_arity(op: &TableOperator) -> (u128, u128)
    ensures { (M : Asked) → Some result ≡ arity M (table_shape op.now) }
{
    match op {
        TableOperator::TableGet { .. } => (1, 1),
        TableOperator::TableSet { .. } => (2, 0),
        TableOperator::TableSize { .. } => (0, 1),
        TableOperator::TableGrow { .. } => (2, 1),
        TableOperator::TableFill { .. }
        | TableOperator::TableCopy { .. }
        | TableOperator::TableInit { .. } => (3, 0),
        TableOperator::ElemDrop { .. } => (0, 0),
    }
}

/// How many operands a load or a store takes and gives.
pub(crate) fn access_arity(op: MemoryOperator, arg: MemArg) -> (u128, u128)
    ensures { (M : Asked) → Some result ≡ arity M (access_shape op arg) }
{
    match op {
        MemoryOperator::I32Load
        | MemoryOperator::I64Load
        | MemoryOperator::F32Load
        | MemoryOperator::F64Load
        | MemoryOperator::I32Load8S
        | MemoryOperator::I32Load8U
        | MemoryOperator::I32Load16S
        | MemoryOperator::I32Load16U
        | MemoryOperator::I64Load8S
        | MemoryOperator::I64Load8U
        | MemoryOperator::I64Load16S
        | MemoryOperator::I64Load16U
        | MemoryOperator::I64Load32S
        | MemoryOperator::I64Load32U => (1, 1),
        MemoryOperator::I32Store
        | MemoryOperator::I64Store
        | MemoryOperator::F32Store
        | MemoryOperator::F64Store
        | MemoryOperator::I32Store8
        | MemoryOperator::I32Store16
        | MemoryOperator::I64Store8
        | MemoryOperator::I64Store16
        | MemoryOperator::I64Store32 => (2, 0),
    }
}

/// How many operands an operator on whole memories or on data segments takes and gives.
pub(crate) fn memory_arity(op: &BulkMemoryOperator) -> (u128, u128)
    ensures { (M : Asked) → Some result ≡ arity M (memory_shape op.now) }
{
    match op {
        BulkMemoryOperator::MemorySize { .. } => (0, 1),
        BulkMemoryOperator::MemoryGrow { .. } => (1, 1),
        BulkMemoryOperator::MemoryFill { .. }
        | BulkMemoryOperator::MemoryCopy { .. }
        | BulkMemoryOperator::MemoryInit { .. } => (3, 0),
        BulkMemoryOperator::DataDrop { .. } => (0, 0),
        BulkMemoryOperator::MemoryDiscard { .. } => (2, 0),
    }
}

/// How many numbers of these types are taken and given.
fn signature_arity(signature: Signature) -> (u128, u128)
    ensures { (M : Asked) → Some result ≡ arity M (computing signature) }
{
    match signature {
        Signature::Unary(_, _) => (1, 1),
        Signature::Binary(_, _) => (2, 1),
    }
}

/// How many operands a numeric operator takes and gives.
pub(crate) fn numeric_arity(op: NumericOperator) -> (u128, u128)
    ensures { (M : Asked) → Some result ≡ arity M (computing (signature_of op)) }
{
    signature_arity(numeric_signature(op))
}

/// How many operands a truncation that saturates takes and gives.
pub(crate) fn saturating_arity(op: SaturatingOperator) -> (u128, u128)
    ensures { (M : Asked) → Some result ≡ arity M (computing (saturating_signature_of op)) }
{
    signature_arity(saturating_signature(op))
}

/// How many operands an operator on integers of 128 bits takes and gives.
pub(crate) fn wide_arity(op: WideOperator) -> (u128, u128)
    ensures { (M : Asked) → Some result ≡ arity M (wide_shape op) }
{
    match op {
        WideOperator::I64Add128 | WideOperator::I64Sub128 => (4, 2),
        WideOperator::I64MulWideS | WideOperator::I64MulWideU => (2, 2),
    }
}
