//! How many operands operators take and give.

ghost use Rattle.std.specs.Prelude.{◌≡◌};
ghost use Rattle.std.specs.Option.{option_and_then};
ghost use Rattle.wasm_typing_arity.specs.Arities.{arity, in_u32, operator_shape};

use crate::continuations::continuation_arity;
use crate::control::{call_arity, control_arity, parametric_arity};
use crate::forms::{access_counts, form_counts};
use crate::heap::{array_arity, cast_arity, conversion_arity, reference_arity, struct_arity};
use crate::legacy::legacy_arity;
use crate::module::ModuleArity;
use crate::values::{
    access_arity, memory_arity, numeric_arity, saturating_arity, table_arity, variable_arity,
    wide_arity,
};
use wasm_operators::Operator;
use wasm_operators::operators_atomic::{atomic_form, shared_form, vector_form};

/// How many operands an operator takes and gives, whatever the counts.
#[tactic(auto, using(crate::proofs::FormCounts::counted))]
fn counts_of<M: ModuleArity>(op: &Operator, resources: &M) -> Option<(u128, u128)>
    ensures { result ≡ arity (M.asked resources.now) (operator_shape op.now) }
{
    match op {
        Operator::Control(op) => control_arity(op, resources),
        Operator::Legacy(op) => legacy_arity(op, resources),
        Operator::Call(op) => call_arity(op, resources),
        Operator::Parametric(op) => parametric_arity(op, resources),
        Operator::Variable(op) => Some(variable_arity(op)),
        Operator::Table(op) => Some(table_arity(op)),
        Operator::Memory(op, arg) => Some(access_arity(*op, *arg)),
        Operator::BulkMemory(op) => Some(memory_arity(op)),
        Operator::Constant(_) => Some((0, 1)),
        Operator::Numeric(op) => Some(numeric_arity(*op)),
        Operator::Saturating(op) => Some(saturating_arity(*op)),
        Operator::Reference(op) => reference_arity(op, resources),
        Operator::Cast(op) => cast_arity(op, resources),
        Operator::Conversion(op) => Some(conversion_arity(*op)),
        Operator::Struct(op) => struct_arity(op, resources),
        Operator::Array(op) => Some(array_arity(op)),
        Operator::Vector(op, values) => Some(form_counts(vector_form(*op), *values)),
        Operator::Atomic(op, values) => Some(form_counts(atomic_form(*op), *values)),
        Operator::Wide(op) => Some(wide_arity(*op)),
        Operator::Continuation(op) => continuation_arity(op, resources),
        Operator::Shared(op, _) => Some(access_counts(shared_form(*op))),
    }
}

/// How many operands an operator takes and how many it gives, in a body of a module (Core
/// Specification 3.0, Validation, Instructions). None where a type, function, tag or label that
/// tells a count isn't there or is of another kind, where a `select` names other than one type or a
/// `br_on_non_null` branches to a label without types, and where a count passes 32 bits. Other
/// indices, as those of locals and tables, are not looked at.
pub fn operator_arity<M: ModuleArity>(op: &Operator, resources: &M) -> Option<(u32, u32)>
    ensures { result ≡ option_and_then in_u32
        (arity (M.asked resources.now) (operator_shape op.now)) }
{
    match counts_of(op, resources) {
        Some((takes, gives)) => {
            if takes < 4_294_967_296 && gives < 4_294_967_296 {
                Some((takes as u32, gives as u32))
            } else {
                None
            }
        }
        None => None,
    }
}
