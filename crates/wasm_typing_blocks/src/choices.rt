//! `select`.

ghost use Rattle.std.specs.Prelude.{◌≡◌, ◌∷◌, [], map};
ghost use Rattle.std.specs.Option.{option_map};
ghost use Rattle.wasm_spec.specs.BinaryTypes.{val_at};
ghost use Rattle.wasm_spec.specs.Syntax.{map_val};
ghost use Rattle.wasm_readers.specs.WrittenIndices.{written};
ghost use Rattle.wasm_readers_types.specs.WasmReadersValues.SeenValues.{val_of};
ghost use Rattle.wasm_operators.specs.Control.{select, select_of};
ghost use Rattle.wasm_operators.specs.SeenLists.{listed};
ghost use Rattle.wasm_typing_control.specs.WasmTypingChecks.WasmSpecSteps.Machine.{chosen, same_number};
ghost use Rattle.wasm_typing_control.specs.WasmTypingChecks.WasmSpecSteps.Shapes.{parametric_shape};
ghost use Rattle.wasm_typing_control.specs.WasmTypingChecks.WasmValidatorResources.Answers.{written_index, IsWrittenVal};
ghost use Rattle.wasm_typing_control.specs.WasmTypingChecks.WasmTypingStacks.BodyStacks.{Kept};
ghost use Rattle.wasm_typing_control.specs.WasmTypingChecks.WasmTypingStacks.SeenOperands.{operand_of};
ghost use Rattle.wasm_typing_control.specs.WasmTypingChecks.Steps.{Performs};

use std::alloc::Allocator;
use wasm_operators::Listed;
use wasm_operators::operators_plain::NumberType;
use wasm_readers::readers_errors::WasmFeatures;
use wasm_readers_types::ValType;
use wasm_typing_control::typing_checks::{
    OperatorError, OperatorFault, OperatorRule, Takes, ValTypes, check_type, has, look, plain,
};
use wasm_typing_control::typing_stacks::{Operand, Stacks, TypeWord, Word};
use wasm_typing_control::validator_resources::WasmModuleResources;

/// Whether these are the same number type or vector type.
fn is_same_number(ty: ValType, other: ValType) -> bool
    ensures { result ≡ same_number (val_of ty) (val_of other) }
{
    match ty {
        ValType::I32 => matches!(&other, ValType::I32),
        ValType::I64 => matches!(&other, ValType::I64),
        ValType::F32 => matches!(&other, ValType::F32),
        ValType::F64 => matches!(&other, ValType::F64),
        ValType::V128 => matches!(&other, ValType::V128),
        ValType::Ref(_) => false,
    }
}

/// What `select` without a type gives for these two.
#[tactic(auto, using(crate::proofs::SelectTypes::choices))]
fn choose(first: Word, second: Word) -> Option<Word>
    ensures { option_map operand_of result ≡ chosen (operand_of first) (operand_of second) }
{
    match (first.seen(), second.seen()) {
        (Operand::Bottom, Operand::Bottom) => Some(first),
        (Operand::Bottom, Operand::Known(ty)) => {
            if is_same_number(ty, ty) {
                Some(second)
            } else {
                None
            }
        }
        (Operand::Known(ty), Operand::Bottom) => {
            if is_same_number(ty, ty) {
                Some(first)
            } else {
                None
            }
        }
        (Operand::Known(ty), Operand::Known(other)) => {
            if is_same_number(ty, other) {
                Some(first)
            } else {
                None
            }
        }
        _ => None,
    }
}

/// `select` without a type (Core Specification 3.0, Validation, Instructions, Parametric
/// Instructions): a condition, and two numbers or vectors of one type, of which it gives one.
///
/// # Errors
///
/// Refuses a condition that isn't of `i32` (`Operand`), operands that aren't there (`AnyOperand`),
/// and operands that are references or of two types (`Selected`). Where it is refused, all stays.
#[tactic(auto, using(crate::proofs::Cited::acts, crate::proofs::SelectTypes::selects))]
pub fn select<A: Allocator, T: WasmModuleResources>(
    stacks: &mut Stacks<A>,
    resources: &T,
) -> Result<(), OperatorError>
    ensures took { Performs result (T.context resources.now) (parametric_shape select)
        stacks.old stacks.new }
    ensures same { Kept stacks.old stacks.new }
{
    let condition = TypeWord::number(NumberType::I32);
    let below_condition = match check_type(stacks, resources, 0, condition) {
        Ok(taken) => taken,
        Err(fault) => return Err(OperatorError::Refused(fault)),
    };
    let (first, below_first) = match look(stacks, below_condition) {
        Some(found) => found,
        None => return Err(OperatorError::Refused(OperatorFault::new(OperatorRule::AnyOperand))),
    };
    let (second, taken) = match look(stacks, below_first) {
        Some(found) => found,
        None => return Err(OperatorError::Refused(OperatorFault::new(OperatorRule::AnyOperand))),
    };
    match choose(first, second) {
        Some(operand) => match stacks.exchange(taken, operand) {
            Ok(()) => Ok(()),
            Err(_) => Err(OperatorError::OutOfMemory),
        },
        None => Err(OperatorError::Refused(OperatorFault::new(OperatorRule::Selected))),
    }
}

/// `select` with its type (Core Specification 3.0, Validation, Instructions, Parametric
/// Instructions): a condition, and two operands of the type, of which it gives one.
///
/// # Errors
///
/// Refuses it without the proposal of reference types (`ReferenceTypes`), a type that the features
/// don't allow or the module doesn't have, and operands that aren't of these types (`Operand`).
/// Where it is refused, all stays.
#[tactic(auto, using(crate::proofs::Cited::acts, crate::proofs::SelectTypes::typed_selects))]
pub fn select_of<A: Allocator, T: WasmModuleResources>(
    stacks: &mut Stacks<A>,
    resources: &T,
    ty: ValType,
) -> Result<(), OperatorError>
    requires { IsWrittenVal (val_of ty) }
    ensures took { Performs result (T.context resources.now)
        (parametric_shape (select_of (map_val written_index (val_of ty) ∷ [])))
        stacks.old stacks.new }
    ensures same { Kept stacks.old stacks.new }
{
    if !has(stacks, WasmFeatures::REFERENCE_TYPES) {
        return Err(OperatorError::Refused(OperatorFault::new(OperatorRule::ReferenceTypes)));
    }
    let mut named = ty;
    match resources.check_value_type(&mut named, &stacks.features, 0) {
        Ok(()) => {
            let word = TypeWord::new(named);
            let condition = TypeWord::number(NumberType::I32);
            plain(
                stacks,
                resources,
                Takes::Three(word, word, condition),
                ValTypes::One(word),
            )
        }
        Err(refusal) => Err(OperatorError::Refused(OperatorFault::written_type(refusal))),
    }
}

/// `select` with its types (Core Specification 3.0, Validation, Instructions, Parametric
/// Instructions), of which there has to be one.
///
/// # Errors
///
/// Refuses any other number of types (`Selected`), and what [`select_of`] refuses. Where it is
/// refused, all stays.
#[tactic(auto, using(crate::proofs::Cited::acts, crate::proofs::WrittenTypeLists::lists))]
pub fn select_typed<'a, A: Allocator, T: WasmModuleResources>(
    stacks: &mut Stacks<A>,
    resources: &T,
    types: Listed<'a, ValType>,
) -> Result<(), OperatorError>
    ensures took { Performs result (T.context resources.now)
        (parametric_shape (select_of
        (map (map_val written_index) (listed (val_at written) types.entry))))
        stacks.old stacks.new }
    ensures same { Kept stacks.old stacks.new }
{
    let mut items = types.items();
    match items.next() {
        Some(ty) => match items.next() {
            Some(_) => Err(OperatorError::Refused(OperatorFault::new(OperatorRule::Selected))),
            None => select_of(stacks, resources, ty),
        },
        None => Err(OperatorError::Refused(OperatorFault::new(OperatorRule::Selected))),
    }
}
