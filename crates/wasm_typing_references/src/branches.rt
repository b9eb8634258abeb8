//! Branches on null.

ghost use Rattle.wasm_typing_control.specs.WasmOperators.References.{br_on_null, br_on_non_null};
ghost use Rattle.wasm_typing_control.specs.WasmTypingChecks.WasmSpecSteps.Shapes.{reference_shape};
ghost use Rattle.wasm_typing_control.specs.WasmTypingChecks.WasmTypingStacks.BodyStacks.{Kept};
ghost use Rattle.wasm_typing_control.specs.WasmTypingChecks.Steps.{Performs};

use crate::given::{exchange_with, front_types, last_type};
use crate::referenced::{look_reference, non_null};
use std::alloc::Allocator;
use wasm_typing_control::label_types;
use wasm_typing_control::readers_errors::WasmFeatures;
use wasm_typing_control::typing_checks::{
    OperatorError, OperatorFault, OperatorRule, check_types, exchange_types, has, matches,
};
use wasm_typing_control::typing_stacks::Stacks;
use wasm_typing_control::validator_resources::WasmModuleResources;

/// `br_on_null` (Core Specification 3.0, Validation, Instructions, Control Instructions).
///
/// # Errors
///
/// Refuses an unknown label, and operands that aren't a reference above what the label takes.
#[tactic(auto, using(crate::proofs::Cited::acts))]
pub fn br_on_null<A: Allocator, T: WasmModuleResources>(
    stacks: &mut Stacks<A>,
    resources: &T,
    depth: u32,
) -> Result<(), OperatorError>
    ensures took { Performs result (T.context resources.now) (reference_shape (br_on_null depth))
        stacks.old stacks.new }
    ensures same { Kept stacks.old stacks.new }
{
    if !has(stacks, WasmFeatures::FUNCTION_REFERENCES) {
        return Err(OperatorError::Refused(OperatorFault::new(OperatorRule::FunctionReferences)));
    }
    let (reference, one) = match look_reference(stacks, 0) {
        Ok(looked) => looked,
        Err(fault) => return Err(OperatorError::Refused(fault)),
    };
    let types = match label_types(stacks, resources, depth) {
        Some(types) => types,
        None => {
            return Err(OperatorError::Refused(OperatorFault::at(
                OperatorRule::UnknownLabel,
                depth,
            )));
        }
    };
    let taken = match check_types(stacks, resources, one, types) {
        Ok(taken) => taken,
        Err(fault) => return Err(OperatorError::Refused(fault)),
    };
    match exchange_with(stacks, taken, types, non_null(reference)) {
        Ok(()) => Ok(()),
        Err(_) => Err(OperatorError::OutOfMemory),
    }
}

/// `br_on_non_null` (Core Specification 3.0, Validation, Instructions, Control Instructions).
///
/// # Errors
///
/// Refuses an unknown label, one whose last type isn't that of the reference without null, and
/// operands that aren't a reference above the other types.
#[tactic(auto, using(crate::proofs::Cited::acts))]
pub fn br_on_non_null<A: Allocator, T: WasmModuleResources>(
    stacks: &mut Stacks<A>,
    resources: &T,
    depth: u32,
) -> Result<(), OperatorError>
    ensures took { Performs result (T.context resources.now)
        (reference_shape (br_on_non_null depth)) stacks.old stacks.new }
    ensures same { Kept stacks.old stacks.new }
{
    if !has(stacks, WasmFeatures::FUNCTION_REFERENCES) {
        return Err(OperatorError::Refused(OperatorFault::new(OperatorRule::FunctionReferences)));
    }
    let types = match label_types(stacks, resources, depth) {
        Some(types) => types,
        None => {
            return Err(OperatorError::Refused(OperatorFault::at(
                OperatorRule::UnknownLabel,
                depth,
            )));
        }
    };
    let (reference, one) = match look_reference(stacks, 0) {
        Ok(looked) => looked,
        Err(fault) => return Err(OperatorError::Refused(fault)),
    };
    let last = match last_type(types) {
        Some(last) => last,
        None => {
            return Err(OperatorError::Refused(OperatorFault::at(OperatorRule::LabelTypes, depth)));
        }
    };
    if !matches(resources, non_null(reference), last) {
        return Err(OperatorError::Refused(OperatorFault::at(OperatorRule::LabelTypes, depth)));
    }
    let front = front_types(types);
    let taken = match check_types(stacks, resources, one, front) {
        Ok(taken) => taken,
        Err(fault) => return Err(OperatorError::Refused(fault)),
    };
    match exchange_types(stacks, taken, front) {
        Ok(()) => Ok(()),
        Err(_) => Err(OperatorError::OutOfMemory),
    }
}
