//! `ref.null`, and what asks whether a reference is null.

ghost use Rattle.wasm_typing_control.specs.WasmSpec.Syntax.{map_heap};
ghost use Rattle.wasm_typing_control.specs.WasmReadersTypes.WasmReadersValues.SeenValues.{heap_of};
ghost use Rattle.wasm_typing_control.specs.WasmOperators.References.{ref_null, ref_is_null, ref_as_non_null};
ghost use Rattle.wasm_typing_control.specs.WasmTypingChecks.WasmSpecSteps.Shapes.{reference_shape};
ghost use Rattle.wasm_typing_control.specs.WasmTypingChecks.WasmValidatorResources.Answers.{IsWrittenHeap, written_index};
ghost use Rattle.wasm_typing_control.specs.WasmTypingChecks.WasmTypingStacks.BodyStacks.{Kept};
ghost use Rattle.wasm_typing_control.specs.WasmTypingChecks.Steps.{Performs};

use crate::referenced::{look_reference, non_null};
use crate::written::{allows_heap, disallowed, resolve, unknown_type};
use std::alloc::Allocator;
use wasm_typing_control::operators::operators_plain::NumberType;
use wasm_typing_control::readers_errors::WasmFeatures;
use wasm_typing_control::readers_types::HeapType;
use wasm_typing_control::typing_checks::{
    OperatorError, OperatorFault, OperatorRule, Takes, ValTypes, has, plain,
};
use wasm_typing_control::typing_stacks::{Stacks, TypeWord, Word};
use wasm_typing_control::validator_resources::WasmModuleResources;

/// `ref.null` (Core Specification 3.0, Validation, Instructions, Reference Instructions).
///
/// # Errors
///
/// Refuses a type that the features don't allow, and one that the module doesn't have.
#[tactic(auto, using(crate::proofs::Cited::acts, crate::proofs::Cited::types, crate::proofs::WrittenHeapTypes::written))]
pub fn ref_null<A: Allocator, T: WasmModuleResources>(
    stacks: &mut Stacks<A>,
    resources: &T,
    heap: HeapType,
) -> Result<(), OperatorError>
    requires { IsWrittenHeap (heap_of heap) }
    ensures took { Performs result (T.context resources.now)
        (reference_shape (ref_null (map_heap written_index (heap_of heap)))) stacks.old stacks.new }
    ensures same { Kept stacks.old stacks.new }
{
    if !has(stacks, WasmFeatures::REFERENCE_TYPES) {
        return Err(OperatorError::Refused(OperatorFault::new(OperatorRule::ReferenceTypes)));
    }
    if !allows_heap(stacks, true, heap) {
        return Err(OperatorError::Refused(disallowed(stacks, true, heap)));
    }
    match resolve(resources, true, heap) {
        Some(ty) => plain(
            stacks,
            resources,
            Takes::None,
            ValTypes::One(TypeWord::reference(ty)),
        ),
        None => Err(OperatorError::Refused(unknown_type(heap))),
    }
}

/// `ref.is_null` (Core Specification 3.0, Validation, Instructions, Reference Instructions).
///
/// # Errors
///
/// Refuses what is no reference.
#[tactic(auto, using(crate::proofs::Cited::acts, crate::proofs::NullTests::nulls))]
pub fn ref_is_null<A: Allocator, T: WasmModuleResources>(
    stacks: &mut Stacks<A>,
    _resources: &T,
) -> Result<(), OperatorError>
    ensures took { Performs result (T.context _resources.now) (reference_shape ref_is_null)
        stacks.old stacks.new }
    ensures same { Kept stacks.old stacks.new }
{
    if !has(stacks, WasmFeatures::REFERENCE_TYPES) {
        return Err(OperatorError::Refused(OperatorFault::new(OperatorRule::ReferenceTypes)));
    }
    match look_reference(stacks, 0) {
        Ok((_, taken)) => match stacks.exchange(taken, Word::number(NumberType::I32)) {
            Ok(()) => Ok(()),
            Err(_) => Err(OperatorError::OutOfMemory),
        },
        Err(fault) => Err(OperatorError::Refused(fault)),
    }
}

/// `ref.as_non_null` (Core Specification 3.0, Validation, Instructions, Reference Instructions).
///
/// # Errors
///
/// Refuses what is no reference.
#[tactic(auto, using(crate::proofs::Cited::acts, crate::proofs::NullTests::nulls))]
pub fn ref_as_non_null<A: Allocator, T: WasmModuleResources>(
    stacks: &mut Stacks<A>,
    _resources: &T,
) -> Result<(), OperatorError>
    ensures took { Performs result (T.context _resources.now) (reference_shape ref_as_non_null)
        stacks.old stacks.new }
    ensures same { Kept stacks.old stacks.new }
{
    if !has(stacks, WasmFeatures::FUNCTION_REFERENCES) {
        return Err(OperatorError::Refused(OperatorFault::new(OperatorRule::FunctionReferences)));
    }
    match look_reference(stacks, 0) {
        Ok((reference, taken)) => match stacks.exchange(taken, non_null(reference)) {
            Ok(()) => Ok(()),
            Err(_) => Err(OperatorError::OutOfMemory),
        },
        Err(fault) => Err(OperatorError::Refused(fault)),
    }
}
