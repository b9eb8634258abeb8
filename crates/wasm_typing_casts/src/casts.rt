//! Tests and casts.

ghost use Rattle.wasm_typing_references.specs.WasmSpec.Syntax.{map_heap};
ghost use Rattle.wasm_typing_references.specs.WasmReadersTypes.WasmReadersValues.SeenValues.{heap_of};
ghost use Rattle.wasm_typing_references.specs.WasmOperators.References.{ref_cast, ref_test, reference_to};
ghost use Rattle.wasm_typing_references.specs.WasmTypingChecks.WasmSpecSteps.Shapes.{cast_shape};
ghost use Rattle.wasm_typing_references.specs.WasmTypingChecks.WasmValidatorResources.Answers.{IsWrittenHeap, written_index};
ghost use Rattle.wasm_typing_references.specs.WasmTypingChecks.WasmTypingStacks.BodyStacks.{Kept};
ghost use Rattle.wasm_typing_references.specs.WasmTypingChecks.Steps.{Performs};

use crate::tops::{abstract_to, can_be_tested, top_of};
use std::alloc::Allocator;
use wasm_typing_references::operators::operators_plain::NumberType;
use wasm_typing_references::readers_errors::WasmFeatures;
use wasm_typing_references::readers_types::HeapType;
use wasm_typing_references::typing_checks::{
    OperatorError, OperatorFault, OperatorRule, Takes, ValTypes, has, plain,
};
use wasm_typing_references::typing_stacks::{Stacks, TypeWord};
use wasm_typing_references::validator_resources::WasmModuleResources;
use wasm_typing_references::{allows_heap, disallowed, resolve, unknown_type};

/// `ref.test` (Core Specification 3.0, Validation, Instructions, Reference Instructions), to a type
/// with null or without.
///
/// # Errors
///
/// Refuses an unknown type, one that the features don't allow, one of continuations, and an operand
/// of another hierarchy.
#[tactic(auto, using(crate::proofs::Cited::acts, crate::proofs::HierarchyTops::tests))]
pub fn ref_test<A: Allocator, T: WasmModuleResources>(
    stacks: &mut Stacks<A>,
    resources: &T,
    nullable: bool,
    heap: HeapType,
) -> Result<(), OperatorError>
    requires { IsWrittenHeap (heap_of heap) }
    ensures took { Performs result (T.context resources.now)
        (cast_shape (ref_test (reference_to nullable (map_heap written_index (heap_of heap)))))
        stacks.old stacks.new }
    ensures same { Kept stacks.old stacks.new }
{
    if !has(stacks, WasmFeatures::GC) {
        return Err(OperatorError::Refused(OperatorFault::new(OperatorRule::Gc)));
    }
    if !allows_heap(stacks, nullable, heap) {
        return Err(OperatorError::Refused(disallowed(stacks, nullable, heap)));
    }
    let (shared, top) = match top_of(resources, heap) {
        Some(top) => top,
        None => return Err(OperatorError::Refused(unknown_type(heap))),
    };
    if !can_be_tested(top) {
        return Err(OperatorError::Refused(OperatorFault::new(OperatorRule::ContinuationTypes)));
    }
    plain(
        stacks,
        resources,
        Takes::One(TypeWord::reference(abstract_to(true, shared, top))),
        ValTypes::One(TypeWord::number(NumberType::I32)),
    )
}

/// `ref.cast` (Core Specification 3.0, Validation, Instructions, Reference Instructions), to a type
/// with null or without.
///
/// # Errors
///
/// Refuses an unknown type, one that the features don't allow, one of continuations, and an operand
/// of another hierarchy.
#[tactic(auto, using(crate::proofs::Cited::acts, crate::proofs::HierarchyTops::tests, crate::proofs::Cited::written))]
pub fn ref_cast<A: Allocator, T: WasmModuleResources>(
    stacks: &mut Stacks<A>,
    resources: &T,
    nullable: bool,
    heap: HeapType,
) -> Result<(), OperatorError>
    requires { IsWrittenHeap (heap_of heap) }
    ensures took { Performs result (T.context resources.now)
        (cast_shape (ref_cast (reference_to nullable (map_heap written_index (heap_of heap)))))
        stacks.old stacks.new }
    ensures same { Kept stacks.old stacks.new }
{
    if !has(stacks, WasmFeatures::GC) {
        return Err(OperatorError::Refused(OperatorFault::new(OperatorRule::Gc)));
    }
    if !allows_heap(stacks, nullable, heap) {
        return Err(OperatorError::Refused(disallowed(stacks, nullable, heap)));
    }
    let (shared, top) = match top_of(resources, heap) {
        Some(top) => top,
        None => return Err(OperatorError::Refused(unknown_type(heap))),
    };
    if !can_be_tested(top) {
        return Err(OperatorError::Refused(OperatorFault::new(OperatorRule::ContinuationTypes)));
    }
    match resolve(resources, nullable, heap) {
        Some(ty) => plain(
            stacks,
            resources,
            Takes::One(TypeWord::reference(abstract_to(true, shared, top))),
            ValTypes::One(TypeWord::reference(ty)),
        ),
        None => Err(OperatorError::Refused(unknown_type(heap))),
    }
}
