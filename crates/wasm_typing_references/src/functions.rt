//! References to functions.

ghost use Rattle.std.specs.Prelude.{◌≡◌, ◌&&◌, if◌then◌else◌, IsSome, slice_get};
ghost use Rattle.wasm_typing_control.specs.WasmSpec.Syntax.{concrete, exact, map_heap};
ghost use Rattle.wasm_typing_control.specs.WasmTypingChecks.WasmSpecRules.FeatureFlags.{features_of};
ghost use Rattle.wasm_typing_control.specs.WasmReadersTypes.WasmReadersValues.SeenValues.{heap_of};
ghost use Rattle.wasm_typing_control.specs.WasmOperators.References.{ref_func};
ghost use Rattle.wasm_typing_control.specs.WasmTypingChecks.WasmSpecRules.Attempts.{passes};
ghost use Rattle.wasm_typing_control.specs.WasmTypingChecks.WasmSpecSteps.Shapes.{reference_shape};
ghost use Rattle.wasm_typing_control.specs.WasmTypingChecks.WasmValidatorResources.Answers.{IsWrittenHeap, written_index};
ghost use Rattle.wasm_typing_control.specs.WasmTypingChecks.WasmTypingStacks.BodyStacks.{Kept};
ghost use Rattle.wasm_typing_control.specs.WasmTypingChecks.Steps.{Performs};

use crate::written::resolve;
use std::alloc::Allocator;
use wasm_typing_control::readers_errors::WasmFeatures;
use wasm_typing_control::readers_types::{HeapType, UnpackedIndex};
use wasm_typing_control::typing_checks::{
    OperatorError, OperatorFault, OperatorRule, Takes, ValTypes, has, plain,
};
use wasm_typing_control::typing_stacks::{Stacks, TypeWord};
use wasm_typing_control::validator_resources::WasmModuleResources;

/// Whether a reference to a function is exactly to its type: where the function is, and descriptors
/// can tell.
fn has_exact_type<A: Allocator, T: WasmModuleResources>(
    stacks: &Stacks<A>,
    resources: &T,
    function_index: u32,
) -> bool
    ensures value { result ≡ (passes (λ b. b)
        (slice_get (T.context resources.now).exact function_index)
        && (features_of stacks.now.features).custom_descriptors) }
    ensures told { IsSome (slice_get (T.context resources.now).functions function_index)
        → IsSome (slice_get (T.context resources.now).exact function_index) }
{
    resources.has_function_exact_type(function_index)
        && has(stacks, WasmFeatures::CUSTOM_DESCRIPTORS)
}

/// What this type index describes, exactly or not.
fn heap_type_of(is_exact: bool, type_index: u32) -> HeapType
    ensures value { map_heap written_index (heap_of result)
        ≡ (if is_exact then exact type_index else concrete type_index) }
    ensures written { IsWrittenHeap (heap_of result) }
{
    if is_exact {
        HeapType::Exact(UnpackedIndex::Module(type_index))
    } else {
        HeapType::Concrete(UnpackedIndex::Module(type_index))
    }
}

/// `ref.func` (Core Specification 3.0, Validation, Instructions, Reference Instructions). With
/// custom descriptors the type is exact where the function's is.
///
/// # Errors
///
/// Refuses an unknown function, and one that isn't referenced outside of the bodies.
#[tactic(auto, using(crate::proofs::Cited::acts))]
pub fn ref_func<A: Allocator, T: WasmModuleResources>(
    stacks: &mut Stacks<A>,
    resources: &T,
    function_index: u32,
) -> Result<(), OperatorError>
    ensures took { Performs result (T.context resources.now)
        (reference_shape (ref_func function_index)) stacks.old stacks.new }
    ensures same { Kept stacks.old stacks.new }
{
    if !has(stacks, WasmFeatures::REFERENCE_TYPES) {
        return Err(OperatorError::Refused(OperatorFault::new(OperatorRule::ReferenceTypes)));
    }
    let type_index = match resources.type_index_of_function(function_index) {
        Some(type_index) => type_index,
        None => {
            return Err(OperatorError::Refused(OperatorFault::at(
                OperatorRule::UnknownFunction,
                function_index,
            )));
        }
    };
    if !resources.is_function_referenced(function_index) {
        return Err(OperatorError::Refused(OperatorFault::at(
            OperatorRule::UndeclaredFunction,
            function_index,
        )));
    }
    let is_exact = has_exact_type(stacks, resources, function_index);
    match resolve(resources, false, heap_type_of(is_exact, type_index)) {
        Some(ty) => plain(
            stacks,
            resources,
            Takes::None,
            ValTypes::One(TypeWord::reference(ty)),
        ),
        None => Err(OperatorError::Refused(OperatorFault::at(
            OperatorRule::UnknownType,
            type_index,
        ))),
    }
}
