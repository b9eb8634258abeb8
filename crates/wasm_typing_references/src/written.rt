//! Heap types as they are written: by features, and by what the module has.

ghost use Rattle.std.specs.Prelude.{◌≡◌, ◌&&◌, ◌||◌, ℕ, IfSome};
ghost use Rattle.std.specs.Option.{option_map};
ghost use Rattle.wasm_typing_control.specs.WasmSpec.Syntax.{map_heap};
ghost use Rattle.wasm_typing_control.specs.WasmSpec.ValueTypes.{allows_val};
ghost use Rattle.wasm_typing_control.specs.WasmTypingChecks.WasmSpecRules.FeatureFlags.{features_of};
ghost use Rattle.wasm_typing_control.specs.WasmReadersTypes.WasmReadersValues.SeenValues.{heap_of, ref_of, HeapFits};
ghost use Rattle.wasm_typing_control.specs.WasmOperators.References.{reference_to};
ghost use Rattle.wasm_typing_control.specs.WasmTypingChecks.WasmSpecRules.Signatures.{resolve_ref};
ghost use Rattle.wasm_typing_control.specs.WasmTypingChecks.WasmSpecSteps.Shapes.{reference_to as val_to};
ghost use Rattle.wasm_typing_control.specs.WasmTypingChecks.WasmValidatorResources.Answers.{IsWrittenHeap, written_index};
ghost use Rattle.wasm_typing_control.specs.WasmTypingChecks.WasmValidatorResources.ProposalRefusals.{told_of_ref};
ghost use Rattle.wasm_typing_control.specs.WasmTypingChecks.OperatorRefusals.{TellsType};

use std::alloc::Allocator;
use wasm_typing_control::readers_errors::WasmFeatures;
use wasm_typing_control::readers_types::{HeapType, RefType, UnpackedIndex};
use wasm_typing_control::typing_checks::{OperatorFault, OperatorRule, has};
use wasm_typing_control::typing_stacks::Stacks;
use wasm_typing_control::validator_resources::{WasmModuleResources, check_ref_type};

/// Whether the features allow references to this heap type, with null or without.
#[tactic(auto, using(crate::proofs::WrittenHeapTypes::allowed))]
pub fn allows_heap<A: Allocator>(stacks: &Stacks<A>, nullable: bool, heap: HeapType) -> bool
    ensures { result ≡ allows_val (features_of stacks.now.features)
        (val_to nullable (map_heap written_index (heap_of heap))) }
{
    match heap {
        HeapType::Abstract { shared, ty } => {
            match RefType::new(nullable, HeapType::Abstract { shared, ty }) {
                Some(ty) => check_ref_type(stacks.features, ty, 0).is_ok(),
                None => unreachable!(),
            }
        }
        HeapType::Concrete(_) => {
            has(stacks, WasmFeatures::REFERENCE_TYPES)
                && (has(stacks, WasmFeatures::GC) || has(stacks, WasmFeatures::FUNCTION_REFERENCES))
        }
        HeapType::Exact(_) => {
            has(stacks, WasmFeatures::REFERENCE_TYPES)
                && has(stacks, WasmFeatures::CUSTOM_DESCRIPTORS)
        }
    }
}

/// The reference type to a written heap type, with an identity in the place of the type index, if
/// the module has that type.
#[tactic(auto, using(crate::proofs::WrittenHeapTypes::resolves))]
pub fn resolve<T: WasmModuleResources>(
    resources: &T,
    nullable: bool,
    heap: HeapType,
) -> Option<RefType>
    requires { IsWrittenHeap (heap_of heap) }
    ensures { option_map ref_of result ≡ resolve_ref (T.context resources.now).types
        (reference_to nullable (map_heap written_index (heap_of heap))) }
{
    let mut named = heap;
    match resources.check_heap_type(&mut named, 0) {
        Ok(()) => Some(RefType::new(nullable, named).unwrap()),
        Err(_) => None,
    }
}

/// A heap type with the first type index in the place of the one that it names, if it names one.
fn with_first_index(heap: HeapType) -> HeapType
    ensures fits { HeapFits result }
    ensures same { map_heap {S = ℕ} (λ i. 0) (heap_of result) ≡ map_heap (λ i. 0) (heap_of heap) }
{
    match heap {
        HeapType::Abstract { shared, ty } => HeapType::Abstract { shared, ty },
        HeapType::Concrete(_) => HeapType::Concrete(UnpackedIndex::Module(0)),
        HeapType::Exact(_) => HeapType::Exact(UnpackedIndex::Module(0)),
    }
}

/// The refusal of references to a written heap type that the features don't allow, with the proposal
/// that they lack. Which type an index names makes no difference to it.
#[inline(never)]
#[tactic(auto, using(crate::proofs::WrittenHeapTypes::lacking))]
pub fn disallowed<A: Allocator>(stacks: &Stacks<A>, nullable: bool, heap: HeapType) -> OperatorFault
    ensures { IfSome (told_of_ref stacks.now.features 0 (reference_to nullable (heap_of heap)))
        (λ refusal. TellsType refusal result) }
{
    let Some(ty) = RefType::new(nullable, with_first_index(heap)) else {
        return OperatorFault::new(OperatorRule::ValueType);
    };
    match check_ref_type(stacks.features, ty, 0) {
        Err(refusal) => OperatorFault::written_type(refusal),
        Ok(()) => OperatorFault::new(OperatorRule::ValueType),
    }
}

/// The refusal of a written heap type that the module doesn't have, by its type index.
#[inline(never)]
pub fn unknown_type(heap: HeapType) -> OperatorFault {
    let index = match heap {
        HeapType::Concrete(UnpackedIndex::Module(index)) => index,
        HeapType::Exact(UnpackedIndex::Module(index)) => index,
        _ => 0,
    };
    OperatorFault::at(OperatorRule::UnknownType, index)
}
