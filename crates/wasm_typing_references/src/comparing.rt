//! References below an abstract heap type, and `ref.eq`.

ghost use Rattle.std.specs.Prelude.{◌≡◌, ◌≤◌, length};
ghost use Rattle.wasm_typing_control.specs.WasmSpec.MatchingTests.{matches_heap};
ghost use Rattle.wasm_typing_control.specs.WasmSpec.Syntax.{abstract_heap};
ghost use Rattle.wasm_typing_control.specs.WasmReadersTypes.WasmReadersValues.SeenValues.{abstract_heap_of, ref_of};
ghost use Rattle.wasm_typing_control.specs.WasmReadersTypes.WasmReadersValues.declared.indices.UnpackedIndex.{UnpackedIndex};
ghost use Rattle.wasm_typing_control.specs.WasmOperators.References.{ref_eq};
ghost use Rattle.wasm_typing_control.specs.WasmTypingChecks.WasmSpecSteps.Bodies.{Surroundings};
ghost use Rattle.wasm_typing_control.specs.WasmTypingChecks.WasmSpecSteps.Meanings.{is_below_either, agree};
ghost use Rattle.wasm_typing_control.specs.WasmTypingChecks.WasmSpecSteps.Shapes.{reference_shape};
ghost use Rattle.wasm_typing_control.specs.WasmTypingChecks.WasmValidatorResources.Answers.{world};
ghost use Rattle.wasm_typing_control.specs.WasmTypingChecks.WasmTypingStacks.BodyStacks.{state_of, around, below, Kept};
ghost use Rattle.wasm_typing_control.specs.WasmTypingChecks.Steps.{Performs};
ghost use Rattle.wasm_typing_references.specs.SeenReferences.{reference_seen, LookedAt, pop_below};

use crate::referenced::{Referenced, look_reference};
use std::alloc::Allocator;
use wasm_typing_control::operators::operators_plain::NumberType;
use wasm_typing_control::readers_errors::WasmFeatures;
use wasm_typing_control::readers_types::{AbstractHeapType, HeapType, RefType, ValType};
use wasm_typing_control::typing_checks::{OperatorError, OperatorFault, OperatorRule, has};
use wasm_typing_control::typing_stacks::{Stacks, Word};
use wasm_typing_control::validator_resources::WasmModuleResources;

/// Whether what a reference type points to matches an abstract heap type (Core Specification 3.0,
/// Validation, Matching, Heap Types).
#[tactic(auto, using(crate::proofs::ReferenceComparisons::heaps))]
pub fn matches_abstract<T: WasmModuleResources>(
    resources: &T,
    ty: RefType,
    shared: bool,
    heap: AbstractHeapType,
) -> bool
    ensures { result ≡ matches_heap (world (T.context resources.now)) (ref_of ty).heap
        (abstract_heap shared (abstract_heap_of heap)) }
{
    match RefType::new(false, HeapType::Abstract { shared, ty: heap }) {
        Some(bound) => resources.is_subtype(ValType::Ref(ty.as_non_null()), ValType::Ref(bound)),
        None => unreachable!(),
    }
}

/// Whether a reference is below an abstract heap type, shared or not.
#[tactic(auto, using(crate::proofs::ReferenceComparisons::bounds))]
fn is_below<T: WasmModuleResources>(
    resources: &T,
    reference: Referenced,
    heap: AbstractHeapType,
) -> bool
    ensures { (B : Surroundings UnpackedIndex) → result ≡ is_below_either
        (world (T.context resources.now)) B (abstract_heap_of heap) (reference_seen reference) }
{
    match reference {
        Referenced::Known(ty) => {
            let shared = resources.is_shared(ty);
            matches_abstract(resources, ty, shared, heap)
        }
        Referenced::Bottom => true,
        Referenced::Open(open) => {
            match RefType::new(
                false,
                HeapType::Abstract {
                    shared: false,
                    ty: open,
                },
            ) {
                Some(ty) => matches_abstract(resources, ty, false, heap),
                None => unreachable!(),
            }
        }
    }
}

/// The reference below so many operands that are taken already, where it is below an abstract heap
/// type, shared or not, and how many are taken with it (Core Specification 3.0, Appendix,
/// Validation Algorithm).
///
/// # Errors
///
/// Refuses where there is no operand, one that is no reference, and one of another type.
#[tactic(auto, using(crate::proofs::ReferenceComparisons::looks))]
pub fn look_below<A: Allocator, T: WasmModuleResources>(
    stacks: &Stacks<A>,
    resources: &T,
    taken: usize,
    heap: AbstractHeapType,
) -> Result<(Referenced, usize), OperatorFault>
    requires { taken ≤ length (state_of stacks.now).operands }
    ensures { LookedAt result (pop_below (world (T.context resources.now))
        (around stacks.now (T.context resources.now)) (abstract_heap_of heap)
        (below taken (state_of stacks.now))) (state_of stacks.now) }
{
    match look_reference(stacks, taken) {
        Ok((reference, taken)) => {
            if is_below(resources, reference, heap) {
                Ok((reference, taken))
            } else {
                Err(OperatorFault::new(OperatorRule::ReferenceBelow))
            }
        }
        Err(fault) => Err(fault),
    }
}

/// Whether it isn't that one reference is shared and the other not.
fn agree<T: WasmModuleResources>(resources: &T, first: Referenced, second: Referenced) -> bool
    ensures { (B : Surroundings UnpackedIndex) → result ≡ agree (world (T.context resources.now)) B
        (reference_seen first) (reference_seen second) }
{
    match first {
        Referenced::Known(first) => match second {
            Referenced::Known(second) => {
                if resources.is_shared(first) {
                    resources.is_shared(second)
                } else {
                    !resources.is_shared(second)
                }
            }
            Referenced::Bottom => true,
            Referenced::Open(_) => true,
        },
        Referenced::Bottom => true,
        Referenced::Open(_) => true,
    }
}

/// `ref.eq` (Core Specification 3.0, Validation, Instructions, Reference Instructions). Of two
/// references that are shared or not, both are or neither.
///
/// # Errors
///
/// Refuses what isn't two references below `eq`, and two of which one alone is shared.
#[tactic(auto, using(crate::proofs::Cited::acts, crate::proofs::ReferenceComparisons::equals))]
pub fn ref_eq<A: Allocator, T: WasmModuleResources>(
    stacks: &mut Stacks<A>,
    resources: &T,
) -> Result<(), OperatorError>
    ensures took { Performs result (T.context resources.now) (reference_shape ref_eq)
        stacks.old stacks.new }
    ensures same { Kept stacks.old stacks.new }
{
    if !has(stacks, WasmFeatures::GC) {
        return Err(OperatorError::Refused(OperatorFault::new(OperatorRule::Gc)));
    }
    let (first, one) = match look_below(stacks, resources, 0, AbstractHeapType::Eq) {
        Ok(looked) => looked,
        Err(fault) => return Err(OperatorError::Refused(fault)),
    };
    let (second, both) = match look_below(stacks, resources, one, AbstractHeapType::Eq) {
        Ok(looked) => looked,
        Err(fault) => return Err(OperatorError::Refused(fault)),
    };
    if !agree(resources, first, second) {
        return Err(OperatorError::Refused(OperatorFault::new(OperatorRule::Comparable)));
    }
    match stacks.exchange(both, Word::number(NumberType::I32)) {
        Ok(()) => Ok(()),
        Err(_) => Err(OperatorError::OutOfMemory),
    }
}
