//! Conversions of references, and unboxed integers.

ghost use Rattle.std.specs.Prelude.{◌≡◌, ◌∷◌, [], true, false};
ghost use Rattle.wasm_typing_references.specs.WasmSpec.Syntax.{abstract_heap, i32};
ghost use Rattle.wasm_typing_references.specs.WasmReadersTypes.WasmReadersValues.SeenValues.{abstract_heap_of};
ghost use Rattle.wasm_typing_references.specs.WasmReadersTypes.WasmReadersValues.declared.indices.UnpackedIndex.{UnpackedIndex};
ghost use Rattle.wasm_typing_references.specs.WasmOperators.WasmOperatorsPlain.declared.conversions.ConversionOperator.TheVariants.{AnyConvertExtern, ExternConvertAny, RefI31, I31GetS, RefI31Shared};
ghost use Rattle.wasm_typing_references.specs.WasmTypingChecks.WasmSpecSteps.Actions.{has as has_check, gc, allows};
ghost use Rattle.wasm_typing_references.specs.WasmTypingChecks.WasmSpecSteps.Bodies.{Surroundings};
ghost use Rattle.wasm_typing_references.specs.WasmTypingChecks.WasmSpecSteps.Meanings.{converted};
ghost use Rattle.wasm_typing_references.specs.WasmTypingChecks.WasmSpecSteps.Shapes.{conversion_shape, converting, plain, one, reference_to, small_integer};
ghost use Rattle.wasm_typing_references.specs.WasmTypingChecks.WasmValidatorResources.Answers.{world};
ghost use Rattle.wasm_typing_references.specs.WasmTypingChecks.WasmTypingStacks.SeenOperands.{operand_of};
ghost use Rattle.wasm_typing_references.specs.WasmTypingChecks.WasmTypingStacks.BodyStacks.{Kept};
ghost use Rattle.wasm_typing_references.specs.WasmTypingChecks.Steps.{Performs};
ghost use Rattle.wasm_typing_references.specs.SeenReferences.{reference_seen};

use crate::tops::abstract_to;
use std::alloc::Allocator;
use wasm_typing_references::operators::operators_plain::NumberType;
use wasm_typing_references::readers_errors::WasmFeatures;
use wasm_typing_references::readers_types::{AbstractHeapType, HeapType};
use wasm_typing_references::typing_checks::{
    OperatorError, OperatorFault, OperatorRule, Takes, ValTypes, has, plain,
};
use wasm_typing_references::typing_stacks::{Stacks, TypeWord, Word};
use wasm_typing_references::validator_resources::WasmModuleResources;
use wasm_typing_references::{Referenced, allows_heap, disallowed, look_below};

/// A reference of another hierarchy, null and shared as this one.
#[tactic(auto, using(crate::proofs::ReferenceConversions::words))]
fn word_of_hierarchy<T: WasmModuleResources>(
    resources: &T,
    heap: AbstractHeapType,
    reference: Referenced,
) -> Word
    ensures { (B : Surroundings UnpackedIndex) → operand_of result ≡ converted
        (world (T.context resources.now)) B (abstract_heap_of heap) (reference_seen reference) }
{
    match reference {
        Referenced::Known(ty) => {
            let ty = abstract_to(ty.is_nullable(), resources.is_shared(ty), heap);
            Word::known(TypeWord::reference(ty))
        }
        Referenced::Bottom => Word::open(heap),
        Referenced::Open(_) => Word::open(heap),
    }
}

/// Turns a reference below one abstract heap type into one to another.
#[tactic(auto, using(crate::proofs::Cited::acts, crate::proofs::ReferenceConversions::converts))]
fn convert<A: Allocator, T: WasmModuleResources>(
    stacks: &mut Stacks<A>,
    resources: &T,
    from: AbstractHeapType,
    to: AbstractHeapType,
) -> Result<(), OperatorError>
    ensures took { Performs result (T.context resources.now)
        (converting
        (has_check gc ∷ allows (reference_to true (abstract_heap false (abstract_heap_of to))) ∷ [])
        (abstract_heap_of from) (abstract_heap_of to)) stacks.old stacks.new }
    ensures same { Kept stacks.old stacks.new }
{
    if !has(stacks, WasmFeatures::GC) {
        return Err(OperatorError::Refused(OperatorFault::new(OperatorRule::Gc)));
    }
    let target = HeapType::Abstract {
        shared: false,
        ty: to,
    };
    if !allows_heap(stacks, true, target) {
        return Err(OperatorError::Refused(disallowed(stacks, true, target)));
    }
    match look_below(stacks, resources, 0, from) {
        Ok((reference, taken)) => {
            match stacks.exchange(taken, word_of_hierarchy(resources, to, reference)) {
                Ok(()) => Ok(()),
                Err(_) => Err(OperatorError::OutOfMemory),
            }
        }
        Err(fault) => Err(OperatorError::Refused(fault)),
    }
}

/// `any.convert_extern` (Core Specification 3.0, Validation, Instructions, Reference Instructions).
///
/// # Errors
///
/// Refuses what is no reference below `extern`.
pub fn any_convert_extern<A: Allocator, T: WasmModuleResources>(
    stacks: &mut Stacks<A>,
    resources: &T,
) -> Result<(), OperatorError>
    ensures took { Performs result (T.context resources.now) (conversion_shape AnyConvertExtern)
        stacks.old stacks.new }
    ensures same { Kept stacks.old stacks.new }
{
    let from = AbstractHeapType::Extern;
    convert(stacks, resources, from, AbstractHeapType::Any)
}

/// `extern.convert_any` (Core Specification 3.0, Validation, Instructions, Reference Instructions).
///
/// # Errors
///
/// Refuses what is no reference below `any`.
pub fn extern_convert_any<A: Allocator, T: WasmModuleResources>(
    stacks: &mut Stacks<A>,
    resources: &T,
) -> Result<(), OperatorError>
    ensures took { Performs result (T.context resources.now) (conversion_shape ExternConvertAny)
        stacks.old stacks.new }
    ensures same { Kept stacks.old stacks.new }
{
    let to = AbstractHeapType::Extern;
    convert(stacks, resources, AbstractHeapType::Any, to)
}

/// Makes a reference of an integer, where the features allow its type.
#[tactic(auto, using(crate::proofs::Cited::acts))]
fn box_integer<A: Allocator, T: WasmModuleResources>(
    stacks: &mut Stacks<A>,
    resources: &T,
    shared: bool,
) -> Result<(), OperatorError>
    ensures took { Performs result (T.context resources.now)
        (plain (allows (small_integer shared) ∷ []) (one i32) (one (small_integer shared)))
        stacks.old stacks.new }
    ensures same { Kept stacks.old stacks.new }
{
    let heap = HeapType::Abstract {
        shared,
        ty: AbstractHeapType::I31,
    };
    if !allows_heap(stacks, false, heap) {
        return Err(OperatorError::Refused(disallowed(stacks, false, heap)));
    }
    plain(
        stacks,
        resources,
        Takes::One(TypeWord::number(NumberType::I32)),
        ValTypes::One(TypeWord::reference(abstract_to(false, shared, AbstractHeapType::I31))),
    )
}

/// `ref.i31` (Core Specification 3.0, Validation, Instructions, Reference Instructions).
///
/// # Errors
///
/// Refuses what is no `i32`.
#[tactic(auto, using(crate::proofs::Cited::acts))]
pub fn ref_i31<A: Allocator, T: WasmModuleResources>(
    stacks: &mut Stacks<A>,
    resources: &T,
) -> Result<(), OperatorError>
    ensures took { Performs result (T.context resources.now) (conversion_shape RefI31)
        stacks.old stacks.new }
    ensures same { Kept stacks.old stacks.new }
{
    if !has(stacks, WasmFeatures::GC) {
        return Err(OperatorError::Refused(OperatorFault::new(OperatorRule::Gc)));
    }
    box_integer(stacks, resources, false)
}

/// `ref.i31_shared` (the proposal for shared references).
///
/// # Errors
///
/// Refuses what is no `i32`.
#[tactic(auto, using(crate::proofs::Cited::acts))]
pub fn ref_i31_shared<A: Allocator, T: WasmModuleResources>(
    stacks: &mut Stacks<A>,
    resources: &T,
) -> Result<(), OperatorError>
    ensures took { Performs result (T.context resources.now) (conversion_shape RefI31Shared)
        stacks.old stacks.new }
    ensures same { Kept stacks.old stacks.new }
{
    if !has(stacks, WasmFeatures::SHARED_EVERYTHING_THREADS) {
        return Err(OperatorError::Refused(OperatorFault::new(OperatorRule::SharedEverything)));
    }
    box_integer(stacks, resources, true)
}

/// `i31.get_s`, and `i31.get_u` (Core Specification 3.0, Validation, Instructions, Reference
/// Instructions).
///
/// # Errors
///
/// Refuses what is no reference below `i31`, shared or not.
#[tactic(auto, using(crate::proofs::Cited::acts, crate::proofs::ReferenceConversions::measures))]
pub fn i31_get<A: Allocator, T: WasmModuleResources>(
    stacks: &mut Stacks<A>,
    resources: &T,
) -> Result<(), OperatorError>
    ensures took { Performs result (T.context resources.now) (conversion_shape I31GetS)
        stacks.old stacks.new }
    ensures same { Kept stacks.old stacks.new }
{
    if !has(stacks, WasmFeatures::GC) {
        return Err(OperatorError::Refused(OperatorFault::new(OperatorRule::Gc)));
    }
    match look_below(stacks, resources, 0, AbstractHeapType::I31) {
        Ok((_, taken)) => match stacks.exchange(taken, Word::number(NumberType::I32)) {
            Ok(()) => Ok(()),
            Err(_) => Err(OperatorError::OutOfMemory),
        },
        Err(fault) => Err(OperatorError::Refused(fault)),
    }
}
