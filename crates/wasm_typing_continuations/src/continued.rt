//! Continuation types, and the functions that they are of.

ghost use Rattle.std.specs.Prelude.{◌≡◌, false, Some, None, IfOk, OnErr};
ghost use Rattle.std.specs.Option.{option_map};
ghost use Rattle.wasm_typing_control.specs.WasmSpec.Syntax.{concrete};
ghost use Rattle.wasm_typing_control.specs.WasmReadersTypes.WasmReadersValues.SeenValues.{val_of, index_of};
ghost use Rattle.wasm_typing_control.specs.WasmReadersTypes.SeenTypes.{sub_of};
ghost use Rattle.wasm_typing_control.specs.WasmTypingChecks.WasmSpecSteps.Meanings.{ref_to, cont_of};
ghost use Rattle.wasm_typing_control.specs.WasmSpecRules.Signatures.{signature_of};
ghost use Rattle.wasm_typing_control.specs.WasmTypingChecks.WasmValidatorResources.Answers.{signature_seen};
ghost use Rattle.wasm_typing_control.specs.WasmTypingChecks.WasmTypingStacks.SeenTypeWords.{val_in};
ghost use Rattle.wasm_typing_control.specs.WasmTypingChecks.SeenTypes.{types_seen};
ghost use Rattle.wasm_typing_continuations.specs.ContinuationLookups.{continuation_in, type_named, function_named, continuation_named, continued_in, last_continued};

use std::alloc::Allocator;
use wasm_typing_control::readers_types::{
    CompositeInnerType, FuncType, PackedIndex, RefType, SubType, UnpackedIndex, ValType,
};
use wasm_typing_control::typing_checks::{OperatorFault, OperatorRule, ValTypes, reaches};
use wasm_typing_control::typing_stacks::{Stacks, TypeWord};
use wasm_typing_control::validator_resources::WasmModuleResources;
use wasm_typing_references::last_type;

/// The identity of the function type that the continuation type of this type index is of.
///
/// # Errors
///
/// Refuses an unknown type, one that isn't a continuation's, and one that isn't shared where the body
/// is a shared function's.
#[tactic(auto, using(crate::proofs::ContinuationTypes::reaches))]
pub(crate) fn continuation_reached<A: Allocator, T: WasmModuleResources>(
    stacks: &Stacks<A>,
    resources: &T,
    type_index: u32,
) -> Result<PackedIndex, OperatorFault>
    ensures ok { IfOk result (λ i. continuation_in (T.context resources.now) stacks.now.is_shared
        type_index ≡ Some (index_of i)) }
    ensures err { OnErr result (continuation_in (T.context resources.now)
        stacks.now.is_shared type_index ≡ None) }
{
    match resources.sub_type_at(type_index) {
        Some(ty) => match &ty.composite_type.inner {
            CompositeInnerType::Cont(function) => {
                if reaches(stacks, ty.composite_type.shared) {
                    Ok(function.0)
                } else {
                    Err(OperatorFault::at(OperatorRule::Shared, type_index))
                }
            }
            _ => Err(OperatorFault::at(OperatorRule::NotAContinuation, type_index)),
        },
        None => Err(OperatorFault::at(OperatorRule::UnknownType, type_index)),
    }
}

/// The function type of this identity, if it is one.
#[tactic(auto, using(crate::proofs::ContinuationTypes::types))]
pub(crate) fn function_of<'a, T: WasmModuleResources>(
    resources: &'a T,
    identity: PackedIndex,
) -> Option<&'a FuncType<T::A>>
    ensures { option_map (λ f. signature_seen f.now) result
        ≡ function_named (T.context resources.now) (index_of identity) }
{
    match type_of(resources, identity.unpack()) {
        Some(ty) => function_alone(ty),
        None => None,
    }
}

/// The type of this identity, if there is one.
#[tactic(auto, using(crate::proofs::ContinuationTypes::types))]
fn type_of<'a, T: WasmModuleResources>(
    resources: &'a T,
    identity: UnpackedIndex,
) -> Option<&'a SubType<T::A>>
    ensures { option_map (λ t. sub_of t.now) result
        ≡ type_named (T.context resources.now) identity }
{
    resources.sub_type_of(identity)
}

/// The function type that a type is, if it is one.
fn function_alone<A: Allocator>(ty: &SubType<A>) -> Option<&FuncType<A>>
    ensures { option_map (λ f. signature_seen f.now) result ≡ signature_of (sub_of ty.now).comp }
{
    match &ty.composite_type.inner {
        CompositeInnerType::Func(signature) => Some(signature),
        _ => None,
    }
}

/// The identity of the function type that a type is a continuation type of, if it is one.
fn continuation_alone<A: Allocator>(ty: &SubType<A>) -> Option<PackedIndex>
    ensures { option_map index_of result ≡ cont_of (sub_of ty.now).comp }
{
    match &ty.composite_type.inner {
        CompositeInnerType::Cont(function) => Some(function.0),
        _ => None,
    }
}

/// What the continuations of the type of this identity take and give, if it is a continuation type.
#[tactic(auto, using(crate::proofs::ContinuationTypes::types))]
fn continuation_of<'a, T: WasmModuleResources>(
    resources: &'a T,
    identity: UnpackedIndex,
) -> Option<&'a FuncType<T::A>>
    ensures { option_map (λ f. signature_seen f.now) result
        ≡ continuation_named (T.context resources.now) identity }
{
    match type_of(resources, identity) {
        Some(ty) => match continuation_alone(ty) {
            Some(function) => function_of(resources, function),
            None => None,
        },
        None => None,
    }
}

/// What the continuation that a value type refers to takes and gives, if it refers to one.
#[tactic(auto, using(crate::proofs::ContinuationTypes::referents))]
pub(crate) fn continued_by<'a, T: WasmModuleResources>(
    resources: &'a T,
    ty: ValType,
) -> Option<&'a FuncType<T::A>>
    ensures { option_map (λ f. signature_seen f.now) result
        ≡ continued_in (T.context resources.now) (val_of ty) }
{
    match ty {
        ValType::Ref(reference) => match reference.type_index() {
            Some(identity) => continuation_of(resources, identity),
            None => None,
        },
        ValType::I32 | ValType::I64 | ValType::F32 | ValType::F64 | ValType::V128 => None,
    }
}

/// What the continuation that the last of some types refers to takes and gives, if it refers to one.
#[tactic(auto, using(crate::proofs::ContinuationTypes::referents))]
pub(crate) fn continued_last<'a, 'b, T: WasmModuleResources>(
    resources: &'a T,
    types: ValTypes<'b>,
) -> Option<&'a FuncType<T::A>>
    ensures { option_map (λ f. signature_seen f.now) result
        ≡ last_continued (T.context resources.now) (types_seen types.entry) }
{
    match last_type(types) {
        Some(last) => continued_by(resources, last.ty()),
        None => None,
    }
}

/// A reference to a value of a type.
pub(crate) fn non_null_to(identity: PackedIndex) -> TypeWord
    ensures { val_in result ≡ ref_to false (concrete (index_of identity)) }
{
    TypeWord::reference(RefType::concrete(false, identity))
}
