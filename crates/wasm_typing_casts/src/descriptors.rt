//! `ref.get_desc`, and casts and branches by descriptors (the proposal for custom descriptors).

ghost use Rattle.std.specs.Prelude.{◌≡◌, true, false, is_none};
ghost use Rattle.std.specs.Option.{option_map};
ghost use Rattle.wasm_typing_references.specs.WasmSpec.Syntax.{concrete, exact, map_heap, map_ref};
ghost use Rattle.wasm_typing_references.specs.WasmReadersTypes.WasmReadersValues.SeenValues.{heap_of, index_of, ref_of};
ghost use Rattle.wasm_typing_references.specs.WasmOperators.References.{ref_get_desc, ref_cast_desc_eq, br_on_cast_desc_eq, br_on_cast_desc_eq_fail, reference_to};
ghost use Rattle.wasm_typing_references.specs.WasmSpecRules.FeatureFlags.{features_of};
ghost use Rattle.wasm_typing_references.specs.WasmTypingChecks.WasmSpecSteps.Meanings.{ref_to};
ghost use Rattle.wasm_typing_references.specs.WasmTypingChecks.WasmSpecSteps.Shapes.{cast_shape};
ghost use Rattle.wasm_typing_references.specs.WasmTypingChecks.WasmValidatorResources.Answers.{IsWrittenHeap, written_index};
ghost use Rattle.wasm_typing_references.specs.WasmTypingChecks.WasmTypingStacks.BodyStacks.{Kept};
ghost use Rattle.wasm_typing_references.specs.WasmTypingChecks.WasmTypingStacks.SeenTypeWords.{val_in};
ghost use Rattle.wasm_typing_references.specs.WasmTypingChecks.Steps.{Performs};
ghost use Rattle.wasm_typing_casts.specs.CastDescriptors.{descriptor_declared, descriptor_named, serves_descriptors, Described};

use crate::branches::{cast_types, difference};
use crate::sends::send;
use crate::tops::{abstract_to, can_be_tested, top_of};
use std::alloc::Allocator;
use wasm_typing_references::readers_errors::WasmFeatures;
use wasm_typing_references::readers_types::{HeapType, PackedIndex, RefType, UnpackedIndex};
use wasm_typing_references::typing_checks::{
    OperatorError, OperatorFault, OperatorRule, Takes, ValTypes, check_type, exact_or_null, has,
    identity, nullable as or_null, plain, reaches,
};
use wasm_typing_references::typing_stacks::{Stacks, TypeWord};
use wasm_typing_references::validator_resources::WasmModuleResources;
use wasm_typing_references::{allows_heap, disallowed, resolve, unknown_type};

/// The descriptor that the type of a type index declares, if there is such a type and it has one.
#[tactic(auto, using(crate::proofs::DescriptorTypes::descriptors))]
fn descriptor_declared<T: WasmModuleResources>(
    resources: &T,
    type_index: u32,
) -> Option<PackedIndex>
    ensures { option_map index_of result
        ≡ descriptor_declared (T.context resources.now) type_index }
{
    match resources.sub_type_at(type_index) {
        Some(sub) => sub.composite_type.descriptor_idx,
        None => None,
    }
}

/// References, or null, to the descriptor of the type of a type index.
#[tactic(auto, using(crate::proofs::DescriptorTypes::descriptors))]
fn descriptor_of<T: WasmModuleResources>(resources: &T, type_index: u32) -> Option<TypeWord>
    ensures { option_map val_in result ≡ option_map (ref_to true)
        (descriptor_named (T.context resources.now) (concrete type_index)) }
{
    match descriptor_declared(resources, type_index) {
        Some(descriptor) => Some(or_null(descriptor)),
        None => None,
    }
}

/// References, or null, to exactly the descriptor of the type of a type index.
#[tactic(auto, using(crate::proofs::DescriptorTypes::descriptors))]
fn exact_descriptor_of<T: WasmModuleResources>(resources: &T, type_index: u32) -> Option<TypeWord>
    ensures { option_map val_in result ≡ option_map (ref_to true)
        (descriptor_named (T.context resources.now) (exact type_index)) }
{
    match descriptor_declared(resources, type_index) {
        Some(descriptor) => Some(exact_or_null(descriptor)),
        None => None,
    }
}

/// References, or null, to the descriptor of the type that a written heap type names, exactly where
/// it does so.
#[tactic(auto, using(crate::proofs::DescriptorTypes::descriptors))]
fn descriptor_for<T: WasmModuleResources>(resources: &T, heap: HeapType) -> Option<TypeWord>
    requires { IsWrittenHeap (heap_of heap) }
    ensures { option_map val_in result ≡ option_map (ref_to true)
        (descriptor_named (T.context resources.now) (map_heap written_index (heap_of heap))) }
{
    match heap {
        HeapType::Abstract { shared: _, ty: _ } => None,
        HeapType::Concrete(index) => match index {
            UnpackedIndex::Module(type_index) => descriptor_of(resources, type_index),
            UnpackedIndex::RecGroup(_) => None,
            UnpackedIndex::Id(_) => None,
        },
        HeapType::Exact(index) => match index {
            UnpackedIndex::Module(type_index) => exact_descriptor_of(resources, type_index),
            UnpackedIndex::RecGroup(_) => None,
            UnpackedIndex::Id(_) => None,
        },
    }
}

/// The refusal of an operator of this number behind `0xfb` without one of the features that it needs.
#[inline(never)]
fn not_served<A: Allocator>(stacks: &Stacks<A>, number: u32) -> Option<OperatorFault>
    ensures { is_none result ≡ serves_descriptors (features_of stacks.now.features) }
{
    if !has(stacks, WasmFeatures::DESCRIPTOR_OPERATORS) {
        return Some(OperatorFault::at(OperatorRule::OpcodeBehind(0xfb), number));
    }
    if !has(stacks, WasmFeatures::CUSTOM_DESCRIPTORS) {
        return Some(OperatorFault::new(OperatorRule::CustomDescriptors));
    }
    None
}

/// The refusal of a cast by descriptors to a heap type that has none.
#[inline(never)]
fn undescribed(heap: HeapType) -> OperatorFault {
    match heap {
        HeapType::Abstract { shared: _, ty: _ } => OperatorFault::new(OperatorRule::CastToAbstract),
        _ => OperatorFault::new(OperatorRule::CastToUndescribed),
    }
}

/// `ref.cast_desc_eq` (the proposal for custom descriptors, Validation), to a type with null or
/// without.
///
/// # Errors
///
/// Refuses it without the features that it needs (`OpcodeBehind`, `CustomDescriptors`, `Gc`);
/// an unknown type, one that the features don't allow, an abstract one (`CastToAbstract`), one
/// without a descriptor (`CastToUndescribed`), an operand that isn't the type's descriptor, and one
/// below it of another hierarchy.
#[tactic(auto, using(crate::proofs::Cited::acts, crate::proofs::HierarchyTops::tests, crate::proofs::Cited::describes, crate::proofs::Cited::written))]
pub fn ref_cast_desc_eq<A: Allocator, T: WasmModuleResources>(
    stacks: &mut Stacks<A>,
    resources: &T,
    nullable: bool,
    heap: HeapType,
) -> Result<(), OperatorError>
    requires { IsWrittenHeap (heap_of heap) }
    ensures took { Performs result (T.context resources.now)
        (cast_shape (ref_cast_desc_eq (reference_to nullable (map_heap written_index (heap_of heap)))))
        stacks.old stacks.new }
    ensures same { Kept stacks.old stacks.new }
{
    if let Some(fault) = not_served(stacks, if nullable { 36 } else { 35 }) {
        return Err(OperatorError::Refused(fault));
    }
    if !has(stacks, WasmFeatures::GC) {
        return Err(OperatorError::Refused(OperatorFault::new(OperatorRule::Gc)));
    }
    if !allows_heap(stacks, nullable, heap) {
        return Err(OperatorError::Refused(disallowed(stacks, nullable, heap)));
    }
    let (shared, top) = match top_of(resources, heap) {
        Some(top) => top,
        None => return Err(OperatorError::Refused(unknown_type(heap))),
    };
    let descriptor = match descriptor_for(resources, heap) {
        Some(descriptor) => descriptor,
        None => return Err(OperatorError::Refused(undescribed(heap))),
    };
    if !can_be_tested(top) {
        return Err(OperatorError::Refused(OperatorFault::new(OperatorRule::ContinuationTypes)));
    }
    let top = TypeWord::reference(abstract_to(true, shared, top));
    match resolve(resources, nullable, heap) {
        Some(ty) => plain(
            stacks,
            resources,
            Takes::Two(top, descriptor),
            ValTypes::One(TypeWord::reference(ty)),
        ),
        None => Err(OperatorError::Refused(unknown_type(heap))),
    }
}

/// `ref.get_desc` (the proposal for custom descriptors, Validation): a reference to exactly a type
/// gives one to exactly its descriptor, and any other reference to the type one to the descriptor.
///
/// # Errors
///
/// Refuses it without the features that it needs (`OpcodeBehind`, `CustomDescriptors`); an unknown
/// type, one that isn't shared where the body is a shared function's, one without a descriptor
/// (`UndescribedType`), and an operand that is no reference to it.
#[tactic(auto, using(crate::proofs::Cited::acts, crate::proofs::DescriptorTypes::gets))]
pub fn ref_get_desc<A: Allocator, T: WasmModuleResources>(
    stacks: &mut Stacks<A>,
    resources: &T,
    type_index: u32,
) -> Result<(), OperatorError>
    ensures took { Performs result (T.context resources.now) (cast_shape (ref_get_desc type_index))
        stacks.old stacks.new }
    ensures same { Kept stacks.old stacks.new }
{
    if let Some(fault) = not_served(stacks, 34) {
        return Err(OperatorError::Refused(fault));
    }
    let Some(sub) = resources.sub_type_at(type_index) else {
        return Err(OperatorError::Refused(OperatorFault::at(
            OperatorRule::UnknownType,
            type_index,
        )));
    };
    if !reaches(stacks, sub.composite_type.shared) {
        return Err(OperatorError::Refused(OperatorFault::at(OperatorRule::Shared, type_index)));
    }
    let Some(descriptor) = sub.composite_type.descriptor_idx else {
        let fault = OperatorFault::at(OperatorRule::UndescribedType, type_index);
        return Err(OperatorError::Refused(fault));
    };
    let Some(described) = identity(resources, type_index) else {
        return Err(OperatorError::Refused(OperatorFault::at(
            OperatorRule::UnknownType,
            type_index,
        )));
    };
    let exactly = exact_or_null(described);
    match check_type(stacks, resources, 0, exactly) {
        Ok(_) => plain(
            stacks,
            resources,
            Takes::One(exactly),
            ValTypes::One(TypeWord::reference(exact_to(descriptor))),
        ),
        Err(_) => plain(
            stacks,
            resources,
            Takes::One(or_null(described)),
            ValTypes::One(TypeWord::reference(RefType::concrete(false, descriptor))),
        ),
    }
}

/// A reference to a value of exactly a type.
fn exact_to(identity: PackedIndex) -> RefType
    ensures { ref_of result ≡ record { nullable = false; heap = exact (index_of identity) } }
{
    RefType::new(false, HeapType::Exact(identity.unpack())).unwrap()
}

/// The two types of a branch on a cast by descriptors with identities, where the one may be cast to
/// the other, and the descriptor that is asked for.
#[tactic(auto, using(crate::proofs::Cited::acts, crate::proofs::DescriptorTypes::describes))]
fn branch_types<A: Allocator, T: WasmModuleResources>(
    stacks: &Stacks<A>,
    resources: &T,
    number: u32,
    from: RefType,
    to: RefType,
) -> Result<(RefType, RefType, TypeWord), OperatorFault>
    requires from { IsWrittenHeap (ref_of from).heap }
    requires to { IsWrittenHeap (ref_of to).heap }
    ensures { Described result stacks.now (T.context resources.now)
        (map_ref written_index (ref_of from)) (map_ref written_index (ref_of to)) }
{
    if let Some(fault) = not_served(stacks, number) {
        return Err(fault);
    }
    let (named_from, named_to) = match cast_types(stacks, resources, from, to) {
        Ok(types) => types,
        Err(fault) => return Err(fault),
    };
    match descriptor_for(resources, to.heap_type()) {
        Some(descriptor) => Ok((named_from, named_to, descriptor)),
        None => Err(undescribed(to.heap_type())),
    }
}

/// `br_on_cast_desc_eq` (the proposal for custom descriptors, Validation).
///
/// # Errors
///
/// Refuses what `br_on_cast` refuses; a type without a descriptor, and a descriptor that isn't the
/// type's.
#[tactic(auto, using(crate::proofs::Cited::acts, crate::proofs::CastBranches::described_on))]
pub fn br_on_cast_desc_eq<A: Allocator, T: WasmModuleResources>(
    stacks: &mut Stacks<A>,
    resources: &T,
    depth: u32,
    from: RefType,
    to: RefType,
) -> Result<(), OperatorError>
    requires from { IsWrittenHeap (ref_of from).heap }
    requires to { IsWrittenHeap (ref_of to).heap }
    ensures took { Performs result (T.context resources.now)
        (cast_shape (br_on_cast_desc_eq depth (map_ref written_index (ref_of from))
        (map_ref written_index (ref_of to)))) stacks.old stacks.new }
    ensures same { Kept stacks.old stacks.new }
{
    match branch_types(stacks, resources, 37, from, to) {
        Ok((from, to, descriptor)) => {
            let left = difference(from, to);
            send(stacks, resources, depth, to, from, Some(descriptor), left)
        }
        Err(fault) => Err(OperatorError::Refused(fault)),
    }
}

/// `br_on_cast_desc_eq_fail` (the proposal for custom descriptors, Validation).
///
/// # Errors
///
/// Refuses what `br_on_cast_fail` refuses; a type without a descriptor, and a descriptor that isn't
/// the type's.
#[tactic(auto, using(crate::proofs::Cited::acts, crate::proofs::CastBranches::described_on))]
pub fn br_on_cast_desc_eq_fail<A: Allocator, T: WasmModuleResources>(
    stacks: &mut Stacks<A>,
    resources: &T,
    depth: u32,
    from: RefType,
    to: RefType,
) -> Result<(), OperatorError>
    requires from { IsWrittenHeap (ref_of from).heap }
    requires to { IsWrittenHeap (ref_of to).heap }
    ensures took { Performs result (T.context resources.now)
        (cast_shape (br_on_cast_desc_eq_fail depth (map_ref written_index (ref_of from))
        (map_ref written_index (ref_of to)))) stacks.old stacks.new }
    ensures same { Kept stacks.old stacks.new }
{
    match branch_types(stacks, resources, 38, from, to) {
        Ok((from, to, descriptor)) => {
            let sent = difference(from, to);
            send(stacks, resources, depth, sent, from, Some(descriptor), to)
        }
        Err(fault) => Err(OperatorError::Refused(fault)),
    }
}
