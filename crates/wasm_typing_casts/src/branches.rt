//! Branches on casts.

ghost use Rattle.std.specs.Prelude.{◌≡◌, Some, false, if◌then◌else◌};
ghost use Rattle.std.specs.Option.{option_map};
ghost use Rattle.wasm_typing_references.specs.WasmSpec.Syntax.{map_ref, reference};
ghost use Rattle.wasm_typing_references.specs.WasmSpec.ValueTypes.{allows_val};
ghost use Rattle.wasm_typing_references.specs.WasmSpecRules.FeatureFlags.{features_of};
ghost use Rattle.wasm_typing_references.specs.WasmReadersTypes.WasmReadersValues.SeenValues.{ref_of};
ghost use Rattle.wasm_typing_references.specs.WasmOperators.References.{br_on_cast, br_on_cast_fail};
ghost use Rattle.wasm_typing_references.specs.WasmSpecRules.Signatures.{resolve_ref};
ghost use Rattle.wasm_typing_references.specs.WasmTypingChecks.WasmSpecSteps.Meanings.{casts};
ghost use Rattle.wasm_typing_references.specs.WasmTypingChecks.WasmSpecSteps.Shapes.{cast_shape};
ghost use Rattle.wasm_typing_references.specs.WasmTypingChecks.WasmValidatorResources.Answers.{IsWrittenHeap, world, written_index};
ghost use Rattle.wasm_typing_references.specs.WasmTypingChecks.WasmTypingStacks.BodyStacks.{around, Kept};
ghost use Rattle.wasm_typing_references.specs.WasmTypingChecks.Steps.{Performs};
ghost use Rattle.wasm_typing_casts.specs.BranchOperands.{Castable};

use crate::sends::send;
use crate::tops::top_of;
use std::alloc::Allocator;
use wasm_typing_references::readers_errors::WasmFeatures;
use wasm_typing_references::readers_types::{RefType, ValType};
use wasm_typing_references::typing_checks::{OperatorError, OperatorFault, OperatorRule, has};
use wasm_typing_references::typing_stacks::Stacks;
use wasm_typing_references::validator_resources::{WasmModuleResources, check_ref_type};
use wasm_typing_references::{disallowed, matches_abstract, unknown_type};

/// Whether the features allow a reference type as it is written.
#[tactic(auto, using(crate::proofs::CastTargets::allowances))]
fn is_allowed<A: Allocator>(stacks: &Stacks<A>, ty: RefType) -> bool
    ensures { result ≡ allows_val (features_of stacks.now.features)
        (reference (map_ref written_index (ref_of ty))) }
{
    check_ref_type(stacks.features, ty, 0).is_ok()
}

/// A written reference type with an identity in the place of the type index, if the module has that
/// type.
fn resolve_type<T: WasmModuleResources>(resources: &T, ty: RefType) -> Option<RefType>
    requires { IsWrittenHeap (ref_of ty).heap }
    ensures { option_map ref_of result ≡ resolve_ref (T.context resources.now).types
        (map_ref written_index (ref_of ty)) }
{
    let mut named = ty;
    match resources.check_ref_type(&mut named, 0) {
        Ok(()) => Some(named),
        Err(_) => None,
    }
}

/// Whether a reference type, which is written so, may be cast to another. With descriptors a cast
/// goes between types of one hierarchy, and else to a type that matches.
#[tactic(auto, using(crate::proofs::CastTargets::castings))]
fn casts<A: Allocator, T: WasmModuleResources>(
    stacks: &Stacks<A>,
    resources: &T,
    written: RefType,
    from: RefType,
    to: RefType,
) -> bool
    requires written { IsWrittenHeap (ref_of written).heap }
    requires named { Some (ref_of from) ≡ resolve_ref (T.context resources.now).types
        (map_ref written_index (ref_of written)) }
    ensures { result ≡ casts (world (T.context resources.now))
        (around stacks.now (T.context resources.now)) (ref_of from) (ref_of to) }
{
    if has(stacks, WasmFeatures::CUSTOM_DESCRIPTORS) {
        match top_of(resources, written.heap_type()) {
            Some((shared, top)) => matches_abstract(resources, to, shared, top),
            None => false,
        }
    } else {
        resources.is_subtype(ValType::Ref(to), ValType::Ref(from))
    }
}

/// The refusal of a cast to a type that may not be cast to, with the proposal under which it might be.
#[inline(never)]
fn mismatched<A: Allocator, T: WasmModuleResources>(
    stacks: &Stacks<A>,
    resources: &T,
    from: RefType,
    to: RefType,
) -> OperatorFault
    requires { IsWrittenHeap (ref_of from).heap }
{
    if has(stacks, WasmFeatures::CUSTOM_DESCRIPTORS) {
        return OperatorFault::new(OperatorRule::CastTypes);
    }
    match top_of(resources, from.heap_type()) {
        Some((shared, top)) if matches_abstract(resources, to, shared, top) => {
            OperatorFault::new(OperatorRule::CastTypesOfHierarchy)
        }
        _ => OperatorFault::new(OperatorRule::CastTypes),
    }
}

/// The two types of a branch on a cast with identities, where the one may be cast to the other.
#[tactic(auto, using(crate::proofs::Cited::acts, crate::proofs::CastTargets::castables))]
pub(crate) fn cast_types<A: Allocator, T: WasmModuleResources>(
    stacks: &Stacks<A>,
    resources: &T,
    from: RefType,
    to: RefType,
) -> Result<(RefType, RefType), OperatorFault>
    requires from { IsWrittenHeap (ref_of from).heap }
    requires to { IsWrittenHeap (ref_of to).heap }
    ensures { Castable result stacks.now (T.context resources.now)
        (map_ref written_index (ref_of from)) (map_ref written_index (ref_of to)) }
{
    if !has(stacks, WasmFeatures::GC) {
        return Err(OperatorFault::new(OperatorRule::Gc));
    }
    let source_allowed = is_allowed(stacks, from);
    if !source_allowed {
        return Err(disallowed(stacks, from.is_nullable(), from.heap_type()));
    }
    let target_allowed = is_allowed(stacks, to);
    if !target_allowed {
        return Err(disallowed(stacks, to.is_nullable(), to.heap_type()));
    }
    let named_from = match resolve_type(resources, from) {
        Some(ty) => ty,
        None => return Err(unknown_type(from.heap_type())),
    };
    let named_to = match resolve_type(resources, to) {
        Some(ty) => ty,
        None => return Err(unknown_type(to.heap_type())),
    };
    if !casts(stacks, resources, from, named_from, named_to) {
        return Err(mismatched(stacks, resources, from, named_to));
    }
    Ok((named_from, named_to))
}

/// A reference type as it is after a cast to another failed: without null, where the other has it.
pub(crate) fn difference(from: RefType, to: RefType) -> RefType
    ensures { ref_of result ≡ record {
      nullable = if (ref_of to).nullable then false else (ref_of from).nullable;
      heap = (ref_of from).heap;
    } }
{
    if to.is_nullable() {
        from.as_non_null()
    } else {
        from
    }
}

/// `br_on_cast` (Core Specification 3.0, Validation, Instructions, Control Instructions).
///
/// # Errors
///
/// Refuses unknown types, types that the features don't allow, and a type that can't be cast to the
/// other; an unknown label, one whose last type isn't that of the cast, and operands that aren't a
/// reference above the label's other types.
#[tactic(auto, using(crate::proofs::Cited::acts, crate::proofs::CastBranches::kept_on))]
pub fn br_on_cast<A: Allocator, T: WasmModuleResources>(
    stacks: &mut Stacks<A>,
    resources: &T,
    depth: u32,
    from: RefType,
    to: RefType,
) -> Result<(), OperatorError>
    requires from { IsWrittenHeap (ref_of from).heap }
    requires to { IsWrittenHeap (ref_of to).heap }
    ensures took { Performs result (T.context resources.now)
        (cast_shape (br_on_cast depth (map_ref written_index (ref_of from))
        (map_ref written_index (ref_of to)))) stacks.old stacks.new }
    ensures same { Kept stacks.old stacks.new }
{
    match cast_types(stacks, resources, from, to) {
        Ok((from, to)) => {
            let left = difference(from, to);
            send(stacks, resources, depth, to, from, None, left)
        }
        Err(fault) => Err(OperatorError::Refused(fault)),
    }
}

/// `br_on_cast_fail` (Core Specification 3.0, Validation, Instructions, Control Instructions).
///
/// # Errors
///
/// Refuses unknown types, types that the features don't allow, and a type that can't be cast to the
/// other; an unknown label, one whose last type isn't that of a failed cast, and operands that
/// aren't a reference above the label's other types.
#[tactic(auto, using(crate::proofs::Cited::acts, crate::proofs::CastBranches::kept_on))]
pub fn br_on_cast_fail<A: Allocator, T: WasmModuleResources>(
    stacks: &mut Stacks<A>,
    resources: &T,
    depth: u32,
    from: RefType,
    to: RefType,
) -> Result<(), OperatorError>
    requires from { IsWrittenHeap (ref_of from).heap }
    requires to { IsWrittenHeap (ref_of to).heap }
    ensures took { Performs result (T.context resources.now)
        (cast_shape (br_on_cast_fail depth (map_ref written_index (ref_of from))
        (map_ref written_index (ref_of to)))) stacks.old stacks.new }
    ensures same { Kept stacks.old stacks.new }
{
    match cast_types(stacks, resources, from, to) {
        Ok((from, to)) => {
            let sent = difference(from, to);
            send(stacks, resources, depth, sent, from, None, to)
        }
        Err(fault) => Err(OperatorError::Refused(fault)),
    }
}
