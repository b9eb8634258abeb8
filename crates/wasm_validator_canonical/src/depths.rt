//! The depths of types, kept for the types that extend them.

ghost use Rattle.std.specs.Prelude.{◌≡◌, ◌<◌, ℕ, length, IfSome, IsSome, IsTrue, OnOk};
ghost use Rattle.std.specs.List.{All};
ghost use Rattle.wasm_spec.specs.SupertypeOrder.{IsDepth};
ghost use Rattle.wasm_validator_type_list.specs.DeclarationsById.{declares};
ghost use Rattle.wasm_validator_type_list.specs.WasmValidatorTypeGroups.Elements.{ids_left};
ghost use Rattle.wasm_validator_type_list.specs.ListViews.{types_in};
ghost use Rattle.wasm_validator_type_list.specs.GroupOrder.{AreListable};
ghost use Rattle.wasm_validator_type_list.specs.Depths.{depth_of};
ghost use Rattle.wasm_validator_canonical.specs.Depths.{HasDepthAbove, KeepsDepth, StillKept, FitsByte};

use std::alloc::{AllocError, Allocator};
use wasm_readers_types::CoreTypeId;
use wasm_validator_type_list::{RecGroupElements, TypeList};

/// The number of proper ancestors of the type, where it extends nothing or the list keeps that of
/// what it extends.
fn known_depth<A: Allocator + Copy>(types: &TypeList<A>, id: CoreTypeId) -> Option<u8>
    requires { id.index < length (types_in types.now) }
    ensures right { IfSome result (IsDepth (declares types.now.groups) id.index) }
    ensures known { FitsByte types.now id.index → HasDepthAbove types.now id.index → IsSome result }
{
    match types.supertype_of(id) {
        Some(extended) => match types.subtyping_depth(extended) {
            Some(depth) => depth.checked_add(1),
            None => None,
        },
        None => Some(0),
    }
}

/// Keeps the depth of the type, where none is kept and it is known.
///
/// # Errors
///
/// Refused where memory is.
fn keep_depth<A: Allocator + Copy>(
    types: &mut TypeList<A>,
    id: CoreTypeId,
) -> Result<(), AllocError>
    requires open { IsTrue types.old.is_open }
    requires there { id.index < length (types_in types.old) }
    requires fits { FitsByte types.old id.index }
    ensures kept { OnOk result (KeepsDepth types.new id.index) }
    ensures others { (other : ℕ) → (other ≡ id.index → ⊥)
        → depth_of types.new.depths other ≡ depth_of types.old.depths other }
    ensures earlier { StillKept types.old types.new }
    ensures same_groups { types.new.groups ≡ types.old.groups }
    ensures same_open { types.new.is_open ≡ types.old.is_open }
    ensures same_mode { types.new.is_canonical ≡ types.old.is_canonical }
{
    match types.subtyping_depth(id) {
        Some(_) => Ok(()),
        None => match known_depth(types, id) {
            Some(depth) => types.set_subtyping_depth(id, depth),
            None => Ok(()),
        },
    }
}

/// Keeps the depths of the types with these ids, where none is kept: the numbers of their proper
/// ancestors, so that those of a type that extends one of them needn't be counted (Core
/// Specification 3.0, Validation, Matching, Defined Types). The types of the list stay as they are.
///
/// # Errors
///
/// Refused where memory is.
pub(crate) fn keep_depths<A: Allocator + Copy>(
    types: &mut TypeList<A>,
    elements: RecGroupElements,
) -> Result<(), AllocError>
    requires open { IsTrue types.old.is_open }
    requires there { All (λ id. id < length (types_in types.old)) (ids_left elements) }
    requires fits { All (FitsByte types.old) (ids_left elements) }
    requires listable { AreListable types.old.groups }
    ensures kept { OnOk result (All (KeepsDepth types.new) (ids_left elements)) }
    ensures earlier { StillKept types.old types.new }
    ensures same_groups { types.new.groups ≡ types.old.groups }
    ensures same_open { types.new.is_open ≡ types.old.is_open }
    ensures same_mode { types.new.is_canonical ≡ types.old.is_canonical }
{
    let mut elements = elements;
    'ids: while let Some(id) = elements.next() {
        match keep_depth(types, id) {
            Ok(()) => {}
            Err(error) => return Err(error),
        }
    }
    Ok(())
}
