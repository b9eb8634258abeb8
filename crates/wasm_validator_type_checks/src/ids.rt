//! Where the references of a type in a list lead.

ghost use Rattle.std.specs.Prelude.{◌≡◌, ◌<◌, length, slice_index_or, option_map, IfSome};
ghost use Rattle.std.specs.Bool.{Decides};
ghost use Rattle.wasm_readers_types.specs.WasmReadersValues.SeenValues.{index_of};
ghost use Rattle.wasm_spec.specs.SupertypeOrder.{supertype_of, descriptor_of, described_by};
ghost use Rattle.wasm_readers_types.specs.declared.types.SubType.{SubType};
ghost use Rattle.wasm_validator_type_list.specs.GroupOrder.{AreListable};
ghost use Rattle.wasm_validator_type_list.specs.ListViews.{types_in};
ghost use Rattle.wasm_validator_type_list.specs.DeclarationsById.{declares};
ghost use Rattle.wasm_validator_type_list.specs.GroupTypes.{IsKnownIn};
ghost use Rattle.wasm_validator_type_checks.specs.TypesById.{IsListed, numbered, IsIn, leads_packed};

use std::alloc::Allocator;
use wasm_readers_types::{CoreTypeId, PackedIndex};
use wasm_validator_type_list::{RecGroupId, TypeList};

/// The group that the references of the type stand in.
pub(crate) fn group_of<A: Allocator + Copy>(types: &TypeList<A>, id: CoreTypeId) -> RecGroupId
    requires { id.index < length (types_in types.now) }
    ensures listed { (ty : SubType A) → ty ≡ slice_index_or (types_in types.now) id.index ty
        → IsListed types.now.groups id.index result.index ty }
    ensures listable { AreListable types.now.groups }
{
    types.recall_promises();
    types.rec_group_id_of(id)
}

/// The id that a reference in the group leads to, if there is a reference.
fn optional_id_at<A: Allocator + Copy>(
    types: &TypeList<A>,
    group: RecGroupId,
    index: Option<PackedIndex>,
) -> Option<CoreTypeId>
    requires group { group.index < length types.now.groups }
    requires known { IfSome index (λ p. IsKnownIn types.now.groups group.index (index_of p)) }
    ensures leads { numbered result ≡ option_map (leads_packed types.now.groups group.index) index }
    ensures there { IfSome result (IsIn types.now) }
{
    match index {
        Some(index) => Some(types.id_at(group, index.unpack())),
        None => None,
    }
}

/// The id of the type that the type extends, if it extends one.
pub(crate) fn supertype<A: Allocator + Copy>(
    types: &TypeList<A>,
    id: CoreTypeId,
) -> Option<CoreTypeId>
    requires { id.index < length (types_in types.now) }
    ensures leads { numbered result ≡ supertype_of (declares types.now.groups) id.index }
    ensures there { IfSome result (IsIn types.now) }
{
    types.recall_promises();
    types.supertype_of(id)
}

/// The id of the type of the type's descriptors, if it has one.
pub(crate) fn descriptor<A: Allocator + Copy>(
    types: &TypeList<A>,
    id: CoreTypeId,
) -> Option<CoreTypeId>
    requires { id.index < length (types_in types.now) }
    ensures leads { numbered result ≡ descriptor_of (declares types.now.groups) id.index }
    ensures there { IfSome result (IsIn types.now) }
{
    let group = group_of(types, id);
    optional_id_at(types, group, types[id].composite_type.descriptor_idx)
}

/// The id of the type that the type describes, if there is one.
pub(crate) fn described_type<A: Allocator + Copy>(
    types: &TypeList<A>,
    id: CoreTypeId,
) -> Option<CoreTypeId>
    requires { id.index < length (types_in types.now) }
    ensures leads { numbered result ≡ described_by (declares types.now.groups) id.index }
    ensures there { IfSome result (IsIn types.now) }
{
    let group = group_of(types, id);
    optional_id_at(types, group, types[id].composite_type.describes_idx)
}

/// Whether both are none or the same id.
pub(crate) fn are_same(a: Option<CoreTypeId>, b: Option<CoreTypeId>) -> bool
    ensures { Decides result (numbered a ≡ numbered b) }
{
    match (a, b) {
        (Some(a), Some(b)) => a.index() == b.index(),
        (None, None) => true,
        _ => false,
    }
}
