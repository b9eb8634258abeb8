//! Which recursion groups may be added to a list of types.

ghost use Rattle.std.specs.Prelude.{◌<◌, ◌≤◌, ◌∷◌, ◌++◌, [], List, length};
ghost use Rattle.std.specs.Bool.{Decides};
ghost use Rattle.std.specs.Option.{option_map};
ghost use Rattle.std.specs.List.{All};
ghost use Rattle.wasm_validator_type_groups.specs.WasmSpec.References.{refs_heap, refs_val, refs_field, refs_comp, refs_option};
ghost use Rattle.wasm_validator_type_groups.specs.WasmReadersTypes.declared.types.SubType.{SubType};
ghost use Rattle.wasm_validator_type_groups.specs.WasmReadersTypes.WasmReadersValues.SeenValues.{index_of, heap_of, val_of, field_of};
ghost use Rattle.wasm_validator_type_groups.specs.WasmReadersTypes.SeenTypes.{comp_of};
ghost use Rattle.wasm_validator_type_ancestors.specs.GroupReferences.{IsKnown, IsListable, IsListableAt, ReferByIds};

use std::alloc::Allocator;
use wasm_validator_type_groups::readers_types::{
    CompositeInnerType, FieldType, HeapType, PackedIndex, StorageType, SubType, UnpackedIndex,
    ValType,
};

/// Whether the recursion group may be added to a list of this many types: each reference in it is
/// the id of a type of the list or a position in the group, and each type has at most one supertype,
/// which comes before it (Core Specification 3.0, Validation, Types, Recursive Types).
pub fn group_is_listable<A: Allocator>(types: usize, group: &[SubType<A>]) -> bool
    ensures { Decides result (IsListable types group.now) }
{
    'types: for i in 0..group.len() {
        if !is_listable_at(types, group.len(), i, &group[i]) {
            return false;
        }
    }
    true
}

/// Whether each reference in a list of types is an id, and each in a group that comes behind it,
/// where it was said of the list. The list has this many types, and the group may be added to it.
pub fn types_refer_by_ids<A: Allocator>(of_list: bool, types: usize, group: &[SubType<A>]) -> bool
    requires { IsListable types group.now }
    ensures { (listed : List (SubType A)) → Decides of_list (ReferByIds listed)
        → Decides result (ReferByIds (listed ++ group.now)) }
{
    if of_list {
        group_refers_by_ids(types, group)
    } else {
        false
    }
}

/// Whether each reference in the group, which may be added to a list of this many types, is an id.
fn group_refers_by_ids<A: Allocator>(types: usize, group: &[SubType<A>]) -> bool
    requires { IsListable types group.now }
    ensures { Decides result (ReferByIds group.now) }
{
    'types: for i in 0..group.len() {
        if !is_listable_at(types, 0, 0, &group[i]) {
            return false;
        }
    }
    true
}

/// Whether the type may be added to a list of this many types as the only type of a recursion group
/// (Core Specification 3.0, Validation, Types, Recursive Types).
pub fn type_is_listable<A: Allocator>(types: usize, ty: &SubType<A>) -> bool
    ensures { Decides result (IsListable types (ty.now ∷ [])) }
{
    is_listable_at(types, 1, 0, ty)
}

/// Whether the type may be at position `place` of a group of `positions` types that is added to a
/// list of this many types.
fn is_listable_at<A: Allocator>(
    types: usize,
    positions: usize,
    place: usize,
    ty: &SubType<A>,
) -> bool
    requires { place ≤ positions }
    ensures { Decides result (IsListableAt types positions place ty.now) }
{
    let composite = &ty.composite_type;
    if !supers_are_earlier(types, place, ty.supertype_idxs.as_slice()) {
        return false;
    }
    if !option_is_known(types, positions, composite.describes_idx) {
        return false;
    }
    if !option_is_known(types, positions, composite.descriptor_idx) {
        return false;
    }
    inner_is_known(types, positions, &composite.inner)
}

/// Whether there is at most one supertype, and it is a type of the list or at a position before
/// `place`.
fn supers_are_earlier(types: usize, place: usize, supers: &[PackedIndex]) -> bool
    ensures { Decides result ((length supers.now ≤ 1)
        × All (λ p. IsKnown types place (index_of p)) supers.now) }
{
    if supers.len() > 1 {
        return false;
    }
    match supers.first() {
        Some(index) => is_known(types, place, index.unpack()),
        None => true,
    }
}

/// Whether each reference in the composite type is known (`is_known`).
fn inner_is_known<A: Allocator>(
    types: usize,
    positions: usize,
    inner: &CompositeInnerType<A>,
) -> bool
    ensures { Decides result (All (IsKnown types positions) (refs_comp (comp_of inner.now))) }
{
    match inner {
        CompositeInnerType::Func(signature) => {
            values_are_known(types, positions, signature.params())
                && values_are_known(types, positions, signature.results())
        }
        CompositeInnerType::Array(array) => field_is_known(types, positions, array.0),
        CompositeInnerType::Struct(structure) => {
            fields_are_known(types, positions, structure.fields.as_slice())
        }
        CompositeInnerType::Cont(continuation) => {
            is_known(types, positions, continuation.0.unpack())
        }
    }
}

/// Whether each reference in the value types is known.
fn values_are_known(types: usize, positions: usize, values: &[ValType]) -> bool
    ensures { Decides result (All (λ v. All (IsKnown types positions) (refs_val (val_of v)))
        values.now) }
{
    'values: for i in 0..values.len() {
        if !value_is_known(types, positions, values[i]) {
            return false;
        }
    }
    true
}

/// Whether each reference in the field types is known.
fn fields_are_known(types: usize, positions: usize, fields: &[FieldType]) -> bool
    ensures { Decides result (All (λ f. All (IsKnown types positions) (refs_field (field_of f)))
        fields.now) }
{
    'fields: for i in 0..fields.len() {
        if !field_is_known(types, positions, fields[i]) {
            return false;
        }
    }
    true
}

/// Whether each reference in the field type is known.
fn field_is_known(types: usize, positions: usize, field: FieldType) -> bool
    ensures { Decides result (All (IsKnown types positions) (refs_field (field_of field))) }
{
    match field.element_type {
        StorageType::I8 | StorageType::I16 => true,
        StorageType::Val(ty) => value_is_known(types, positions, ty),
    }
}

/// Whether each reference in the value type is known.
fn value_is_known(types: usize, positions: usize, ty: ValType) -> bool
    ensures { Decides result (All (IsKnown types positions) (refs_val (val_of ty))) }
{
    match ty {
        ValType::I32 | ValType::I64 | ValType::F32 | ValType::F64 | ValType::V128 => true,
        ValType::Ref(ty) => heap_is_known(types, positions, ty.heap_type()),
    }
}

/// Whether the heap type's reference, if it has one, is known.
fn heap_is_known(types: usize, positions: usize, heap: HeapType) -> bool
    ensures { Decides result (All (IsKnown types positions) (refs_heap (heap_of heap))) }
{
    match heap {
        HeapType::Abstract { .. } => true,
        HeapType::Concrete(index) | HeapType::Exact(index) => is_known(types, positions, index),
    }
}

/// Whether the reference is known, or there is none.
fn option_is_known(types: usize, positions: usize, index: Option<PackedIndex>) -> bool
    ensures { Decides result (All (IsKnown types positions)
        (refs_option (option_map index_of index))) }
{
    match index {
        Some(index) => is_known(types, positions, index.unpack()),
        None => true,
    }
}

/// Whether the reference is the id of one of the list's types or one of the group's positions, of
/// which there are this many.
fn is_known(types: usize, positions: usize, index: UnpackedIndex) -> bool
    ensures { Decides result (IsKnown types positions index) }
{
    match index {
        UnpackedIndex::Module(_) => false,
        UnpackedIndex::RecGroup(position) => (position as usize) < positions,
        UnpackedIndex::Id(id) => id.index() < types,
    }
}
