//! Composite types with their shared flags.

ghost use Rattle.std.specs.Prelude.{◌≡◌, ◌<◌, ◌&&◌, length, is_ok};
ghost use Rattle.std.specs.Bool.{Decides};
ghost use Rattle.std.specs.List.{All, list_all};
ghost use Rattle.wasm_spec.specs.References.{refs_heap, refs_val, refs_storage, refs_field, refs_comp};
ghost use Rattle.wasm_spec.specs.Matching.{is_shared_type, is_shared_heap, is_shared_val, is_shared_storage};
ghost use Rattle.wasm_spec.specs.ValueTypes.{implies};
ghost use Rattle.wasm_spec.specs.GroupRules.{is_func, IsFunction, IsContinuationOfFunction};
ghost use Rattle.wasm_validator_resources.specs.WasmReadersErrors.Refusals.{refused};
ghost use Rattle.wasm_validator_resources.specs.WasmSpecRules.FeatureFlags.{features_of};
ghost use Rattle.wasm_readers_types.specs.WasmReadersValues.SeenValues.{heap_of, val_of, storage_of, field_of};
ghost use Rattle.wasm_readers_types.specs.SeenTypes.{comp_of};
ghost use Rattle.wasm_validator_type_list.specs.ListViews.{types_in};
ghost use Rattle.wasm_validator_type_list.specs.DeclarationsById.{declares};
ghost use Rattle.wasm_validator_type_list.specs.GroupTypes.{heap_in, val_in, storage_in, comp_in, AreIn};
ghost use Rattle.wasm_validator_type_checks.specs.Rules.{KeepsCompositeRules, are_members_shareable};
ghost use Rattle.wasm_validator_type_checks.specs.TypeRefusals.{told_of_shared, told_of_members, ToldOfContinuation, ToldOfComposite};

use crate::ids::group_of;
use std::alloc::Allocator;
use wasm_readers_types::{
    CompositeInnerType, CompositeType, CoreTypeId, FieldType, HeapType, StorageType, ValType,
};
use wasm_validator_resources::check_composite_type as check_by_features;
use wasm_validator_resources::readers_errors::{
    Fault, GroupRule, Refusal, WasmFeatures, hold, require_if,
};
use wasm_validator_type_list::{RecGroupId, TypeList};

/// Accepts a shared type where the proposal for them is on.
fn check_shared_flag(features: WasmFeatures, shared: bool, offset: u64) -> Result<(), Refusal>
    ensures allowed { is_ok result ≡ implies shared
        (features_of features).shared_everything_threads }
    ensures told { refused result ≡ told_of_shared features offset shared }
{
    let fault = Fault::Group(GroupRule::SharedComposites);
    require_if(
        shared,
        features,
        WasmFeatures::SHARED_EVERYTHING_THREADS,
        fault,
        offset,
    )
}

/// Whether the type is shared.
fn is_type_shared<A: Allocator + Copy>(types: &TypeList<A>, id: CoreTypeId) -> bool
    requires { id.index < length (types_in types.now) }
    ensures { result ≡ is_shared_type (declares types.now.groups) id.index }
{
    types[id].composite_type.shared
}

/// Whether what the heap type, which stands in the group, describes may be shared.
fn is_heap_shared<A: Allocator + Copy>(
    types: &TypeList<A>,
    group: RecGroupId,
    heap: HeapType,
) -> bool
    requires { AreIn types.now.groups group.index (refs_heap (heap_of heap)) }
    ensures { result ≡ is_shared_heap (declares types.now.groups)
        (heap_in types.now.groups group.index heap) }
{
    match heap {
        HeapType::Abstract { shared, .. } => shared,
        HeapType::Concrete(index) => is_type_shared(types, types.id_at(group, index)),
        HeapType::Exact(index) => is_type_shared(types, types.id_at(group, index)),
    }
}

/// Whether values of the type, which stands in the group, may be shared.
fn is_shared<A: Allocator + Copy>(types: &TypeList<A>, group: RecGroupId, ty: ValType) -> bool
    requires { AreIn types.now.groups group.index (refs_val (val_of ty)) }
    ensures { result ≡ is_shared_val (declares types.now.groups)
        (val_in types.now.groups group.index ty) }
{
    match ty {
        ValType::Ref(reference) => is_heap_shared(types, group, reference.heap_type()),
        ValType::I32 | ValType::I64 | ValType::F32 | ValType::F64 | ValType::V128 => true,
    }
}

/// Whether what is stored so, in a type of the group, may be shared.
fn is_stored_shared<A: Allocator + Copy>(
    types: &TypeList<A>,
    group: RecGroupId,
    ty: StorageType,
) -> bool
    requires { AreIn types.now.groups group.index (refs_storage (storage_of ty)) }
    ensures { result ≡ is_shared_storage (declares types.now.groups)
        (storage_in types.now.groups group.index ty) }
{
    match ty {
        StorageType::Val(value) => is_shared(types, group, value),
        StorageType::I8 | StorageType::I16 => true,
    }
}

/// Whether values of each of the types, which stand in the group, may be shared.
fn are_shared<A: Allocator + Copy>(
    types: &TypeList<A>,
    group: RecGroupId,
    values: &[ValType],
) -> bool
    requires { All (λ v. AreIn types.now.groups group.index (refs_val (val_of v))) values.now }
    ensures { result ≡ list_all (λ v. is_shared_val (declares types.now.groups)
        (val_in types.now.groups group.index v)) values.now }
{
    'values: for i in 0..values.len() {
        if !is_shared(types, group, values[i]) {
            return false;
        }
    }
    true
}

/// Whether what each of the fields, which stand in the group, holds may be shared.
fn are_fields_shared<A: Allocator + Copy>(
    types: &TypeList<A>,
    group: RecGroupId,
    fields: &[FieldType],
) -> bool
    requires { All (λ f. AreIn types.now.groups group.index (refs_field (field_of f))) fields.now }
    ensures { result ≡ list_all (λ f. is_shared_storage (declares types.now.groups)
        (storage_in types.now.groups group.index f.element_type)) fields.now }
{
    'fields: for i in 0..fields.len() {
        let field = fields[i];
        if !is_stored_shared(types, group, field.element_type) {
            return false;
        }
    }
    true
}

/// Whether all that is in the composite type, which stands in the group, may be shared.
fn are_members_shared<A: Allocator + Copy>(
    types: &TypeList<A>,
    group: RecGroupId,
    inner: &CompositeInnerType<A>,
) -> bool
    requires { AreIn types.now.groups group.index (refs_comp (comp_of inner.now)) }
    ensures { result ≡ are_members_shareable types.now.groups group.index inner.now }
{
    match inner {
        CompositeInnerType::Func(signature) => {
            are_shared(types, group, signature.params())
                && are_shared(types, group, signature.results())
        }
        CompositeInnerType::Array(array) => is_stored_shared(types, group, array.0.element_type),
        CompositeInnerType::Struct(structure) => {
            are_fields_shared(types, group, structure.fields.as_slice())
        }
        CompositeInnerType::Cont(_) => true,
    }
}

/// Whether it is a function type.
fn is_function_type<A: Allocator>(inner: &CompositeInnerType<A>) -> bool
    ensures { result ≡ is_func (comp_of inner.now) }
{
    matches!(inner, CompositeInnerType::Func(_))
}

/// Whether the type is a function's.
fn is_function<A: Allocator + Copy>(types: &TypeList<A>, id: CoreTypeId) -> bool
    requires { id.index < length (types_in types.now) }
    ensures { Decides result (IsFunction (declares types.now.groups) id.index) }
{
    let _group = group_of(types, id);
    is_function_type(&types[id].composite_type.inner)
}

/// Accepts a composite type, which stands in the group, but for a continuation's of what is no
/// function.
fn check_continuation<A: Allocator + Copy>(
    types: &TypeList<A>,
    group: RecGroupId,
    inner: &CompositeInnerType<A>,
    offset: u64,
) -> Result<(), Refusal>
    requires { AreIn types.now.groups group.index (refs_comp (comp_of inner.now)) }
    ensures decided { Decides (is_ok result) (IsContinuationOfFunction (declares types.now.groups)
        (comp_in types.now.groups group.index inner.now)) }
    ensures told { ToldOfContinuation offset (declares types.now.groups)
        (comp_in types.now.groups group.index inner.now) (refused result) }
{
    match inner {
        CompositeInnerType::Cont(continuation) => {
            let id = types.id_at(group, continuation.0.unpack());
            let fault = Fault::NotAFunctionId(id.index() as u32);
            hold(is_function(types, id), fault, offset)
        }
        CompositeInnerType::Func(_)
        | CompositeInnerType::Array(_)
        | CompositeInnerType::Struct(_) => Ok(()),
    }
}

/// Accepts a composite type, which stands in the group, whose members may be shared if it is.
fn check_members<A: Allocator + Copy>(
    types: &TypeList<A>,
    group: RecGroupId,
    ty: &CompositeType<A>,
    offset: u64,
) -> Result<(), Refusal>
    requires { AreIn types.now.groups group.index (refs_comp (comp_of ty.now.inner)) }
    ensures allowed { is_ok result ≡ implies ty.now.shared
        (are_members_shareable types.now.groups group.index ty.now.inner) }
    ensures told { refused result ≡ told_of_members offset ty.now.shared
        (are_members_shareable types.now.groups group.index ty.now.inner) }
{
    if !ty.shared {
        return Ok(());
    }
    let fault = Fault::Group(GroupRule::SharedMembers);
    hold(are_members_shared(types, group, &ty.inner), fault, offset)
}

/// Checks the composite type of a type of a list with its shared flag (Core Specification 3.0,
/// Validation, Types, Composite Types): the proposals that its form and its members need, that a
/// shared type has shared members, and that a continuation is of a function. `offset` is where the
/// type's group stands in the input.
///
/// The list must have the type.
///
/// # Errors
///
/// Refuses a type that breaks one of the rules, with the first of them.
pub fn check_composite_type<A: Allocator + Copy>(
    features: WasmFeatures,
    types: &TypeList<A>,
    id: CoreTypeId,
    offset: u64,
) -> Result<(), Refusal>
    requires { id.index < length (types_in types.now) }
    ensures decided { Decides (is_ok result) (KeepsCompositeRules (features_of features)
        (declares types.now.groups) id.index) }
    ensures told { ToldOfComposite features offset (declares types.now.groups)
        id.index (refused result) }
{
    let group = group_of(types, id);
    let ty = &types[id].composite_type;
    check_shared_flag(features, ty.shared, offset)?;
    check_by_features(features, &ty.inner, offset)?;
    check_members(types, group, ty, offset)?;
    check_continuation(types, group, &ty.inner, offset)
}
