//! Matching of composite types by their parts, whether or not one type extends the other (Core
//! Specification 3.0, Validation, Matching, Composite Types). Each part is taken with the group
//! that its references stand in.

ghost use Rattle.std.specs.Prelude.{◌≡◌, ◌<◌, length};
ghost use Rattle.std.specs.Bool.{Decides};
ghost use Rattle.std.specs.List.{All, AllZip};
ghost use Rattle.wasm_readers_errors.specs.WasmSpec.References.{refs_heap, refs_val, refs_storage, refs_field, refs_comp};
ghost use Rattle.wasm_readers_types.specs.WasmReadersValues.SeenValues.{heap_of, ref_of, val_of, storage_of, field_of};
ghost use Rattle.wasm_readers_types.specs.SeenTypes.{comp_of};
ghost use Rattle.wasm_validator_type_list.specs.ListViews.{types_in};
ghost use Rattle.wasm_validator_type_list.specs.DeclarationsById.{declares};
ghost use Rattle.wasm_validator_type_list.specs.Subtyping.{IsHeapOver, heap_by_ids};
ghost use Rattle.wasm_validator_type_list.specs.GroupTypes.{leads_in, heap_in, IsKnownIn, AreIn, RefsMatch, ValsMatch, StoragesMatch, FieldsMatch, FieldListsMatch, CompsMatch, SubsMatch, MatchesDeclared};

use crate::type_list::{TypeList, id_from};
use std::alloc::Allocator;
use wasm_readers_types::{
    CompositeInnerType, CoreTypeId, FieldType, HeapType, RefType, StorageType, SubType,
    UnpackedIndex, ValType,
};
use wasm_validator_type_ancestors::validator_type_groups::RecGroupId;

impl<A: Allocator + Copy> TypeList<A> {
    /// The id that a reference in the group leads to. The list must have the group, and the
    /// reference must be one of its types'.
    pub fn id_at(&self, group: RecGroupId, index: UnpackedIndex) -> CoreTypeId
        requires group { group.index < length self.now.groups }
        requires known { IsKnownIn self.now.groups group.index index }
        ensures id { result.index ≡ leads_in self.now.groups group.index index }
        ensures there { result.index < length (types_in self.now) }
    {
        id_from(self.groups.members(group.index()).start, index)
    }

    /// The heap type with the id that its reference leads to.
    fn heap_at(&self, group: RecGroupId, heap: HeapType) -> HeapType
        requires { AreIn self.now.groups group.index (refs_heap (heap_of heap)) }
        ensures same { heap_by_ids result ≡ heap_in self.now.groups group.index heap }
        ensures there { IsHeapOver (length (types_in self.now)) result }
    {
        match heap {
            HeapType::Abstract { shared, ty } => HeapType::Abstract { shared, ty },
            HeapType::Concrete(index) => {
                HeapType::Concrete(UnpackedIndex::Id(self.id_at(group, index)))
            }
            HeapType::Exact(index) => HeapType::Exact(UnpackedIndex::Id(self.id_at(group, index))),
        }
    }

    /// Whether the first reference type matches the second, each in its group.
    pub fn refs_match(
        &self,
        a_group: RecGroupId,
        a: RefType,
        b_group: RecGroupId,
        b: RefType,
    ) -> bool
        requires sub { AreIn self.now.groups a_group.index (refs_heap (ref_of a).heap) }
        requires sup { AreIn self.now.groups b_group.index (refs_heap (ref_of b).heap) }
        ensures { Decides result (RefsMatch self.now.groups a_group.index b_group.index a b) }
    {
        if a.is_nullable() && !b.is_nullable() {
            return false;
        }
        self.heap_is_subtype(
            self.heap_at(a_group, a.heap_type()),
            self.heap_at(b_group, b.heap_type()),
        )
    }

    /// Whether the first value type matches the second, each in its group.
    pub fn vals_match(
        &self,
        a_group: RecGroupId,
        a: ValType,
        b_group: RecGroupId,
        b: ValType,
    ) -> bool
        requires sub { AreIn self.now.groups a_group.index (refs_val (val_of a)) }
        requires sup { AreIn self.now.groups b_group.index (refs_val (val_of b)) }
        ensures { Decides result (ValsMatch self.now.groups a_group.index b_group.index a b) }
    {
        match (a, b) {
            (ValType::Ref(sub), ValType::Ref(sup)) => {
                self.refs_match(a_group, sub, b_group, sup)
            }
            (ValType::I32, ValType::I32)
            | (ValType::I64, ValType::I64)
            | (ValType::F32, ValType::F32)
            | (ValType::F64, ValType::F64)
            | (ValType::V128, ValType::V128) => true,
            _ => false,
        }
    }

    /// Whether the first storage type matches the second, each in its group (Core Specification
    /// 3.0, Validation, Matching, Storage Types).
    pub fn storages_match(
        &self,
        a_group: RecGroupId,
        a: StorageType,
        b_group: RecGroupId,
        b: StorageType,
    ) -> bool
        requires sub { AreIn self.now.groups a_group.index (refs_storage (storage_of a)) }
        requires sup { AreIn self.now.groups b_group.index (refs_storage (storage_of b)) }
        ensures { Decides result (StoragesMatch self.now.groups a_group.index b_group.index a b) }
    {
        match (a, b) {
            (StorageType::Val(sub), StorageType::Val(sup)) => {
                self.vals_match(a_group, sub, b_group, sup)
            }
            (StorageType::I8, StorageType::I8) | (StorageType::I16, StorageType::I16) => true,
            _ => false,
        }
    }

    /// Whether the first field matches the second, each in its group (Core Specification 3.0,
    /// Validation, Matching, Field Types).
    pub fn fields_match(
        &self,
        a_group: RecGroupId,
        a: FieldType,
        b_group: RecGroupId,
        b: FieldType,
    ) -> bool
        requires sub { AreIn self.now.groups a_group.index (refs_field (field_of a)) }
        requires sup { AreIn self.now.groups b_group.index (refs_field (field_of b)) }
        ensures { Decides result (FieldsMatch self.now.groups a_group.index b_group.index a b) }
    {
        if a.mutable != b.mutable {
            return false;
        }
        let sub = a.element_type;
        let sup = b.element_type;
        self.storages_match(a_group, sub, b_group, sup)
            && (!a.mutable || self.storages_match(b_group, sup, a_group, sub))
    }
}

/// Whether there are as many value types in both lists, and each of the first matches the one at
/// its place in the second, each in its group.
pub fn all_vals_match<A: Allocator + Copy>(
    types: &TypeList<A>,
    a_group: RecGroupId,
    a: &[ValType],
    b_group: RecGroupId,
    b: &[ValType],
) -> bool
    requires sub { All (λ v. AreIn types.now.groups a_group.index (refs_val (val_of v))) a.now }
    requires sup { All (λ v. AreIn types.now.groups b_group.index (refs_val (val_of v))) b.now }
    ensures { Decides result (AllZip (ValsMatch types.now.groups a_group.index
        b_group.index) a.now b.now) }
{
    if a.len() != b.len() {
        return false;
    }
    'vals: for i in 0..a.len() {
        if !types.vals_match(a_group, a[i], b_group, b[i]) {
            return false;
        }
    }
    true
}

/// Whether each field of the second list is matched by the one at its place in the first, each in
/// its group.
pub fn all_fields_match<A: Allocator + Copy>(
    types: &TypeList<A>,
    a_group: RecGroupId,
    a: &[FieldType],
    b_group: RecGroupId,
    b: &[FieldType],
) -> bool
    requires sub { All (λ f. AreIn types.now.groups a_group.index (refs_field (field_of f))) a.now }
    requires sup { All (λ f. AreIn types.now.groups b_group.index (refs_field (field_of f))) b.now }
    ensures { Decides result (FieldListsMatch types.now.groups a_group.index
        b_group.index a.now b.now) }
{
    if a.len() < b.len() {
        return false;
    }
    'fields: for i in 0..b.len() {
        if !types.fields_match(a_group, a[i], b_group, b[i]) {
            return false;
        }
    }
    true
}

/// Whether the first composite type matches the second, each in its group, their flags aside (Core
/// Specification 3.0, Validation, Matching, Composite Types).
pub fn inners_match<A: Allocator + Copy>(
    types: &TypeList<A>,
    a_group: RecGroupId,
    a: &CompositeInnerType<A>,
    b_group: RecGroupId,
    b: &CompositeInnerType<A>,
) -> bool
    requires sub { AreIn types.now.groups a_group.index (refs_comp (comp_of a.now)) }
    requires sup { AreIn types.now.groups b_group.index (refs_comp (comp_of b.now)) }
    ensures { Decides result (CompsMatch types.now.groups a_group.index b_group.index a.now b.now) }
{
    match (a, b) {
        (CompositeInnerType::Func(sub), CompositeInnerType::Func(sup)) => {
            all_vals_match(types, b_group, sup.params(), a_group, sub.params())
                && all_vals_match(types, a_group, sub.results(), b_group, sup.results())
        }
        (CompositeInnerType::Array(sub), CompositeInnerType::Array(sup)) => {
            types.fields_match(a_group, sub.0, b_group, sup.0)
        }
        (CompositeInnerType::Struct(sub), CompositeInnerType::Struct(sup)) => all_fields_match(
            types,
            a_group,
            sub.fields.as_slice(),
            b_group,
            sup.fields.as_slice(),
        ),
        (CompositeInnerType::Cont(sub), CompositeInnerType::Cont(sup)) => types.id_is_subtype(
            types.id_at(a_group, sub.0.unpack()),
            types.id_at(b_group, sup.0.unpack()),
        ),
        _ => false,
    }
}

/// Whether the composite type of the first sub type with its shared flag matches that of the
/// second, each in its group.
pub fn subs_match<A: Allocator + Copy>(
    types: &TypeList<A>,
    a_group: RecGroupId,
    a: &SubType<A>,
    b_group: RecGroupId,
    b: &SubType<A>,
) -> bool
    requires sub { AreIn types.now.groups a_group.index
        (refs_comp (comp_of a.now.composite_type.inner)) }
    requires sup { AreIn types.now.groups b_group.index
        (refs_comp (comp_of b.now.composite_type.inner)) }
    ensures { Decides result (SubsMatch types.now.groups a_group.index b_group.index a.now b.now) }
{
    let sub = &a.composite_type;
    let sup = &b.composite_type;
    sub.shared == sup.shared && inners_match(types, a_group, &sub.inner, b_group, &sup.inner)
}

impl<A: Allocator + Copy> TypeList<A> {
    /// Whether the composite type of the first type with its shared flag matches that of the
    /// second, whether or not the first extends the second (Core Specification 3.0, Validation,
    /// Matching, Composite Types).
    pub fn matches(&self, a: CoreTypeId, b: CoreTypeId) -> bool
        requires sub { a.index < length (types_in self.now) }
        requires sup { b.index < length (types_in self.now) }
        ensures { Decides result (MatchesDeclared (declares self.now.groups) a.index b.index) }
    {
        let _groups = &self.groups;
        let a_group = self.rec_group_id_of(a);
        let b_group = self.rec_group_id_of(b);
        subs_match(self, a_group, &self[a], b_group, &self[b])
    }
}
