//! Which types name ids of the list only, and which groups may be added: what other methods ask of
//! what they are given.

ghost use Rattle.std.specs.Prelude.{◌<◌, ◌∷◌, [], length};
ghost use Rattle.std.specs.Bool.{Decides};
ghost use Rattle.std.specs.List.{All};
ghost use Rattle.wasm_readers_types.specs.Entities.{entity_of};
ghost use Rattle.wasm_validator_type_list.specs.GroupOrder.{IsListable};
ghost use Rattle.wasm_validator_type_list.specs.ListViews.{types_in};
ghost use Rattle.wasm_validator_type_list.specs.Subtyping.{IsIdOfOne, IsHeapOver, IsRefOver, IsValOver, IsEntityOver};

use crate::type_list::TypeList;
use std::alloc::Allocator;
use wasm_readers_types::{
    CoreTypeId, EntityType, HeapType, RecGroup, RefType, SubType, UnpackedIndex, ValType,
};
use wasm_validator_type_ancestors::{group_is_listable, type_is_listable};

impl<A: Allocator + Copy> TypeList<A> {
    /// Whether the group may be added: each reference in it is the id of a type of the list or a
    /// place in the group, and a type has at most one supertype, which comes before it.
    pub fn is_listable(&self, group: &RecGroup<A>) -> bool
        ensures { Decides result (IsListable (length (types_in self.now)) group.now.types) }
    {
        group_is_listable(self.groups.item_count(), group.types())
    }

    /// Whether the type may be added as a group of its own: the same of a group of it alone.
    pub fn sub_type_is_listable(&self, ty: &SubType<A>) -> bool
        ensures { Decides result (IsListable (length (types_in self.now)) (ty.now ∷ [])) }
    {
        type_is_listable(self.groups.item_count(), ty)
    }

    /// Whether the list has a type with this id.
    pub fn holds_id(&self, id: CoreTypeId) -> bool
        ensures { Decides result (id.index < length (types_in self.now)) }
    {
        id.index() < self.groups.item_count()
    }

    /// Whether the list has a type with each of these ids.
    pub fn holds_all(&self, ids: &[CoreTypeId]) -> bool
        ensures { Decides result (All (λ id. id.index < length (types_in self.now)) ids.now) }
    {
        'ids: for i in 0..ids.len() {
            if !self.holds_id(ids[i]) {
                return false;
            }
        }
        true
    }

    /// Whether the heap type names ids of the list only.
    pub fn holds_heap(&self, heap: HeapType) -> bool
        ensures { Decides result (IsHeapOver (length (types_in self.now)) heap) }
    {
        match heap {
            HeapType::Abstract { .. } => true,
            HeapType::Concrete(index) | HeapType::Exact(index) => self.holds_index(index),
        }
    }

    /// Whether the reference type names ids of the list only.
    pub fn holds_reference(&self, ty: RefType) -> bool
        ensures { Decides result (IsRefOver (length (types_in self.now)) ty) }
    {
        self.holds_heap(ty.heap_type())
    }

    /// Whether the value type names ids of the list only.
    pub fn holds_value(&self, ty: ValType) -> bool
        ensures { Decides result (IsValOver (length (types_in self.now)) ty) }
    {
        match ty {
            ValType::I32 | ValType::I64 | ValType::F32 | ValType::F64 | ValType::V128 => true,
            ValType::Ref(ty) => self.holds_reference(ty),
        }
    }

    /// Whether the type of an import or an export names ids of the list only.
    pub fn holds_entity(&self, ty: EntityType) -> bool
        ensures { Decides result (IsEntityOver (length (types_in self.now)) (entity_of ty)) }
    {
        match ty {
            EntityType::Func(id) | EntityType::FuncExact(id) | EntityType::Tag(id) => {
                self.holds_id(id)
            }
            EntityType::Table(ty) => self.holds_reference(ty.element_type),
            EntityType::Memory(_) => true,
            EntityType::Global(ty) => self.holds_value(ty.content_type),
        }
    }

    /// Whether the reference is the id of a type of the list.
    fn holds_index(&self, index: UnpackedIndex) -> bool
        ensures { Decides result (IsIdOfOne (length (types_in self.now)) index) }
    {
        match index {
            UnpackedIndex::Id(id) => self.holds_id(id),
            UnpackedIndex::Module(_) | UnpackedIndex::RecGroup(_) => false,
        }
    }
}
