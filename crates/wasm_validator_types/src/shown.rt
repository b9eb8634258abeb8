//! What a user sees of a module's types: [`Types`] of a validated module, and [`TypesRef`], the
//! same lent, also while a module is being validated.
//!
//! Both have the list of types, the index spaces of the module, which lead from its indices to ids
//! of the list, the features that it was validated with, and the id of the validator. Indices count
//! imported items first, as in the standard (Core Specification 3.0, Syntax, Modules, Indices).
//! Types outlive their validator, with whose list they share their contents.

ghost use Rattle.std.specs.Prelude.{◌≡◌, ◌+◌, ◌<◌, length, slice_get, slice_index, slice_index_or, IfSome, IsSome, ◌↔◌};
ghost use Rattle.std.specs.Option.{option_map};
ghost use Rattle.std.specs.declared.option.Option.TheVariants.{Some};
ghost use Rattle.wasm_readers.specs.WasmReadersTypes.SeenExterns.{extern_of, table_of, memory_of, global_of};
ghost use Rattle.wasm_readers.specs.WasmReadersTypes.WasmReadersValues.SeenValues.{ref_of};
ghost use Rattle.wasm_validator_type_list.specs.WasmValidatorTypeGroups.Groups.{IsInGroup};
ghost use Rattle.wasm_validator_type_list.specs.WasmValidatorTypeGroups.Elements.{ids_left, ids_of_group};
ghost use Rattle.wasm_validator_type_list.specs.ListViews.{types_in};
ghost use Rattle.wasm_validator_type_list.specs.Lookups.{IsSupertypeAt, group_span};
ghost use Rattle.wasm_readers.specs.Items.{export_of};
ghost use Rattle.wasm_spec_rules.specs.FeatureFlags.{features_of};
ghost use Rattle.wasm_validator_types.specs.Entities.{entity_of, HasIdBelow};
ghost use Rattle.wasm_validator_types.specs.NamedEntities.{imported_entity, named_entity};
ghost use Rattle.wasm_validator_types.specs.IteratorItems.{imports_left, exports_left};
ghost use Rattle.wasm_validator_types.specs.Rows.{all_imports};
ghost use Rattle.wasm_validator_types.specs.ShownModules.{shown_of, shown_by, HoldsIds, HoldsImports, HoldsExports};

use crate::id::ValidatorId;
use crate::imports_exports::{CoreExports, CoreImports};
use crate::index_spaces::IndexSpaces;
use crate::named::{imported_entity, named_entity};
use bitflags::Flags;
use std::alloc::{Allocator, Global};
use std::ops::{Index, Range};
use std::rc::Rc;
use wasm_readers::readers_errors::WasmFeatures;
use wasm_readers::readers_types::{
    CoreTypeId, EntityType, GlobalType, MemoryType, RefType, SubType, TableType,
};
use wasm_readers::{Export, Import};
use wasm_validator_type_list::{RecGroupElements, RecGroupId, TypeList};

/// The types of a validated module, which outlive its validator.
pub struct Types<A: Allocator = Global> {
    id: ValidatorId,
    features: WasmFeatures,
    types: TypeList<A>,
    spaces: Rc<IndexSpaces<A>, A>,
}

// By hand: so each way out takes one call for it, and not a step for each field.
impl<A: Allocator> Drop for Types<A> {
    fn drop(self) {
        let Types {
            id: _,
            features: _,
            types: _,
            spaces: _,
        } = self;
    }
}

impl<A: Allocator + Copy> Types<A> {
    /// Of the parts that the validator hands over. It is not for users.
    #[doc(hidden)]
    pub fn new(
        id: ValidatorId,
        features: WasmFeatures,
        types: TypeList<A>,
        spaces: Rc<IndexSpaces<A>, A>,
    ) -> Types<A>
        ensures { shown_of result ≡ record {
          id = id;
          features = features_of features;
          list = types;
          spaces = spaces.value;
        } }
    {
        Types {
            id,
            features,
            types,
            spaces,
        }
    }

    /// What they show, lent.
    pub fn as_ref(&self) -> TypesRef<'_, A>
        ensures { shown_by result ≡ shown_of self.now }
    {
        TypesRef {
            id: self.id,
            features: self.features,
            list: &self.types,
            spaces: self.spaces.as_ref(),
        }
    }
}

impl<A: Allocator + Copy> Index<CoreTypeId> for Types<A> {
    type Output = SubType<A>;

    ghost use Rattle.std.specs.Prelude.{◌≡◌, ◌<◌, length, slice_index_or};
    ghost use Rattle.wasm_validator_type_list.specs.ListViews.{types_in};
    ghost use Rattle.wasm_validator_types.specs.ShownModules.{shown_of};

    ghost can_index = { λ types id. id.index < length (types_in (shown_of types).list) };

    ghost index_gives = { λ types id ty. ty ≡ slice_index_or
        (types_in (shown_of types).list) id.index ty };

    fn index(&self, id: CoreTypeId) -> &SubType<A> {
        &self.types[id]
    }
}

impl<A: Allocator + Copy> Index<RecGroupId> for Types<A> {
    type Output = Range<CoreTypeId>;

    ghost use Rattle.std.specs.Prelude.{◌≡◌, ◌<◌, ◌+◌, length};
    ghost use Rattle.wasm_validator_type_list.specs.Lookups.{group_span};
    ghost use Rattle.wasm_validator_types.specs.ShownModules.{shown_of};

    ghost can_index = { λ types group. group.index < length (shown_of types).list.groups };

    ghost index_gives = { λ types group ids. ids ≡ group_span
        (shown_of types).list.groups group.index };

    fn index(&self, group: RecGroupId) -> &Range<CoreTypeId> {
        &self.types[group]
    }
}

/// The types of a module, lent: those of a validated one, or of one that is being validated.
#[derive_where(Clone, Copy)]
pub struct TypesRef<'a, A: Allocator = Global> {
    id: ValidatorId,
    features: WasmFeatures,
    list: &'a TypeList<A>,
    spaces: &'a IndexSpaces<A>,
}

impl<'a, A: Allocator + Copy> TypesRef<'a, A> {
    /// Of the parts that the validator lends. It is not for users.
    #[doc(hidden)]
    pub fn new(
        id: ValidatorId,
        features: WasmFeatures,
        list: &'a TypeList<A>,
        spaces: &'a IndexSpaces<A>,
    ) -> TypesRef<'a, A>
        ensures { shown_by result ≡ record {
          id = id;
          features = features_of features;
          list = list.now;
          spaces = spaces.now;
        } }
    {
        TypesRef {
            id,
            features,
            list,
            spaces,
        }
    }

    /// The id of the validator that made them.
    pub fn id(&self) -> ValidatorId
        ensures { result ≡ (shown_by self.now).id }
    {
        self.id
    }

    /// The type with this id, if there is one.
    pub fn get(&self, id: CoreTypeId) -> Option<&'a SubType<A>>
        ensures found { IfSome result (λ ty. ty.now
            ≡ slice_index_or (types_in (shown_by self.now).list) id.index ty.now) }
        ensures when { IsSome result ↔ (id.index < length (types_in (shown_by self.now).list)) }
    {
        self.list.get(id)
    }

    /// The ids of the types of the recursion group with this id, if there is one.
    pub fn get_rec_group(&self, group: RecGroupId) -> Option<&'a Range<CoreTypeId>>
        ensures found { IfSome result (λ ids. ids.now
            ≡ group_span (shown_by self.now).list.groups group.index) }
        ensures when { IsSome result ↔ (group.index < length (shown_by self.now).list.groups) }
    {
        self.list.get_rec_group(group)
    }

    /// All types that the validator had when these were made, in recursion groups.
    pub fn type_list(&self) -> &'a TypeList<A>
        ensures { result.now ≡ (shown_by self.now).list }
    {
        self.list
    }

    /// The id of the recursion group that the type is in. The list must have the type.
    pub fn rec_group_id_of(&self, id: CoreTypeId) -> RecGroupId
        requires { id.index < length (types_in (shown_by self.now).list) }
        ensures { IsInGroup (shown_by self.now).list.groups result.index id.index }
    {
        self.list.rec_group_id_of(id)
    }

    /// The ids of the types of the recursion group, in order. The list must have the group.
    pub fn rec_group_elements(&self, group: RecGroupId) -> RecGroupElements
        requires { group.index < length (shown_by self.now).list.groups }
        ensures { ids_left result ≡ ids_of_group (shown_by self.now).list.groups group.index }
    {
        self.list.rec_group_elements(group)
    }

    /// The id of the type that the type with this id extends, if it extends one. The list must have
    /// the type.
    pub fn supertype_of(&self, id: CoreTypeId) -> Option<CoreTypeId>
        requires { id.index < length (types_in (shown_by self.now).list) }
        ensures { IsSupertypeAt (shown_by self.now).list.groups id.index result }
    {
        self.list.supertype_of(id)
    }

    /// The number of types that the module declares.
    pub fn core_type_count_in_module(&self) -> u32
        ensures { result ≡ length (shown_by self.now).spaces.types }
    {
        self.spaces.type_count()
    }

    /// The id of the module's type with this index, of which there must be one. The list has it,
    /// where it has those of all types of the module.
    pub fn core_type_at_in_module(&self, index: u32) -> CoreTypeId
        requires { index < length (shown_by self.now).spaces.types }
        ensures value { result.index ≡ slice_index (shown_by self.now).spaces.types index }
        ensures held { HoldsIds (shown_by self.now)
            → result.index < length (types_in (shown_by self.now).list) }
    {
        self.spaces.type_at(index)
    }

    /// The number of functions, imported ones among them.
    pub fn function_count(&self) -> u32
        ensures { result ≡ length (shown_by self.now).spaces.functions }
    {
        self.spaces.function_count()
    }

    /// The id of the type of the function with this index, of which there must be one. The list has
    /// it, where it has those of all types of the module.
    pub fn core_function_at(&self, index: u32) -> CoreTypeId
        requires { index < length (shown_by self.now).spaces.functions }
        ensures value { let spaces = (shown_by self.now).spaces in result.index
            ≡ slice_index spaces.types (slice_index spaces.functions index) }
        ensures held { HoldsIds (shown_by self.now)
            → result.index < length (types_in (shown_by self.now).list) }
    {
        self.spaces.function_type_id(index)
    }

    /// The number of tables, imported ones among them.
    pub fn table_count(&self) -> u32
        ensures { result ≡ length (shown_by self.now).spaces.tables }
    {
        self.spaces.table_count()
    }

    /// The type of the table with this index, of which there must be one.
    pub fn table_at(&self, index: u32) -> TableType
        requires { index < length (shown_by self.now).spaces.tables }
        ensures { slice_get (shown_by self.now).spaces.tables index ≡ Some (table_of result) }
    {
        self.spaces.table_at(index)
    }

    /// The number of memories, imported ones among them.
    pub fn memory_count(&self) -> u32
        ensures { result ≡ length (shown_by self.now).spaces.memories }
    {
        self.spaces.memory_count()
    }

    /// The type of the memory with this index, of which there must be one.
    pub fn memory_at(&self, index: u32) -> MemoryType
        requires { index < length (shown_by self.now).spaces.memories }
        ensures { slice_get (shown_by self.now).spaces.memories index ≡ Some (memory_of result) }
    {
        self.spaces.memory_at(index)
    }

    /// The number of globals, imported ones among them.
    pub fn global_count(&self) -> u32
        ensures { result ≡ length (shown_by self.now).spaces.globals }
    {
        self.spaces.global_count()
    }

    /// The type of the global with this index, of which there must be one.
    pub fn global_at(&self, index: u32) -> GlobalType
        requires { index < length (shown_by self.now).spaces.globals }
        ensures { slice_get (shown_by self.now).spaces.globals index ≡ Some (global_of result) }
    {
        self.spaces.global_at(index)
    }

    /// The number of tags, imported ones among them.
    pub fn tag_count(&self) -> u32
        ensures { result ≡ length (shown_by self.now).spaces.tags }
    {
        self.spaces.tag_count()
    }

    /// The id of the type of the tag with this index, of which there must be one. The list has it,
    /// where it has those of all types of the module.
    pub fn tag_at(&self, index: u32) -> CoreTypeId
        requires { index < length (shown_by self.now).spaces.tags }
        ensures value { let spaces = (shown_by self.now).spaces in result.index
            ≡ slice_index spaces.types (slice_index spaces.tags index) }
        ensures held { HoldsIds (shown_by self.now)
            → result.index < length (types_in (shown_by self.now).list) }
    {
        self.spaces.tag_type_id(index)
    }

    /// The number of element segments.
    pub fn element_count(&self) -> u32
        ensures { result ≡ length (shown_by self.now).spaces.elements }
    {
        self.spaces.element_count()
    }

    /// The type of the items of the element segment with this index, of which there must be one. It
    /// is that of references to functions, which are never null, where the segment names functions
    /// by their indices.
    pub fn element_at(&self, index: u32) -> RefType
        requires { index < length (shown_by self.now).spaces.elements }
        ensures { slice_get (shown_by self.now).spaces.elements index ≡ Some (ref_of result) }
    {
        self.spaces.element_at(index)
    }

    /// What this import asks for, as an import of this module: a function or a tag by the id of its
    /// type, of which the list has one, where it has those of all types of the module. The types of
    /// tables, memories and globals are those that the import writes. Nothing where the module has
    /// no type with the index of the function's or the tag's (Core Specification 3.0, Validation,
    /// Modules, Imports).
    pub fn entity_type_from_import(&self, import: &Import<'_>) -> Option<EntityType>
        ensures value { option_map entity_of result
            ≡ imported_entity (shown_by self.now).spaces (extern_of import.now.ty) }
        ensures held { HoldsIds (shown_by self.now) → IfSome result (λ e. HasIdBelow
            (length (types_in (shown_by self.now).list)) (entity_of e)) }
    {
        imported_entity(self.spaces, import.ty)
    }

    /// What this export names, as an export of this module: a function or a tag by the id of its
    /// type, of which the list has one, where it has those of all types of the module. With custom
    /// descriptors a function that the module defines, or imports exactly, has exactly its type.
    /// Nothing where the module has nothing of this kind with this index (Core Specification 3.0,
    /// Validation, Modules, Exports).
    pub fn entity_type_from_export(&self, export: &Export<'_>) -> Option<EntityType>
        ensures value { let shown = shown_by self.now in option_map entity_of result
            ≡ named_entity shown.features.custom_descriptors shown.spaces (export_of export.now) }
        ensures held { HoldsIds (shown_by self.now) → IfSome result (λ e. HasIdBelow
            (length (types_in (shown_by self.now).list)) (entity_of e)) }
    {
        let descriptors = self.features.contains(WasmFeatures::CUSTOM_DESCRIPTORS);
        named_entity(self.spaces, descriptors, export)
    }

    /// The imports of the module. There are always some, be they none. The list has the type of
    /// each function and tag among them, where it has those of all types of the module.
    pub fn core_imports(&self) -> Option<CoreImports<'a, A>>
        ensures some { IsSome result }
        ensures all { IfSome result (λ imports. imports_left imports
            ≡ all_imports (shown_by self.now).spaces.imports) }
        ensures held { HoldsIds (shown_by self.now)
            → IfSome result (HoldsImports (shown_by self.now)) }
    {
        Some(self.spaces.imports())
    }

    /// The exports of the module. The list has the type of each function and tag among them, where
    /// it has those of all types of the module.
    pub fn core_exports(&self) -> Option<CoreExports<'a, A>>
        ensures some { IsSome result }
        ensures all { IfSome result (λ exports. exports_left exports
            ≡ (shown_by self.now).spaces.exports) }
        ensures held { HoldsIds (shown_by self.now)
            → IfSome result (HoldsExports (shown_by self.now)) }
    {
        Some(self.spaces.exports())
    }
}

impl<'a, A: Allocator + Copy> Index<CoreTypeId> for TypesRef<'a, A> {
    type Output = SubType<A>;

    ghost use Rattle.std.specs.Prelude.{◌≡◌, ◌<◌, length, slice_index_or};
    ghost use Rattle.wasm_validator_type_list.specs.ListViews.{types_in};
    ghost use Rattle.wasm_validator_types.specs.ShownModules.{shown_by};

    ghost can_index = { λ types id. id.index < length (types_in (shown_by types).list) };

    ghost index_gives = { λ types id ty. ty ≡ slice_index_or
        (types_in (shown_by types).list) id.index ty };

    fn index(&self, id: CoreTypeId) -> &SubType<A> {
        &self.list[id]
    }
}

impl<'a, A: Allocator + Copy> Index<RecGroupId> for TypesRef<'a, A> {
    type Output = Range<CoreTypeId>;

    ghost use Rattle.std.specs.Prelude.{◌≡◌, ◌<◌, ◌+◌, length};
    ghost use Rattle.wasm_validator_type_list.specs.Lookups.{group_span};
    ghost use Rattle.wasm_validator_types.specs.ShownModules.{shown_by};

    ghost can_index = { λ types group. group.index < length (shown_by types).list.groups };

    ghost index_gives = { λ types group ids. ids ≡ group_span
        (shown_by types).list.groups group.index };

    fn index(&self, group: RecGroupId) -> &Range<CoreTypeId> {
        &self.list[group]
    }
}
