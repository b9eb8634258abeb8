//! The list of types that all modules of one validator share.
//!
//! The list has recursion groups, one behind another; each type's id is its place over all groups,
//! counted from 0, and each group's id its place among groups. A type in the list refers to others
//! by id, where they are in groups before, and by its position in the group, where they are in its
//! own (`wasm_validator_canonical`). So equal groups are written alike, and where the list is
//! canonical each is kept once. In either mode no two ids stand for one type of the standard (Core
//! Specification 3.0, Validation, Types, Recursive Types).
//!
//! - `interning.rt` adds a group, or finds it.
//! - `relations.rt` is subtyping on ids, `total.rt` the same for any two ids, and `matching.rt`
//!   matching of composite types.
//! - `holding.rt` says which types and groups refer to ids of the list only, `links.rt` what may be
//!   linked to an import, and `depths.rt` how deep a type is.
//!
//! A contract sees a `Listing`: the mode, whether groups may be added, the groups as lists of sub
//! types, and the kept depths. What the ids stand for is a function of it (`specs/DefTypes.antt`).
//! A snapshot (`commit`) shares all contents with its list and grows no more.

ghost use Rattle.std.specs.Prelude.{◌≡◌, ◌+◌, ◌<◌, ◌≤◌, true, length, slice_index_or, IfOk, IfErr, IfSome, IsOk, IsSome, IsTrue, ◌↔◌};
ghost use Rattle.std.specs.declared.option.Option.TheVariants.{None};
ghost use Rattle.wasm_readers_types.specs.WasmReadersValues.SeenValues.{index_of};
ghost use Rattle.wasm_readers_types.specs.WasmReadersValues.Indices.{number_of, module_of};
ghost use Rattle.wasm_readers_types.specs.WasmReadersValues.declared.indices.TheConstants.{MAX_IDS};
ghost use Rattle.wasm_validator_type_ancestors.specs.WasmValidatorTypeGroups.Groups.{first_of, IsInGroup};
ghost use Rattle.wasm_validator_type_ancestors.specs.WasmValidatorTypeGroups.Spans.{spans_of};
ghost use Rattle.wasm_validator_type_ancestors.specs.WasmValidatorTypeGroups.Elements.{ids_left, ids_of_group};
ghost use Rattle.wasm_validator_type_list.specs.ListRefusals.{not_in_group};
ghost use Rattle.wasm_validator_type_list.specs.Lookups.{leads_to, Leads, group_span};

use std::alloc::{AllocError, Allocator, Global};
use std::marker::Model;
use std::ops::{Index, Range};
use wasm_readers_errors::{Fault, Refusal};
use wasm_readers_types::{CoreTypeId, PackedIndex, SubType, UnpackedIndex};
use wasm_validator_type_ancestors::validator_type_groups::{
    GroupTable, RecGroupElements, RecGroupId, SnapshotList,
};
use wasm_validator_type_ancestors::{AncestorLists, KeptDepths};

mod depths;
mod holding;
mod interning;
mod links;
mod matching;
mod relations;
mod total;

pub use matching::{all_fields_match, all_vals_match, inners_match, subs_match};

/// The types of all modules that one validator has seen, in recursion groups, each type under its
/// id, which is its place among all types. A contract sees the mode of the list, whether groups may
/// be added, the sub types of each group in order, and the depths that are kept of types. Where it
/// is canonical equal groups are kept once, so that no two ids stand for one type.
pub struct TypeList<A: Allocator = Global> {
    groups: GroupTable<SubType<A>, A>,
    ancestors: AncestorLists<A>,
    depths: KeptDepths<A>,
    refers_by_ids: bool,
    is_canonical: bool,
    is_open: bool,
    alloc: A,
}

// By hand: so each way out takes one call for it, and not a step for each field.
impl<A: Allocator> Drop for TypeList<A> {
    fn drop(self) {
        let TypeList {
            groups: _,
            ancestors: _,
            depths: _,
            refers_by_ids: _,
            is_canonical: _,
            is_open: _,
            alloc: _,
        } = self;
    }
}

impl<A: Allocator> Model for TypeList<A> {
    ghost use Rattle.wasm_validator_type_list.specs.ListViews.{Listing};

    ghost Value = { Listing A };

    ghost use Rattle.wasm_validator_type_list.specs.ListSoundness.{shown, IsSound};

    ghost view = { shown };

    ghost invariant = { IsSound };
}

impl<A: Allocator + Copy> TypeList<A> {
    ghost use Rattle.wasm_validator_type_list.specs.ListViews.{no_groups, types_in, committed};
    ghost use Rattle.std.specs.Bool.{Decides};
    ghost use Rattle.wasm_validator_type_list.specs.GroupOrder.{AreListable, ReferByIds};
    ghost use Rattle.wasm_validator_type_list.specs.GroupInterning.{AreOnce};
    ghost use Rattle.wasm_validator_type_list.specs.DefTypes.{def_types};
    ghost use Rattle.wasm_readers_errors.specs.WasmSpec.TypeLaws.{HasNoRepetition};
    ghost use Rattle.wasm_validator_type_list.specs.Lookups.{IsSupertypeAt};

    /// The list of no groups, to which groups may be added. It takes no memory until then.
    pub fn new(alloc: A, is_canonical: bool) -> TypeList<A>
        ensures { result ≡ no_groups is_canonical }
    {
        TypeList {
            groups: GroupTable::new(alloc, is_canonical),
            ancestors: AncestorLists::new(alloc),
            depths: KeptDepths::new(alloc),
            refers_by_ids: true,
            is_canonical,
            is_open: true,
            alloc,
        }
    }

    /// Whether equal groups are kept once. Then no group is there twice; and in either mode no two
    /// ids stand for one type.
    pub fn is_canonical(&self) -> bool
        ensures mode { result ≡ self.now.is_canonical }
        ensures once { IsTrue result → AreOnce self.now.groups }
        ensures apart { HasNoRepetition (def_types self.now.is_canonical self.now.groups) }
    {
        self.is_canonical
    }

    /// Whether groups may be added.
    pub fn is_open(&self) -> bool
        ensures { result ≡ self.now.is_open }
    {
        self.is_open
    }

    /// Whether each reference in the types is an id, and none a position in a group.
    pub fn refers_by_ids(&self) -> bool
        ensures { Decides result (ReferByIds (types_in self.now)) }
    {
        self.refers_by_ids
    }

    /// The number of types. Each type refers to types before it, or to those of its group, and no
    /// two ids stand for one type.
    pub fn len(&self) -> usize
        ensures count { result ≡ length (types_in self.now) }
        ensures room { result ≤ MAX_IDS }
        ensures listable { AreListable self.now.groups }
        ensures apart { HasNoRepetition (def_types self.now.is_canonical self.now.groups) }
    {
        self.groups.item_count()
    }

    /// Says what holds of each list, for a caller that needs it and nothing else: what `len` says
    /// besides the number of types. It does nothing.
    #[inline(always)]
    pub fn recall_promises(&self)
        ensures room { length (types_in self.now) ≤ MAX_IDS }
        ensures listable { AreListable self.now.groups }
        ensures apart { HasNoRepetition (def_types self.now.is_canonical self.now.groups) }
    {
        let _count = self.len();
    }

    /// Whether there is no type.
    pub fn is_empty(&self) -> bool
        ensures { IsTrue result ↔ (length (types_in self.now) ≡ 0) }
    {
        self.groups.item_count() == 0
    }

    /// The number of groups.
    pub fn rec_group_count(&self) -> usize
        ensures { result ≡ length self.now.groups }
    {
        self.groups.group_count()
    }

    /// The type with this id, if there is one.
    pub fn get(&self, id: CoreTypeId) -> Option<&SubType<A>>
        ensures found { IfSome result (λ ty. ty.now
            ≡ slice_index_or (types_in self.now) id.index ty.now) }
        ensures when { IsSome result ↔ (id.index < length (types_in self.now)) }
    {
        self.groups.get(id.index())
    }

    /// The ids of the types of the group with this id, if there is one.
    pub fn get_rec_group(&self, group: RecGroupId) -> Option<&Range<CoreTypeId>>
        ensures found { IfSome result (λ ids. ids.now ≡ group_span self.now.groups group.index) }
        ensures when { IsSome result ↔ (group.index < length self.now.groups) }
    {
        if group.index() < self.groups.group_count() {
            Some(self.groups.members(group.index()))
        } else {
            None
        }
    }

    /// All types, in the order of their ids.
    pub fn types(&self) -> &SnapshotList<SubType<A>, A>
        ensures { result.now ≡ types_in self.now }
    {
        self.groups.items()
    }

    /// The ids of the types of each group, in the order of the groups' ids.
    pub fn rec_groups(&self) -> &SnapshotList<Range<CoreTypeId>, A>
        ensures { result.now ≡ spans_of self.now.groups }
    {
        self.groups.spans()
    }

    /// The id of the group that the type is in. The list must have the type.
    pub fn rec_group_id_of(&self, id: CoreTypeId) -> RecGroupId
        requires { id.index < length (types_in self.now) }
        ensures { IsInGroup self.now.groups result.index id.index }
    {
        RecGroupId::from_index(self.groups.group_at(id.index()))
    }

    /// The ids of the types of the group, in order. The list must have the group.
    pub fn rec_group_elements(&self, group: RecGroupId) -> RecGroupElements
        requires { group.index < length self.now.groups }
        ensures { ids_left result ≡ ids_of_group self.now.groups group.index }
    {
        RecGroupElements::new(self.groups.members(group.index()))
    }

    /// The id of the type at position `index` of the group, which the list must have. `offset` is
    /// where the reference stands, in bytes from the start of the input.
    ///
    /// # Errors
    ///
    /// Refused where the group has no such position.
    pub fn rec_group_local_id(
        &self,
        group: RecGroupId,
        index: u32,
        offset: u64,
    ) -> Result<CoreTypeId, Refusal>
        requires { group.index < length self.now.groups }
        ensures id { IfOk result (λ id. id.index ≡ first_of self.now.groups group.index + index) }
        ensures inside { IsOk result ↔ (first_of self.now.groups group.index + index
            < first_of self.now.groups (group.index + 1)) }
        ensures err { IfErr result (λ e. e ≡ not_in_group index offset) }
    {
        local_id(self.groups.members(group.index()), index, offset)
    }

    /// The id that a reference in the group, which the list must have, leads to: no module's index.
    /// `offset` is where the reference stands, in bytes from the start of the input.
    ///
    /// # Errors
    ///
    /// Refused where it is a position that the group doesn't have.
    pub fn at_canonicalized_unpacked_index(
        &self,
        group: RecGroupId,
        index: UnpackedIndex,
        offset: u64,
    ) -> Result<CoreTypeId, Refusal>
        requires group { group.index < length self.now.groups }
        requires not_module { module_of index ≡ None }
        ensures id { IfOk result (λ id. id.index
            ≡ leads_to (first_of self.now.groups group.index) index) }
        ensures leads { IsOk result ↔ Leads (first_of self.now.groups group.index)
            (first_of self.now.groups (group.index + 1)) index }
        ensures err { IfErr result (λ e. e ≡ not_in_group (number_of index) offset) }
    {
        match index {
            UnpackedIndex::Id(id) => Ok(id),
            UnpackedIndex::RecGroup(position) => self.rec_group_local_id(group, position, offset),
            UnpackedIndex::Module(_) => unreachable!(),
        }
    }

    /// The same of a packed reference.
    ///
    /// # Errors
    ///
    /// Refused where it is a position that the group doesn't have.
    pub fn at_canonicalized_packed_index(
        &self,
        group: RecGroupId,
        index: PackedIndex,
        offset: u64,
    ) -> Result<CoreTypeId, Refusal>
        requires group { group.index < length self.now.groups }
        requires not_module { module_of (index_of index) ≡ None }
        ensures id { IfOk result (λ id. id.index
            ≡ leads_to (first_of self.now.groups group.index) (index_of index)) }
        ensures leads { IsOk result ↔ Leads (first_of self.now.groups group.index)
            (first_of self.now.groups (group.index + 1)) (index_of index) }
        ensures err { IfErr result (λ e. e ≡ not_in_group (number_of (index_of index)) offset) }
    {
        self.at_canonicalized_unpacked_index(group, index.unpack(), offset)
    }

    /// The id of the type that the type with this id extends, if it extends one. The list must have
    /// the type.
    pub fn supertype_of(&self, id: CoreTypeId) -> Option<CoreTypeId>
        requires { id.index < length (types_in self.now) }
        ensures { IsSupertypeAt self.now.groups id.index result }
    {
        let place = id.index();
        let ids = self.groups.members(self.groups.group_at(place) as usize);
        let ty = self.groups.at(place);
        match ty.supertype_idxs.as_slice().first() {
            Some(index) => Some(id_from(ids.start, index.unpack())),
            None => None,
        }
    }

    /// A list of its own with the groups of this one, to which none may be added, and which keeps
    /// no depths. This one stays as it was. No type is copied: both lists hold the same ones.
    ///
    /// # Errors
    ///
    /// Fails where memory is refused.
    pub fn commit(&mut self) -> Result<TypeList<A>, AllocError>
        ensures same { self.new ≡ self.old }
        ensures copy { IfOk result (λ copy. copy ≡ committed self.old) }
    {
        let groups = self.groups.commit()?;
        let ancestors = self.ancestors.commit()?;
        Ok(TypeList {
            groups,
            ancestors,
            depths: KeptDepths::new(self.alloc),
            refers_by_ids: self.refers_by_ids,
            is_canonical: self.is_canonical,
            is_open: false,
            alloc: self.alloc,
        })
    }
}

/// The id at a position in a group with these ids.
fn local_id(ids: &Range<CoreTypeId>, index: u32, offset: u64) -> Result<CoreTypeId, Refusal>
    requires start { ids.now.start.index ≤ MAX_IDS }
    requires end { ids.now.end.index ≤ MAX_IDS }
    ensures id { IfOk result (λ id. id.index ≡ ids.now.start.index + index) }
    ensures inside { IsOk result ↔ (ids.now.start.index + index < ids.now.end.index) }
    ensures err { IfErr result (λ e. e ≡ not_in_group index offset) }
{
    let place = ids.start.index() + index as usize;
    if place < ids.end.index() {
        Ok(CoreTypeId::from_index(place as u32))
    } else {
        Err(Refusal::new(Fault::OutOfGroup(index), offset))
    }
}

/// The id that a reference leads to in a group that begins with this id.
fn id_from(start: CoreTypeId, index: UnpackedIndex) -> CoreTypeId
    requires not_module { module_of index ≡ None }
    requires room { start.index + number_of index ≤ MAX_IDS + MAX_IDS }
    ensures { result.index ≡ leads_to start.index index }
{
    match index {
        UnpackedIndex::Id(id) => id,
        UnpackedIndex::RecGroup(position) => {
            CoreTypeId::from_index(start.index() as u32 + position)
        }
        UnpackedIndex::Module(_) => unreachable!(),
    }
}

impl<A: Allocator + Copy> Index<CoreTypeId> for TypeList<A> {
    type Output = SubType<A>;

    ghost use Rattle.std.specs.Prelude.{◌≡◌, ◌<◌, length, slice_index_or};
    ghost use Rattle.wasm_validator_type_list.specs.ListViews.{types_in};

    ghost can_index = { λ list id. id.index < length (types_in list) };

    ghost index_gives = { λ list id ty. ty ≡ slice_index_or (types_in list) id.index ty };

    fn index(&self, id: CoreTypeId) -> &SubType<A> {
        self.groups.at(id.index())
    }
}

impl<A: Allocator + Copy> Index<RecGroupId> for TypeList<A> {
    type Output = Range<CoreTypeId>;

    ghost use Rattle.std.specs.Prelude.{◌≡◌, ◌<◌, ◌+◌, length};
    ghost use Rattle.wasm_validator_type_ancestors.specs.WasmValidatorTypeGroups.Groups.{first_of};
    ghost use Rattle.wasm_validator_type_list.specs.Lookups.{group_span};

    ghost can_index = { λ list group. group.index < length list.groups };

    ghost index_gives = { λ list group ids. ids ≡ group_span list.groups group.index };

    fn index(&self, group: RecGroupId) -> &Range<CoreTypeId> {
        self.groups.members(group.index())
    }
}
