//! Modules whose types are in a list of types.

ghost use Rattle.std.specs.Prelude.{◌≡◌, ◌+◌, ◌<◌, ◌^◌, ◌++◌, true, false, Some, length, slice_get, nat_lt, is_ok, IfOk, IfErr, OnOk, IsTrue};
ghost use Rattle.std.specs.List.{All};
ghost use Rattle.wasm_spec.specs.Features.{canonical};
ghost use Rattle.wasm_spec_rules.specs.FeatureFlags.{features_of};
ghost use Rattle.wasm_readers_types.specs.SeenTypes.{rec_of};
ghost use Rattle.wasm_validator_type_list.specs.ListViews.{types_in};
ghost use Rattle.wasm_validator_type_list.specs.DefTypes.{types_of_list};
ghost use Rattle.wasm_validator_canonical.specs.Groups.{has_form, AreValid};
ghost use Rattle.wasm_validator_canonical.specs.Answers.{IsAt};
ghost use Rattle.wasm_validator_canonical.specs.GroupInterning.{next_ids, AddsWrittenGroup, KeepsGroups};
ghost use Rattle.wasm_validator_canonical.specs.Refusals.{unknown_type};
ghost use Rattle.wasm_validator_canonical.specs.GroupFaults.{IfContent, ToldOfAdded};
ghost use Rattle.wasm_validator_canonical.specs.Indices.{numbers};
ghost use Rattle.wasm_validator_canonical.specs.References.{LeadsTo};
ghost use Rattle.wasm_validator_type_list.specs.WasmValidatorTypeGroups.Groups.{first_of};

use crate::intern_rec_group::canonicalize_and_intern_rec_group;
use std::alloc::{AllocError, Allocator};
use wasm_readers_errors::{Error, Fault, Refusal, WasmFeatures};
use wasm_readers_types::{CoreTypeId, PackedIndex, RecGroup, UnpackedIndex};
use wasm_validator_type_list::{RecGroupElements, RecGroupId, TypeList};

/// A module whose types are in a list of types: it has their ids, in the order of their indices.
pub trait InternRecGroup<A: Allocator + Copy>: Sized {
    ghost use Rattle.std.specs.Prelude.{ℕ, ◌≡◌, ◌+◌, ◌<◌, ◌^◌, ◌++◌, ◌∷◌, [], List, Some, length, slice_get, nat_lt, is_ok, IfOk, IfErr, OnOk};
    ghost use Rattle.wasm_validator_canonical.specs.Refusals.{unknown_type};
    ghost use Rattle.wasm_validator_type_list.specs.WasmValidatorTypeGroups.Elements.{ids_left};
    ghost use Rattle.wasm_validator_canonical.specs.Indices.{numbers};
    ghost use Rattle.wasm_validator_canonical.specs.References.{LeadsTo};
    ghost use Rattle.wasm_validator_type_list.specs.WasmValidatorTypeGroups.Groups.{first_of};
    ghost use Rattle.wasm_readers_types.specs.WasmReadersValues.SeenValues.{index_of};

    ghost ids: { Self → List ℕ };

    ghost others: { Self → Self };

    /// The ids of its types.
    fn type_ids(&self) -> &[CoreTypeId]
        ensures { numbers result.now ≡ ids self.now };

    /// Gives the type with this id the next index. Nothing else changes. The number of types must
    /// fit 32 bits then.
    ///
    /// # Errors
    ///
    /// Fails where memory is refused. What it changed until then is not said.
    fn add_type_id(&mut self, id: CoreTypeId) -> Result<(), AllocError>
        requires room { length (ids self.old) + 1 < 2 ^ 32 }
        ensures ids { OnOk result (ids self.new ≡ ids self.old ++ id.index ∷ []) }
        ensures others { others self.new ≡ others self.old };

    /// Gives the types with these ids the next indices. Nothing else changes. The number of types
    /// must fit 32 bits then.
    ///
    /// # Errors
    ///
    /// Fails where memory is refused. What it changed until then is not said.
    fn add_type_ids(&mut self, elements: RecGroupElements) -> Result<(), AllocError>
        requires { length (ids self.old) + length (ids_left elements) < 2 ^ 32 }
        ensures ids { OnOk result (ids self.new ≡ ids self.old ++ ids_left elements) }
        ensures others { others self.new ≡ others self.old }
    {
        let mut elements = elements;
        'ids: while let Some(id) = elements.next() {
            match self.add_type_id(id) {
                Ok(()) => {}
                Err(error) => return Err(error),
            }
        }
        Ok(())
    }

    /// The number of its types.
    fn types_len(&self) -> u32
        requires { length (ids self.now) < 2 ^ 32 }
        ensures { result ≡ length (ids self.now) }
    {
        self.type_ids().len() as u32
    }

    /// The id of its type with this index. `offset` is where the index stands in the input.
    ///
    /// # Errors
    ///
    /// Refused where there is no such type.
    fn type_id_at(&self, index: u32, offset: u64) -> Result<CoreTypeId, Refusal>
        ensures id { IfOk result (λ id. slice_get (ids self.now) index ≡ Some id.index) }
        ensures inside { is_ok result ≡ nat_lt index (length (ids self.now)) }
        ensures refusal { IfErr result (λ r. r ≡ unknown_type index offset) }
    {
        id_at(self.type_ids(), index, offset)
    }

    /// The id that a reference leads to which is written in a type of this group: an id leads to
    /// itself, a position to the type there of the group, and an index to the type of the module.
    /// The list must have the group. `offset` is where the reference stands in the input.
    ///
    /// # Errors
    ///
    /// Refused where the module has no type with this index, or the group no such position.
    fn at_packed_index(
        &self,
        types: &TypeList<A>,
        rec_group: RecGroupId,
        index: PackedIndex,
        offset: u64,
    ) -> Result<CoreTypeId, Refusal>
        requires { rec_group.index < length types.now.groups }
        ensures { LeadsTo (ids self.now) (first_of types.now.groups rec_group.index)
            (first_of types.now.groups (rec_group.index + 1)) offset (index_of index) result }
    {
        id_of_reference(self.type_ids(), types, rec_group, index.unpack(), offset)
    }
}

/// The id that a reference leads to, among these ids of a module and in this group.
fn id_of_reference<A: Allocator + Copy>(
    ids: &[CoreTypeId],
    types: &TypeList<A>,
    rec_group: RecGroupId,
    index: UnpackedIndex,
    offset: u64,
) -> Result<CoreTypeId, Refusal>
    requires { rec_group.index < length types.now.groups }
    ensures { LeadsTo (numbers ids.now) (first_of types.now.groups rec_group.index)
        (first_of types.now.groups (rec_group.index + 1)) offset index result }
{
    match index {
        UnpackedIndex::Module(index) => id_at(ids, index, offset),
        UnpackedIndex::RecGroup(place) => types.rec_group_local_id(rec_group, place, offset),
        UnpackedIndex::Id(id) => Ok(id),
    }
}

/// The id at this index.
fn id_at(ids: &[CoreTypeId], index: u32, offset: u64) -> Result<CoreTypeId, Refusal>
    ensures id { IfOk result (λ id. slice_get (numbers ids.now) index ≡ Some id.index) }
    ensures inside { is_ok result ≡ nat_lt index (length (numbers ids.now)) }
    ensures refusal { IfErr result (λ r. r ≡ unknown_type index offset) }
{
    match ids.get(index as usize) {
        Some(id) => Ok(*id),
        None => Err(Refusal::new(Fault::UnknownType(index), offset)),
    }
}

/// Adds the types of a recursion group behind those of the module, and to the list of types. The
/// features are those that the module may use, and `offset` is where the group stands in the input.
///
/// The list and the group must be as for [`canonicalize_and_intern_rec_group`], and the types of
/// the module and of the group fewer than 2³¹ together.
///
/// # Errors
///
/// Refused where the group can't be added, as by [`canonicalize_and_intern_rec_group`], and where
/// memory is. The list then still begins with all that it had; it and the module are only to be
/// dropped.
pub fn intern_rec_group_of<A: Allocator + Copy, M: InternRecGroup<A>>(
    target: &mut M,
    features: WasmFeatures,
    alloc: A,
    types: &mut TypeList<A>,
    group: RecGroup<A>,
    offset: u64,
) -> Result<(), Error>
    requires open { IsTrue types.old.is_open }
    requires mode { types.old.is_canonical ≡ canonical (features_of features) }
    requires known { All (λ id. id < length (types_of_list types.old)) (M.ids target.old) }
    requires few { length (M.ids target.old) + length group.types < 2 ^ 31 }
    requires form { has_form (rec_of group) ≡ true }
    requires valid { AreValid (features_of features) (types_of_list types.old) }
    ensures added { AddsWrittenGroup (features_of features) result types.old (M.ids target.old)
        (rec_of group) types.new (M.ids target.new) }
    ensures valid { OnOk result (AreValid (features_of features) (types_of_list types.new)) }
    ensures own_ids { canonical (features_of features) ≡ false
        → OnOk result (M.ids target.new ≡ M.ids target.old
        ++ next_ids types.old (length group.types)) }
    ensures grows { canonical (features_of features) ≡ false
        → OnOk result (length (types_in types.new)
        ≡ length (types_in types.old) + length group.types) }
    ensures others { M.others target.new ≡ M.others target.old }
    ensures place { IfErr result (IsAt offset) }
    ensures told { IfErr result (IfContent (ToldOfAdded features offset types.old
        (M.ids target.old) (rec_of group))) }
    ensures kept_groups { KeepsGroups types.old types.new }
    ensures same_open { types.new.is_open ≡ types.old.is_open }
    ensures same_mode { types.new.is_canonical ≡ types.old.is_canonical }
{
    let ids = target.type_ids();
    match canonicalize_and_intern_rec_group(features, alloc, types, ids, group, offset) {
        Ok(elements) => match target.add_type_ids(elements) {
            Ok(()) => Ok(()),
            Err(_) => Err(Error::OutOfMemory),
        },
        Err(error) => Err(error),
    }
}
