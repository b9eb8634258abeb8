//! Groups are added, or found where the list keeps equal ones once.

ghost use Rattle.std.specs.Prelude.{◌≡◌, ◌+◌, ◌<◌, ◌∷◌, [], true, false, length, IsOk, IfOk, OnErr, IsTrue};
ghost use Rattle.std.specs.List.{All};
ghost use Rattle.std.specs.declared.option.Option.TheVariants.{None};
ghost use Rattle.wasm_validator_type_ancestors.specs.WasmValidatorTypeGroups.GroupHashes.{group_hash};
ghost use Rattle.wasm_validator_type_ancestors.specs.WasmValidatorTypeGroups.Places.{IsPlaceOf};
ghost use Rattle.wasm_readers_errors.specs.WasmSpec.References.{refs_comp};
ghost use Rattle.wasm_readers_types.specs.SeenTypes.{func_of, final_func};
ghost use Rattle.wasm_validator_type_list.specs.ListViews.{types_in};
ghost use Rattle.wasm_validator_type_list.specs.GroupOrder.{IsKnown, IsListable};
ghost use Rattle.wasm_validator_type_list.specs.GroupInterning.{Interns, InternsTypes, InternsOne, InternsSeen};
ghost use Rattle.wasm_validator_type_list.specs.ListRefusals.{HasGroup, RefusesTooMany, RefusesSeen};

use crate::type_list::TypeList;
use std::alloc::Allocator;
use std::hash::Hash;
use wasm_readers_errors::{Error, Fault, Refusal, Rule};
use wasm_readers_types::{CoreTypeId, FuncType, MAX_IDS, RecGroup, SubType};
use wasm_validator_type_ancestors::types_refer_by_ids;
use wasm_validator_type_ancestors::validator_type_groups::{GroupTable, RecGroupId};

impl<A: Allocator + Copy> TypeList<A> {
    /// Adds the group, or finds it: says whether it is new, and its id. `is_canonical` is the
    /// list's own mode; only where it is set are groups found. A group that is found takes no
    /// memory, and is never refused. `offset` is where the group stands in the input.
    ///
    /// # Errors
    ///
    /// Refused where the group is new and the types of the list and those of the group are more
    /// than [`MAX_IDS`]; and where memory is. The list then stays as it was.
    pub fn intern_canonical_rec_group(
        &mut self,
        is_canonical: bool,
        group: RecGroup<A>,
        offset: u64,
    ) -> Result<(bool, RecGroupId), Error>
        requires open { IsTrue self.old.is_open }
        requires mode { is_canonical ≡ self.old.is_canonical }
        requires members { is_canonical ≡ false → 0 < length group.types }
        requires listable { IsListable (length (types_in self.old)) group.types }
        ensures interned { IfOk result (λ r. Interns self.old self.new group.types r.0 r.1.index) }
        ensures types { IfOk result (λ r. InternsTypes self.old self.new
            group.types r.0 r.1.index) }
        ensures same_mode { self.new.is_canonical ≡ self.old.is_canonical }
        ensures same_open { self.new.is_open ≡ self.old.is_open }
        ensures err { OnErr result (self.new ≡ self.old) }
        ensures limit { RefusesTooMany result self.old group.types offset }
        ensures known { HasGroup self.old group.types → IsOk result }
    {
        let hash = GroupTable::<SubType<A>, A>::hash_of(group.types());
        if let Some(found) = found_in(is_canonical, &self.groups, group.types(), hash) {
            return Ok((false, RecGroupId::from_index(found)));
        }
        if group.types().len() > MAX_IDS as usize - self.groups.item_count() {
            let refusal = Refusal::new(Fault::Rule(Rule::TooManyTypes), offset);
            return Err(Error::Refused(refusal));
        }
        let number = self.groups.group_count() as u32;
        let places = self.groups.item_count();
        let refers_by_ids = types_refer_by_ids(self.refers_by_ids, places, group.types());
        self.ancestors
            .push_group(&mut self.groups, group.into_types(), hash)?;
        self.refers_by_ids = refers_by_ids;
        Ok((true, RecGroupId::from_index(number)))
    }

    /// Adds the sub type as a group of its own, or finds it, and says its id. Memory is taken for a
    /// group of one type, also where the list has it. `offset` is where it stands in the input.
    ///
    /// # Errors
    ///
    /// Refused where the group is new and the list already has [`MAX_IDS`] types, and where memory
    /// is. The list then stays as it was.
    pub fn intern_sub_type(&mut self, ty: SubType<A>, offset: u64) -> Result<CoreTypeId, Error>
        requires open { IsTrue self.old.is_open }
        requires listable { IsListable (length (types_in self.old)) (ty ∷ []) }
        ensures interned { IfOk result (λ id. InternsOne self.old self.new ty id.index) }
        ensures same_mode { self.new.is_canonical ≡ self.old.is_canonical }
        ensures same_open { self.new.is_open ≡ self.old.is_open }
        ensures err { OnErr result (self.new ≡ self.old) }
        ensures limit { RefusesTooMany result self.old (ty ∷ []) offset }
    {
        let group = RecGroup::implicit(self.alloc, ty)?;
        let is_canonical = self.is_canonical();
        let (_, id) = self.intern_canonical_rec_group(is_canonical, group, offset)?;
        Ok(self.groups.members(id.index()).start)
    }

    /// Adds the final sub type of the function type, which is not shared and extends nothing, as a
    /// group of its own, or finds it, and says its id. Memory is taken for a group of one type, also
    /// where the list has it. `offset` is where it stands in the input.
    ///
    /// # Errors
    ///
    /// Refused where the group is new and the list already has [`MAX_IDS`] types, and where memory
    /// is. The list then stays as it was.
    pub fn intern_func_type(
        &mut self,
        signature: FuncType<A>,
        offset: u64,
    ) -> Result<CoreTypeId, Error>
        requires open { IsTrue self.old.is_open }
        requires known { All (IsKnown (length (types_in self.old)) 1)
            (refs_comp (func_of signature)) }
        ensures interned { IfOk result (λ id. InternsSeen self.old self.new
            (final_func (func_of signature) false) id.index) }
        ensures same_mode { self.new.is_canonical ≡ self.old.is_canonical }
        ensures same_open { self.new.is_open ≡ self.old.is_open }
        ensures err { OnErr result (self.new ≡ self.old) }
        ensures limit { RefusesSeen result self.old (final_func (func_of signature) false)
            offset }
    {
        self.intern_sub_type(SubType::func(self.alloc, signature, false), offset)
    }
}

/// The number of the group with these types, which have this hash, where equal groups are kept once
/// and there is one.
fn found_in<A: Allocator + Copy>(
    is_canonical: bool,
    groups: &GroupTable<SubType<A>, A>,
    types: &[SubType<A>],
    hash: u64,
) -> Option<u32>
    requires { hash ≡ group_hash ⟦<SubType<A> as Hash>⟧.hash_input types.now }
    ensures once { is_canonical ≡ true → IsPlaceOf result groups.now types.now }
    ensures own { is_canonical ≡ false → result ≡ None }
{
    if is_canonical {
        groups.find(types, hash)
    } else {
        None
    }
}
