//! Groups in a flat list, with the index that finds a group by its hash. Items are generic here: a
//! group is a list of items that are compared by `==`.

ghost use Rattle.std.specs.Prelude.{◌≡◌, ◌+◌, ◌<◌, ◌≤◌, ◌^◌, ◌++◌, ◌∷◌, [], length, slice_index_or, IfOk, IfSome, IsSome, OnOk, OnErr, ◌↔◌};
ghost use Rattle.wasm_validator_type_groups.specs.Groups.{all_in, first_of, IsInGroup};
ghost use Rattle.wasm_validator_type_groups.specs.Spans.{span, spans_of};
ghost use Rattle.wasm_validator_type_groups.specs.Places.{IsPlaceOf};
ghost use Rattle.wasm_validator_type_groups.specs.GroupHashes.{group_hash};

use crate::known_groups::{KnownGroups, is_group};
use crate::{GroupedList, SnapshotList};
use std::alloc::{AllocError, Allocator, Global};
use std::hash::{DefaultHasher, Hash, Hasher};
use std::marker::Model;
use std::ops::Range;
use wasm_readers_types::{CoreTypeId, Exact};

/// Groups of items, one behind another, in one flat list, and where they are indexed each found by
/// its hash. A contract sees the list of groups; the place of an item is counted over all groups.
pub struct GroupTable<T: Exact + Hash, A: Allocator = Global> {
    groups: GroupedList<T, A>,
    known: KnownGroups<A>,
    is_indexed: bool,
    alloc: A,
}

// By hand: so each way out takes one call for it, and not a step for each field.
impl<T: Exact + Hash + Drop, A: Allocator> Drop for GroupTable<T, A> {
    fn drop(self) {
        let GroupTable {
            groups: _,
            known: _,
            is_indexed: _,
            alloc: _,
        } = self;
    }
}

impl<T: Exact + Hash, A: Allocator> Model for GroupTable<T, A> {
    ghost use Rattle.std.specs.Prelude.{List};

    ghost Value = { List (List T) };

    ghost use Rattle.wasm_validator_type_groups.specs.Tables.{groups_in, IsTable};

    ghost view = { groups_in };

    ghost invariant = { IsTable T.hash_input };
}

impl<T: Exact + Hash, A: Allocator + Copy> GroupTable<T, A> {
    /// The table of no groups. It takes no memory until the first is pushed. Where groups are
    /// indexed each is found at once, and elsewhere by looking at all.
    pub fn new(alloc: A, is_indexed: bool) -> GroupTable<T, A>
        ensures { result ≡ [] }
    {
        GroupTable {
            groups: GroupedList::new(alloc),
            known: KnownGroups::new(alloc),
            is_indexed,
            alloc,
        }
    }

    /// The number of groups.
    pub fn group_count(&self) -> usize
        ensures { result ≡ length self.now }
    {
        self.groups.group_count()
    }

    /// The number of items in all groups.
    pub fn item_count(&self) -> usize
        ensures { result ≡ length (all_in self.now) }
    {
        self.groups.item_count()
    }

    /// The items of all groups.
    pub fn items(&self) -> &SnapshotList<T, A>
        ensures { result.now ≡ all_in self.now }
    {
        self.groups.items()
    }

    /// The ids of the members of each group.
    pub fn spans(&self) -> &SnapshotList<Range<CoreTypeId>, A>
        ensures { result.now ≡ spans_of self.now }
    {
        self.groups.spans()
    }

    /// The item at the place, if there is one.
    pub fn get(&self, place: usize) -> Option<&T>
        ensures found { IfSome result (λ item. item.now
            ≡ slice_index_or (all_in self.now) place item.now) }
        ensures when { IsSome result ↔ (place < length (all_in self.now)) }
    {
        self.groups.get(place)
    }

    /// The item at the place.
    pub fn at(&self, place: usize) -> &T
        requires { place < length (all_in self.now) }
        ensures { result.now ≡ slice_index_or (all_in self.now) place result.now }
    {
        self.groups.at(place)
    }

    /// The ids of the members of the group with this number.
    pub fn members(&self, group: usize) -> &Range<CoreTypeId>
        requires { group < length self.now }
        ensures { result.now ≡ span (first_of self.now group) (first_of self.now (group + 1)) }
    {
        self.groups.members(group)
    }

    /// The number of the group that the item at the place is in.
    pub fn group_at(&self, place: usize) -> u32
        requires { place < length (all_in self.now) }
        ensures { IsInGroup self.now result place }
    {
        self.groups.group_at(place)
    }

    /// The hash of a group.
    pub fn hash_of(group: &[T]) -> u64
        ensures { result ≡ group_hash T.hash_input group.now }
    {
        let mut state = DefaultHasher::new();
        group.hash(&mut state);
        state.finish()
    }

    /// The number of the group with these items, if there is one. `hash` is theirs.
    pub fn find(&self, group: &[T], hash: u64) -> Option<u32>
        requires { hash ≡ group_hash T.hash_input group.now }
        ensures { IsPlaceOf result self.now group.now }
    {
        if self.is_indexed {
            self.known.find(&self.groups, group, hash)
        } else {
            find_among(&self.groups, group)
        }
    }

    /// Puts a group at the end, and what is noted of its items at the end of a list of notes: both, or
    /// where memory is refused neither. `hash` is the group's.
    ///
    /// # Errors
    ///
    /// Fails where memory is refused.
    pub fn push_noted<N>(
        &mut self,
        group: Vec<T, A>,
        hash: u64,
        notes: &mut SnapshotList<N, A>,
        more: Vec<N, A>,
    ) -> Result<(), AllocError>
    where
        T: Drop,
        N: Drop,
        requires hash { hash ≡ group_hash T.hash_input group.items }
        requires room { length (all_in self.old) + length group.items < 2 ^ 32 }
        requires group_room { length self.old < 2 ^ 32 }
        ensures ok { OnOk result (self.new ≡ self.old ++ group.items ∷ []) }
        ensures noted { OnOk result (notes.new ≡ notes.old ++ more.items) }
        ensures err { OnErr result (self.new ≡ self.old) }
        ensures not_noted { OnErr result (notes.new ≡ notes.old) }
    {
        if !self.is_indexed {
            return self.groups.push_noted(group, notes, more);
        }
        let number = self.groups.group_count() as u32;
        self.known.reserve(hash)?;
        self.groups.push_noted(group, notes, more)?;
        self.known.add(hash, number);
        Ok(())
    }

    /// A table of its own with the groups of this one, which stays as it was. No item is copied: both
    /// tables hold the same ones. The copy isn't indexed.
    ///
    /// # Errors
    ///
    /// Fails where memory is refused.
    pub fn commit(&mut self) -> Result<GroupTable<T, A>, AllocError>
    where
        T: Drop,
        ensures same { self.new ≡ self.old }
        ensures copy { IfOk result (λ copy. copy ≡ self.old) }
    {
        let groups = self.groups.commit()?;
        Ok(GroupTable {
            groups,
            known: KnownGroups::new(self.alloc),
            is_indexed: false,
            alloc: self.alloc,
        })
    }
}

/// The number of the group, by looking at all from the first on.
fn find_among<T: Exact, A: Allocator + Copy>(groups: &GroupedList<T, A>, group: &[T]) -> Option<u32>
    requires { length groups.now ≤ 2 ^ 32 }
    ensures { IsPlaceOf result groups.now group.now }
{
    'numbers: for number in 0..groups.group_count() {
        if is_group(groups, number, group) {
            return Some(number as u32);
        }
    }
    None
}
