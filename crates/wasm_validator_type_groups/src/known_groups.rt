//! Groups found by their hash: a tree from each hash to the latest group that has it, and of each
//! group the one before it with the same hash, if there is one. So a look-up compares the group
//! with those of its hash alone, the latest first. The tree takes as long for hashes that are chosen
//! as for any others.

ghost use Rattle.std.specs.Prelude.{◌≡◌, ◌+◌, ◌<◌, ◌≤◌, ℕ, [], length, slice_get, OnOk};
ghost use Rattle.std.specs.Bool.{Decides};
ghost use Rattle.std.specs.declared.option.Option.TheVariants.{Some};
ghost use Rattle.wasm_validator_type_groups.specs.Groups.{all_in};
ghost use Rattle.wasm_validator_type_groups.specs.Places.{IsPlaceOf};
ghost use Rattle.wasm_validator_type_groups.specs.GroupHashes.{group_hash, latest_of, AreKnown, FindSame, HasPlace, HasRoom, FindsOneMore};

use crate::GroupedList;
use std::alloc::{AllocError, Allocator};
use std::collections::{BTreeMap, HashMap};
use std::hash::{BuildHasherDefault, FoldHasher, Hash};
use wasm_readers_types::{Exact, same};

/// Which groups a list has, by their hashes: of each hash the number of the last group with it, and
/// of each group that of the last one before it with the same hash. A hash may be there for a group
/// that is still to be added.
pub(crate) struct KnownGroups<A: Allocator> {
    latest: BTreeMap<u64, Option<u32>, A>,
    earlier: HashMap<u32, u32, BuildHasherDefault<FoldHasher>, A>,
}

// By hand: so each way out takes one call for it, and not a step for each field.
impl<A: Allocator> Drop for KnownGroups<A> {
    fn drop(self) {
        let KnownGroups {
            latest: _,
            earlier: _,
        } = self;
    }
}

impl<A: Allocator + Copy> KnownGroups<A> {
    /// No groups. It takes no memory until the first is added.
    pub fn new(alloc: A) -> KnownGroups<A>
        ensures latest { result.latest.entries ≡ [] }
        ensures earlier { result.earlier.entries ≡ [] }
    {
        KnownGroups {
            latest: BTreeMap::new(alloc),
            earlier: HashMap::new(alloc),
        }
    }

    /// The number of the last group with this hash, if there is one.
    fn latest_at(&self, hash: u64) -> Option<u32>
        ensures { result ≡ latest_of self.now hash }
    {
        match self.latest.get(&hash) {
            Some(number) => *number,
            None => None,
        }
    }

    /// The number of the group in the list, if it has it. `hash` is the group's.
    pub fn find<T: Exact + Hash>(
        &self,
        groups: &GroupedList<T, A>,
        group: &[T],
        hash: u64,
    ) -> Option<u32>
        requires known { AreKnown T.hash_input self.now groups.now }
        requires hash { hash ≡ group_hash T.hash_input group.now }
        ensures { IsPlaceOf result groups.now group.now }
    {
        let mut next = self.latest_at(hash);
        'numbers: while let Some(number) = next {
            if is_group(groups, number as usize, group) {
                return Some(number);
            }
            next = self.earlier.get(&number).copied();
        }
        None
    }

    /// Makes a place for a group with this hash, where there is none.
    ///
    /// # Errors
    ///
    /// Fails where memory is refused.
    #[tactic(auto, using(crate::proofs::HashChains::places))]
    fn make_place(&mut self, hash: u64) -> Result<(), AllocError>
        ensures place { OnOk result (HasPlace self.new hash) }
        ensures same { FindSame self.old self.new }
        ensures earlier { self.new.earlier ≡ self.old.earlier }
    {
        if !self.latest.contains_key(&hash) {
            self.latest.insert(hash, None)?;
        }
        Ok(())
    }

    /// Makes room for one more group, which has this hash.
    ///
    /// # Errors
    ///
    /// Fails where memory is refused.
    pub fn reserve(&mut self, hash: u64) -> Result<(), AllocError>
        ensures room { OnOk result (HasRoom self.new hash) }
        ensures same { FindSame self.old self.new }
    {
        self.make_place(hash)?;
        self.earlier.reserve(1)?;
        Ok(())
    }

    /// Adds the group with this hash and this number, for which there is room.
    pub fn add(&mut self, hash: u64, number: u32)
        requires { HasRoom self.old hash }
        ensures { FindsOneMore self.old self.new hash number }
    {
        let replaced: Result<_, _> = self.latest.insert(hash, Some(number));
        if let Some(Some(before)) = replaced.unwrap() {
            let inserted: Result<_, _> = self.earlier.insert(number, before);
            let _none = inserted.unwrap();
        }
    }
}

/// Whether the group with this number is this one.
pub(crate) fn is_group<T: Exact, A: Allocator + Copy>(
    groups: &GroupedList<T, A>,
    number: usize,
    group: &[T],
) -> bool
    requires { number < length groups.now }
    ensures { Decides result (slice_get groups.now number ≡ Some group.now) }
{
    let ids = groups.members(number);
    let start = ids.start.index();
    if ids.end.index().saturating_sub(start) != group.len() {
        return false;
    }
    are_at(groups, start, group)
}

/// Whether these items stand in the list from the place on.
fn are_at<T: Exact, A: Allocator + Copy>(
    groups: &GroupedList<T, A>,
    start: usize,
    items: &[T],
) -> bool
    requires { start + length items.now ≤ length (all_in groups.now) }
    ensures { Decides result ((i : ℕ) → i < length items.now
        → slice_get (all_in groups.now) (start + i) ≡ slice_get items.now i) }
{
    // How many there are is asked for what it promises.
    let _count = groups.item_count();
    let mut place = start;
    'items: for item in items {
        if !same(groups.at(place), item) {
            return false;
        }
        place += 1;
    }
    true
}
