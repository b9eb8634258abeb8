//! Which types are above a type, by one look-up.
//!
//! Of each type with at most 63 proper ancestors, as each accepted type has, the store has the list
//! of them, from the topmost down, in the order in which the types came. An ancestor with k proper
//! ancestors of its own stands at place k of that list. So whether b is above a is one comparison:
//! that of b with the entry of a's list at the number of b's ancestors. A type with more has its
//! supertype alone, and its ancestors are walked one by one.
//!
//! A contract sees only which id each type extends, since all else follows from it.

ghost use Rattle.std.specs.Prelude.{◌≡◌, ◌+◌, ◌<◌, ◌≤◌, ◌^◌, ◌++◌, ◌∷◌, [], ℕ, Option, length, IfOk, OnOk, OnErr};
ghost use Rattle.std.specs.Bool.{Decides};
ghost use Rattle.wasm_validator_type_groups.specs.WasmSpec.Syntax.{Sub};
ghost use Rattle.wasm_validator_type_groups.specs.WasmSpec.SupertypeOrder.{IsAncestor, IsDepth};
ghost use Rattle.wasm_validator_type_groups.specs.Groups.{all_in};
ghost use Rattle.wasm_validator_type_groups.specs.GroupHashes.{group_hash};
ghost use Rattle.wasm_validator_type_ancestors.specs.Supers.{extended_in, ExtendEarlier, Tells};
ghost use Rattle.wasm_validator_type_ancestors.specs.ReadCounts.{Counts};

use crate::entries::{Entry, entries_of, is_below};
use crate::link_count::LinkCount;
use std::alloc::{AllocError, Allocator, Global};
use std::hash::Hash;
use std::marker::Model;
use wasm_validator_type_groups::readers_types::{CoreTypeId, SubType};
use wasm_validator_type_groups::{GroupTable, SnapshotList};

/// Of each type of a list its proper ancestors, from the topmost down, all in one store. A contract
/// sees of each type the id that it extends.
pub struct AncestorLists<A: Allocator = Global> {
    entries: SnapshotList<Entry, A>,
    ids: SnapshotList<u32, A>,
    alloc: A,
}

// By hand: so each way out takes one call for it, and not a step for each field.
impl<A: Allocator> Drop for AncestorLists<A> {
    fn drop(self) {
        let AncestorLists {
            entries: _,
            ids: _,
            alloc: _,
        } = self;
    }
}

impl<A: Allocator> Model for AncestorLists<A> {
    ghost use Rattle.std.specs.Prelude.{ℕ, List, Option};

    ghost Value = { List (Option ℕ) };

    ghost use Rattle.wasm_validator_type_ancestors.specs.AncestorEntries.{supers_in, AreEntriesIn};

    ghost view = { supers_in };

    ghost invariant = { AreEntriesIn };
}

impl<A: Allocator + Copy> AncestorLists<A> {
    /// The lists of no types. They take no memory until the first `push_group`.
    pub fn new(alloc: A) -> AncestorLists<A>
        ensures { result ≡ [] }
    {
        AncestorLists {
            entries: SnapshotList::new(alloc),
            ids: SnapshotList::new(alloc),
            alloc,
        }
    }

    /// The same lists once more, which share what they hold with these. These stay as they were.
    ///
    /// # Errors
    ///
    /// Fails where memory is refused.
    pub fn commit(&mut self) -> Result<AncestorLists<A>, AllocError>
        ensures same { self.new ≡ self.old }
        ensures copy { IfOk result (λ copy. copy ≡ self.old) }
    {
        Ok(AncestorLists {
            entries: self.entries.commit()?,
            ids: self.ids.commit()?,
            alloc: self.alloc,
        })
    }

    /// Puts a group of sub types at the end of a list of types, and of each the list of its
    /// ancestors at the end here: both, or where memory is refused neither. Each sub type extends an
    /// earlier one, if it extends one. `hash` is the group's.
    ///
    /// # Errors
    ///
    /// Fails where memory is refused.
    pub fn push_group(
        &mut self,
        groups: &mut GroupTable<SubType<A>, A>,
        group: Vec<SubType<A>, A>,
        hash: u64,
    ) -> Result<(), AllocError>
        requires hash { hash ≡ group_hash ⟦<SubType<A> as Hash>⟧.hash_input group.items }
        requires as_many { length self.old ≡ length (all_in groups.old) }
        requires earlier { ExtendEarlier (length (all_in groups.old)) group.items }
        requires room { length (all_in groups.old) + length group.items < 2 ^ 32 }
        requires group_room { length groups.old < 2 ^ 32 }
        ensures groups { OnOk result (groups.new ≡ groups.old ++ group.items ∷ []) }
        ensures lists { OnOk result (self.new ≡ self.old
            ++ extended_in (length (all_in groups.old)) group.items) }
        ensures err { OnErr result (self.new ≡ self.old) }
        ensures same_groups { OnErr result (groups.new ≡ groups.old) }
    {
        let more = entries_of(self.alloc, &self.entries, &mut self.ids, &group)?;
        groups.push_noted(group, hash, &mut self.entries, more)
    }

    /// Whether the second type is the first or one of its declared ancestors, by one look-up, or
    /// where the first has more than 63 proper ancestors by its supertypes one after another; adds
    /// one to the count for each supertype link or entry of a list that is read. It takes no memory.
    pub fn is_ancestor(&self, a: CoreTypeId, b: CoreTypeId, count: &mut LinkCount) -> bool
        requires sub { a.index < length self.now }
        requires sup { b.index < length self.now }
        requires room { count.old.links < 2 ^ 63 }
        ensures decides { (D : ℕ → Option (Sub ℕ)) → Tells self.now D
            → Decides result (IsAncestor D a.index b.index) }
        ensures counts { (D : ℕ → Option (Sub ℕ)) → Tells self.now D
            → Counts D a.index b.index count.old.links count.new.links }
        ensures one { (D : ℕ → Option (Sub ℕ)) → Tells self.now D → (n : ℕ)
            → IsDepth D a.index n → n ≤ 63 → count.new.links ≤ count.old.links + 1 }
    {
        let from = a.index() as u32;
        let to = b.index() as u32;
        is_below(&self.entries, &self.ids, from, to, count)
    }
}
