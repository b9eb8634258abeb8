//! Groups in one flat list: all items one behind another, the ids of each group's items, and the
//! group of each item. Places count items from 0, over all groups.

ghost use Rattle.std.specs.Prelude.{◌≡◌, ◌+◌, ◌<◌, ◌^◌, ◌++◌, ◌∷◌, [], length, replicate, slice_index_or, IfOk, IfSome, OnOk, OnErr, IsSome, ◌↔◌};
ghost use Rattle.wasm_validator_type_groups.specs.Groups.{all_in, first_of, IsInGroup};
ghost use Rattle.wasm_validator_type_groups.specs.Spans.{span, spans_of};

use crate::snapshot_list::SnapshotList;
use std::alloc::{AllocError, Allocator, Global};
use std::marker::Model;
use std::ops::Range;
use wasm_readers_types::CoreTypeId;

/// Groups of items, one behind another, in one flat list. A contract sees the list of groups; the
/// place of an item is counted over all groups.
pub struct GroupedList<T, A: Allocator = Global> {
    items: SnapshotList<T, A>,
    spans: SnapshotList<Range<CoreTypeId>, A>,
    owners: SnapshotList<u32, A>,
    alloc: A,
}

// By hand: so each way out takes one call for it, and not a step for each field.
impl<T: Drop, A: Allocator> Drop for GroupedList<T, A> {
    fn drop(self) {
        let GroupedList {
            items: _,
            spans: _,
            owners: _,
            alloc: _,
        } = self;
    }
}

impl<T, A: Allocator> Model for GroupedList<T, A> {
    ghost use Rattle.std.specs.Prelude.{List};

    ghost Value = { List (List T) };

    ghost use Rattle.wasm_validator_type_groups.specs.FlatLists.{groups_of, IsParted};

    ghost view = { groups_of };

    ghost invariant = { IsParted };
}

impl<T, A: Allocator + Copy> GroupedList<T, A> {
    /// The list of no groups. It takes no memory until the first `push`.
    pub fn new(alloc: A) -> GroupedList<T, A>
        ensures { result ≡ [] }
    {
        GroupedList {
            items: SnapshotList::new(alloc),
            spans: SnapshotList::new(alloc),
            owners: SnapshotList::new(alloc),
            alloc,
        }
    }

    /// The number of groups.
    pub fn group_count(&self) -> usize
        ensures { result ≡ length self.now }
    {
        self.spans.len()
    }

    /// The number of items in all groups.
    pub fn item_count(&self) -> usize
        ensures { result ≡ length (all_in self.now) }
    {
        self.items.len()
    }

    /// The items of all groups.
    pub fn items(&self) -> &SnapshotList<T, A>
        ensures { result.now ≡ all_in self.now }
    {
        &self.items
    }

    /// The ids of the members of each group.
    pub fn spans(&self) -> &SnapshotList<Range<CoreTypeId>, A>
        ensures { result.now ≡ spans_of self.now }
    {
        &self.spans
    }

    /// The item at the place, if there is one.
    pub fn get(&self, place: usize) -> Option<&T>
        ensures found { IfSome result (λ item. item.now
            ≡ slice_index_or (all_in self.now) place item.now) }
        ensures when { IsSome result ↔ (place < length (all_in self.now)) }
    {
        self.items.get(place)
    }

    /// The item at the place.
    pub fn at(&self, place: usize) -> &T
        requires { place < length (all_in self.now) }
        ensures { result.now ≡ slice_index_or (all_in self.now) place result.now }
    {
        &self.items[place]
    }

    /// The ids of the members of the group with this number.
    pub fn members(&self, group: usize) -> &Range<CoreTypeId>
        requires { group < length self.now }
        ensures { result.now ≡ span (first_of self.now group) (first_of self.now (group + 1)) }
    {
        &self.spans[group]
    }

    /// The number of the group that the item at the place is in.
    pub fn group_at(&self, place: usize) -> u32
        requires { place < length (all_in self.now) }
        ensures { IsInGroup self.now result place }
    {
        self.owners[place]
    }

    /// Puts a group at the end. Where memory is refused, the list stays as it was.
    pub fn push(&mut self, group: Vec<T, A>) -> Result<(), AllocError>
    where
        T: Drop,
        requires room { length (all_in self.old) + length group.items < 2 ^ 32 }
        requires group_room { length self.old < 2 ^ 32 }
        ensures ok { OnOk result (self.new ≡ self.old ++ group.items ∷ []) }
        ensures err { OnErr result (self.new ≡ self.old) }
    {
        push_flat(
            self.alloc,
            &mut self.items,
            &mut self.spans,
            &mut self.owners,
            group,
        )?;
        Ok(())
    }

    /// Puts a group at the end, and what is noted of its items at the end of a list of notes: both, or
    /// where memory is refused neither.
    pub fn push_noted<N>(
        &mut self,
        group: Vec<T, A>,
        notes: &mut SnapshotList<N, A>,
        more: Vec<N, A>,
    ) -> Result<(), AllocError>
    where
        T: Drop,
        N: Drop,
        requires room { length (all_in self.old) + length group.items < 2 ^ 32 }
        requires group_room { length self.old < 2 ^ 32 }
        ensures ok { OnOk result (self.new ≡ self.old ++ group.items ∷ []) }
        ensures noted { OnOk result (notes.new ≡ notes.old ++ more.items) }
        ensures err { OnErr result (self.new ≡ self.old) }
        ensures not_noted { OnErr result (notes.new ≡ notes.old) }
    {
        let mut more = more;
        notes.tail.reserve(more.len())?;
        self.push(group)?;
        notes.tail.append(&mut more).unwrap();
        Ok(())
    }

    /// A list of its own with the groups of this one, which stays as it was. No item is copied: both
    /// lists hold the same ones.
    pub fn commit(&mut self) -> Result<GroupedList<T, A>, AllocError>
    where
        T: Drop,
        ensures same { self.new ≡ self.old }
        ensures copy { IfOk result (λ copy. copy ≡ self.old) }
    {
        Ok(GroupedList {
            items: self.items.commit()?,
            spans: self.spans.commit()?,
            owners: self.owners.commit()?,
            alloc: self.alloc,
        })
    }
}

/// Puts a group behind those that are there: all of it, or where memory is refused nothing.
fn push_flat<T: Drop, A: Allocator + Copy>(
    alloc: A,
    items: &mut SnapshotList<T, A>,
    spans: &mut SnapshotList<Range<CoreTypeId>, A>,
    owners: &mut SnapshotList<u32, A>,
    group: Vec<T, A>,
) -> Result<(), AllocError>
    requires room { length items.old + length group.items < 2 ^ 32 }
    requires group_room { length spans.old < 2 ^ 32 }
    ensures items { OnOk result (items.new ≡ items.old ++ group.items) }
    ensures spans { OnOk result (spans.new ≡ spans.old
        ++ span (length items.old) (length items.old + length group.items) ∷ []) }
    ensures owners { OnOk result (owners.new ≡ owners.old
        ++ replicate (length group.items) (length spans.old)) }
    ensures same_items { OnErr result (items.new ≡ items.old) }
    ensures same_spans { OnErr result (spans.new ≡ spans.old) }
    ensures same_owners { OnErr result (owners.new ≡ owners.old) }
{
    let start = items.len() as u32;
    let end = start + group.len() as u32;
    let ids = CoreTypeId::from_index(start)..CoreTypeId::from_index(end);
    let number = spans.len() as u32;
    append_group(
        alloc,
        &mut items.tail,
        &mut spans.tail,
        &mut owners.tail,
        group,
        ids,
        number,
    )
}

/// Puts a group, its ids, and its number for each of its items behind what is there: all of it, or
/// where memory is refused nothing.
fn append_group<T: Drop, A: Allocator + Copy>(
    alloc: A,
    items: &mut Vec<T, A>,
    spans: &mut Vec<Range<CoreTypeId>, A>,
    owners: &mut Vec<u32, A>,
    group: Vec<T, A>,
    ids: Range<CoreTypeId>,
    number: u32,
) -> Result<(), AllocError>
    ensures items { OnOk result (items.new.items ≡ items.old.items ++ group.items) }
    ensures spans { OnOk result (spans.new.items ≡ spans.old.items ++ ids ∷ []) }
    ensures owners { OnOk result (owners.new.items
        ≡ owners.old.items ++ replicate (length group.items) number) }
    ensures same_items { OnErr result (items.new.items ≡ items.old.items) }
    ensures same_spans { OnErr result (spans.new.items ≡ spans.old.items) }
    ensures same_owners { OnErr result (owners.new.items ≡ owners.old.items) }
{
    let count = group.len();
    let mut group = group;
    let mut numbers = vec![in alloc; number; count]?;
    items.reserve(count)?;
    owners.reserve(count)?;
    spans.push(ids)?;
    items.append(&mut group).unwrap();
    owners.append(&mut numbers).unwrap();
    Ok(())
}
