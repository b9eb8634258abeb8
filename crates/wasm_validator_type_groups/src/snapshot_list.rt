//! A list that grows at its end and gives snapshots of itself that share what they hold: runs,
//! parts (`parts.rt`) and, for each list alone, an open end.

ghost use Rattle.std.specs.Prelude.{◌≡◌, ◌<◌, ◌++◌, ◌∷◌, [], length, slice_index_or, IfOk, IfErr, IfSome, OnOk, OnErr, IsSome, IsTrue, ◌↔◌};
ghost use Rattle.wasm_validator_type_groups.specs.Fronts.{IsFront};

use crate::group_id::RecGroupId;
use crate::parts::{
    Part, Run, are_gathered, close, closed_item, gather, join_last, share, share_runs,
};
use std::alloc::{AllocError, AllocFailed, Allocator, Global};
use std::marker::Model;
use std::ops::{Index, Range};
use wasm_readers_types::{CoreTypeId, SubType};

/// A list that grows at its end, and of which snapshots are taken. A contract sees the list alone.
///
/// A snapshot and its list share what they hold: parts that grow no more, and behind them each list
/// has an open end of its own. Many parts are a run, which is shared as one, and runs of as many
/// parts are joined: so a list of n parts holds some log n runs, and a snapshot takes as much.
pub struct SnapshotList<T, A: Allocator = Global> {
    runs: Vec<Run<T, A>, A>,
    middle: usize,
    parts: Vec<Part<T, A>, A>,
    before: usize,
    pub(crate) tail: Vec<T, A>,
    alloc: A,
}

// By hand: so each way out takes one call for it, and not a step for each field.
impl<T: Drop, A: Allocator> Drop for SnapshotList<T, A> {
    fn drop(self) {
        let SnapshotList {
            runs: _,
            middle: _,
            parts: _,
            before: _,
            tail: _,
            alloc: _,
        } = self;
    }
}

impl<T, A: Allocator> Model for SnapshotList<T, A> {
    ghost use Rattle.std.specs.Prelude.{List};

    ghost Value = { List T };

    ghost use Rattle.wasm_validator_type_groups.specs.Snapshots.{listed, IsSnapshotList};

    ghost view = { listed };

    ghost invariant = { IsSnapshotList };
}

/// The list of nothing, where the allocator has a default.
impl<T, A: Allocator + Copy + Default> Default for SnapshotList<T, A> {
    ghost is_default = { λ list. list ≡ [] };

    fn default() -> SnapshotList<T, A> {
        SnapshotList::new(A::default())
    }
}

impl<T, A: Allocator + Copy> SnapshotList<T, A> {
    /// The list of nothing. It takes no memory until the first `push`.
    pub fn new(alloc: A) -> SnapshotList<T, A>
        ensures { result ≡ [] }
    {
        SnapshotList {
            runs: Vec::new(alloc),
            middle: 0,
            parts: Vec::new(alloc),
            before: 0,
            tail: Vec::new(alloc),
            alloc,
        }
    }

    /// Puts `item` at the end.
    ///
    /// # Errors
    ///
    /// Fails where memory is refused. The list stays as it was then, and `item` comes back.
    pub fn push(&mut self, item: T) -> Result<(), AllocFailed<T>>
        ensures ok { OnOk result (self.new ≡ self.old ++ item ∷ []) }
        ensures err { OnErr result (self.new ≡ self.old) }
        ensures returned { IfErr result (λ e. e.value ≡ item) }
    {
        self.tail.push(item)
    }

    /// The number of items.
    pub fn len(&self) -> usize
        ensures { result ≡ length self.now }
    {
        self.before + self.tail.len()
    }

    /// Whether there is no item.
    pub fn is_empty(&self) -> bool
        ensures { IsTrue result ↔ (length self.now ≡ 0) }
    {
        self.len() == 0
    }

    /// The item at `index`, if there is one.
    pub fn get(&self, index: usize) -> Option<&T>
        ensures found { IfSome result (λ item. item.now ≡ slice_index_or self.now index item.now) }
        ensures when { IsSome result ↔ (index < length self.now) }
    {
        if index < self.before {
            let item = closed_item(&self.runs, &self.parts, self.middle, self.before, index);
            Some(item)
        } else {
            self.tail.get(index - self.before)
        }
    }

    /// A list of its own with the items of this one, which stays as it was. No item is copied: both
    /// lists hold the same ones.
    ///
    /// # Errors
    ///
    /// Fails where memory is refused, also where it is refused for joining parts. The list has the
    /// same items then, and the next commit that finds memory gives all of them.
    pub fn commit(&mut self) -> Result<SnapshotList<T, A>, AllocError>
    where
        T: Drop,
        ensures same { self.new ≡ self.old }
        ensures copy { IfOk result (λ copy. copy ≡ self.old) }
    {
        self.before = close(
            self.alloc,
            &mut self.parts,
            self.middle,
            self.before,
            &mut self.tail,
        )?;
        self.middle = gather(
            self.alloc,
            &mut self.runs,
            &mut self.parts,
            self.middle,
            self.before,
        )?;
        join_last(self.alloc, &mut self.runs, self.middle)?;
        let runs = share_runs(self.alloc, &self.runs)?;
        let parts = share(self.alloc, &self.parts)?;
        Ok(SnapshotList {
            runs,
            middle: self.middle,
            parts,
            before: self.before,
            tail: Vec::new(self.alloc),
            alloc: self.alloc,
        })
    }

    /// A list of its own with the first items of this one: those that were there at the last
    /// `commit`. No item is copied: both lists hold the same ones.
    ///
    /// # Errors
    ///
    /// Fails where memory is refused.
    pub fn share_committed(&self) -> Result<SnapshotList<T, A>, AllocError>
    where
        T: Drop,
        ensures { IfOk result (λ copy. IsFront copy self.now) }
    {
        if !are_gathered(&self.runs, &self.parts) {
            return Ok(SnapshotList::new(self.alloc));
        }
        let first_runs = share_runs(self.alloc, &self.runs)?;
        let first_parts = share(self.alloc, &self.parts)?;
        Ok(SnapshotList {
            runs: first_runs,
            middle: self.middle,
            parts: first_parts,
            before: self.before,
            tail: Vec::new(self.alloc),
            alloc: self.alloc,
        })
    }
}

impl<T, A: Allocator> Index<usize> for SnapshotList<T, A> {
    type Output = T;

    ghost use Rattle.std.specs.Prelude.{◌≡◌, ◌<◌, length, slice_index_or};

    ghost can_index = { λ list index. index < length list };

    ghost index_gives = { λ list index item. item ≡ slice_index_or list index item };

    fn index(&self, index: usize) -> &T {
        if index < self.before {
            closed_item(&self.runs, &self.parts, self.middle, self.before, index)
        } else {
            &self.tail[index - self.before]
        }
    }
}

impl<A: Allocator> Index<CoreTypeId> for SnapshotList<SubType<A>, A> {
    type Output = SubType<A>;

    ghost use Rattle.std.specs.Prelude.{◌≡◌, ◌<◌, length, slice_index_or};

    ghost can_index = { λ list id. id.index < length list };

    ghost index_gives = { λ list id ty. ty ≡ slice_index_or list id.index ty };

    fn index(&self, id: CoreTypeId) -> &SubType<A> {
        &self[id.index()]
    }
}

impl<A: Allocator> Index<RecGroupId> for SnapshotList<Range<CoreTypeId>, A> {
    type Output = Range<CoreTypeId>;

    ghost use Rattle.std.specs.Prelude.{◌≡◌, ◌<◌, length, slice_index_or};

    ghost can_index = { λ list group. group.index < length list };

    ghost index_gives = { λ list group ids. ids ≡ slice_index_or list group.index ids };

    fn index(&self, group: RecGroupId) -> &Range<CoreTypeId> {
        &self[group.index()]
    }
}
