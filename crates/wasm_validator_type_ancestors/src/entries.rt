//! The entries of the ancestors' store: for each type how many proper ancestors it has, and the
//! place where their list begins, or its supertype where it has more than 63. The list of a new
//! type is that of its supertype, copied, with the supertype behind it.

ghost use Rattle.std.specs.Prelude.{◌≡◌, ◌+◌, ◌<◌, ◌≤◌, ◌^◌, ◌++◌, ℕ, Option, length, slice_get, IfOk, IfSome, OnOk};
ghost use Rattle.std.specs.Bool.{Decides};
ghost use Rattle.std.specs.declared.option.Option.TheVariants.{Some};
ghost use Rattle.wasm_validator_type_groups.specs.WasmSpec.Syntax.{Sub};
ghost use Rattle.wasm_validator_type_groups.specs.WasmSpec.SupertypeOrder.{IsAncestor, IsDepth};
ghost use Rattle.wasm_validator_type_ancestors.specs.Supers.{leads_to, extended, extended_in, ExtendEarlier, Tells};
ghost use Rattle.wasm_validator_type_ancestors.specs.ReadCounts.{Counts};
ghost use Rattle.wasm_validator_type_ancestors.specs.Entries.{supers_of, IsOneMore, AreEntries, IsNext, IsKept, AreCopied};

use crate::link_count::LinkCount;
use std::alloc::{AllocError, Allocator};
use wasm_validator_type_groups::SnapshotList;
use wasm_validator_type_groups::readers_types::{SubType, UnpackedIndex};

/// Up to how many proper ancestors a type has a list of them.
pub(crate) const MAX_LISTED: u32 = 63;

/// How many proper ancestors a type has, and where the list of them begins; where it has more than
/// [`MAX_LISTED`], the id of its supertype instead.
#[derive(Clone, Copy)]
pub(crate) struct Entry {
    pub(crate) start: u32,
    pub(crate) count: u32,
}

/// The entries of a group of sub types, which come behind these entries. Their lists are put into
/// the store.
///
/// # Errors
///
/// Fails where memory is refused. Lists of some of them may then be in the store.
pub(crate) fn entries_of<A: Allocator + Copy>(
    alloc: A,
    entries: &SnapshotList<Entry, A>,
    ids: &mut SnapshotList<u32, A>,
    group: &[SubType<A>],
) -> Result<Vec<Entry, A>, AllocError>
    requires stand { AreEntries entries.now ids.old }
    requires earlier { ExtendEarlier (length entries.now) group.now }
    requires room { length entries.now + length group.now < 2 ^ 32 }
    ensures kept { IsKept ids.old ids.new }
    ensures stand { IfOk result (λ more. AreEntries (entries.now ++ more.items) ids.new) }
    ensures says { IfOk result (λ more. supers_of ids.new (entries.now ++ more.items)
        ≡ supers_of ids.old entries.now ++ extended_in (length entries.now) group.now) }
{
    let mut more = Vec::new(alloc);
    'types: for ty in group {
        let entry = entry_of(entries, &more, ids, ty)?;
        more.push(entry)?;
    }
    Ok(more)
}

/// The entry of the sub type that comes behind these entries and some of its group. Its list is put
/// into the store.
///
/// # Errors
///
/// Fails where memory is refused. Part of its list may then be in the store.
fn entry_of<A: Allocator + Copy>(
    entries: &SnapshotList<Entry, A>,
    more: &Vec<Entry, A>,
    ids: &mut SnapshotList<u32, A>,
    ty: &SubType<A>,
) -> Result<Entry, AllocError>
    requires stand { AreEntries (entries.now ++ more.now.items) ids.old }
    requires earlier { IfSome (extended (length entries.now) ty.now)
        (λ n. n < length entries.now + length more.now.items) }
    requires room { length entries.now + length more.now.items + 1 < 2 ^ 32 }
    ensures kept { IsKept ids.old ids.new }
    ensures next { IfOk result (IsNext (entries.now ++ more.now.items) ids.new
        (extended (length entries.now) ty.now)) }
{
    match ty.supertype_idxs.as_slice().first() {
        Some(index) => {
            let parent = id_from(entries.len() as u32, index.unpack());
            let entry = entry_at(entries, more, parent);
            one_more(ids, parent, entry)
        }
        None => Ok(Entry { start: 0, count: 0 }),
    }
}

/// The number of the id that a reference in a group leads to, where the group's first id has this
/// number.
fn id_from(start: u32, index: UnpackedIndex) -> u32
    requires { leads_to start index < 2 ^ 32 }
    ensures { result ≡ leads_to start index }
{
    match index {
        UnpackedIndex::Module(index) => index,
        UnpackedIndex::RecGroup(position) => start + position,
        UnpackedIndex::Id(id) => id.index() as u32,
    }
}

/// The entry of the type with this id, from a list or from what comes behind it.
fn entry_at<A: Allocator + Copy>(
    entries: &SnapshotList<Entry, A>,
    more: &Vec<Entry, A>,
    id: u32,
) -> Entry
    requires { id < length entries.now + length more.now.items }
    ensures { slice_get (entries.now ++ more.now.items) id ≡ Some result }
{
    let place = id as usize;
    let count = entries.len();
    if place < count {
        entries[place]
    } else {
        more[place - count]
    }
}

/// The entry of a type that extends the one with this id and entry. Its list is put into the store.
///
/// # Errors
///
/// Fails where memory is refused, or where places in the store fit no `u32`. Part of the list may
/// then be in the store.
fn one_more<A: Allocator + Copy>(
    ids: &mut SnapshotList<u32, A>,
    parent: u32,
    entry: Entry,
) -> Result<Entry, AllocError>
    requires fits { entry.count + 1 < 2 ^ 32 }
    requires listed { 0 < entry.count → entry.count < 63
        → entry.start + entry.count ≤ length ids.old }
    ensures kept { IsKept ids.old ids.new }
    ensures more { IfOk result (IsOneMore ids.new parent entry) }
{
    let count = entry.count + 1;
    if count > MAX_LISTED {
        return Ok(Entry {
            start: parent,
            count,
        });
    }
    let start = ids.len();
    if start > u32::MAX as usize {
        return Err(AllocError);
    }
    copy_ids(ids, entry.start, entry.count)?;
    ids.push(parent)?;
    Ok(Entry {
        start: start as u32,
        count,
    })
}

/// Puts so many ids of the store, from this place on, at its end once more.
///
/// # Errors
///
/// Fails where memory is refused. Some of them may then be there.
fn copy_ids<A: Allocator + Copy>(
    ids: &mut SnapshotList<u32, A>,
    from: u32,
    count: u32,
) -> Result<(), AllocError>
    requires { 0 < count → from + count ≤ length ids.old }
    ensures kept { IsKept ids.old ids.new }
    ensures longer { OnOk result (length ids.new ≡ length ids.old + count) }
    ensures copied { OnOk result (AreCopied ids.new from (length ids.old) count) }
{
    'copies: for i in 0..count {
        let id = ids[from as usize + i as usize];
        ids.push(id)?;
    }
    Ok(())
}

/// Whether the second type is the first or one of its declared ancestors. Adds one to the count for
/// each supertype link or entry of a list that is read.
pub(crate) fn is_below<A: Allocator + Copy>(
    entries: &SnapshotList<Entry, A>,
    ids: &SnapshotList<u32, A>,
    from: u32,
    to: u32,
    count: &mut LinkCount,
) -> bool
    requires stand { AreEntries entries.now ids.now }
    requires sub { from < length entries.now }
    requires sup { to < length entries.now }
    requires room { count.old.links < 2 ^ 63 }
    ensures decides { (D : ℕ → Option (Sub ℕ)) → Tells (supers_of ids.now entries.now) D
        → Decides result (IsAncestor D from to) }
    ensures counts { (D : ℕ → Option (Sub ℕ)) → Tells (supers_of ids.now entries.now) D
        → Counts D from to count.old.links count.new.links }
    ensures one { (D : ℕ → Option (Sub ℕ)) → Tells (supers_of ids.now entries.now) D
        → (n : ℕ) → IsDepth D from n → n ≤ 63 → count.new.links ≤ count.old.links + 1 }
{
    let mut id = from;
    let mut entry = entries[id as usize];
    'links: while entry.count > MAX_LISTED {
        if id == to {
            return true;
        }
        count.add_one();
        id = entry.start;
        entry = entries[id as usize];
    }
    is_listed(entries, ids, id, entry, to, count)
}

/// The same where the first type, which has this entry, has a list of its proper ancestors: one
/// look-up tells.
fn is_listed<A: Allocator + Copy>(
    entries: &SnapshotList<Entry, A>,
    ids: &SnapshotList<u32, A>,
    id: u32,
    entry: Entry,
    to: u32,
    count: &mut LinkCount,
) -> bool
    requires stand { AreEntries entries.now ids.now }
    requires sub { slice_get entries.now id ≡ Some entry }
    requires listed { entry.count ≤ 63 }
    requires sup { to < length entries.now }
    requires room { count.old.links + 1 < 2 ^ 64 }
    ensures decides { (D : ℕ → Option (Sub ℕ)) → Tells (supers_of ids.now entries.now) D
        → Decides result (IsAncestor D id to) }
    ensures counts { (D : ℕ → Option (Sub ℕ)) → Tells (supers_of ids.now entries.now) D
        → Counts D id to count.old.links count.new.links }
    ensures one { count.new.links ≤ count.old.links + 1 }
{
    if id == to {
        return true;
    }
    let other = entries[to as usize];
    if entry.count <= other.count {
        return false;
    }
    count.add_one();
    let listed = ids[entry.start as usize + other.count as usize];
    listed == to
}
