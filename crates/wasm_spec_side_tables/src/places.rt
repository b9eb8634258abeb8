//! Entries and places, as a table is made of them.

ghost use Rattle.std.specs.Prelude.{◌≡◌, ◌-◌, ◌≤◌, IfSome, Some, None, true, false, length, take};
ghost use Rattle.wasm_spec_side_tables.specs.SideTables.{catch_label};
ghost use Rattle.wasm_spec_side_tables.specs.OnePassTables.{resolved, resolved_each};

use crate::entry::{Entry, Place};
use wasm_operators::Catch;

/// A number, if it has 32 bits.
#[inline(always)]
pub(crate) fn narrow(n: usize) -> Option<u32>
    ensures { IfSome result (λ m. m ≡ n) }
{
    if n < 4_294_967_296 {
        Some(n as u32)
    } else {
        None
    }
}

/// An offset, if it has 32 bits.
#[inline(always)]
pub fn narrow_offset(n: u64) -> Option<u32>
    ensures { IfSome result (λ m. m ≡ n) }
{
    if n < 4_294_967_296 {
        Some(n as u32)
    } else {
        None
    }
}

/// An entry whose target is the number of its place.
#[inline(always)]
pub fn make_entry(at: u32, number: u32, kept: usize, dropped: usize) -> Option<Entry>
    ensures { IfSome result (λ e. e ≡ record {
      at = at;
      target = number;
      next = 0;
      kept = kept;
      dropped = dropped;
    }) }
{
    let kept = narrow(kept)?;
    let dropped = narrow(dropped)?;
    Some(Entry {
        at,
        target: number,
        next: 0,
        kept,
        dropped,
    })
}

/// An entry that keeps nothing and drops the operands above this height, of so many.
#[inline(always)]
pub fn make_dropping_entry(at: u32, number: u32, count: u32, height: usize) -> Entry
    ensures { result ≡ record {
      at = at;
      target = number;
      next = 0;
      kept = 0;
      dropped = count - height;
    } }
{
    Entry {
        at,
        target: number,
        next: 0,
        kept: 0,
        dropped: (count as usize).saturating_sub(height) as u32,
    }
}

/// The label that a clause catches to.
pub fn label_of(clause: Catch) -> u32
    ensures { result ≡ catch_label clause }
{
    match clause {
        Catch::One { tag: _, label } => label,
        Catch::OneRef { tag: _, label } => label,
        Catch::All { label } => label,
        Catch::AllRef { label } => label,
    }
}

/// An entry with the place of its number.
#[inline(always)]
pub(crate) fn resolve(places: &[Place], entry: Entry) -> Option<Entry>
    ensures { result ≡ resolved places.now entry }
{
    let place = places.get(entry.target as usize)?;
    Some(Entry {
        at: entry.at,
        target: place.offset,
        next: place.next,
        kept: entry.kept,
        dropped: entry.dropped,
    })
}

/// Puts the places of their numbers into so many entries at the front, and says whether each has one.
#[tactic(auto, using(crate::proofs::EntryPlaces::resolving))]
pub(crate) fn resolve_front(places: &[Place], entries: &mut [Entry], count: usize) -> bool
    requires { count ≤ length entries.old }
    ensures resolved { result ≡ true → resolved_each places.now (take count entries.old)
        ≡ Some (take count entries.new) }
    ensures not_done { result ≡ false → resolved_each places.now (take count entries.old) ≡ None }
{
    let mut i = 0usize;
    'entries: while i < count {
        match resolve(places, entries[i]) {
            Some(resolved) => entries[i] = resolved,
            None => return false,
        }
        i += 1;
    }
    true
}
