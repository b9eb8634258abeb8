//! The closed parts of a snapshot list. A part is a vector that grows no more; eight parts make a
//! run, and two runs with as many parts as each other are joined into one. So a list of n parts has
//! about log n runs. A look-up searches the runs, and then the parts of one. Parts and runs are
//! shared by `Rc`, and joining copies pointers, never items.

ghost use Rattle.std.specs.Prelude.{◌≡◌, ◌<◌, ◌≤◌, ◌+◌, ◌-◌, ◌^◌, ◌++◌, [], ℕ, List, length, map, slice_index_or, take, IfOk, IsTrue, OnOk, OnErr};
ghost use Rattle.wasm_validator_type_groups.specs.Parts.{seen, run_parts, run_seen, all_items, StandFrom, PartsStand, IsRun, RunsStand, AreFew, LastTwoDiffer};

use std::alloc::{AllocError, Allocator};
use std::mem;
use std::rc::Rc;

/// Where the parts may end at most, so that what a vector holds may follow.
const MAX_END: usize = (1 << 63) - 1;
/// From how many parts on they become a run.
const MANY: usize = 8;

/// A part of a list that grows no more, and the place of its first item.
pub(crate) struct Part<T, A: Allocator> {
    first: usize,
    items: Rc<Vec<T, A>, A>,
}

// By hand: so each way out takes one call for it, and not a step for each field.
impl<T: Drop, A: Allocator> Drop for Part<T, A> {
    fn drop(self) {
        let Part { first: _, items: _ } = self;
    }
}

/// Parts one behind another, which lists share, and the place of the first item.
pub(crate) struct Run<T, A: Allocator> {
    first: usize,
    parts: Rc<Vec<Part<T, A>, A>, A>,
}

// By hand: so each way out takes one call for it, and not a step for each field.
impl<T: Drop, A: Allocator> Drop for Run<T, A> {
    fn drop(self) {
        let Run { first: _, parts: _ } = self;
    }
}

/// What stands in a list behind others of its kind.
pub(crate) trait Piece<T> {
    /// The place of its first item, and its items.
    ghost held: { Self → ℕ × List T };

    /// The place of its first item.
    fn first(&self) -> usize
        ensures { result ≡ (held self.now).0 };
}

impl<T, A: Allocator> Piece<T> for Part<T, A> {
    ghost held = { seen };

    #[inline(always)]
    fn first(&self) -> usize {
        self.first
    }
}

impl<T, A: Allocator> Piece<T> for Run<T, A> {
    ghost held = { run_seen };

    #[inline(always)]
    fn first(&self) -> usize {
        self.first
    }
}

/// Which piece has the item at the place. The last one is looked at first, since it is asked for
/// most.
#[inline(always)]
fn find<T, P: Piece<T>, A: Allocator>(pieces: &Vec<P, A>, from: usize, place: usize) -> usize
    requires stand { StandFrom from (map P.held pieces.now.items)
        (from + length (all_items (map P.held pieces.now.items))) }
    requires from { from ≤ place }
    requires inside { place < from + length (all_items (map P.held pieces.now.items)) }
    ensures index { result < length pieces.now.items }
    ensures begins { from + length (all_items (take result (map P.held pieces.now.items)))
        ≤ place }
    ensures ends { place < from
        + length (all_items (take (result + 1) (map P.held pieces.now.items))) }
{
    let _from = from;
    let mut low = 0;
    let mut high = pieces.len();
    let mut middle = high - 1;
    'pieces: while high - low > 1 {
        if pieces[middle].first() <= place {
            low = middle;
        } else {
            high = middle;
        }
        middle = low + (high - low) / 2;
    }
    low
}

/// The item at the place, in parts that stand from another place on.
fn item_at<T, A: Allocator>(parts: &Vec<Part<T, A>, A>, from: usize, place: usize) -> &T
    requires stand { PartsStand from parts.now.items
        (from + length (all_items (map seen parts.now.items))) }
    requires from { from ≤ place }
    requires inside { place < from + length (all_items (map seen parts.now.items)) }
    ensures { result.now
        ≡ slice_index_or (all_items (map seen parts.now.items)) (place - from) result.now }
{
    let part = &parts[find::<T, Part<T, A>, A>(parts, from, place)];
    &part.items[place - part.first]
}

/// The item at the place, in runs.
fn item_of<T, A: Allocator>(runs: &Vec<Run<T, A>, A>, place: usize) -> &T
    requires stand { RunsStand runs.now.items (length (all_items (map run_seen runs.now.items))) }
    requires inside { place < length (all_items (map run_seen runs.now.items)) }
    ensures { result.now
        ≡ slice_index_or (all_items (map run_seen runs.now.items)) place result.now }
{
    let run = &runs[find::<T, Run<T, A>, A>(runs, 0, place)];
    item_at(run.parts.as_ref(), run.first, place)
}

/// The item at the place, in runs that end at the first of these places, or in parts behind them
/// that end at the second.
#[inline(always)]
pub(crate) fn closed_item<'a, T, A: Allocator>(
    runs: &'a Vec<Run<T, A>, A>,
    parts: &'a Vec<Part<T, A>, A>,
    middle: usize,
    before: usize,
    place: usize,
) -> &'a T
    requires runs { RunsStand runs.now.items middle }
    requires parts { PartsStand middle parts.now.items before }
    requires inside { place < before }
    ensures { result.now ≡ slice_index_or (all_items (map run_seen runs.now.items)
        ++ all_items (map seen parts.now.items)) place result.now }
{
    let _before = before;
    if place >= middle {
        item_at(parts, middle, place)
    } else {
        item_of(runs, place)
    }
}

/// Makes a part of the items at the open end, if it has some, and says where the parts end then.
/// Where memory is refused, all stays as it was.
#[tactic(auto, using(crate::proofs::PieceEnds::closed_items, crate::proofs::PieceEnds::closed_stand))]
pub(crate) fn close<T: Drop, A: Allocator + Copy>(
    alloc: A,
    parts: &mut Vec<Part<T, A>, A>,
    from: usize,
    before: usize,
    tail: &mut Vec<T, A>,
) -> Result<usize, AllocError>
    requires stand { PartsStand from parts.old.items before }
    requires room { before < 2 ^ 63 }
    ensures stand { IfOk result (λ end. PartsStand from parts.new.items end) }
    ensures room { IfOk result (λ end. end < 2 ^ 63) }
    ensures items { OnOk result (all_items (map seen parts.new.items)
        ≡ all_items (map seen parts.old.items) ++ tail.old.items) }
    ensures empty { OnOk result (tail.new.items ≡ []) }
    ensures same_parts { OnErr result (parts.new.items ≡ parts.old.items) }
    ensures same_tail { OnErr result (tail.new.items ≡ tail.old.items) }
{
    let _from = from;
    if tail.is_empty() {
        return Ok(before);
    }
    let end = before + tail.len();
    if end > MAX_END {
        return Err(AllocError);
    }
    parts.reserve(1)?;
    let closed = mem::replace(tail, Vec::new(alloc));
    match Rc::new(alloc, closed) {
        Ok(items) => {
            let first = before;
            parts.push(Part { first, items }).unwrap();
            Ok(end)
        }
        Err(refused) => {
            *tail = refused.value;
            Err(AllocError)
        }
    }
}

/// Makes a run of the parts, if there are many, and says where the runs end then. Where memory is
/// refused, all stays as it was.
pub(crate) fn gather<T: Drop, A: Allocator + Copy>(
    alloc: A,
    runs: &mut Vec<Run<T, A>, A>,
    parts: &mut Vec<Part<T, A>, A>,
    middle: usize,
    before: usize,
) -> Result<usize, AllocError>
    requires runs { RunsStand runs.old.items middle }
    requires parts { PartsStand middle parts.old.items before }
    ensures runs { IfOk result (λ end. RunsStand runs.new.items end) }
    ensures parts { IfOk result (λ end. PartsStand end parts.new.items before) }
    ensures few { OnOk result (AreFew parts.new.items) }
    ensures items { OnOk result (all_items (map run_seen runs.new.items)
        ++ all_items (map seen parts.new.items) ≡ all_items (map run_seen runs.old.items)
        ++ all_items (map seen parts.old.items)) }
    ensures same_runs { OnErr result (runs.new.items ≡ runs.old.items) }
    ensures same_parts { OnErr result (parts.new.items ≡ parts.old.items) }
{
    if parts.len() < MANY {
        return Ok(middle);
    }
    runs.reserve(1)?;
    let gathered = mem::replace(parts, Vec::new(alloc));
    match Rc::new(alloc, gathered) {
        Ok(parts) => {
            let first = middle;
            runs.push(Run { first, parts }).unwrap();
            Ok(before)
        }
        Err(refused) => {
            *parts = refused.value;
            Err(AllocError)
        }
    }
}

/// Whether parts and runs are as a commit leaves them: the parts are few, and the last two runs, if
/// there are two, don't have as many parts as each other.
pub(crate) fn are_gathered<T, A: Allocator>(
    runs: &Vec<Run<T, A>, A>,
    parts: &Vec<Part<T, A>, A>,
) -> bool
    ensures few { IsTrue result → AreFew parts.now.items }
    ensures joined { IsTrue result → LastTwoDiffer runs.now.items }
{
    if parts.len() >= MANY {
        return false;
    }
    let count = runs.len();
    if count < 2 {
        return true;
    }
    runs[count - 1].parts.len() != runs[count - 2].parts.len()
}

/// The same parts, each with one more owner, behind others.
fn share_behind<T: Drop, A: Allocator + Copy>(
    parts: &Vec<Part<T, A>, A>,
    shared: &mut Vec<Part<T, A>, A>,
) -> Result<(), AllocError>
    ensures { OnOk result (map seen shared.new.items
        ≡ map seen shared.old.items ++ map seen parts.now.items) }
{
    'parts: for part in parts.iter() {
        shared.push(Part {
            first: part.first,
            items: part.items.clone()?,
        })?;
    }
    Ok(())
}

/// The same parts, which are few, each with one more owner.
pub(crate) fn share<T: Drop, A: Allocator + Copy>(
    alloc: A,
    parts: &Vec<Part<T, A>, A>,
) -> Result<Vec<Part<T, A>, A>, AllocError>
    requires { AreFew parts.now.items }
    ensures { IfOk result (λ shared. map seen shared.items ≡ map seen parts.now.items) }
{
    let mut shared = Vec::with_capacity(alloc, parts.len())?;
    share_behind(parts, &mut shared)?;
    Ok(shared)
}

/// The same runs, of which the last two don't have as many parts as each other, each with one more
/// owner.
pub(crate) fn share_runs<T: Drop, A: Allocator + Copy>(
    alloc: A,
    runs: &Vec<Run<T, A>, A>,
) -> Result<Vec<Run<T, A>, A>, AllocError>
    requires { LastTwoDiffer runs.now.items }
    ensures { IfOk result (λ shared. map run_parts shared.items ≡ map run_parts runs.now.items) }
{
    let mut shared = Vec::with_capacity(alloc, runs.len())?;
    'runs: for run in runs.iter() {
        shared.push(Run {
            first: run.first,
            parts: run.parts.clone()?,
        })?;
    }
    Ok(shared)
}

/// Two runs, the second behind the first, as one with the parts of both.
fn join_runs<T: Drop, A: Allocator + Copy>(
    alloc: A,
    first: &Run<T, A>,
    second: &Run<T, A>,
) -> Result<Run<T, A>, AllocError>
    requires first { IsRun first.now }
    requires second { IsRun second.now }
    requires behind { second.now.first ≡ first.now.first + length (run_seen first.now).1 }
    ensures place { IfOk result (λ run. run.first ≡ first.now.first) }
    ensures items { IfOk result (λ run. (run_seen run).1
        ≡ (run_seen first.now).1 ++ (run_seen second.now).1) }
    ensures stands { IfOk result IsRun }
{
    let mut parts = Vec::with_capacity(alloc, first.parts.len() + second.parts.len())?;
    share_behind(first.parts.as_ref(), &mut parts)?;
    share_behind(second.parts.as_ref(), &mut parts)?;
    Ok(Run {
        first: first.first,
        parts: Rc::new(alloc, parts)?,
    })
}

/// Joins the last two runs while they have as many parts as each other, so that runs are few. Where
/// memory is refused, no item is lost, and those that are joined by then stay so.
pub(crate) fn join_last<T: Drop, A: Allocator + Copy>(
    alloc: A,
    runs: &mut Vec<Run<T, A>, A>,
    end: usize,
) -> Result<(), AllocError>
    requires { RunsStand runs.old.items end }
    ensures runs { RunsStand runs.new.items end }
    ensures items { all_items (map run_seen runs.new.items)
        ≡ all_items (map run_seen runs.old.items) }
    ensures joined { OnOk result (LastTwoDiffer runs.new.items) }
{
    let _end = end;
    'runs: while runs.len() > 1 {
        let last = runs.len() - 1;
        if runs[last].parts.len() != runs[last - 1].parts.len() {
            return Ok(());
        }
        let run = join_runs(alloc, &runs[last - 1], &runs[last])?;
        runs[last - 1] = run;
        runs.truncate(last);
    }
    Ok(())
}
