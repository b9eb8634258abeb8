//! Flags of functions.

ghost use Rattle.std.specs.Prelude.{◌≡◌, ◌≤◌, [], length, drop, OnOk};
ghost use Rattle.wasm_validator_references.specs.References.{mark, marked};

use std::alloc::{AllocError, Allocator, Global};
use std::marker::Model;

/// A flag for each function of a module, set where the function counts as referenced. A contract
/// sees the flags. Behind the last one no function counts.
#[derive(Drop)]
pub struct ReferencedFunctions<A: Allocator = Global> {
    flags: Vec<bool, A>,
}

impl<A: Allocator> Model for ReferencedFunctions<A> {
    ghost use Rattle.std.specs.Prelude.{List, Bool};

    ghost Value = { List Bool };

    ghost view = { λ a. a.flags.items };
}

impl<A: Allocator + Copy> ReferencedFunctions<A> {
    /// No flags yet. They take no memory until a function is marked.
    pub fn new(alloc: A) -> ReferencedFunctions<A>
        ensures { result ≡ [] }
    {
        ReferencedFunctions {
            flags: Vec::new(alloc),
        }
    }

    /// The flags, each at its function's index.
    pub fn as_slice(&self) -> &[bool]
        ensures { result.now ≡ self.now }
    {
        self.flags.as_slice()
    }

    /// The flags alone.
    pub fn into_flags(self) -> Vec<bool, A>
        ensures { result.items ≡ self }
    {
        self.flags
    }

    /// Sets the function's flag, and adds those before it, not set, where they aren't there yet.
    ///
    /// # Errors
    ///
    /// Fails where memory is refused.
    #[inline]
    pub fn mark(&mut self, function_index: u32) -> Result<(), AllocError>
        ensures { OnOk result (self.new ≡ mark function_index self.old) }
    {
        mark_flag(&mut self.flags, function_index as usize)
    }

    /// Sets the flags of the functions whose indices are these bytes, as `mark` does one by one.
    pub(crate) fn mark_bytes(&mut self, function_indices: &[u8]) -> Result<(), AllocError>
        ensures { OnOk result (self.new ≡ marked function_indices.now self.old) }
    {
        mark_each(&mut self.flags, function_indices)
    }
}

/// Sets the flag at this place, and adds those before it, not set, where they aren't there yet.
#[inline]
fn mark_flag<A: Allocator>(flags: &mut Vec<bool, A>, place: usize) -> Result<(), AllocError>
    ensures { OnOk result (flags.new.items ≡ mark place flags.old.items) }
{
    if place < flags.len() {
        flags[place] = true;
        return Ok(());
    }
    add_mark(flags, place)
}

/// Adds flags up to this place, of which the last one is set.
#[inline(never)]
fn add_mark<A: Allocator>(flags: &mut Vec<bool, A>, place: usize) -> Result<(), AllocError>
    requires { length flags.old.items ≤ place }
    ensures { OnOk result (flags.new.items ≡ mark place flags.old.items) }
{
    'flags: while flags.len() < place {
        flags.push(false)?;
    }
    Ok(flags.push(true)?)
}

/// Sets the flags of the functions whose indices are these bytes from this place on, and gives the
/// place of the first whose flag isn't there, or that behind the last.
fn set_each(flags: &mut [bool], bytes: &[u8], from: usize) -> usize
    requires { from ≤ length bytes.now }
    ensures onward { from ≤ result }
    ensures within { result ≤ length bytes.now }
    ensures so_far { marked (drop result bytes.now) flags.new
        ≡ marked (drop from bytes.now) flags.old }
{
    let most = bytes.len();
    let limit = flags.len();
    let mut at = from;
    'functions: while at < most {
        let place = bytes[at] as usize;
        if place >= limit {
            return at;
        }
        flags[place] = true;
        at += 1;
    }
    at
}

/// Sets the flags of the functions whose indices are these bytes, one after another.
fn mark_each<A: Allocator>(flags: &mut Vec<bool, A>, bytes: &[u8]) -> Result<(), AllocError>
    ensures { OnOk result (flags.new.items ≡ marked bytes.now flags.old.items) }
{
    let mut at = 0;
    'functions: while at < bytes.len() {
        at = set_each(flags.as_mut_slice(), bytes, at);
        if at < bytes.len() {
            mark_flag(flags, bytes[at] as usize)?;
            at += 1;
        }
    }
    Ok(())
}
