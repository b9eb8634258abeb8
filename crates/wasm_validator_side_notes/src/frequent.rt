//! Frequent operators on blocks and labels, noted once their steps are taken.

ghost use Rattle.std.specs.Prelude.{◌≡◌, ◌≤◌, ◌-◌, if◌then◌else◌, true, Some};
ghost use Rattle.wasm_readers.specs.WasmReadersBytes.Reader.{rest};
ghost use Rattle.wasm_validator_func.specs.WasmTypingValidator.WasmTypingSteps.ToldSteps.{told_at};
ghost use Rattle.wasm_validator_func.specs.WasmTypingValidator.BodyTyping.{typed_state};
ghost use Rattle.wasm_spec_side_tables.specs.SideTables.{opens, opens_loop, closes};
ghost use Rattle.wasm_validator_side_notes.specs.TableViews.{shown, nested_in};
ghost use Rattle.wasm_validator_side_notes.specs.OperatorNotes.{IsBranchedTo, LeadsOn, branch_told, entry_past, with_entry, with_noted, nesting_of};

use crate::table::SideTable;
use std::alloc::Allocator;
use wasm_readers::BinaryReader;
use wasm_spec_side_tables::{Entry, make_dropping_entry, make_entry, narrow_offset};
use wasm_validator_func::FuncValidator;
use wasm_validator_func::operator_validator::Told;
use wasm_validator_resources::WasmModuleResources;

/// What is noted of an operator: its entry, if it branches, and what it does to the blocks.
#[derive(Clone, Copy)]
pub(crate) enum Noted {
    Stays,
    Opens,
    OpensLoop,
    OpensThen(Entry),
    Turns(Entry),
    Closes,
    Branches(Entry),
}

impl<A: Allocator> SideTable<A> {
    /// Adds the entry of a branch to a label, where there were so many operands for it. Says no where
    /// memory is refused.
    #[cold]
    #[inline(never)]
    #[tactic(auto, using(crate::proofs::ToldNotes::adds))]
    fn add_typed<T: WasmModuleResources, B: Allocator>(
        &mut self,
        validator: &FuncValidator<T, B>,
        at: u32,
        label: u32,
        count: u32,
    ) -> bool
        ensures { result ≡ true → IsBranchedTo (T.context validator.now.resources)
            (typed_state validator.now.validator) at label count (shown self.old)
            (shown self.new) }
    {
        let Some(block) = self.blocks.get(label as usize) else {
            return false;
        };
        let Some((kept, height)) = validator.label_counts(label) else {
            return false;
        };
        let dropped = (count as usize).saturating_sub(kept).saturating_sub(height);
        match make_entry(at, block.label, kept, dropped) {
            Some(entry) => self.add(entry).is_ok(),
            None => false,
        }
    }

    /// The same. No call is made where the label takes nothing and the entry's place is there already.
    #[inline(always)]
    #[tactic(auto, using(crate::proofs::ToldNotes::adds))]
    pub(crate) fn add_to<T: WasmModuleResources, B: Allocator>(
        &mut self,
        validator: &FuncValidator<T, B>,
        at: u32,
        label: u32,
        count: u32,
    ) -> bool
        ensures { result ≡ true → IsBranchedTo (T.context validator.now.resources)
            (typed_state validator.now.validator) at label count (shown self.old)
            (shown self.new) }
    {
        if let Some(block) = self.blocks.get(label as usize) {
            if let Some(height) = validator.height_of_empty(label) {
                let entry = make_dropping_entry(at, block.label, count, height);
                if self.entries.put(entry) {
                    return true;
                }
            }
        }
        self.add_typed(validator, at, label, count)
    }

    /// Adds the entry of a branch to a label, where so many of the operands were taken that it isn't
    /// given. Says no where memory is refused.
    #[inline(always)]
    #[tactic(auto, using(crate::proofs::ToldNotes::adds))]
    fn add_behind<T: WasmModuleResources, B: Allocator>(
        &mut self,
        validator: &FuncValidator<T, B>,
        at: u64,
        label: u32,
        taken: u8,
        count: u32,
    ) -> bool
        ensures { result ≡ true → IsBranchedTo (T.context validator.now.resources)
            (typed_state validator.now.validator) at label (count - taken) (shown self.old)
            (shown self.new) }
    {
        match narrow_offset(at) {
            Some(at) => self.add_to(validator, at, label, count.saturating_sub(taken as u32)),
            None => false,
        }
    }

    /// Notes a branch whose step led from the one reader to the other.
    #[inline(always)]
    #[tactic(auto, using(crate::proofs::ToldNotes::leads))]
    fn note_branch<'a, T: WasmModuleResources, B: Allocator>(
        &mut self,
        validator: &FuncValidator<T, B>,
        start: BinaryReader<'a>,
        ahead: BinaryReader<'a>,
        taken: u8,
        count: u32,
    ) -> bool
        requires few { taken ≤ 1 }
        requires told { told_at (rest start) ≡ Some (branch_told taken) }
        ensures { result ≡ true → LeadsOn (T.context validator.now.resources)
            validator.now.validator start.entry ahead.entry count (shown self.old)
            (shown self.new) }
    {
        let mut front = start;
        let Some(_opcode) = front.next_u8() else {
            return false;
        };
        let Some(label) = front.next_var_u32() else {
            return false;
        };
        self.add_behind(validator, start.original_position(), label, taken, count)
    }

    /// A block opens behind this offset. Says no where memory is refused.
    #[inline(always)]
    fn open_behind(&mut self, is_loop: bool, behind: u64) -> bool
        ensures { result ≡ true → nested_in (if is_loop then opens_loop else opens) behind
            (shown self.old) ≡ Some (shown self.new) }
    {
        match narrow_offset(behind) {
            Some(behind) => self.open_at_once(is_loop, behind),
            None => false,
        }
    }

    /// A block closes behind this offset. Says no where memory is refused.
    #[inline(always)]
    fn close_behind(&mut self, behind: u64) -> bool
        ensures { result ≡ true → nested_in closes behind (shown self.old)
            ≡ Some (shown self.new) }
    {
        let Some(behind) = narrow_offset(behind) else {
            return false;
        };
        match self.close_block(behind) {
            Ok(()) => true,
            Err(_) => false,
        }
    }

    /// An `if` without parameters opens its block. Says no where memory is refused.
    #[inline(never)]
    fn open_then(&mut self, at: u64, behind: u64) -> bool
        ensures { result ≡ true → nested_in opens behind
            (with_entry (shown self.old) (entry_past at (shown self.old)))
            ≡ Some (shown self.new) }
    {
        let Some(at) = narrow_offset(at) else {
            return false;
        };
        let Some(behind) = narrow_offset(behind) else {
            return false;
        };
        let Some(number) = self.places.number().checked_add(1) else {
            return false;
        };
        let entry = Entry {
            at,
            target: number,
            next: 0,
            kept: 0,
            dropped: 0,
        };
        if self.entries.put(entry) {
            return self.open_at_once(false, behind);
        }
        self.add(entry).is_ok() && self.open_block(false, behind).is_ok()
    }

    /// Notes an `if` without parameters whose step led from the one reader to the other.
    #[inline(always)]
    #[tactic(auto, using(crate::proofs::ToldNotes::leads))]
    fn note_then<'a, T: WasmModuleResources, B: Allocator>(
        &mut self,
        validator: &FuncValidator<T, B>,
        start: BinaryReader<'a>,
        ahead: BinaryReader<'a>,
        count: u32,
    ) -> bool
        requires { told_at (rest start) ≡ Some Told.OpensThen }
        ensures { result ≡ true → LeadsOn (T.context validator.now.resources)
            validator.now.validator start.entry ahead.entry count (shown self.old)
            (shown self.new) }
    {
        let mut front = start;
        let Some(_opcode) = front.next_u8() else {
            return false;
        };
        let Some(first) = front.next_u8() else {
            return false;
        };
        if first < 0x40 {
            return false;
        }
        if 0x80 <= first {
            return false;
        }
        self.open_then(start.original_position(), ahead.original_position())
    }

    /// Notes it behind the step that ends at this offset.
    pub(crate) fn put(&mut self, noted: Noted, behind: u32) -> bool
        ensures { result ≡ true → nested_in (nesting_of noted) behind
            (with_noted noted (shown self.old)) ≡ Some (shown self.new) }
    {
        match noted {
            Noted::Stays => true,
            Noted::Opens => self.open_block(false, behind).is_ok(),
            Noted::OpensLoop => self.open_block(true, behind).is_ok(),
            Noted::OpensThen(entry) => {
                self.add(entry).is_ok() && self.open_block(false, behind).is_ok()
            }
            Noted::Turns(entry) => self.add(entry).is_ok() && self.turn_block(behind).is_ok(),
            Noted::Closes => self.close_block(behind).is_ok(),
            Noted::Branches(entry) => self.add(entry).is_ok(),
        }
    }

    /// Notes the operator whose step led from the one reader to the other and was told to be this,
    /// where there were so many operands before. Says no where memory is refused.
    #[inline(always)]
    #[tactic(auto, using(crate::proofs::ToldNotes::leads))]
    pub fn note_told<'a, T: WasmModuleResources, B: Allocator>(
        &mut self,
        validator: &FuncValidator<T, B>,
        told: Told,
        start: BinaryReader<'a>,
        ahead: BinaryReader<'a>,
        count: u32,
    ) -> bool
        requires { told_at (rest start) ≡ Some told }
        ensures { result ≡ true → LeadsOn (T.context validator.now.resources)
            validator.now.validator start.entry ahead.entry count (shown self.old)
            (shown self.new) }
    {
        match told {
            Told::Quiet => true,
            Told::Opens => self.open_behind(false, ahead.original_position()),
            Told::OpensLoop => self.open_behind(true, ahead.original_position()),
            Told::OpensThen => self.note_then(validator, start, ahead, count),
            Told::Closes => self.close_behind(ahead.original_position()),
            Told::Branches => self.note_branch(validator, start, ahead, 0, count),
            Told::BranchesPerhaps => self.note_branch(validator, start, ahead, 1, count),
            Told::Left | Told::NoMemory => false,
        }
    }
}
