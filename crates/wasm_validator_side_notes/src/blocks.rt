//! Blocks that open, turn and close.

ghost use Rattle.std.specs.Prelude.{◌≡◌, ◌+◌, length, if◌then◌else◌, true, OnOk, Some};
ghost use Rattle.wasm_spec_side_tables.specs.SideTables.{opens, opens_loop, turns, closes};
ghost use Rattle.wasm_validator_side_notes.specs.TableViews.{shown, place_in, nested_in, block_by, with_block};

use crate::table::SideTable;
use std::alloc::{AllocError, Allocator};
use wasm_spec_side_tables::{OpenBlock, Place};

impl<A: Allocator> SideTable<A> {
    /// The place behind an instruction.
    #[inline(always)]
    fn place_behind(&self, behind: u32) -> Place
        ensures { result ≡ place_in behind (shown self.now) }
    {
        Place {
            offset: behind,
            next: self.entries.number(),
        }
    }

    /// A block opens whose two places are there already, the first with this number. Says no where
    /// memory is refused.
    #[inline(always)]
    #[tactic(auto, using(crate::proofs::OpenedBlocks::opening))]
    fn push_block(&mut self, is_loop: bool, label: u32) -> bool
        requires { label + 2 ≡ length self.old.places }
        ensures pushed { result ≡ true → shown self.new
            ≡ with_block (shown self.old) (block_by is_loop label) }
        ensures operands { result ≡ true → self.new.operands ≡ self.old.operands }
    {
        let block = OpenBlock {
            label,
            other: self.places.number() - 1,
            is_loop,
        };
        self.blocks.push(block).is_ok()
    }

    /// A block opens behind this offset.
    #[inline(never)]
    #[tactic(auto, using(crate::proofs::OpenedBlocks::opening))]
    pub(crate) fn open_block(&mut self, is_loop: bool, behind: u32) -> Result<(), AllocError>
        ensures nested { OnOk result (nested_in (if is_loop then opens_loop else opens) behind (shown self.old)
            ≡ Some (shown self.new)) }
        ensures operands { OnOk result (self.new.operands ≡ self.old.operands) }
    {
        let label = self.places.number();
        let place = self.place_behind(behind);
        match self.places.push_twice(place) {
            Ok(()) => {}
            Err(error) => return Err(error),
        }
        if self.push_block(is_loop, label) {
            Ok(())
        } else {
            Err(AllocError)
        }
    }

    /// The same, at once where places for it are there already. Says no where memory is refused.
    #[inline(always)]
    #[tactic(auto, using(crate::proofs::OpenedBlocks::opening))]
    pub(crate) fn open_at_once(&mut self, is_loop: bool, behind: u32) -> bool
        ensures { result ≡ true → nested_in (if is_loop then opens_loop else opens) behind
            (shown self.old) ≡ Some (shown self.new) }
    {
        let label = self.places.number();
        let place = self.place_behind(behind);
        if self.places.put_twice(place) {
            return self.push_block(is_loop, label);
        }
        self.open_block(is_loop, behind).is_ok()
    }

    /// A block turns to its `else`, or to a `catch`, behind this offset.
    pub(crate) fn turn_block(&mut self, behind: u32) -> Result<(), AllocError>
        ensures nested { OnOk result (nested_in turns behind (shown self.old) ≡ Some (shown self.new)) }
        ensures operands { OnOk result (self.new.operands ≡ self.old.operands) }
    {
        let place = self.place_behind(behind);
        let Some(block) = self.blocks.pop() else {
            return Err(AllocError);
        };
        if block.is_loop {
            return Err(AllocError);
        }
        self.places.set(block.other as usize, place);
        let turned = OpenBlock {
            label: block.label,
            other: block.label,
            is_loop: false,
        };
        match self.blocks.push(turned) {
            Ok(()) => Ok(()),
            Err(_) => Err(AllocError),
        }
    }

    /// A block closes behind this offset.
    #[inline(always)]
    pub(crate) fn close_block(&mut self, behind: u32) -> Result<(), AllocError>
        ensures nested { OnOk result (nested_in closes behind (shown self.old) ≡ Some (shown self.new)) }
        ensures operands { OnOk result (self.new.operands ≡ self.old.operands) }
    {
        let place = self.place_behind(behind);
        let Some(block) = self.blocks.pop() else {
            return Err(AllocError);
        };
        if !block.is_loop {
            self.places
                .set_both(block.label as usize, block.other as usize, place);
        }
        Ok(())
    }
}
