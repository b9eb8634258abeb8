//! Branches that are noted.

ghost use Rattle.std.specs.Prelude.{◌≡◌, [], ◌∷◌, ◌++◌, map, length, IfSome, OnOk, Some};
ghost use Rattle.wasm_spec.specs.Values.{u32_at};
ghost use Rattle.wasm_operators.specs.Control.{catch_at};
ghost use Rattle.wasm_operators.specs.Maps.{map_block};
ghost use Rattle.wasm_operators.specs.SeenControl.{block_of};
ghost use Rattle.wasm_operators.specs.SeenLists.{listed};
ghost use Rattle.wasm_validator_resources.specs.Answers.{written_index};
ghost use Rattle.wasm_validator_func.specs.WasmTypingValidator.BodyTyping.{typed_state};
ghost use Rattle.wasm_spec_side_tables.specs.SideTables.{to_label, past_then, catching_to, catch_label};
ghost use Rattle.wasm_validator_side_notes.specs.TableViews.{shown, planned_one, planned_in};

use crate::table::SideTable;
use std::alloc::{AllocError, Allocator};
use wasm_operators::{BlockType, BrTable, Catch, Listed, TryTable};
use wasm_spec_side_tables::{Entry, label_of, make_entry};
use wasm_validator_func::{FuncValidator, block_arity};
use wasm_validator_resources::WasmModuleResources;

/// How many operands there are, if 32 bits count them.
pub(crate) fn count_operands<T: WasmModuleResources, B: Allocator>(
    validator: &FuncValidator<T, B>,
) -> Option<u32>
    ensures { IfSome result (λ n. n ≡ length (typed_state validator.now.validator).operands) }
{
    let count = validator.operand_stack_height();
    if count == u32::MAX {
        return None;
    }
    Some(count)
}

impl<A: Allocator> SideTable<A> {
    /// The entry of a branch to a label, once so many operands were taken that it isn't given.
    #[inline(always)]
    pub(crate) fn label_entry<T: WasmModuleResources, B: Allocator>(
        &self,
        validator: &FuncValidator<T, B>,
        at: u32,
        label: u32,
        taken: u8,
    ) -> Option<Entry>
        ensures { IfSome result (λ e. planned_one (T.context validator.now.resources)
            validator.now.validator at (to_label label taken) (shown self.now) ≡ Some e) }
    {
        let block = self.blocks.get(label as usize)?;
        let (kept, height) = validator.label_counts(label)?;
        let dropped = validator
            .len_operands()
            .saturating_sub(taken as usize)
            .saturating_sub(kept)
            .saturating_sub(height);
        make_entry(at, block.label, kept, dropped)
    }

    /// The entry of a `try_table` whose block takes so many operands, where it catches to a label.
    fn catch_entry<T: WasmModuleResources, B: Allocator>(
        &self,
        validator: &FuncValidator<T, B>,
        at: u32,
        ty: BlockType,
        label: u32,
    ) -> Option<Entry>
        ensures { IfSome result (λ e. planned_one (T.context validator.now.resources)
            validator.now.validator at (catching_to (map_block written_index (block_of ty)) label)
            (shown self.now) ≡ Some e) }
    {
        let block = self.blocks.get(label as usize)?;
        let (kept, height) = validator.label_counts(label)?;
        let (takes, _) = block_arity(validator.resources(), ty)?;
        let operands = count_operands(validator)? as usize;
        let dropped = operands.saturating_sub(takes).saturating_sub(height);
        make_entry(at, block.label, kept, dropped)
    }

    /// The entry of an `if` of this block type.
    fn then_entry<T: WasmModuleResources, B: Allocator>(
        &self,
        validator: &FuncValidator<T, B>,
        at: u32,
        ty: BlockType,
    ) -> Option<Entry>
        ensures { IfSome result (λ e. planned_one (T.context validator.now.resources)
            validator.now.validator at (past_then (map_block written_index (block_of ty)))
            (shown self.now) ≡ Some e) }
    {
        let (takes, _) = block_arity(validator.resources(), ty)?;
        let number = self.places.number().checked_add(1)?;
        make_entry(at, number, takes, 0)
    }

    /// Notes a branch to a label, once so many operands were taken that it isn't given.
    pub(crate) fn branch<T: WasmModuleResources, B: Allocator>(
        &mut self,
        validator: &FuncValidator<T, B>,
        at: u32,
        label: u32,
        taken: u8,
    ) -> Result<(), AllocError>
        ensures planned { OnOk result (planned_in (T.context validator.now.resources)
            validator.now.validator at (to_label label taken ∷ []) (shown self.old)
            ≡ Some (shown self.new)) }
        ensures operands { OnOk result (self.new.operands ≡ self.old.operands) }
    {
        match self.label_entry(validator, at, label, taken) {
            Some(entry) => self.add(entry),
            None => Err(AllocError),
        }
    }

    /// Notes an `if` of this block type.
    pub(crate) fn branch_past_then<T: WasmModuleResources, B: Allocator>(
        &mut self,
        validator: &FuncValidator<T, B>,
        at: u32,
        ty: BlockType,
    ) -> Result<(), AllocError>
        ensures planned { OnOk result (planned_in (T.context validator.now.resources)
            validator.now.validator at (past_then (map_block written_index (block_of ty)) ∷ [])
            (shown self.old) ≡ Some (shown self.new)) }
        ensures operands { OnOk result (self.new.operands ≡ self.old.operands) }
    {
        match self.then_entry(validator, at, ty) {
            Some(entry) => self.add(entry),
            None => Err(AllocError),
        }
    }

    /// Notes a branch to each of these labels.
    #[tactic(auto, using(crate::proofs::BranchNotes::loops))]
    fn branch_to_each<'a, T: WasmModuleResources, B: Allocator>(
        &mut self,
        validator: &FuncValidator<T, B>,
        at: u32,
        labels: Listed<'a, u32>,
    ) -> Result<(), AllocError>
        ensures planned { OnOk result (planned_in (T.context validator.now.resources)
            validator.now.validator at (map (λ n. to_label n 1) (listed u32_at labels.entry))
            (shown self.old) ≡ Some (shown self.new)) }
        ensures operands { OnOk result (self.new.operands ≡ self.old.operands) }
    {
        let mut left = labels.items();
        'labels: while let Some(label) = left.next() {
            match self.branch(validator, at, label, 1) {
                Ok(()) => {}
                Err(error) => return Err(error),
            }
        }
        Ok(())
    }

    /// Notes the branches of a `br_table`.
    #[tactic(auto, using(crate::proofs::BranchNotes::notes))]
    pub(crate) fn branch_by_table<'a, T: WasmModuleResources, B: Allocator>(
        &mut self,
        validator: &FuncValidator<T, B>,
        at: u32,
        table: BrTable<'a>,
    ) -> Result<(), AllocError>
        ensures planned { OnOk result (planned_in (T.context validator.now.resources)
            validator.now.validator at
            (map (λ n. to_label n 1) (listed u32_at table.entry.targets)
            ++ to_label table.entry.default 1 ∷ []) (shown self.old) ≡ Some (shown self.new)) }
        ensures operands { OnOk result (self.new.operands ≡ self.old.operands) }
    {
        match self.branch_to_each(validator, at, table.targets) {
            Ok(()) => {}
            Err(error) => return Err(error),
        }
        match self.branch(validator, at, table.default, 1) {
            Ok(()) => Ok(()),
            Err(error) => Err(error),
        }
    }

    /// Notes where one clause of a `try_table` catches to.
    fn branch_by_clause<T: WasmModuleResources, B: Allocator>(
        &mut self,
        validator: &FuncValidator<T, B>,
        at: u32,
        ty: BlockType,
        clause: Catch,
    ) -> Result<(), AllocError>
        ensures planned { OnOk result (planned_in (T.context validator.now.resources)
            validator.now.validator at
            (catching_to (map_block written_index (block_of ty)) (catch_label clause) ∷ [])
            (shown self.old) ≡ Some (shown self.new)) }
        ensures operands { OnOk result (self.new.operands ≡ self.old.operands) }
    {
        match self.catch_entry(validator, at, ty, label_of(clause)) {
            Some(entry) => self.add(entry),
            None => Err(AllocError),
        }
    }

    /// Notes where the clauses of a `try_table` catch to.
    #[tactic(auto, using(crate::proofs::BranchNotes::loops))]
    pub(crate) fn branch_by_clauses<'a, T: WasmModuleResources, B: Allocator>(
        &mut self,
        validator: &FuncValidator<T, B>,
        at: u32,
        table: TryTable<'a>,
    ) -> Result<(), AllocError>
        ensures planned { OnOk result (planned_in (T.context validator.now.resources)
            validator.now.validator at
            (map (λ c. catching_to (map_block written_index (block_of table.entry.ty))
            (catch_label c)) (listed catch_at table.entry.catches)) (shown self.old)
            ≡ Some (shown self.new)) }
        ensures operands { OnOk result (self.new.operands ≡ self.old.operands) }
    {
        let mut left = table.catches.items();
        'clauses: while let Some(clause) = left.next() {
            match self.branch_by_clause(validator, at, table.ty, clause) {
                Ok(()) => {}
                Err(error) => return Err(error),
            }
        }
        Ok(())
    }
}
