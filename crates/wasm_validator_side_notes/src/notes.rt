//! Operators that are noted.

ghost use Rattle.std.specs.Prelude.{◌≡◌, true, false, max, length, OnOk, Some};
ghost use Rattle.wasm_operators.specs.Maps.{map_control, map_legacy, map_reference, map_cast};
ghost use Rattle.wasm_operators.specs.SeenControl.{control_of};
ghost use Rattle.wasm_operators.specs.SeenLegacy.{legacy_of};
ghost use Rattle.wasm_operators.specs.SeenReferences.{reference_of, cast_of};
ghost use Rattle.wasm_operators.specs.SeenOperators.{operator_of};
ghost use Rattle.wasm_validator_resources.specs.Answers.{written_index};
ghost use Rattle.wasm_typing_stacks.specs.BodyStacks.{Kept};
ghost use Rattle.wasm_validator_func.specs.WasmTypingValidator.StackSteps.{IsWrittenInstruction};
ghost use Rattle.wasm_validator_func.specs.WasmTypingValidator.BodyTyping.{typed_state};
ghost use Rattle.wasm_validator_func.specs.WasmTypingValidator.TypedInstructions.{TookAt};
ghost use Rattle.wasm_validator_func.specs.WasmTypingValidator.ValidatorFailures.{failure_at};
ghost use Rattle.wasm_spec_side_tables.specs.SideTables.{branches, control_branches, legacy_branches, reference_branches, cast_branches};
ghost use Rattle.wasm_spec_side_tables.specs.SideTables.{nesting, control_nesting, legacy_nesting};
ghost use Rattle.wasm_validator_side_notes.specs.TableViews.{shown, instruction_of, placed, nested_in, planned_in, noted_in, steps_to};

use crate::branches::count_operands;
use crate::table::SideTable;
use std::alloc::{AllocError, Allocator};
use wasm_operators::{CastOperator, ControlOperator, LegacyOperator, Operator, ReferenceOperator};
use wasm_readers_errors::Error;
use wasm_validator_func::FuncValidator;
use wasm_validator_resources::WasmModuleResources;

impl<A: Allocator> SideTable<A> {
    /// Notes the branches of a control operator.
    fn plan_control<'a, T: WasmModuleResources, B: Allocator>(
        &mut self,
        validator: &FuncValidator<T, B>,
        at: u32,
        op: &ControlOperator<'a>,
    ) -> Result<(), AllocError>
        ensures planned { OnOk result (planned_in (T.context validator.now.resources)
            validator.now.validator at (control_branches (map_control written_index (control_of op.now))) (shown self.old)
            ≡ Some (shown self.new)) }
        ensures operands { OnOk result (self.new.operands ≡ self.old.operands) }
    {
        match op {
            ControlOperator::If { blockty } => self.branch_past_then(validator, at, *blockty),
            ControlOperator::Else => self.branch(validator, at, 0, 0),
            ControlOperator::TryTable { try_table } => {
                self.branch_by_clauses(validator, at, *try_table)
            }
            ControlOperator::Br { relative_depth } => {
                self.branch(validator, at, *relative_depth, 0)
            }
            ControlOperator::BrIf { relative_depth } => {
                self.branch(validator, at, *relative_depth, 1)
            }
            ControlOperator::BrTable { targets } => self.branch_by_table(validator, at, *targets),
            _ => Ok(()),
        }
    }

    /// Notes the branches of an operator of legacy exceptions.
    fn plan_legacy<T: WasmModuleResources, B: Allocator>(
        &mut self,
        validator: &FuncValidator<T, B>,
        at: u32,
        op: &LegacyOperator,
    ) -> Result<(), AllocError>
        ensures planned { OnOk result (planned_in (T.context validator.now.resources)
            validator.now.validator at (legacy_branches (map_legacy written_index (legacy_of op.now))) (shown self.old)
            ≡ Some (shown self.new)) }
        ensures operands { OnOk result (self.new.operands ≡ self.old.operands) }
    {
        match op {
            LegacyOperator::Catch { tag_index: _ } | LegacyOperator::CatchAll => {
                self.branch(validator, at, 0, 0)
            }
            _ => Ok(()),
        }
    }

    /// Notes a branch on null.
    fn plan_reference<T: WasmModuleResources, B: Allocator>(
        &mut self,
        validator: &FuncValidator<T, B>,
        at: u32,
        op: &ReferenceOperator,
    ) -> Result<(), AllocError>
        ensures planned { OnOk result (planned_in (T.context validator.now.resources)
            validator.now.validator at (reference_branches (map_reference written_index (reference_of op.now))) (shown self.old)
            ≡ Some (shown self.new)) }
        ensures operands { OnOk result (self.new.operands ≡ self.old.operands) }
    {
        match op {
            ReferenceOperator::BrOnNull { relative_depth } => {
                self.branch(validator, at, *relative_depth, 1)
            }
            ReferenceOperator::BrOnNonNull { relative_depth } => {
                self.branch(validator, at, *relative_depth, 0)
            }
            _ => Ok(()),
        }
    }

    /// Notes a branch on a cast.
    fn plan_cast<T: WasmModuleResources, B: Allocator>(
        &mut self,
        validator: &FuncValidator<T, B>,
        at: u32,
        op: &CastOperator,
    ) -> Result<(), AllocError>
        ensures planned { OnOk result (planned_in (T.context validator.now.resources)
            validator.now.validator at (cast_branches (map_cast written_index (cast_of op.now))) (shown self.old)
            ≡ Some (shown self.new)) }
        ensures operands { OnOk result (self.new.operands ≡ self.old.operands) }
    {
        match op {
            CastOperator::BrOnCast { relative_depth, .. }
            | CastOperator::BrOnCastFail { relative_depth, .. } => {
                self.branch(validator, at, *relative_depth, 0)
            }
            CastOperator::BrOnCastDescEq { relative_depth, .. }
            | CastOperator::BrOnCastDescEqFail { relative_depth, .. } => {
                self.branch(validator, at, *relative_depth, 1)
            }
            _ => Ok(()),
        }
    }

    /// Notes the branches of an operator.
    fn plan<'a, T: WasmModuleResources, B: Allocator>(
        &mut self,
        validator: &FuncValidator<T, B>,
        at: u32,
        op: &Operator<'a>,
    ) -> Result<(), AllocError>
        ensures planned { OnOk result (planned_in (T.context validator.now.resources)
            validator.now.validator at (branches (instruction_of op.now)) (shown self.old)
            ≡ Some (shown self.new)) }
        ensures operands { OnOk result (self.new.operands ≡ self.old.operands) }
    {
        match op {
            Operator::Control(op) => self.plan_control(validator, at, op),
            Operator::Legacy(op) => self.plan_legacy(validator, at, op),
            Operator::Reference(op) => self.plan_reference(validator, at, op),
            Operator::Cast(op) => self.plan_cast(validator, at, op),
            Operator::Continuation(op) => self.plan_continuation(validator, at, op),
            _ => Ok(()),
        }
    }

    /// Opens, turns or closes a block.
    fn nest_control<'a>(&mut self, behind: u32, op: &ControlOperator<'a>) -> Result<(), AllocError>
        ensures nested { OnOk result (nested_in
            (control_nesting (map_control written_index (control_of op.now))) behind
            (shown self.old) ≡ Some (shown self.new)) }
        ensures operands { OnOk result (self.new.operands ≡ self.old.operands) }
    {
        match op {
            ControlOperator::Block { blockty: _ }
            | ControlOperator::If { blockty: _ }
            | ControlOperator::TryTable { try_table: _ } => self.open_block(false, behind),
            ControlOperator::Loop { blockty: _ } => self.open_block(true, behind),
            ControlOperator::Else => self.turn_block(behind),
            ControlOperator::End => self.close_block(behind),
            _ => Ok(()),
        }
    }

    /// Opens, turns or closes a block of legacy exceptions.
    fn nest_legacy(&mut self, behind: u32, op: &LegacyOperator) -> Result<(), AllocError>
        ensures nested { OnOk result (nested_in
            (legacy_nesting (map_legacy written_index (legacy_of op.now))) behind
            (shown self.old) ≡ Some (shown self.new)) }
        ensures operands { OnOk result (self.new.operands ≡ self.old.operands) }
    {
        match op {
            LegacyOperator::Try { blockty: _ } => self.open_block(false, behind),
            LegacyOperator::Catch { tag_index: _ } | LegacyOperator::CatchAll => {
                self.turn_block(behind)
            }
            LegacyOperator::Delegate { relative_depth: _ } => self.close_block(behind),
            LegacyOperator::Rethrow { relative_depth: _ } => Ok(()),
        }
    }

    /// Opens, turns or closes a block, if the operator does.
    fn nest<'a>(&mut self, behind: u32, op: &Operator<'a>) -> Result<(), AllocError>
        ensures nested { OnOk result (nested_in (nesting (instruction_of op.now)) behind
            (shown self.old) ≡ Some (shown self.new)) }
        ensures operands { OnOk result (self.new.operands ≡ self.old.operands) }
    {
        match op {
            Operator::Control(op) => self.nest_control(behind, op),
            Operator::Legacy(op) => self.nest_legacy(behind, op),
            _ => Ok(()),
        }
    }

    /// Notes an operator, before the validator takes its step.
    #[tactic(auto, using(crate::proofs::BranchNotes::notes))]
    fn note<'a, T: WasmModuleResources, B: Allocator>(
        &mut self,
        validator: &FuncValidator<T, B>,
        at: u32,
        behind: u32,
        op: &Operator<'a>,
    ) -> Result<(), AllocError>
        ensures noted { OnOk result (noted_in (T.context validator.now.resources)
            validator.now.validator (placed at behind op.now) (shown self.old)
            ≡ Some (shown self.new)) }
        ensures operands { OnOk result (self.new.operands ≡ self.old.operands) }
    {
        match self.plan(validator, at, op) {
            Ok(()) => {}
            Err(error) => return Err(error),
        }
        match self.nest(behind, op) {
            Ok(()) => Ok(()),
            Err(error) => Err(error),
        }
    }

    /// Notes how many operands there are, if there were never more.
    #[inline(always)]
    pub(crate) fn raise<T: WasmModuleResources, B: Allocator>(
        &mut self,
        validator: &FuncValidator<T, B>,
    ) -> Result<(), AllocError>
        ensures same { OnOk result (shown self.new ≡ shown self.old) }
        ensures raised { OnOk result (self.new.operands ≡ max self.old.operands
            (length (typed_state validator.now.validator).operands)) }
    {
        match count_operands(validator) {
            Some(count) => {
                self.operands = self.operands.max(count);
                Ok(())
            }
            None => Err(AllocError),
        }
    }

    /// Notes the operator that stands at this offset, and ends before another, and lets the
    /// validator take its step.
    ///
    /// # Errors
    ///
    /// Refuses as [`FuncValidator::op`]; answers want of memory, also where there are as many
    /// operands as 32 bits don't count. The table is then of no use, until it begins again.
    #[tactic(auto, using(crate::proofs::NextInstructions::stepping))]
    pub fn op<'a, T: WasmModuleResources, B: Allocator>(
        &mut self,
        validator: &mut FuncValidator<T, B>,
        at: u32,
        behind: u32,
        op: &Operator<'a>,
    ) -> Result<(), Error>
        requires { IsWrittenInstruction (operator_of op.now) }
        ensures noted { OnOk result (noted_in (T.context validator.old.resources)
            validator.old.validator (placed at behind op.now) (shown self.old)
            ≡ Some (shown self.new)) }
        ensures raised { OnOk result (self.new.operands ≡ max self.old.operands
            (length (typed_state validator.new.validator).operands)) }
        ensures took { validator.old.validator.failed ≡ false → TookAt at result (steps_to
            (T.context validator.old.resources) validator.old.validator (instruction_of op.now))
            (typed_state validator.new.validator) }
        ensures ended { validator.old.validator.failed ≡ true → result ≡ failure_at at }
        ensures going { OnOk result (validator.new.validator.failed ≡ false) }
        ensures kept { Kept validator.old.validator.stacks validator.new.validator.stacks }
        ensures same { (validator.new.resources ≡ validator.old.resources)
            × (validator.new.index ≡ validator.old.index) }
    {
        let noted = self.note(validator, at, behind, op);
        match validator.op(at as u64, op) {
            Ok(()) => {}
            Err(error) => return Err(error),
        }
        match noted {
            Ok(()) => {}
            Err(_) => return Err(Error::OutOfMemory),
        }
        match self.raise(validator) {
            Ok(()) => Ok(()),
            Err(_) => Err(Error::OutOfMemory),
        }
    }
}
