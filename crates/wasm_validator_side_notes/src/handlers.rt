//! Handlers of operators that resume continuations, which are noted.

ghost use Rattle.std.specs.Prelude.{◌≡◌, [], ◌∷◌, OnOk, Some, IfSome};
ghost use Rattle.wasm_operators.specs.SeenContinuations.{continuation_of, handles_of};
ghost use Rattle.wasm_spec_steps.specs.Actions.{OperandTypes};
ghost use Rattle.wasm_spec_side_tables.specs.SideTables.{handling_to, continuation_branches, handle_branches};
ghost use Rattle.wasm_validator_side_notes.specs.TableViews.{shown, planned_one, planned_in};
ghost use Rattle.wasm_validator_side_notes.specs.ResumeOperands.{AreSoMany, AreTaken};

use crate::branches::count_operands;
use crate::table::SideTable;
use std::alloc::{AllocError, Allocator};
use wasm_operators::{ContinuationOperator, Handle, Operator, ResumeTable};
use wasm_spec_side_tables::{Entry, make_entry};
use wasm_validator_func::FuncValidator;
use wasm_validator_func::operator_validator::operator_arity;
use wasm_validator_resources::WasmModuleResources;

impl<A: Allocator> SideTable<A> {
    /// The entry of a handler that branches to a label, once so many operands were taken.
    fn handler_entry<T: WasmModuleResources, B: Allocator>(
        &self,
        validator: &FuncValidator<T, B>,
        at: u32,
        taken: u32,
        label: u32,
    ) -> Option<Entry>
        ensures { IfSome result (λ e. (t : OperandTypes)
            → AreSoMany (T.context validator.now.resources) validator.now.validator t taken
            → planned_one (T.context validator.now.resources) validator.now.validator at
            (handling_to t label) (shown self.now) ≡ Some e) }
    {
        let block = self.blocks.get(label as usize)?;
        let (kept, height) = validator.label_counts(label)?;
        let operands = count_operands(validator)? as usize;
        let dropped = operands
            .saturating_sub(taken as usize)
            .saturating_sub(height);
        make_entry(at, block.label, kept, dropped)
    }

    /// Notes where a handler branches to, once so many operands were taken.
    #[tactic(auto, using(crate::proofs::HandlerNotes::handlers))]
    fn branch_by_handler<T: WasmModuleResources, B: Allocator>(
        &mut self,
        validator: &FuncValidator<T, B>,
        at: u32,
        taken: u32,
        handler: Handle,
    ) -> Result<(), AllocError>
        ensures planned { OnOk result ((t : OperandTypes)
            → AreSoMany (T.context validator.now.resources) validator.now.validator t taken
            → planned_in (T.context validator.now.resources) validator.now.validator at
            (handle_branches t (handler ∷ [])) (shown self.old) ≡ Some (shown self.new)) }
        ensures operands { OnOk result (self.new.operands ≡ self.old.operands) }
    {
        match handler {
            Handle::OnLabel { tag: _, label } => {
                match self.handler_entry(validator, at, taken, label) {
                    Some(entry) => self.add(entry),
                    None => Err(AllocError),
                }
            }
            Handle::OnSwitch { tag: _ } => Ok(()),
        }
    }

    /// Notes where handlers branch to, once so many operands were taken.
    #[tactic(auto, using(crate::proofs::HandlerNotes::loops))]
    fn branch_by_handlers<'a, T: WasmModuleResources, B: Allocator>(
        &mut self,
        validator: &FuncValidator<T, B>,
        at: u32,
        taken: u32,
        table: ResumeTable<'a>,
    ) -> Result<(), AllocError>
        ensures planned { OnOk result ((t : OperandTypes)
            → AreSoMany (T.context validator.now.resources) validator.now.validator t taken
            → planned_in (T.context validator.now.resources) validator.now.validator at
            (handle_branches t (handles_of table.entry)) (shown self.old)
            ≡ Some (shown self.new)) }
        ensures operands { OnOk result (self.new.operands ≡ self.old.operands) }
    {
        let mut left = table.handlers.items();
        'handlers: while let Some(handler) = left.next() {
            match self.branch_by_handler(validator, at, taken, handler) {
                Ok(()) => {}
                Err(error) => return Err(error),
            }
        }
        Ok(())
    }

    /// Notes where the handlers of an operator on continuations branch to.
    fn branch_from<'a, T: WasmModuleResources, B: Allocator>(
        &mut self,
        validator: &FuncValidator<T, B>,
        at: u32,
        op: ContinuationOperator<'a>,
        table: ResumeTable<'a>,
    ) -> Result<(), AllocError>
        ensures planned { OnOk result ((t : OperandTypes)
            → AreTaken (T.context validator.now.resources) validator.now.validator t
            (continuation_of op.entry)
            → planned_in (T.context validator.now.resources) validator.now.validator at
            (handle_branches t (handles_of table.entry)) (shown self.old)
            ≡ Some (shown self.new)) }
        ensures operands { OnOk result (self.new.operands ≡ self.old.operands) }
    {
        match operator_arity(&Operator::Continuation(op), validator) {
            Some((taken, _)) => self.branch_by_handlers(validator, at, taken, table),
            None => Err(AllocError),
        }
    }

    /// Notes the branches of an operator on continuations.
    #[tactic(auto, using(crate::proofs::ResumeArities::resuming))]
    pub(crate) fn plan_continuation<'a, T: WasmModuleResources, B: Allocator>(
        &mut self,
        validator: &FuncValidator<T, B>,
        at: u32,
        op: &ContinuationOperator<'a>,
    ) -> Result<(), AllocError>
        ensures planned { OnOk result (planned_in (T.context validator.now.resources)
            validator.now.validator at (continuation_branches (continuation_of op.now))
            (shown self.old) ≡ Some (shown self.new)) }
        ensures operands { OnOk result (self.new.operands ≡ self.old.operands) }
    {
        match *op {
            ContinuationOperator::Resume { resume_table, .. }
            | ContinuationOperator::ResumeThrow { resume_table, .. }
            | ContinuationOperator::ResumeThrowRef { resume_table, .. } => {
                self.branch_from(validator, at, *op, resume_table)
            }
            _ => Ok(()),
        }
    }
}
