//! Operators of one body or constant expression, one call for each.

ghost use Rattle.std.specs.Prelude.{◌≡◌, true, false, not, ◌||◌, is_ok, IfErr};
ghost use Rattle.wasm_operators.specs.SeenOperators.{operator_of};
ghost use Rattle.wasm_typing_families.specs.WasmTypingBlocks.WasmTypingChecks.WasmTypingStacks.BodyStacks.{Kept};
ghost use Rattle.wasm_typing_validator.specs.StackSteps.{IsWrittenInstruction};
ghost use Rattle.wasm_typing_validator.specs.BodyTyping.{typed_state};
ghost use Rattle.wasm_typing_validator.specs.OperatorVisits.{IsToldAt, StepsAt};
ghost use Rattle.wasm_typing_validator.specs.ValidatorFailures.{failure_at};

use crate::validator::OperatorValidator;
use std::alloc::{Allocator, Global};
use wasm_operators::Operator;
use wasm_readers::readers_errors::Error;
use wasm_typing_families::typing_blocks::validator_resources::WasmModuleResources;

/// A validator of operators with what it looks up of the module, for as long as operators are
/// handed to it.
#[derive(Drop)]
pub struct OperatorVisitor<'v, 'r, T, A: Allocator = Global> {
    pub(crate) validator: &'v mut OperatorValidator<A>,
    pub(crate) resources: &'r T,
}

impl<'v, 'r, T: WasmModuleResources, A: Allocator> OperatorVisitor<'v, 'r, T, A> {
    /// The visitor over this validator, and over these look-ups.
    pub fn new(
        validator: &'v mut OperatorValidator<A>,
        resources: &'r T,
    ) -> OperatorVisitor<'v, 'r, T, A>
        ensures same_reference { result.validator.ghost_name ≡ validator.entry.ghost_name }
        ensures typed { result.validator.now ≡ validator.old }
        ensures looked_up { result.resources.now ≡ resources.now }
    {
        OperatorVisitor {
            validator,
            resources,
        }
    }

    /// Takes one step by the operator at this offset, a byte counted from the start of the input,
    /// where its types name type indices of the module. Once one is refused the validator has
    /// failed.
    ///
    /// # Errors
    ///
    /// Refuses at the offset an operator that isn't valid here, and any once something was refused;
    /// answers want of memory.
    pub fn visit_operator<'a>(&mut self, offset: u64, op: &Operator<'a>) -> Result<(), Error>
        requires { IsWrittenInstruction (operator_of op.now) }
        ensures same_reference { self.new.validator.ghost_name ≡ self.old.validator.ghost_name }
        ensures looked_up { self.new.resources.now ≡ self.old.resources.now }
        ensures took { self.old.validator.now.failed ≡ false → StepsAt result offset
            (T.context self.old.resources.now) (operator_of op.now)
            self.old.validator.now.stacks self.new.validator.now.stacks }
        ensures told { IfErr result (IsToldAt offset) }
        ensures ended { self.old.validator.now.failed ≡ true → (result ≡ failure_at offset)
            × (typed_state self.new.validator.now ≡ typed_state self.old.validator.now) }
        ensures same { Kept self.old.validator.now.stacks self.new.validator.now.stacks }
        ensures failed { self.new.validator.now.failed
            ≡ (self.old.validator.now.failed || not (is_ok result)) }
    {
        self.validator.op_at(self.resources, offset, op)
    }
}
