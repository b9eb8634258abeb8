//! Operators that resume a continuation.

ghost use Rattle.std.specs.Prelude.{◌≡◌, [], true, Some, None, IfOk, OnErr};
ghost use Rattle.wasm_typing_control.specs.WasmReadersTypes.WasmReadersValues.SeenValues.{index_of};
ghost use Rattle.wasm_typing_control.specs.WasmOperators.Continuations.{resume, resume_throw, resume_throw_ref};
ghost use Rattle.wasm_typing_control.specs.WasmOperators.SeenContinuations.{handles_of};
ghost use Rattle.wasm_typing_control.specs.WasmTypingChecks.WasmSpecSteps.Shapes.{continuing};
ghost use Rattle.wasm_typing_control.specs.WasmTypingChecks.WasmTypingStacks.BodyStacks.{Kept};
ghost use Rattle.wasm_typing_control.specs.WasmTypingChecks.WasmValidatorResources.Answers.{signature_seen};
ghost use Rattle.wasm_typing_control.specs.WasmTypingChecks.Steps.{Performs};
ghost use Rattle.wasm_typing_continuations.specs.ContinuationLookups.{continued_at};
ghost use Rattle.wasm_typing_continuations.specs.HandlerTypes.{all_handled, resumed_at};

use crate::continuations::{Continued, continued};
use crate::handlers::{check_handlers, tag_type};
use std::alloc::Allocator;
use wasm_typing_control::operators::ResumeTable;
use wasm_typing_control::readers_types::RefType;
use wasm_typing_control::typing_checks::{
    OperatorError, OperatorFault, OperatorRule, ValTypes, nullable, plain_with,
};
use wasm_typing_control::typing_stacks::{Stacks, TypeWord};
use wasm_typing_control::val_types_of;
use wasm_typing_control::validator_resources::WasmModuleResources;

/// The continuation type of this type index, where each handler suits it.
#[tactic(auto, using(crate::proofs::HandlerChecks::resumptions))]
fn resumed<'a, 'b, A: Allocator, T: WasmModuleResources>(
    stacks: &Stacks<A>,
    resources: &'a T,
    type_index: u32,
    table: ResumeTable<'b>,
) -> Result<Continued<'a, T::A>, OperatorFault>
    ensures ok { IfOk result (λ p. (continued_at (T.context resources.now) stacks.now.is_shared
        type_index ≡ Some (index_of p.0, signature_seen p.1.now))
        × (all_handled stacks.now (T.context resources.now) (signature_seen p.1.now).gives
        (handles_of table.entry) ≡ true)) }
    ensures err { OnErr result (resumed_at stacks.now (T.context resources.now)
        type_index (handles_of table.entry) ≡ None) }
{
    let found = match continued(stacks, resources, type_index) {
        Ok(found) => found,
        Err(fault) => return Err(fault),
    };
    match check_handlers(stacks, resources, found.1.results(), table.handlers) {
        Ok(()) => Ok(found),
        Err(fault) => Err(fault),
    }
}

/// `resume`: takes a continuation with its arguments below, and gives its results.
#[tactic(auto, using(crate::proofs::Cited::acts, crate::proofs::StepsByOperator::steps))]
pub(crate) fn resume<'a, A: Allocator, T: WasmModuleResources>(
    stacks: &mut Stacks<A>,
    resources: &T,
    type_index: u32,
    table: ResumeTable<'a>,
) -> Result<(), OperatorError>
    ensures took { Performs result (T.context resources.now)
        (continuing [] (resume type_index (handles_of table.entry))) stacks.old stacks.new }
    ensures same { Kept stacks.old stacks.new }
{
    match resumed(stacks, resources, type_index, table) {
        Ok((identity, signature)) => plain_with(
            stacks,
            resources,
            ValTypes::Many(signature.params()),
            nullable(identity),
            val_types_of(signature.results()),
        ),
        Err(fault) => Err(OperatorError::Refused(fault)),
    }
}

/// `resume_throw`: the same with what an exception of the tag holds in the place of the arguments.
#[tactic(auto, using(crate::proofs::Cited::acts, crate::proofs::StepsByOperator::steps))]
pub(crate) fn resume_throw<'a, A: Allocator, T: WasmModuleResources>(
    stacks: &mut Stacks<A>,
    resources: &T,
    type_index: u32,
    tag_index: u32,
    table: ResumeTable<'a>,
) -> Result<(), OperatorError>
    ensures took { Performs result (T.context resources.now)
        (continuing [] (resume_throw type_index tag_index (handles_of table.entry))) stacks.old stacks.new }
    ensures same { Kept stacks.old stacks.new }
{
    let (identity, signature) = match resumed(stacks, resources, type_index, table) {
        Ok(found) => found,
        Err(fault) => return Err(OperatorError::Refused(fault)),
    };
    let thrown = match tag_type(resources, tag_index) {
        Ok(thrown) => thrown,
        Err(fault) => return Err(OperatorError::Refused(fault)),
    };
    if !thrown.results().is_empty() {
        let fault = OperatorFault::at(OperatorRule::TagResults, tag_index);
        return Err(OperatorError::Refused(fault));
    }
    plain_with(
        stacks,
        resources,
        ValTypes::Many(thrown.params()),
        nullable(identity),
        val_types_of(signature.results()),
    )
}

/// `resume_throw_ref`: the same with a reference to an exception, or null.
#[tactic(auto, using(crate::proofs::Cited::acts, crate::proofs::StepsByOperator::steps))]
pub(crate) fn resume_throw_ref<'a, A: Allocator, T: WasmModuleResources>(
    stacks: &mut Stacks<A>,
    resources: &T,
    type_index: u32,
    table: ResumeTable<'a>,
) -> Result<(), OperatorError>
    ensures took { Performs result (T.context resources.now)
        (continuing [] (resume_throw_ref type_index (handles_of table.entry))) stacks.old stacks.new }
    ensures same { Kept stacks.old stacks.new }
{
    match resumed(stacks, resources, type_index, table) {
        Ok((identity, signature)) => plain_with(
            stacks,
            resources,
            ValTypes::One(TypeWord::reference(RefType::EXNREF)),
            nullable(identity),
            val_types_of(signature.results()),
        ),
        Err(fault) => Err(OperatorError::Refused(fault)),
    }
}
