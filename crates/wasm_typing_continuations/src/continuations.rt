//! Operators on continuations (the stack-switching proposal).

ghost use Rattle.std.specs.Prelude.{◌≡◌, ◌≤◌, ◌&&◌, [], Some, None, is_ok, IfOk, OnErr, drop, length};
ghost use Rattle.wasm_typing_control.specs.WasmReadersTypes.WasmReadersValues.SeenValues.{index_of};
ghost use Rattle.wasm_typing_control.specs.WasmOperators.Continuations.{cont_new, cont_bind, suspend, switch};
ghost use Rattle.wasm_typing_control.specs.WasmOperators.SeenContinuations.{continuation_of};
ghost use Rattle.wasm_typing_control.specs.WasmTypingChecks.WasmSpecSteps.Matching.{matches_vals};
ghost use Rattle.wasm_typing_control.specs.WasmTypingChecks.WasmSpecSteps.Shapes.{continuing, continuation_shape};
ghost use Rattle.wasm_typing_control.specs.WasmTypingChecks.WasmValidatorResources.Answers.{signature_seen, world};
ghost use Rattle.wasm_typing_continuations.specs.ContinuationLookups.{continued_at, may_switch};
ghost use Rattle.wasm_typing_control.specs.WasmTypingChecks.WasmTypingStacks.BodyStacks.{Kept};
ghost use Rattle.wasm_typing_control.specs.WasmTypingChecks.Steps.{Performs};

use crate::continued::{continuation_reached, continued_last, function_of, non_null_to};
use crate::handlers::tag_type;
use crate::resuming::{resume, resume_throw, resume_throw_ref};
use std::alloc::Allocator;
use wasm_typing_control::operators::ContinuationOperator;
use wasm_typing_control::readers_errors::WasmFeatures;
use wasm_typing_control::readers_types::{FuncType, PackedIndex};
use wasm_typing_control::typing_checks::{
    OperatorError, OperatorFault, OperatorRule, Takes, ValTypes, has, identity, match_all,
    nullable, plain, plain_with,
};
use wasm_typing_control::typing_stacks::Stacks;
use wasm_typing_control::val_types_of;
use wasm_typing_control::validator_resources::WasmModuleResources;
use wasm_typing_references::front_types;

/// A continuation type that a body may name: its identity, and what its continuations take and give.
pub(crate) type Continued<'a, A> = (PackedIndex, &'a FuncType<A>);

/// The continuation type of this type index.
///
/// # Errors
///
/// Refuses what [`continuation_reached`] refuses.
#[tactic(auto, using(crate::proofs::ContinuationTypes::continuations))]
pub(crate) fn continued<'a, A: Allocator, T: WasmModuleResources>(
    stacks: &Stacks<A>,
    resources: &'a T,
    type_index: u32,
) -> Result<Continued<'a, T::A>, OperatorFault>
    ensures ok { IfOk result (λ p. continued_at (T.context resources.now) stacks.now.is_shared
        type_index ≡ Some (index_of p.0, signature_seen p.1.now)) }
    ensures err { OnErr result (continued_at (T.context resources.now) stacks.now.is_shared
        type_index ≡ None) }
{
    let function = continuation_reached(stacks, resources, type_index)?;
    let identity = match identity(resources, type_index) {
        Some(identity) => identity,
        None => return Err(OperatorFault::at(OperatorRule::UnknownType, type_index)),
    };
    match function_of(resources, function) {
        Some(signature) => Ok((identity, signature)),
        None => Err(OperatorFault::at(OperatorRule::NotAContinuation, type_index)),
    }
}

/// `cont.new`: takes a reference to a function, or null, and gives a continuation of it.
#[tactic(auto, using(crate::proofs::Cited::acts, crate::proofs::StepsByOperator::steps))]
fn cont_new<A: Allocator, T: WasmModuleResources>(
    stacks: &mut Stacks<A>,
    resources: &T,
    type_index: u32,
) -> Result<(), OperatorError>
    ensures took { Performs result (T.context resources.now)
        (continuing [] (cont_new type_index)) stacks.old stacks.new }
    ensures same { Kept stacks.old stacks.new }
{
    let function = match continuation_reached(stacks, resources, type_index) {
        Ok(function) => function,
        Err(fault) => return Err(OperatorError::Refused(fault)),
    };
    match identity(resources, type_index) {
        Some(identity) => plain(
            stacks,
            resources,
            Takes::One(nullable(function)),
            ValTypes::One(non_null_to(identity)),
        ),
        None => Err(OperatorError::Refused(OperatorFault::at(
            OperatorRule::UnknownType,
            type_index,
        ))),
    }
}

/// Whether what a continuation takes behind so many arguments, and what it gives, is what another one
/// takes and gives.
fn binds<'a, T: WasmModuleResources>(
    resources: &T,
    from: &'a FuncType<T::A>,
    to: &'a FuncType<T::A>,
    bound: usize,
) -> bool
    requires { bound ≤ length (signature_seen from.now).takes }
    ensures { result ≡ (matches_vals (world (T.context resources.now)) (signature_seen to.now).takes
        (drop bound (signature_seen from.now).takes)
        && matches_vals (world (T.context resources.now)) (signature_seen from.now).gives
        (signature_seen to.now).gives) }
{
    match_all(resources, to.params(), &from.params()[bound..])
        && match_all(resources, from.results(), to.results())
}

/// `cont.bind`: takes the first arguments of a continuation, and gives one that takes the others.
#[tactic(auto, using(crate::proofs::Cited::acts, crate::proofs::StepsByOperator::steps))]
fn cont_bind<A: Allocator, T: WasmModuleResources>(
    stacks: &mut Stacks<A>,
    resources: &T,
    argument_index: u32,
    result_index: u32,
) -> Result<(), OperatorError>
    ensures took { Performs result (T.context resources.now)
        (continuing [] (cont_bind argument_index result_index)) stacks.old stacks.new }
    ensures same { Kept stacks.old stacks.new }
{
    let (argument, from) = match continued(stacks, resources, argument_index) {
        Ok(found) => found,
        Err(fault) => return Err(OperatorError::Refused(fault)),
    };
    let (result, to) = match continued(stacks, resources, result_index) {
        Ok(found) => found,
        Err(fault) => return Err(OperatorError::Refused(fault)),
    };
    if from.params().len() < to.params().len() {
        let fault = OperatorFault::new(OperatorRule::ContinuationArguments);
        return Err(OperatorError::Refused(fault));
    }
    let bound = from.params().len() - to.params().len();
    if !binds(resources, from, to, bound) {
        let fault = OperatorFault::new(OperatorRule::ContinuationSignatures);
        return Err(OperatorError::Refused(fault));
    }
    plain_with(
        stacks,
        resources,
        ValTypes::Many(&from.params()[..bound]),
        nullable(argument),
        ValTypes::One(non_null_to(result)),
    )
}

/// `suspend`: takes what a tag takes, and gives what it gives once the continuation is resumed.
#[tactic(auto, using(crate::proofs::Cited::acts, crate::proofs::StepsByOperator::steps))]
fn suspend<A: Allocator, T: WasmModuleResources>(
    stacks: &mut Stacks<A>,
    resources: &T,
    tag_index: u32,
) -> Result<(), OperatorError>
    ensures took { Performs result (T.context resources.now)
        (continuing [] (suspend tag_index)) stacks.old stacks.new }
    ensures same { Kept stacks.old stacks.new }
{
    match tag_type(resources, tag_index) {
        Ok(signature) => plain(
            stacks,
            resources,
            Takes::Many(signature.params()),
            val_types_of(signature.results()),
        ),
        Err(fault) => Err(OperatorError::Refused(fault)),
    }
}

/// Whether a tag takes nothing, and what it gives is between what the one continuation gives and
/// what the other does.
fn is_between<'a, T: WasmModuleResources>(
    resources: &T,
    to: &'a FuncType<T::A>,
    tag: &'a FuncType<T::A>,
    from: &'a FuncType<T::A>,
) -> bool
    ensures { result ≡ (matches_vals (world (T.context resources.now)) (signature_seen to.now).gives
        (signature_seen tag.now).gives
        && matches_vals (world (T.context resources.now)) (signature_seen tag.now).gives
        (signature_seen from.now).gives) }
{
    match_all(resources, to.results(), tag.results())
        && match_all(resources, tag.results(), from.results())
}

/// Whether a continuation may be switched to by this tag: the tag takes nothing, and what it gives
/// is between what the one gives and what the other does.
#[tactic(auto, using(crate::proofs::StepsByOperator::switches))]
fn check_switch<'a, T: WasmModuleResources>(
    resources: &T,
    to: &'a FuncType<T::A>,
    from: &'a FuncType<T::A>,
    tag_index: u32,
) -> Result<(), OperatorFault>
    ensures { is_ok result ≡ may_switch (T.context resources.now) (signature_seen to.now)
        (signature_seen from.now) tag_index }
{
    let tag = match tag_type(resources, tag_index) {
        Ok(signature) => signature,
        Err(fault) => return Err(fault),
    };
    if !tag.params().is_empty() {
        return Err(OperatorFault::at(OperatorRule::SwitchParams, tag_index));
    }
    if !is_between(resources, to, tag, from) {
        return Err(OperatorFault::new(OperatorRule::ContinuationSignatures));
    }
    Ok(())
}

/// `switch`: takes the arguments of a continuation but the last, which is the one that is switched
/// from, and gives what that one takes.
#[tactic(auto, using(crate::proofs::Cited::acts, crate::proofs::StepsByOperator::steps))]
fn switch<A: Allocator, T: WasmModuleResources>(
    stacks: &mut Stacks<A>,
    resources: &T,
    type_index: u32,
    tag_index: u32,
) -> Result<(), OperatorError>
    ensures took { Performs result (T.context resources.now)
        (continuing [] (switch type_index tag_index)) stacks.old stacks.new }
    ensures same { Kept stacks.old stacks.new }
{
    let (identity, to) = match continued(stacks, resources, type_index) {
        Ok(found) => found,
        Err(fault) => return Err(OperatorError::Refused(fault)),
    };
    let takes = ValTypes::Many(to.params());
    let from = match continued_last(resources, takes) {
        Some(signature) => signature,
        None => {
            return Err(OperatorError::Refused(OperatorFault::new(OperatorRule::NoContinuation)));
        }
    };
    match check_switch(resources, to, from, tag_index) {
        Ok(()) => plain_with(
            stacks,
            resources,
            front_types(takes),
            nullable(identity),
            val_types_of(from.params()),
        ),
        Err(fault) => Err(OperatorError::Refused(fault)),
    }
}

/// An operator on continuations, where the features have it.
fn perform<'a, A: Allocator, T: WasmModuleResources>(
    stacks: &mut Stacks<A>,
    resources: &T,
    op: ContinuationOperator<'a>,
) -> Result<(), OperatorError>
    ensures took { Performs result (T.context resources.now)
        (continuing [] (continuation_of op.entry)) stacks.old stacks.new }
    ensures same { Kept stacks.old stacks.new }
{
    match op {
        ContinuationOperator::ContNew { cont_type_index } => {
            cont_new(stacks, resources, cont_type_index)
        }
        ContinuationOperator::ContBind {
            argument_index,
            result_index,
        } => cont_bind(stacks, resources, argument_index, result_index),
        ContinuationOperator::Suspend { tag_index } => suspend(stacks, resources, tag_index),
        ContinuationOperator::Resume {
            cont_type_index,
            resume_table,
        } => resume(stacks, resources, cont_type_index, resume_table),
        ContinuationOperator::ResumeThrow {
            cont_type_index,
            tag_index,
            resume_table,
        } => resume_throw(stacks, resources, cont_type_index, tag_index, resume_table),
        ContinuationOperator::ResumeThrowRef {
            cont_type_index,
            resume_table,
        } => resume_throw_ref(stacks, resources, cont_type_index, resume_table),
        ContinuationOperator::Switch {
            cont_type_index,
            tag_index,
        } => switch(stacks, resources, cont_type_index, tag_index),
    }
}

/// An operator on continuations (the stack-switching proposal, Validation, Instructions).
///
/// # Errors
///
/// Refused without `STACK_SWITCHING_OPERATORS` or `STACK_SWITCHING`; and where the operator's rule
/// refuses it. All stays then, and where memory is refused.
#[tactic(auto, using(crate::proofs::Cited::acts, crate::proofs::StepsByOperator::gates))]
pub fn step_continuation<'a, A: Allocator, T: WasmModuleResources>(
    stacks: &mut Stacks<A>,
    resources: &T,
    op: ContinuationOperator<'a>,
) -> Result<(), OperatorError>
    ensures took { Performs result (T.context resources.now)
        (continuation_shape (continuation_of op.entry)) stacks.old stacks.new }
    ensures same { Kept stacks.old stacks.new }
{
    if !has(stacks, WasmFeatures::STACK_SWITCHING_OPERATORS) {
        let fault = OperatorFault::at(OperatorRule::Opcode, u32::from(op.opcode()));
        return Err(OperatorError::Refused(fault));
    }
    if !has(stacks, WasmFeatures::STACK_SWITCHING) {
        let fault = OperatorFault::new(OperatorRule::StackSwitching);
        return Err(OperatorError::Refused(fault));
    }
    perform(stacks, resources, op)
}
