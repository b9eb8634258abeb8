//! `throw` and `throw_ref`.

ghost use Rattle.std.specs.Prelude.{◌≡◌, Some, None, IfOk, OnErr, map};
ghost use Rattle.wasm_operators.specs.Control.{throw, throw_ref};
ghost use Rattle.wasm_readers_types.specs.WasmReadersValues.SeenValues.{val_of};
ghost use Rattle.wasm_typing_control.specs.WasmTypingChecks.WasmSpecSteps.Shapes.{control_shape};
ghost use Rattle.wasm_typing_control.specs.WasmTypingChecks.WasmTypingStacks.BodyStacks.{Kept};
ghost use Rattle.wasm_typing_control.specs.WasmTypingChecks.Steps.{Performs};
ghost use Rattle.wasm_typing_blocks.specs.ExceptionOperands.{thrown_in};

use std::alloc::Allocator;
use wasm_readers::readers_errors::WasmFeatures;
use wasm_readers_types::{RefType, ValType};
use wasm_typing_control::typing_checks::{
    OperatorError, OperatorFault, OperatorRule, ValTypes, halt, has,
};
use wasm_typing_control::typing_stacks::{Stacks, TypeWord};
use wasm_typing_control::validator_resources::WasmModuleResources;

/// What an exception of this tag holds.
#[tactic(auto, using(crate::proofs::ExceptionTypes::tags))]
pub(crate) fn thrown_types<'a, T: WasmModuleResources>(
    resources: &'a T,
    tag: u32,
) -> Result<&'a [ValType], OperatorFault>
    ensures ok { IfOk result (λ ts. thrown_in (T.context resources.now) tag
        ≡ Some (map val_of ts.now)) }
    ensures err { OnErr result (thrown_in (T.context resources.now) tag ≡ None) }
{
    match resources.tag_at(tag) {
        Some(signature) => {
            if signature.results().is_empty() {
                Ok(signature.params())
            } else {
                Err(OperatorFault::at(OperatorRule::TagResults, tag))
            }
        }
        None => Err(OperatorFault::at(OperatorRule::UnknownTag, tag)),
    }
}

/// `throw` (Core Specification 3.0, Validation, Instructions, Control Instructions): it takes what
/// an exception of the tag holds, and what follows isn't reached.
///
/// # Errors
///
/// Refuses it without the proposal of exceptions (`Exceptions`), a tag that isn't there
/// (`UnknownTag`) or has results (`TagResults`), and operands that aren't what the tag takes
/// (`Operand`). Where it is refused, all stays.
#[tactic(auto, using(crate::proofs::Cited::acts, crate::proofs::ExceptionTypes::throws))]
pub fn throw<A: Allocator, T: WasmModuleResources>(
    stacks: &mut Stacks<A>,
    resources: &T,
    tag: u32,
) -> Result<(), OperatorError>
    ensures took { Performs result (T.context resources.now) (control_shape (throw tag))
        stacks.old stacks.new }
    ensures same { Kept stacks.old stacks.new }
{
    if !has(stacks, WasmFeatures::EXCEPTIONS) {
        return Err(OperatorError::Refused(OperatorFault::new(OperatorRule::Exceptions)));
    }
    match thrown_types(resources, tag) {
        Ok(types) => halt(stacks, resources, ValTypes::Many(types)),
        Err(fault) => Err(OperatorError::Refused(fault)),
    }
}

/// `throw_ref` (Core Specification 3.0, Validation, Instructions, Control Instructions): it takes a
/// reference to an exception, and what follows isn't reached.
///
/// # Errors
///
/// Refuses it without the proposal of exceptions (`Exceptions`), and an operand that is no such
/// reference (`Operand`). Where it is refused, all stays.
#[tactic(auto, using(crate::proofs::Cited::acts, crate::proofs::ExceptionTypes::throws))]
pub fn throw_ref<A: Allocator, T: WasmModuleResources>(
    stacks: &mut Stacks<A>,
    resources: &T,
) -> Result<(), OperatorError>
    ensures took { Performs result (T.context resources.now) (control_shape throw_ref)
        stacks.old stacks.new }
    ensures same { Kept stacks.old stacks.new }
{
    if !has(stacks, WasmFeatures::EXCEPTIONS) {
        return Err(OperatorError::Refused(OperatorFault::new(OperatorRule::Exceptions)));
    }
    halt(
        stacks,
        resources,
        ValTypes::One(TypeWord::reference(RefType::EXNREF)),
    )
}
