//! Operators on locals, and `drop`.

ghost use Rattle.std.specs.Prelude.{◌≡◌, ◌||◌, OnOk, OnErr, Some};
ghost use Rattle.wasm_typing_numbers.specs.WasmOperators.WasmOperatorsPlain.declared.variables.VariableOperator.TheVariants.{LocalGet, LocalSet, LocalTee};
ghost use Rattle.wasm_typing_numbers.specs.WasmTypingChecks.WasmValidatorResources.WasmSpecRules.Attempts.{among};
ghost use Rattle.wasm_typing_numbers.specs.WasmSpecSteps.Machine.{set_local};
ghost use Rattle.wasm_typing_numbers.specs.WasmSpecSteps.Shapes.{variable_shape, dropping};
ghost use Rattle.wasm_typing_numbers.specs.WasmTypingStacks.Locals.{local_of};
ghost use Rattle.wasm_typing_numbers.specs.WasmTypingStacks.BodyStacks.{state_of, Kept};
ghost use Rattle.wasm_typing_numbers.specs.WasmTypingChecks.Steps.{Performs};

use std::alloc::{AllocError, Allocator};
use wasm_typing_numbers::typing_checks::{
    OperatorError, OperatorFault, OperatorRule, Takes, ValTypes, check_type, look, plain,
};
use wasm_typing_numbers::typing_stacks::{LocalWord, Locals, Stacks, Word};
use wasm_typing_numbers::validator_resources::WasmModuleResources;

/// Whether a local is set by now.
#[inline(always)]
fn is_set<A: Allocator>(locals: &Locals<A>, index: u32, local: LocalWord) -> bool
    ensures { result ≡ ((local_of local).set || among index locals.now.inits) }
{
    local.is_set() || locals.was_set(index)
}

/// Sets a local from now on. Where memory is refused, all stays.
#[tactic(auto, using(crate::proofs::LocalOperators::marks))]
fn mark<A: Allocator>(
    stacks: &mut Stacks<A>,
    index: u32,
    local: LocalWord,
) -> Result<(), AllocError>
    ensures ok { OnOk result (state_of stacks.new
        ≡ set_local ((local_of local).set || among index stacks.old.locals.inits) index
        (state_of stacks.old)) }
    ensures err { OnErr result (state_of stacks.new ≡ state_of stacks.old) }
    ensures operands { stacks.new.operands ≡ stacks.old.operands }
    ensures same { Kept stacks.old stacks.new }
{
    if is_set(&stacks.locals, index, local) {
        Ok(())
    } else {
        stacks.locals.set(index)
    }
}

/// `local.get`.
#[tactic(auto, using(crate::proofs::Cited::acts, crate::proofs::LocalOperators::locals))]
pub fn local_get<A: Allocator, T: WasmModuleResources>(
    stacks: &mut Stacks<A>,
    resources: &T,
    index: u32,
) -> Result<(), OperatorError>
    ensures took { Performs result (T.context resources.now) (variable_shape (LocalGet index))
        stacks.old stacks.new }
    ensures same { Kept stacks.old stacks.new }
{
    match stacks.locals.get(index) {
        Some(local) => {
            if !is_set(&stacks.locals, index, local) {
                return Err(OperatorError::Refused(OperatorFault::at(
                    OperatorRule::UnsetLocal,
                    index,
                )));
            }
            plain(stacks, resources, Takes::None, ValTypes::One(local.ty()))
        }
        None => Err(OperatorError::Refused(OperatorFault::at(OperatorRule::UnknownLocal, index))),
    }
}

/// `local.set`.
#[tactic(auto, using(crate::proofs::Cited::acts, crate::proofs::LocalOperators::locals))]
pub fn local_set<A: Allocator, T: WasmModuleResources>(
    stacks: &mut Stacks<A>,
    resources: &T,
    index: u32,
) -> Result<(), OperatorError>
    ensures took { Performs result (T.context resources.now) (variable_shape (LocalSet index))
        stacks.old stacks.new }
    ensures same { Kept stacks.old stacks.new }
{
    let local = match stacks.locals.get(index) {
        Some(local) => local,
        None => {
            return Err(OperatorError::Refused(OperatorFault::at(
                OperatorRule::UnknownLocal,
                index,
            )));
        }
    };
    let taken = match check_type(stacks, resources, 0, local.ty()) {
        Ok(taken) => taken,
        Err(fault) => return Err(OperatorError::Refused(fault)),
    };
    match mark(stacks, index, local) {
        Ok(()) => {
            stacks.take(taken);
            Ok(())
        }
        Err(_) => Err(OperatorError::OutOfMemory),
    }
}

/// `local.tee`.
#[tactic(auto, using(crate::proofs::Cited::acts, crate::proofs::LocalOperators::locals))]
pub fn local_tee<A: Allocator, T: WasmModuleResources>(
    stacks: &mut Stacks<A>,
    resources: &T,
    index: u32,
) -> Result<(), OperatorError>
    ensures took { Performs result (T.context resources.now) (variable_shape (LocalTee index))
        stacks.old stacks.new }
    ensures same { Kept stacks.old stacks.new }
{
    let local = match stacks.locals.get(index) {
        Some(local) => local,
        None => {
            return Err(OperatorError::Refused(OperatorFault::at(
                OperatorRule::UnknownLocal,
                index,
            )));
        }
    };
    let taken = match check_type(stacks, resources, 0, local.ty()) {
        Ok(taken) => taken,
        Err(fault) => return Err(OperatorError::Refused(fault)),
    };
    let before = stacks.locals.count_set();
    match mark(stacks, index, local) {
        Ok(()) => match stacks.exchange(taken, Word::known(local.ty())) {
            Ok(()) => Ok(()),
            Err(_) => {
                stacks.locals.unset(before);
                Err(OperatorError::OutOfMemory)
            }
        },
        Err(_) => Err(OperatorError::OutOfMemory),
    }
}

/// `drop`.
#[tactic(auto, using(crate::proofs::Cited::acts, crate::proofs::LocalOperators::drops))]
pub fn drop_any<A: Allocator, T: WasmModuleResources>(
    stacks: &mut Stacks<A>,
    _resources: &T,
) -> Result<(), OperatorError>
    ensures took { Performs result (T.context _resources.now) dropping stacks.old stacks.new }
    ensures same { Kept stacks.old stacks.new }
{
    match look(stacks, 0) {
        Some((_, taken)) => {
            stacks.take(taken);
            Ok(())
        }
        None => Err(OperatorError::Refused(OperatorFault::new(OperatorRule::AnyOperand))),
    }
}
