//! What branches on casts send to their label.

ghost use Rattle.std.specs.Prelude.{◌++◌, ◌∷◌, []};
ghost use Rattle.wasm_typing_references.specs.WasmSpec.Syntax.{reference};
ghost use Rattle.wasm_typing_references.specs.WasmReadersTypes.WasmReadersValues.SeenValues.{ref_of};
ghost use Rattle.wasm_typing_references.specs.WasmTypingChecks.WasmTypingStacks.SeenTypeWords.{val_in};
ghost use Rattle.wasm_typing_references.specs.WasmTypingChecks.WasmSpecSteps.Actions.{label};
ghost use Rattle.wasm_typing_references.specs.WasmTypingChecks.WasmValidatorResources.Answers.{world};
ghost use Rattle.wasm_typing_references.specs.WasmTypingChecks.WasmSpecSteps.Machine.{pop_vals};
ghost use Rattle.wasm_typing_references.specs.WasmTypingChecks.WasmTypingStacks.BodyStacks.{state_of, Kept};
ghost use Rattle.wasm_typing_references.specs.WasmTypingChecks.Steps.{Checked, Turns, typed};
ghost use Rattle.wasm_typing_references.specs.WasmTypingChecks.SeenTypes.{exchanged, types_seen};
ghost use Rattle.wasm_typing_casts.specs.BranchOperands.{sending, list_in};

use std::alloc::Allocator;
use wasm_typing_references::readers_types::{RefType, ValType};
use wasm_typing_references::typing_checks::{
    OperatorError, OperatorFault, OperatorRule, ValTypes, check_type, check_types,
};
use wasm_typing_references::typing_control::label_types;
use wasm_typing_references::typing_stacks::{Stacks, TypeWord, Word};
use wasm_typing_references::validator_resources::WasmModuleResources;
use wasm_typing_references::{exchange_with, front_types, last_type};

/// How many operands are taken by a descriptor on top, where one is asked for.
///
/// # Errors
///
/// Refuses what [`check_type`] refuses.
fn check_above<A: Allocator, T: WasmModuleResources>(
    stacks: &Stacks<A>,
    resources: &T,
    descriptor: Option<TypeWord>,
) -> Result<usize, OperatorFault>
    ensures { Checked result (pop_vals (world (T.context resources.now)) (list_in descriptor)
        (state_of stacks.now)) (state_of stacks.now) }
{
    match descriptor {
        Some(descriptor) => check_type(stacks, resources, 0, descriptor),
        None => Ok(0),
    }
}

/// Takes operands of some types with one of another type above them, and with a descriptor on top
/// where one is asked for, and gives the same types with one of a third type on top. Where that
/// can't be, all stays.
#[tactic(auto, using(crate::proofs::Cited::acts, crate::proofs::OperandExchanges::exchanges))]
fn exchange_top<'a, A: Allocator, T: WasmModuleResources>(
    stacks: &mut Stacks<A>,
    resources: &T,
    types: ValTypes<'a>,
    takes: TypeWord,
    descriptor: Option<TypeWord>,
    gives: TypeWord,
) -> Result<(), OperatorError>
    ensures took { Turns result (exchanged (world (T.context resources.now))
        (types_seen types.entry ++ val_in takes ∷ list_in descriptor)
        (types_seen types.entry ++ val_in gives ∷ []))
        stacks.old stacks.new }
    ensures same { Kept stacks.old stacks.new }
{
    let above = match check_above(stacks, resources, descriptor) {
        Ok(above) => above,
        Err(fault) => return Err(OperatorError::Refused(fault)),
    };
    let first = match check_type(stacks, resources, above, takes) {
        Ok(first) => first,
        Err(fault) => return Err(OperatorError::Refused(fault)),
    };
    let taken = match check_types(stacks, resources, first, types) {
        Ok(taken) => taken,
        Err(fault) => return Err(OperatorError::Refused(fault)),
    };
    match exchange_with(stacks, taken, types, Word::known(gives)) {
        Ok(()) => Ok(()),
        Err(_) => Err(OperatorError::OutOfMemory),
    }
}

/// Branches to a label whose last type matches what is sent: takes the label's other types with one
/// of a type above them, and with a descriptor on top where one is asked for, and gives them with
/// one of another type on top. Where that can't be, all stays.
#[tactic(auto, using(crate::proofs::Cited::acts, crate::proofs::CastBranches::sends))]
pub(crate) fn send<A: Allocator, T: WasmModuleResources>(
    stacks: &mut Stacks<A>,
    resources: &T,
    depth: u32,
    sent: RefType,
    takes: RefType,
    descriptor: Option<TypeWord>,
    gives: RefType,
) -> Result<(), OperatorError>
    ensures took { Turns result (sending (world (T.context resources.now))
        (typed stacks.old (T.context resources.now) (label depth)) (reference (ref_of sent))
        (reference (ref_of takes)) (list_in descriptor) (reference (ref_of gives)))
        stacks.old stacks.new }
    ensures same { Kept stacks.old stacks.new }
{
    let types = match label_types(stacks, resources, depth) {
        Some(types) => types,
        None => {
            return Err(OperatorError::Refused(OperatorFault::at(
                OperatorRule::UnknownLabel,
                depth,
            )));
        }
    };
    let last = match last_type(types) {
        Some(last) => last,
        None => {
            return Err(OperatorError::Refused(OperatorFault::at(OperatorRule::LabelTypes, depth)));
        }
    };
    if !resources.is_subtype(ValType::Ref(sent), last.ty()) {
        return Err(OperatorError::Refused(OperatorFault::at(OperatorRule::LabelTypes, depth)));
    }
    exchange_top(
        stacks,
        resources,
        front_types(types),
        TypeWord::reference(takes),
        descriptor,
        TypeWord::reference(gives),
    )
}
