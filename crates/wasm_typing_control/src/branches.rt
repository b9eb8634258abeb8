//! Branches.

ghost use Rattle.wasm_typing_numbers.specs.WasmOperators.Control.{br, br_if, return_, unreachable, nop};
ghost use Rattle.wasm_typing_numbers.specs.WasmSpecSteps.Shapes.{control_shape};
ghost use Rattle.wasm_typing_numbers.specs.WasmTypingStacks.BodyStacks.{Kept};
ghost use Rattle.wasm_typing_numbers.specs.WasmTypingChecks.Steps.{Performs};

use crate::labels::{label_types, returned_types};
use std::alloc::Allocator;
use wasm_typing_numbers::operators_plain::NumberType;
use wasm_typing_numbers::typing_checks::{
    OperatorError, OperatorFault, OperatorRule, Takes, ValTypes, halt, plain, plain_with,
};
use wasm_typing_numbers::typing_stacks::{Stacks, TypeWord};
use wasm_typing_numbers::validator_resources::WasmModuleResources;

/// `nop`.
#[tactic(auto, using(crate::proofs::Cited::acts, crate::proofs::Cited::types))]
pub fn do_nothing<A: Allocator, T: WasmModuleResources>(
    stacks: &mut Stacks<A>,
    resources: &T,
) -> Result<(), OperatorError>
    ensures took { Performs result (T.context resources.now) (control_shape nop)
        stacks.old stacks.new }
    ensures same { Kept stacks.old stacks.new }
{
    plain(stacks, resources, Takes::None, ValTypes::None)
}

/// `unreachable`.
#[tactic(auto, using(crate::proofs::Cited::acts, crate::proofs::Cited::types))]
pub fn trap<A: Allocator, T: WasmModuleResources>(
    stacks: &mut Stacks<A>,
    resources: &T,
) -> Result<(), OperatorError>
    ensures took { Performs result (T.context resources.now) (control_shape unreachable)
        stacks.old stacks.new }
    ensures same { Kept stacks.old stacks.new }
{
    halt(stacks, resources, ValTypes::None)
}

/// `br`.
#[tactic(auto, using(crate::proofs::Cited::acts, crate::proofs::Cited::types))]
pub fn branch<A: Allocator, T: WasmModuleResources>(
    stacks: &mut Stacks<A>,
    resources: &T,
    depth: u32,
) -> Result<(), OperatorError>
    ensures took { Performs result (T.context resources.now) (control_shape (br depth))
        stacks.old stacks.new }
    ensures same { Kept stacks.old stacks.new }
{
    match label_types(stacks, resources, depth) {
        Some(types) => halt(stacks, resources, types),
        None => Err(OperatorError::Refused(OperatorFault::at(OperatorRule::UnknownLabel, depth))),
    }
}

/// `br_if`.
#[tactic(auto, using(crate::proofs::Cited::acts, crate::proofs::Cited::types))]
pub fn branch_if<A: Allocator, T: WasmModuleResources>(
    stacks: &mut Stacks<A>,
    resources: &T,
    depth: u32,
) -> Result<(), OperatorError>
    ensures took { Performs result (T.context resources.now) (control_shape (br_if depth))
        stacks.old stacks.new }
    ensures same { Kept stacks.old stacks.new }
{
    match label_types(stacks, resources, depth) {
        Some(types) => {
            let condition = TypeWord::number(NumberType::I32);
            plain_with(stacks, resources, types, condition, types)
        }
        None => Err(OperatorError::Refused(OperatorFault::at(OperatorRule::UnknownLabel, depth))),
    }
}

/// `return`.
#[tactic(auto, using(crate::proofs::Cited::acts, crate::proofs::Cited::types))]
pub fn give_back<A: Allocator, T: WasmModuleResources>(
    stacks: &mut Stacks<A>,
    resources: &T,
) -> Result<(), OperatorError>
    ensures took { Performs result (T.context resources.now) (control_shape return_)
        stacks.old stacks.new }
    ensures same { Kept stacks.old stacks.new }
{
    match returned_types(stacks, resources) {
        Some(types) => halt(stacks, resources, types),
        None => Err(OperatorError::Refused(OperatorFault::new(OperatorRule::Ended))),
    }
}
