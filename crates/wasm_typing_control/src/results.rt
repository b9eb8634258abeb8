//! What a call gives, as types, and in the place of what the body gives.

ghost use Rattle.std.specs.Prelude.{◌≡◌, map};
ghost use Rattle.wasm_readers_types.specs.WasmReadersValues.SeenValues.{val_of};
ghost use Rattle.wasm_typing_numbers.specs.WasmSpecSteps.Actions.{returned};
ghost use Rattle.wasm_typing_numbers.specs.WasmTypingChecks.WasmValidatorResources.WasmSpecRules.Attempts.{passes};
ghost use Rattle.wasm_typing_numbers.specs.WasmSpecSteps.Matching.{matches_vals};
ghost use Rattle.wasm_typing_numbers.specs.WasmTypingChecks.WasmValidatorResources.Answers.{world};
ghost use Rattle.wasm_typing_numbers.specs.WasmTypingChecks.Steps.{typed};
ghost use Rattle.wasm_typing_numbers.specs.WasmTypingChecks.SeenTypes.{types_seen};

use crate::returned_types;
use std::alloc::Allocator;
use wasm_readers_types::ValType;
use wasm_typing_numbers::typing_checks::{ValTypes, match_all};
use wasm_typing_numbers::typing_stacks::{Stacks, TypeWord};
use wasm_typing_numbers::validator_resources::WasmModuleResources;

/// A list of types. One or none of them is taken out of its list, so that no loop goes over it.
#[inline(always)]
#[tactic(auto, using(crate::proofs::ReturnLists::lists))]
pub fn val_types_of<'a>(types: &'a [ValType]) -> ValTypes<'a>
    ensures { types_seen result ≡ map val_of types.now }
{
    match types.len() {
        0 => ValTypes::None,
        1 => ValTypes::One(TypeWord::new(types[0])),
        _ => ValTypes::Many(types),
    }
}

/// Whether these types match those, place by place, and are equally many.
#[tactic(auto, using(crate::proofs::ReturnLists::matchings))]
pub fn match_types<'a, T: WasmModuleResources>(
    resources: &T,
    types: &[ValType],
    others: ValTypes<'a>,
) -> bool
    ensures { result ≡ matches_vals (world (T.context resources.now)) (map val_of types.now)
        (types_seen others.entry) }
{
    match others {
        ValTypes::None => {
            if types.len() != 0 {
                return false;
            }
            true
        }
        ValTypes::One(other) => {
            if types.len() != 1 {
                return false;
            }
            resources.is_subtype(types[0], other.ty())
        }
        ValTypes::Many(others) => match_all(resources, types, others),
    }
}

/// Whether these types match what the body gives.
#[tactic(auto, using(crate::proofs::ReturnLists::returns))]
pub fn returns<A: Allocator, T: WasmModuleResources>(
    stacks: &Stacks<A>,
    resources: &T,
    types: &[ValType],
) -> bool
    ensures { result ≡ passes (matches_vals (world (T.context resources.now))
        (map val_of types.now)) (typed stacks.now (T.context resources.now) returned) }
{
    match returned_types(stacks, resources) {
        Some(returned) => match_types(resources, types, returned),
        None => false,
    }
}
