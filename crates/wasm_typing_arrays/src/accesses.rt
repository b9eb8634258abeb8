//! Places of arrays that are read and written.

ghost use Rattle.wasm_operators_plain.specs.declared.arrays.ArrayOperator.TheVariants.{ArrayGet, ArrayGetS, ArrayGetU, ArraySet};
ghost use Rattle.wasm_typing_checks.specs.WasmSpecSteps.Shapes.{array_shape, item};
ghost use Rattle.wasm_typing_checks.specs.WasmTypingStacks.BodyStacks.{Kept};
ghost use Rattle.wasm_typing_checks.specs.Steps.{Performs};

use crate::reached::{reach_elements, reach_mutable};
use std::alloc::Allocator;
use wasm_operators_plain::NumberType;
use wasm_typing_checks::typing_stacks::{Stacks, TypeWord};
use wasm_typing_checks::validator_resources::WasmModuleResources;
use wasm_typing_checks::{
    OperatorError, OperatorFault, OperatorRule, Takes, ValTypes, is_packed, nullable, plain,
    same_flag, unpack,
};

/// The rule that what an array holds is packed, or that it isn't.
fn packed_rule(packed: bool) -> OperatorRule {
    if packed {
        OperatorRule::ArrayNotPacked
    } else {
        OperatorRule::ArrayPacked
    }
}

/// Reads a place that is packed, or one that isn't.
#[tactic(auto, using(wasm_typing_checks::proofs::ActionSteps::acts, crate::proofs::Elements::elements))]
fn get<A: Allocator, T: WasmModuleResources>(
    stacks: &mut Stacks<A>,
    resources: &T,
    packed: bool,
    array_type_index: u32,
) -> Result<(), OperatorError>
    ensures took { Performs result (T.context resources.now)
        (item packed array_type_index) stacks.old stacks.new }
    ensures same { Kept stacks.old stacks.new }
{
    let array = match reach_elements(stacks, resources, array_type_index) {
        Ok(array) => array,
        Err(fault) => return Err(OperatorError::Refused(fault)),
    };
    if !same_flag(packed, is_packed(array.ty.element_type)) {
        return Err(OperatorError::Refused(OperatorFault::at(
            packed_rule(packed),
            array_type_index,
        )));
    }
    plain(
        stacks,
        resources,
        Takes::Two(nullable(array.identity), TypeWord::number(NumberType::I32)),
        ValTypes::One(TypeWord::new(unpack(array.ty.element_type))),
    )
}

/// `array.get`: takes an array and an index, and gives an element, which isn't packed (Core
/// Specification 3.0, Validation, Aggregate Instructions).
pub fn array_get<A: Allocator, T: WasmModuleResources>(
    stacks: &mut Stacks<A>,
    resources: &T,
    array_type_index: u32,
) -> Result<(), OperatorError>
    ensures took { Performs result (T.context resources.now)
        (array_shape (ArrayGet array_type_index)) stacks.old stacks.new }
    ensures same { Kept stacks.old stacks.new }
{
    get(stacks, resources, false, array_type_index)
}

/// `array.get_s`: takes an array and an index, and gives a packed element, with a sign (Core
/// Specification 3.0, Validation, Aggregate Instructions).
pub fn array_get_s<A: Allocator, T: WasmModuleResources>(
    stacks: &mut Stacks<A>,
    resources: &T,
    array_type_index: u32,
) -> Result<(), OperatorError>
    ensures took { Performs result (T.context resources.now)
        (array_shape (ArrayGetS array_type_index)) stacks.old stacks.new }
    ensures same { Kept stacks.old stacks.new }
{
    get(stacks, resources, true, array_type_index)
}

/// `array.get_u`: takes an array and an index, and gives a packed element, without a sign (Core
/// Specification 3.0, Validation, Aggregate Instructions).
pub fn array_get_u<A: Allocator, T: WasmModuleResources>(
    stacks: &mut Stacks<A>,
    resources: &T,
    array_type_index: u32,
) -> Result<(), OperatorError>
    ensures took { Performs result (T.context resources.now)
        (array_shape (ArrayGetU array_type_index)) stacks.old stacks.new }
    ensures same { Kept stacks.old stacks.new }
{
    get(stacks, resources, true, array_type_index)
}

/// `array.set`: takes an array that can be written, an index, and an element on top (Core
/// Specification 3.0, Validation, Aggregate Instructions).
#[tactic(auto, using(wasm_typing_checks::proofs::ActionSteps::acts, crate::proofs::Elements::elements))]
pub fn array_set<A: Allocator, T: WasmModuleResources>(
    stacks: &mut Stacks<A>,
    resources: &T,
    array_type_index: u32,
) -> Result<(), OperatorError>
    ensures took { Performs result (T.context resources.now)
        (array_shape (ArraySet array_type_index)) stacks.old stacks.new }
    ensures same { Kept stacks.old stacks.new }
{
    let array = match reach_mutable(stacks, resources, array_type_index) {
        Ok(array) => array,
        Err(fault) => return Err(OperatorError::Refused(fault)),
    };
    plain(
        stacks,
        resources,
        Takes::Three(
            nullable(array.identity),
            TypeWord::number(NumberType::I32),
            TypeWord::new(unpack(array.ty.element_type)),
        ),
        ValTypes::None,
    )
}
