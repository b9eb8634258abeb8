//! New arrays.

ghost use Rattle.wasm_operators_plain.specs.declared.arrays.ArrayOperator.TheVariants.{ArrayNew, ArrayNewDefault, ArrayNewFixed, ArrayNewData, ArrayNewElem};
ghost use Rattle.wasm_typing_checks.specs.WasmSpecSteps.Shapes.{array_shape};
ghost use Rattle.wasm_typing_checks.specs.WasmTypingStacks.BodyStacks.{Kept};
ghost use Rattle.wasm_typing_checks.specs.Steps.{Performs};

use crate::reached::reach_elements;
use crate::segments::{check_data, check_elements, is_number};
use crate::taken::exchange_repeated;
use std::alloc::Allocator;
use wasm_operators_plain::NumberType;
use wasm_typing_checks::typing_stacks::{Stacks, TypeWord};
use wasm_typing_checks::validator_resources::WasmModuleResources;
use wasm_typing_checks::{
    OperatorError, OperatorFault, OperatorRule, Takes, ValTypes, has_default, new_reference, plain,
    unpack,
};

/// `array.new`: takes an element, and a length on top, and gives a new array (Core Specification
/// 3.0, Validation, Aggregate Instructions).
#[tactic(auto, using(wasm_typing_checks::proofs::ActionSteps::acts, crate::proofs::Elements::elements))]
pub fn array_new<A: Allocator, T: WasmModuleResources>(
    stacks: &mut Stacks<A>,
    resources: &T,
    array_type_index: u32,
) -> Result<(), OperatorError>
    ensures took { Performs result (T.context resources.now)
        (array_shape (ArrayNew array_type_index)) stacks.old stacks.new }
    ensures same { Kept stacks.old stacks.new }
{
    let array = match reach_elements(stacks, resources, array_type_index) {
        Ok(array) => array,
        Err(fault) => return Err(OperatorError::Refused(fault)),
    };
    let element = TypeWord::new(unpack(array.ty.element_type));
    let given = new_reference(stacks, array.identity);
    plain(
        stacks,
        resources,
        Takes::Two(element, TypeWord::number(NumberType::I32)),
        ValTypes::One(given),
    )
}

/// `array.new_default`: takes a length, and gives a new array of a type whose elements have a
/// default (Core Specification 3.0, Validation, Aggregate Instructions).
#[tactic(auto, using(wasm_typing_checks::proofs::ActionSteps::acts, crate::proofs::Elements::elements))]
pub fn array_new_default<A: Allocator, T: WasmModuleResources>(
    stacks: &mut Stacks<A>,
    resources: &T,
    array_type_index: u32,
) -> Result<(), OperatorError>
    ensures took { Performs result (T.context resources.now)
        (array_shape (ArrayNewDefault array_type_index)) stacks.old stacks.new }
    ensures same { Kept stacks.old stacks.new }
{
    let array = match reach_elements(stacks, resources, array_type_index) {
        Ok(array) => array,
        Err(fault) => return Err(OperatorError::Refused(fault)),
    };
    if !has_default(unpack(array.ty.element_type)) {
        return Err(OperatorError::Refused(OperatorFault::at(
            OperatorRule::NoDefault,
            array_type_index,
        )));
    }
    let given = new_reference(stacks, array.identity);
    plain(
        stacks,
        resources,
        Takes::One(TypeWord::number(NumberType::I32)),
        ValTypes::One(given),
    )
}

/// `array.new_fixed`: takes as many elements as it says, and gives a new array of them (Core
/// Specification 3.0, Validation, Aggregate Instructions).
#[tactic(auto, using(wasm_typing_checks::proofs::ActionSteps::acts, crate::proofs::Elements::elements))]
pub fn array_new_fixed<A: Allocator, T: WasmModuleResources>(
    stacks: &mut Stacks<A>,
    resources: &T,
    array_type_index: u32,
    array_size: u32,
) -> Result<(), OperatorError>
    ensures took { Performs result (T.context resources.now)
        (array_shape (ArrayNewFixed array_type_index array_size)) stacks.old stacks.new }
    ensures same { Kept stacks.old stacks.new }
{
    let array = match reach_elements(stacks, resources, array_type_index) {
        Ok(array) => array,
        Err(fault) => return Err(OperatorError::Refused(fault)),
    };
    let element = TypeWord::new(unpack(array.ty.element_type));
    let given = new_reference(stacks, array.identity);
    exchange_repeated(stacks, resources, array_size, element, given)
}

/// `array.new_data`: takes an index in a data segment, and a length on top, and gives a new array
/// of numbers or vectors (Core Specification 3.0, Validation, Aggregate Instructions).
#[tactic(auto, using(wasm_typing_checks::proofs::ActionSteps::acts, crate::proofs::Elements::elements))]
pub fn array_new_data<A: Allocator, T: WasmModuleResources>(
    stacks: &mut Stacks<A>,
    resources: &T,
    array_type_index: u32,
    array_data_index: u32,
) -> Result<(), OperatorError>
    ensures took { Performs result (T.context resources.now)
        (array_shape (ArrayNewData array_type_index array_data_index)) stacks.old stacks.new }
    ensures same { Kept stacks.old stacks.new }
{
    let array = match reach_elements(stacks, resources, array_type_index) {
        Ok(array) => array,
        Err(fault) => return Err(OperatorError::Refused(fault)),
    };
    if !is_number(unpack(array.ty.element_type)) {
        return Err(OperatorError::Refused(OperatorFault::at(
            OperatorRule::NotNumeric,
            array_type_index,
        )));
    }
    let number = TypeWord::number(NumberType::I32);
    let given = new_reference(stacks, array.identity);
    match check_data(resources, array_data_index) {
        Ok(()) => plain(
            stacks,
            resources,
            Takes::Two(number, number),
            ValTypes::One(given),
        ),
        Err(fault) => Err(OperatorError::Refused(fault)),
    }
}

/// `array.new_elem`: takes an index in an element segment, and a length on top, and gives a new
/// array of references (Core Specification 3.0, Validation, Aggregate Instructions).
#[tactic(auto, using(wasm_typing_checks::proofs::ActionSteps::acts, crate::proofs::Elements::elements))]
pub fn array_new_elem<A: Allocator, T: WasmModuleResources>(
    stacks: &mut Stacks<A>,
    resources: &T,
    array_type_index: u32,
    array_elem_index: u32,
) -> Result<(), OperatorError>
    ensures took { Performs result (T.context resources.now)
        (array_shape (ArrayNewElem array_type_index array_elem_index)) stacks.old stacks.new }
    ensures same { Kept stacks.old stacks.new }
{
    let array = match reach_elements(stacks, resources, array_type_index) {
        Ok(array) => array,
        Err(fault) => return Err(OperatorError::Refused(fault)),
    };
    let number = TypeWord::number(NumberType::I32);
    let given = new_reference(stacks, array.identity);
    match check_elements(resources, array_elem_index, unpack(array.ty.element_type)) {
        Ok(()) => plain(
            stacks,
            resources,
            Takes::Two(number, number),
            ValTypes::One(given),
        ),
        Err(fault) => Err(OperatorError::Refused(fault)),
    }
}
