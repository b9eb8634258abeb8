//! Many places of arrays that are written at once.

ghost use Rattle.wasm_operators_plain.specs.declared.arrays.ArrayOperator.TheVariants.{ArrayFill, ArrayCopy, ArrayInitData, ArrayInitElem};
ghost use Rattle.wasm_typing_checks.specs.WasmSpecSteps.Shapes.{array_shape};
ghost use Rattle.wasm_typing_checks.specs.WasmTypingStacks.BodyStacks.{Kept};
ghost use Rattle.wasm_typing_checks.specs.Steps.{Performs};

use crate::reached::{reach_elements, reach_mutable};
use crate::segments::{check_data, check_elements, is_number, is_storable};
use crate::taken::{take_five, take_four};
use std::alloc::Allocator;
use wasm_operators_plain::NumberType;
use wasm_typing_checks::typing_stacks::{Stacks, TypeWord};
use wasm_typing_checks::validator_resources::WasmModuleResources;
use wasm_typing_checks::{OperatorError, OperatorFault, OperatorRule, nullable, unpack};

/// `array.fill`: takes an array that can be written, an index, an element, and a number of elements
/// on top (Core Specification 3.0, Validation, Aggregate Instructions).
#[tactic(auto, using(wasm_typing_checks::proofs::ActionSteps::acts, crate::proofs::Elements::elements))]
pub fn array_fill<A: Allocator, T: WasmModuleResources>(
    stacks: &mut Stacks<A>,
    resources: &T,
    array_type_index: u32,
) -> Result<(), OperatorError>
    ensures took { Performs result (T.context resources.now)
        (array_shape (ArrayFill array_type_index)) stacks.old stacks.new }
    ensures same { Kept stacks.old stacks.new }
{
    let filled = match reach_mutable(stacks, resources, array_type_index) {
        Ok(filled) => filled,
        Err(fault) => return Err(OperatorError::Refused(fault)),
    };
    let number = TypeWord::number(NumberType::I32);
    let element = TypeWord::new(unpack(filled.ty.element_type));
    take_four(
        stacks,
        resources,
        nullable(filled.identity),
        number,
        element,
        number,
    )
}

/// `array.copy`: takes an array that can be written with an index, an array that is read with an
/// index, and a number of elements on top (Core Specification 3.0, Validation, Aggregate
/// Instructions).
#[tactic(auto, using(wasm_typing_checks::proofs::ActionSteps::acts, crate::proofs::Elements::elements))]
pub fn array_copy<A: Allocator, T: WasmModuleResources>(
    stacks: &mut Stacks<A>,
    resources: &T,
    array_type_index_dst: u32,
    array_type_index_src: u32,
) -> Result<(), OperatorError>
    ensures took { Performs result (T.context resources.now)
        (array_shape (ArrayCopy array_type_index_dst array_type_index_src)) stacks.old stacks.new }
    ensures same { Kept stacks.old stacks.new }
{
    let to = match reach_mutable(stacks, resources, array_type_index_dst) {
        Ok(to) => to,
        Err(fault) => return Err(OperatorError::Refused(fault)),
    };
    let from = match reach_elements(stacks, resources, array_type_index_src) {
        Ok(from) => from,
        Err(fault) => return Err(OperatorError::Refused(fault)),
    };
    if !is_storable(resources, from.ty.element_type, to.ty.element_type) {
        return Err(OperatorError::Refused(OperatorFault::at(
            OperatorRule::ElementTypes,
            array_type_index_src,
        )));
    }
    let number = TypeWord::number(NumberType::I32);
    take_five(
        stacks,
        resources,
        nullable(to.identity),
        number,
        nullable(from.identity),
        number,
        number,
    )
}

/// `array.init_data`: takes an array of numbers or vectors that can be written, an index, an index
/// in a data segment, and a number of elements on top (Core Specification 3.0, Validation,
/// Aggregate Instructions).
#[tactic(auto, using(wasm_typing_checks::proofs::ActionSteps::acts, crate::proofs::Elements::elements))]
pub fn array_init_data<A: Allocator, T: WasmModuleResources>(
    stacks: &mut Stacks<A>,
    resources: &T,
    array_type_index: u32,
    array_data_index: u32,
) -> Result<(), OperatorError>
    ensures took { Performs result (T.context resources.now)
        (array_shape (ArrayInitData array_type_index array_data_index)) stacks.old stacks.new }
    ensures same { Kept stacks.old stacks.new }
{
    let written = match reach_mutable(stacks, resources, array_type_index) {
        Ok(written) => written,
        Err(fault) => return Err(OperatorError::Refused(fault)),
    };
    if !is_number(unpack(written.ty.element_type)) {
        return Err(OperatorError::Refused(OperatorFault::at(
            OperatorRule::NotNumeric,
            array_type_index,
        )));
    }
    let number = TypeWord::number(NumberType::I32);
    match check_data(resources, array_data_index) {
        Ok(()) => take_four(
            stacks,
            resources,
            nullable(written.identity),
            number,
            number,
            number,
        ),
        Err(fault) => Err(OperatorError::Refused(fault)),
    }
}

/// `array.init_elem`: takes an array of references that can be written, an index, an index in an
/// element segment, and a number of elements on top (Core Specification 3.0, Validation, Aggregate
/// Instructions).
#[tactic(auto, using(wasm_typing_checks::proofs::ActionSteps::acts, crate::proofs::Elements::elements))]
pub fn array_init_elem<A: Allocator, T: WasmModuleResources>(
    stacks: &mut Stacks<A>,
    resources: &T,
    array_type_index: u32,
    array_elem_index: u32,
) -> Result<(), OperatorError>
    ensures took { Performs result (T.context resources.now)
        (array_shape (ArrayInitElem array_type_index array_elem_index)) stacks.old stacks.new }
    ensures same { Kept stacks.old stacks.new }
{
    let stored = match reach_mutable(stacks, resources, array_type_index) {
        Ok(stored) => stored,
        Err(fault) => return Err(OperatorError::Refused(fault)),
    };
    let number = TypeWord::number(NumberType::I32);
    match check_elements(resources, array_elem_index, unpack(stored.ty.element_type)) {
        Ok(()) => take_four(
            stacks,
            resources,
            nullable(stored.identity),
            number,
            number,
            number,
        ),
        Err(fault) => Err(OperatorError::Refused(fault)),
    }
}
