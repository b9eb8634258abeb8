//! New structures.

ghost use Rattle.wasm_operators_plain.specs.declared.structs.StructOperator.TheVariants.{StructNew, StructNewDefault, StructNewDesc, StructNewDefaultDesc};
ghost use Rattle.wasm_typing_checks.specs.WasmSpecSteps.Shapes.{struct_shape};
ghost use Rattle.wasm_typing_checks.specs.WasmTypingStacks.BodyStacks.{Kept};
ghost use Rattle.wasm_typing_checks.specs.Steps.{Performs};

use crate::fields::{exchange_fields, have_defaults};
use crate::reached::{Proposal, reach_structure};
use std::alloc::Allocator;
use wasm_typing_checks::typing_stacks::Stacks;
use wasm_typing_checks::validator_resources::WasmModuleResources;
use wasm_typing_checks::{
    OperatorError, OperatorFault, OperatorRule, Takes, ValTypes, check_type, exact_or_null,
    new_reference, plain,
};

/// `struct.new`.
#[tactic(auto, using(wasm_typing_checks::proofs::ActionSteps::acts, crate::proofs::Structures::structures))]
pub fn struct_new<A: Allocator, T: WasmModuleResources>(
    stacks: &mut Stacks<A>,
    resources: &T,
    struct_type_index: u32,
) -> Result<(), OperatorError>
    ensures took { Performs result (T.context resources.now)
        (struct_shape (StructNew struct_type_index)) stacks.old stacks.new }
    ensures same { Kept stacks.old stacks.new }
{
    let ty = reach_structure(stacks, resources, Proposal::Gc, struct_type_index)?;
    if ty.descriptor.is_some() {
        return Err(OperatorError::Refused(OperatorFault::at(
            OperatorRule::NewWithoutDescriptor,
            struct_type_index,
        )));
    }
    let given = new_reference(stacks, ty.identity);
    exchange_fields(stacks, resources, 0, ty.fields, given)
}

/// `struct.new_default`.
#[tactic(auto, using(wasm_typing_checks::proofs::ActionSteps::acts, crate::proofs::Structures::structures))]
pub fn struct_new_default<A: Allocator, T: WasmModuleResources>(
    stacks: &mut Stacks<A>,
    resources: &T,
    struct_type_index: u32,
) -> Result<(), OperatorError>
    ensures took { Performs result (T.context resources.now)
        (struct_shape (StructNewDefault struct_type_index)) stacks.old stacks.new }
    ensures same { Kept stacks.old stacks.new }
{
    let ty = reach_structure(stacks, resources, Proposal::Gc, struct_type_index)?;
    if ty.descriptor.is_some() {
        return Err(OperatorError::Refused(OperatorFault::at(
            OperatorRule::NewDefaultWithoutDescriptor,
            struct_type_index,
        )));
    }
    if !have_defaults(ty.fields) {
        return Err(OperatorError::Refused(OperatorFault::at(
            OperatorRule::NoDefault,
            struct_type_index,
        )));
    }
    let given = new_reference(stacks, ty.identity);
    plain(stacks, resources, Takes::None, ValTypes::One(given))
}

/// `struct.new_desc`.
#[tactic(auto, using(wasm_typing_checks::proofs::ActionSteps::acts, crate::proofs::Structures::structures))]
pub fn struct_new_desc<A: Allocator, T: WasmModuleResources>(
    stacks: &mut Stacks<A>,
    resources: &T,
    struct_type_index: u32,
) -> Result<(), OperatorError>
    ensures took { Performs result (T.context resources.now)
        (struct_shape (StructNewDesc struct_type_index)) stacks.old stacks.new }
    ensures same { Kept stacks.old stacks.new }
{
    let described = match reach_structure(
        stacks,
        resources,
        Proposal::CustomDescriptors,
        struct_type_index,
    ) {
        Ok(described) => described,
        Err(fault) => return Err(OperatorError::Refused(fault)),
    };
    let descriptor = match described.descriptor {
        Some(descriptor) => descriptor,
        None => return Err(OperatorError::Refused(OperatorFault::at(
            OperatorRule::NewDescOfUndescribed,
            struct_type_index,
        ))),
    };
    let given = new_reference(stacks, described.identity);
    match check_type(stacks, resources, 0, exact_or_null(descriptor)) {
        Ok(taken) => exchange_fields(stacks, resources, taken, described.fields, given),
        Err(fault) => Err(OperatorError::Refused(fault)),
    }
}

/// `struct.new_default_desc`.
#[tactic(auto, using(wasm_typing_checks::proofs::ActionSteps::acts, crate::proofs::Structures::structures))]
pub fn struct_new_default_desc<A: Allocator, T: WasmModuleResources>(
    stacks: &mut Stacks<A>,
    resources: &T,
    struct_type_index: u32,
) -> Result<(), OperatorError>
    ensures took { Performs result (T.context resources.now)
        (struct_shape (StructNewDefaultDesc struct_type_index)) stacks.old stacks.new }
    ensures same { Kept stacks.old stacks.new }
{
    let described = reach_structure(
        stacks,
        resources,
        Proposal::CustomDescriptors,
        struct_type_index,
    )?;
    let descriptor = match described.descriptor {
        Some(descriptor) => descriptor,
        None => return Err(OperatorError::Refused(OperatorFault::at(
            OperatorRule::NewDefaultDescOfUndescribed,
            struct_type_index,
        ))),
    };
    if !have_defaults(described.fields) {
        return Err(OperatorError::Refused(OperatorFault::at(
            OperatorRule::NoDefault,
            struct_type_index,
        )));
    }
    let given = new_reference(stacks, described.identity);
    plain(
        stacks,
        resources,
        Takes::One(exact_or_null(descriptor)),
        ValTypes::One(given),
    )
}
