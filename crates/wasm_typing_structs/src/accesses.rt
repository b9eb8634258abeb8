//! Fields that are read and written.

ghost use Rattle.wasm_operators_plain.specs.declared.structs.StructOperator.TheVariants.{StructGet, StructGetS, StructGetU, StructSet};
ghost use Rattle.wasm_typing_checks.specs.WasmSpecSteps.Shapes.{getting, struct_shape};
ghost use Rattle.wasm_typing_checks.specs.WasmTypingStacks.BodyStacks.{Kept};
ghost use Rattle.wasm_typing_checks.specs.Steps.{Performs};

use crate::reached::reach_member;
use std::alloc::Allocator;
use wasm_typing_checks::typing_stacks::{Stacks, TypeWord};
use wasm_typing_checks::validator_resources::WasmModuleResources;
use wasm_typing_checks::{
    OperatorError, OperatorFault, OperatorRule, Takes, ValTypes, is_packed, nullable, plain,
    same_flag, unpack,
};

/// The rule that a field is packed, or that it isn't.
fn packed_rule(packed: bool) -> OperatorRule {
    if packed {
        OperatorRule::FieldNotPacked
    } else {
        OperatorRule::FieldPacked
    }
}

/// Reads a field that is packed, or one that isn't.
#[tactic(auto, using(wasm_typing_checks::proofs::ActionSteps::acts, crate::proofs::Structures::structures))]
fn get<A: Allocator, T: WasmModuleResources>(
    stacks: &mut Stacks<A>,
    resources: &T,
    packed: bool,
    struct_type_index: u32,
    field_index: u32,
) -> Result<(), OperatorError>
    ensures took { Performs result (T.context resources.now)
        (getting packed struct_type_index field_index) stacks.old stacks.new }
    ensures same { Kept stacks.old stacks.new }
{
    let field = reach_member(stacks, resources, struct_type_index, field_index)?;
    if !same_flag(packed, is_packed(field.ty.element_type)) {
        return Err(OperatorError::Refused(OperatorFault::at(packed_rule(packed), field_index)));
    }
    plain(
        stacks,
        resources,
        Takes::One(nullable(field.identity)),
        ValTypes::One(TypeWord::new(unpack(field.ty.element_type))),
    )
}

/// `struct.get`.
pub fn struct_get<A: Allocator, T: WasmModuleResources>(
    stacks: &mut Stacks<A>,
    resources: &T,
    struct_type_index: u32,
    field_index: u32,
) -> Result<(), OperatorError>
    ensures took { Performs result (T.context resources.now)
        (struct_shape (StructGet struct_type_index field_index)) stacks.old stacks.new }
    ensures same { Kept stacks.old stacks.new }
{
    get(stacks, resources, false, struct_type_index, field_index)
}

/// `struct.get_s`.
pub fn struct_get_s<A: Allocator, T: WasmModuleResources>(
    stacks: &mut Stacks<A>,
    resources: &T,
    struct_type_index: u32,
    field_index: u32,
) -> Result<(), OperatorError>
    ensures took { Performs result (T.context resources.now)
        (struct_shape (StructGetS struct_type_index field_index)) stacks.old stacks.new }
    ensures same { Kept stacks.old stacks.new }
{
    get(stacks, resources, true, struct_type_index, field_index)
}

/// `struct.get_u`.
pub fn struct_get_u<A: Allocator, T: WasmModuleResources>(
    stacks: &mut Stacks<A>,
    resources: &T,
    struct_type_index: u32,
    field_index: u32,
) -> Result<(), OperatorError>
    ensures took { Performs result (T.context resources.now)
        (struct_shape (StructGetU struct_type_index field_index)) stacks.old stacks.new }
    ensures same { Kept stacks.old stacks.new }
{
    get(stacks, resources, true, struct_type_index, field_index)
}

/// `struct.set`.
#[tactic(auto, using(wasm_typing_checks::proofs::ActionSteps::acts, crate::proofs::Structures::structures))]
pub fn struct_set<A: Allocator, T: WasmModuleResources>(
    stacks: &mut Stacks<A>,
    resources: &T,
    struct_type_index: u32,
    field_index: u32,
) -> Result<(), OperatorError>
    ensures took { Performs result (T.context resources.now)
        (struct_shape (StructSet struct_type_index field_index)) stacks.old stacks.new }
    ensures same { Kept stacks.old stacks.new }
{
    let field = reach_member(stacks, resources, struct_type_index, field_index)?;
    if field.ty.mutable {
        plain(
            stacks,
            resources,
            Takes::Two(
                nullable(field.identity),
                TypeWord::new(unpack(field.ty.element_type)),
            ),
            ValTypes::None,
        )
    } else {
        Err(OperatorError::Refused(OperatorFault::at(OperatorRule::ImmutableField, field_index)))
    }
}
