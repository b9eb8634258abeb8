//! Steps of casts and conversions.

ghost use Rattle.wasm_typing_references.specs.WasmOperators.Maps.{map_cast};
ghost use Rattle.wasm_typing_references.specs.WasmOperators.SeenReferences.{cast_of};
ghost use Rattle.wasm_typing_references.specs.WasmTypingChecks.WasmSpecSteps.Shapes.{cast_shape, conversion_shape};
ghost use Rattle.wasm_typing_references.specs.WasmTypingChecks.WasmValidatorResources.Answers.{written_index};
ghost use Rattle.wasm_typing_references.specs.WasmTypingChecks.WasmTypingStacks.BodyStacks.{Kept};
ghost use Rattle.wasm_typing_references.specs.WasmTypingChecks.Steps.{Performs};
ghost use Rattle.wasm_typing_casts.specs.WrittenCasts.{IsWrittenCast};

use crate::branches::{br_on_cast, br_on_cast_fail};
use crate::casts::{ref_cast, ref_test};
use crate::conversions::{
    any_convert_extern, extern_convert_any, i31_get, ref_i31, ref_i31_shared,
};
use crate::descriptors::{
    br_on_cast_desc_eq, br_on_cast_desc_eq_fail, ref_cast_desc_eq, ref_get_desc,
};
use std::alloc::Allocator;
use wasm_typing_references::operators::{CastOperator, ConversionOperator};
use wasm_typing_references::typing_checks::OperatorError;
use wasm_typing_references::typing_stacks::Stacks;
use wasm_typing_references::validator_resources::WasmModuleResources;

/// A test or cast of a reference (Core Specification 3.0, Validation, Instructions, Reference
/// Instructions), or a branch on a cast, as it is written in a module.
///
/// # Errors
///
/// Refuses what the operator's rule refuses, and then all stays. Where memory is refused all stays
/// too.
pub fn step_cast<A: Allocator, T: WasmModuleResources>(
    stacks: &mut Stacks<A>,
    resources: &T,
    op: CastOperator,
) -> Result<(), OperatorError>
    requires { IsWrittenCast (cast_of op) }
    ensures took { Performs result (T.context resources.now)
        (cast_shape (map_cast written_index (cast_of op))) stacks.old stacks.new }
    ensures same { Kept stacks.old stacks.new }
{
    match op {
        CastOperator::RefTestNonNull { hty } => ref_test(stacks, resources, false, hty),
        CastOperator::RefTestNullable { hty } => ref_test(stacks, resources, true, hty),
        CastOperator::RefCastNonNull { hty } => ref_cast(stacks, resources, false, hty),
        CastOperator::RefCastNullable { hty } => ref_cast(stacks, resources, true, hty),
        CastOperator::RefGetDesc { type_index } => ref_get_desc(stacks, resources, type_index),
        CastOperator::RefCastDescEqNonNull { hty } => {
            ref_cast_desc_eq(stacks, resources, false, hty)
        }
        CastOperator::RefCastDescEqNullable { hty } => {
            ref_cast_desc_eq(stacks, resources, true, hty)
        }
        CastOperator::BrOnCast {
            relative_depth,
            from_ref_type,
            to_ref_type,
        } => br_on_cast(
            stacks,
            resources,
            relative_depth,
            from_ref_type,
            to_ref_type,
        ),
        CastOperator::BrOnCastFail {
            relative_depth,
            from_ref_type,
            to_ref_type,
        } => br_on_cast_fail(
            stacks,
            resources,
            relative_depth,
            from_ref_type,
            to_ref_type,
        ),
        CastOperator::BrOnCastDescEq {
            relative_depth,
            from_ref_type,
            to_ref_type,
        } => br_on_cast_desc_eq(
            stacks,
            resources,
            relative_depth,
            from_ref_type,
            to_ref_type,
        ),
        CastOperator::BrOnCastDescEqFail {
            relative_depth,
            from_ref_type,
            to_ref_type,
        } => br_on_cast_desc_eq_fail(
            stacks,
            resources,
            relative_depth,
            from_ref_type,
            to_ref_type,
        ),
    }
}

/// A conversion of a reference, or an operator on unboxed integers (Core Specification 3.0,
/// Validation, Instructions, Reference Instructions).
///
/// # Errors
///
/// Refuses what the operator's rule refuses, and then all stays. Where memory is refused all stays
/// too.
pub fn step_conversion<A: Allocator, T: WasmModuleResources>(
    stacks: &mut Stacks<A>,
    resources: &T,
    op: ConversionOperator,
) -> Result<(), OperatorError>
    ensures took { Performs result (T.context resources.now) (conversion_shape op)
        stacks.old stacks.new }
    ensures same { Kept stacks.old stacks.new }
{
    match op {
        ConversionOperator::AnyConvertExtern => any_convert_extern(stacks, resources),
        ConversionOperator::ExternConvertAny => extern_convert_any(stacks, resources),
        ConversionOperator::RefI31 => ref_i31(stacks, resources),
        ConversionOperator::I31GetS => i31_get(stacks, resources),
        ConversionOperator::I31GetU => i31_get(stacks, resources),
        ConversionOperator::RefI31Shared => ref_i31_shared(stacks, resources),
    }
}
