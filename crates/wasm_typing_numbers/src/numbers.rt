//! Constants and numeric operators.

ghost use Rattle.std.specs.Prelude.{◌∷◌, []};
ghost use Rattle.wasm_readers_errors.specs.WasmSpec.Syntax.{v128};
ghost use Rattle.wasm_operators.specs.WasmOperatorsPlain.declared.signatures.Signature.TheVariants.{Unary, Binary};
ghost use Rattle.wasm_typing_checks.specs.WasmSpecSteps.Actions.{allows};
ghost use Rattle.wasm_typing_checks.specs.WasmSpecSteps.Shapes.{computing, constant_shape, number_type, plain, nothing, one};
ghost use Rattle.wasm_typing_checks.specs.WasmTypingStacks.BodyStacks.{Kept};
ghost use Rattle.wasm_typing_checks.specs.Steps.{Performs};

use crate::allowed::allows_number;
use std::alloc::Allocator;
use wasm_operators::ConstantOperator;
use wasm_operators::operators_plain::{NumberType, Signature};
use wasm_readers_errors::WasmFeatures;
use wasm_readers_types::ValType;
use wasm_typing_checks::typing_stacks::{Stacks, TypeWord};
use wasm_typing_checks::validator_resources::WasmModuleResources;
use wasm_typing_checks::{OperatorError, OperatorFault, OperatorRule, Takes, ValTypes, has, plain};

/// An operator that takes a number and gives one.
#[tactic(auto, using(crate::proofs::Cited::acts, crate::proofs::Cited::types))]
fn unary<A: Allocator, T: WasmModuleResources>(
    stacks: &mut Stacks<A>,
    resources: &T,
    from: NumberType,
    to: NumberType,
) -> Result<(), OperatorError>
    ensures took { Performs result (T.context resources.now) (computing (Unary from to))
        stacks.old stacks.new }
    ensures same { Kept stacks.old stacks.new }
{
    if !allows_number(stacks, from) {
        Err(OperatorFault::new(OperatorRule::Floats))?;
    }
    if !allows_number(stacks, to) {
        Err(OperatorFault::new(OperatorRule::Floats))?;
    }
    plain(
        stacks,
        resources,
        Takes::One(TypeWord::number(from)),
        ValTypes::One(TypeWord::number(to)),
    )
}

/// An operator that takes two numbers of one type and gives one.
#[tactic(auto, using(crate::proofs::Cited::acts, crate::proofs::Cited::types))]
fn binary<A: Allocator, T: WasmModuleResources>(
    stacks: &mut Stacks<A>,
    resources: &T,
    from: NumberType,
    to: NumberType,
) -> Result<(), OperatorError>
    ensures took { Performs result (T.context resources.now) (computing (Binary from to))
        stacks.old stacks.new }
    ensures same { Kept stacks.old stacks.new }
{
    if !allows_number(stacks, from) {
        Err(OperatorFault::new(OperatorRule::Floats))?;
    }
    if !allows_number(stacks, to) {
        Err(OperatorFault::new(OperatorRule::Floats))?;
    }
    plain(
        stacks,
        resources,
        Takes::Two(TypeWord::number(from), TypeWord::number(from)),
        ValTypes::One(TypeWord::number(to)),
    )
}

/// An operator that takes and gives numbers.
pub fn compute<A: Allocator, T: WasmModuleResources>(
    stacks: &mut Stacks<A>,
    resources: &T,
    signature: Signature,
) -> Result<(), OperatorError>
    ensures took { Performs result (T.context resources.now) (computing signature)
        stacks.old stacks.new }
    ensures same { Kept stacks.old stacks.new }
{
    match signature {
        Signature::Unary(from, to) => unary(stacks, resources, from, to),
        Signature::Binary(from, to) => binary(stacks, resources, from, to),
    }
}

/// A constant of a number type.
#[tactic(auto, using(crate::proofs::Cited::acts, crate::proofs::Cited::types))]
fn number<A: Allocator, T: WasmModuleResources>(
    stacks: &mut Stacks<A>,
    resources: &T,
    ty: NumberType,
) -> Result<(), OperatorError>
    ensures took { Performs result (T.context resources.now)
        (plain (allows (number_type ty) ∷ []) nothing (one (number_type ty)))
        stacks.old stacks.new }
    ensures same { Kept stacks.old stacks.new }
{
    if !allows_number(stacks, ty) {
        Err(OperatorFault::new(OperatorRule::Floats))?;
    }
    plain(
        stacks,
        resources,
        Takes::None,
        ValTypes::One(TypeWord::number(ty)),
    )
}

/// A constant vector.
#[tactic(auto, using(crate::proofs::Cited::acts, crate::proofs::Cited::types))]
fn vector<A: Allocator, T: WasmModuleResources>(
    stacks: &mut Stacks<A>,
    resources: &T,
) -> Result<(), OperatorError>
    ensures took { Performs result (T.context resources.now)
        (plain (allows v128 ∷ []) nothing (one v128)) stacks.old stacks.new }
    ensures same { Kept stacks.old stacks.new }
{
    if !has(stacks, WasmFeatures::SIMD) {
        Err(OperatorFault::new(OperatorRule::Simd))?;
    }
    plain(
        stacks,
        resources,
        Takes::None,
        ValTypes::One(TypeWord::new(ValType::V128)),
    )
}

/// A constant.
pub fn constant<A: Allocator, T: WasmModuleResources>(
    stacks: &mut Stacks<A>,
    resources: &T,
    op: ConstantOperator,
) -> Result<(), OperatorError>
    ensures took { Performs result (T.context resources.now) (constant_shape op)
        stacks.old stacks.new }
    ensures same { Kept stacks.old stacks.new }
{
    match op {
        ConstantOperator::I32Const { .. } => number(stacks, resources, NumberType::I32),
        ConstantOperator::I64Const { .. } => number(stacks, resources, NumberType::I64),
        ConstantOperator::F32Const { .. } => number(stacks, resources, NumberType::F32),
        ConstantOperator::F64Const { .. } => number(stacks, resources, NumberType::F64),
        ConstantOperator::V128Const { .. } => vector(stacks, resources),
    }
}
