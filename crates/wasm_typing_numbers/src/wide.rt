//! Operators on integers of 128 bits.

ghost use Rattle.wasm_typing_checks.specs.WasmSpecSteps.Shapes.{wide_shape};
ghost use Rattle.wasm_typing_checks.specs.WasmTypingStacks.BodyStacks.{Kept};
ghost use Rattle.wasm_typing_checks.specs.Steps.{Performs};

use std::alloc::Allocator;
use wasm_operators::{WideOperator, wide_code};
use wasm_readers_errors::WasmFeatures;
use wasm_readers_types::ValType;
use wasm_typing_checks::typing_stacks::Stacks;
use wasm_typing_checks::validator_resources::WasmModuleResources;
use wasm_typing_checks::{OperatorError, OperatorFault, OperatorRule, Takes, ValTypes, has, plain};

/// An operator on integers of 128 bits, each in two halves.
///
/// # Errors
///
/// Refused without `WIDE_ARITHMETIC`, and where an operand isn't an `i64`.
#[tactic(auto, using(crate::proofs::Cited::acts, crate::proofs::Cited::types))]
pub fn step_wide<A: Allocator, T: WasmModuleResources>(
    stacks: &mut Stacks<A>,
    resources: &T,
    op: WideOperator,
) -> Result<(), OperatorError>
    ensures took { Performs result (T.context resources.now) (wide_shape op)
        stacks.old stacks.new }
    ensures same { Kept stacks.old stacks.new }
{
    if !has(stacks, WasmFeatures::WIDE_ARITHMETIC) {
        Err(OperatorFault::at(OperatorRule::OpcodeBehind(0xfc), wide_code(op)))?;
    }
    let two = [ValType::I64, ValType::I64];
    let four = [ValType::I64, ValType::I64, ValType::I64, ValType::I64];
    match op {
        WideOperator::I64Add128 | WideOperator::I64Sub128 => plain(
            stacks,
            resources,
            Takes::Many(&four),
            ValTypes::Many(&two),
        ),
        WideOperator::I64MulWideS | WideOperator::I64MulWideU => plain(
            stacks,
            resources,
            Takes::Many(&two),
            ValTypes::Many(&two),
        ),
    }
}
