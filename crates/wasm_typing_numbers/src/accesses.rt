//! Loads and stores.

ghost use Rattle.std.specs.Prelude.{◌≡◌, ◌&&◌, ◌||◌, ◌^◌, nat_le, nat_lt};
ghost use Rattle.wasm_operators.specs.WasmOperatorsPlain.Memories.{max_align_of};
ghost use Rattle.wasm_operators.specs.WasmOperatorsPlain.declared.memories.MemArg.{MemArg};
ghost use Rattle.wasm_typing_checks.specs.WasmSpecSteps.Shapes.{access_shape, loading, storing, number_type};
ghost use Rattle.wasm_typing_checks.specs.WasmTypingStacks.BodyStacks.{Kept};
ghost use Rattle.wasm_typing_checks.specs.Steps.{Performs};
ghost use Rattle.wasm_typing_numbers.specs.Accesses.{accessing};

use crate::allowed::allows_number;
use std::alloc::Allocator;
use wasm_operators::operators_plain::{NumberType, max_align};
use wasm_operators::{MemArg, MemoryOperator};
use wasm_readers_types::MemoryType;
use wasm_typing_checks::typing_stacks::{Stacks, TypeWord};
use wasm_typing_checks::validator_resources::WasmModuleResources;
use wasm_typing_checks::{
    OperatorError, OperatorFault, OperatorRule, Takes, ValTypes, address, plain,
};

/// Whether it is a load or a store, and of what.
#[derive(Clone, Copy)]
pub enum Access {
    Load(NumberType),
    Store(NumberType),
}

/// What a load gives, or a store takes.
fn access_of(op: MemoryOperator) -> Access
    ensures { (m : MemArg) → access_shape op m ≡ accessing result op m }
{
    match op {
        MemoryOperator::I32Load
        | MemoryOperator::I32Load8S
        | MemoryOperator::I32Load8U
        | MemoryOperator::I32Load16S
        | MemoryOperator::I32Load16U => Access::Load(NumberType::I32),
        MemoryOperator::I64Load
        | MemoryOperator::I64Load8S
        | MemoryOperator::I64Load8U
        | MemoryOperator::I64Load16S
        | MemoryOperator::I64Load16U
        | MemoryOperator::I64Load32S
        | MemoryOperator::I64Load32U => Access::Load(NumberType::I64),
        MemoryOperator::F32Load => Access::Load(NumberType::F32),
        MemoryOperator::F64Load => Access::Load(NumberType::F64),
        MemoryOperator::I32Store | MemoryOperator::I32Store8 | MemoryOperator::I32Store16 => {
            Access::Store(NumberType::I32)
        }
        MemoryOperator::I64Store
        | MemoryOperator::I64Store8
        | MemoryOperator::I64Store16
        | MemoryOperator::I64Store32 => Access::Store(NumberType::I64),
        MemoryOperator::F32Store => Access::Store(NumberType::F32),
        MemoryOperator::F64Store => Access::Store(NumberType::F64),
    }
}

/// Whether a memory may be accessed so.
fn fits(memory: MemoryType, op: MemoryOperator, arg: MemArg) -> bool
    ensures { result ≡ (nat_le arg.align (max_align_of op)
        && (memory.memory64 || nat_lt arg.offset (2 ^ 32))) }
{
    arg.align <= max_align(op) && (memory.memory64 || arg.offset < 4_294_967_296)
}

/// The rule that an access breaks which doesn't fit its memory: that of the alignment first.
#[inline(never)]
fn misfit(op: MemoryOperator, arg: MemArg) -> OperatorRule {
    if arg.align <= max_align(op) {
        OperatorRule::Offset
    } else {
        OperatorRule::Alignment
    }
}

/// A load of a number of this type.
#[tactic(auto, using(crate::proofs::Cited::acts, crate::proofs::Cited::memories))]
fn load<A: Allocator, T: WasmModuleResources>(
    stacks: &mut Stacks<A>,
    resources: &T,
    ty: NumberType,
    op: MemoryOperator,
    arg: MemArg,
) -> Result<(), OperatorError>
    ensures took { Performs result (T.context resources.now) (loading op arg (number_type ty))
        stacks.old stacks.new }
    ensures same { Kept stacks.old stacks.new }
{
    if !allows_number(stacks, ty) {
        return Err(OperatorError::Refused(OperatorFault::new(OperatorRule::Floats)));
    }
    match resources.memory_at(arg.memory) {
        Some(memory) => {
            if !fits(memory, op, arg) {
                return Err(OperatorError::Refused(OperatorFault::new(misfit(op, arg))));
            }
            plain(
                stacks,
                resources,
                Takes::One(address(memory.memory64)),
                ValTypes::One(TypeWord::number(ty)),
            )
        }
        None => {
            Err(OperatorError::Refused(OperatorFault::at(OperatorRule::UnknownMemory, arg.memory)))
        }
    }
}

/// A store of a number of this type.
#[tactic(auto, using(crate::proofs::Cited::acts, crate::proofs::Cited::memories))]
fn store<A: Allocator, T: WasmModuleResources>(
    stacks: &mut Stacks<A>,
    resources: &T,
    ty: NumberType,
    op: MemoryOperator,
    arg: MemArg,
) -> Result<(), OperatorError>
    ensures took { Performs result (T.context resources.now) (storing op arg (number_type ty))
        stacks.old stacks.new }
    ensures same { Kept stacks.old stacks.new }
{
    if !allows_number(stacks, ty) {
        return Err(OperatorError::Refused(OperatorFault::new(OperatorRule::Floats)));
    }
    match resources.memory_at(arg.memory) {
        Some(memory) => {
            if !fits(memory, op, arg) {
                return Err(OperatorError::Refused(OperatorFault::new(misfit(op, arg))));
            }
            plain(
                stacks,
                resources,
                Takes::Two(address(memory.memory64), TypeWord::number(ty)),
                ValTypes::None,
            )
        }
        None => {
            Err(OperatorError::Refused(OperatorFault::at(OperatorRule::UnknownMemory, arg.memory)))
        }
    }
}

/// A load or a store that is known as this.
fn access_as<A: Allocator, T: WasmModuleResources>(
    stacks: &mut Stacks<A>,
    resources: &T,
    access: Access,
    op: MemoryOperator,
    arg: MemArg,
) -> Result<(), OperatorError>
    ensures took { Performs result (T.context resources.now) (accessing access op arg)
        stacks.old stacks.new }
    ensures same { Kept stacks.old stacks.new }
{
    match access {
        Access::Load(ty) => load(stacks, resources, ty, op, arg),
        Access::Store(ty) => store(stacks, resources, ty, op, arg),
    }
}

/// A load or a store.
pub fn access_memory<A: Allocator, T: WasmModuleResources>(
    stacks: &mut Stacks<A>,
    resources: &T,
    op: MemoryOperator,
    arg: MemArg,
) -> Result<(), OperatorError>
    ensures took { Performs result (T.context resources.now) (access_shape op arg)
        stacks.old stacks.new }
    ensures same { Kept stacks.old stacks.new }
{
    access_as(stacks, resources, access_of(op), op, arg)
}
