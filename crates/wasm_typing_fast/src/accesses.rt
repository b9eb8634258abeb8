//! Loads and stores in a memory of 32-bit addresses.

ghost use Rattle.std.specs.Prelude.{◌≡◌, ◌&&◌, ◌||◌, ◌^◌, nat_le, nat_lt, true};
ghost use Rattle.wasm_operators_plain.specs.Memories.{max_align_of};
ghost use Rattle.wasm_typing_control.specs.WasmTypingChecks.WasmSpecSteps.Shapes.{access_shape, loading, storing, number_type};
ghost use Rattle.wasm_typing_control.specs.WasmTypingChecks.WasmTypingStacks.BodyStacks.{Kept};
ghost use Rattle.wasm_typing_control.specs.FastSteps.{Performs};

use std::alloc::Allocator;
use wasm_operators_plain::{MemArg, MemoryOperator, NumberType, max_align};
use wasm_readers_types::MemoryType;
use wasm_typing_control::typing_checks::address;
use wasm_typing_control::typing_numbers::allows_number;
use wasm_typing_control::typing_stacks::{Stacks, TypeWord};
use wasm_typing_control::validator_resources::WasmModuleResources;
use wasm_typing_control::{NotTaken, exchange_known, take_two_known};

/// Whether a memory has 32-bit addresses and may be accessed so.
#[inline(always)]
fn fits(memory: MemoryType, op: MemoryOperator, arg: MemArg) -> bool
    ensures { result ≡ true → (nat_le arg.align (max_align_of op)
        && (memory.memory64 || nat_lt arg.offset (2 ^ 32))) ≡ true }
{
    !memory.memory64 && arg.align <= max_align(op) && arg.offset < 4_294_967_296
}

/// A load of a number of this type.
#[inline(always)]
#[tactic(auto, using(crate::proofs::FastActions::acts, crate::proofs::Cited::memories))]
fn load<A: Allocator, T: WasmModuleResources>(
    stacks: &mut Stacks<A>,
    resources: &T,
    ty: NumberType,
    op: MemoryOperator,
    arg: MemArg,
) -> Result<(), NotTaken>
    ensures took { Performs result (T.context resources.now) (loading op arg (number_type ty))
        stacks.old stacks.new }
    ensures same { Kept stacks.old stacks.new }
{
    if !allows_number(stacks, ty) {
        return Err(NotTaken::Left);
    }
    match resources.memory_at(arg.memory) {
        Some(memory) => {
            if !fits(memory, op, arg) {
                return Err(NotTaken::Left);
            }
            exchange_known(
                stacks,
                resources,
                address(memory.memory64),
                TypeWord::number(ty),
            )
        }
        None => Err(NotTaken::Left),
    }
}

/// A store of a number of this type.
#[inline(always)]
#[tactic(auto, using(crate::proofs::FastActions::acts, crate::proofs::Cited::memories))]
fn store<A: Allocator, T: WasmModuleResources>(
    stacks: &mut Stacks<A>,
    resources: &T,
    ty: NumberType,
    op: MemoryOperator,
    arg: MemArg,
) -> Result<(), NotTaken>
    ensures took { Performs result (T.context resources.now) (storing op arg (number_type ty))
        stacks.old stacks.new }
    ensures same { Kept stacks.old stacks.new }
{
    if !allows_number(stacks, ty) {
        return Err(NotTaken::Left);
    }
    match resources.memory_at(arg.memory) {
        Some(memory) => {
            if !fits(memory, op, arg) {
                return Err(NotTaken::Left);
            }
            take_two_known(
                stacks,
                resources,
                address(memory.memory64),
                TypeWord::number(ty),
            )
        }
        None => Err(NotTaken::Left),
    }
}

/// A load or a store.
#[inline(always)]
pub fn access<A: Allocator, T: WasmModuleResources>(
    stacks: &mut Stacks<A>,
    resources: &T,
    op: MemoryOperator,
    arg: MemArg,
) -> Result<(), NotTaken>
    ensures took { Performs result (T.context resources.now) (access_shape op arg)
        stacks.old stacks.new }
    ensures same { Kept stacks.old stacks.new }
{
    match op {
        MemoryOperator::I32Load
        | MemoryOperator::I32Load8S
        | MemoryOperator::I32Load8U
        | MemoryOperator::I32Load16S
        | MemoryOperator::I32Load16U => load(stacks, resources, NumberType::I32, op, arg),
        MemoryOperator::I64Load
        | MemoryOperator::I64Load8S
        | MemoryOperator::I64Load8U
        | MemoryOperator::I64Load16S
        | MemoryOperator::I64Load16U
        | MemoryOperator::I64Load32S
        | MemoryOperator::I64Load32U => load(stacks, resources, NumberType::I64, op, arg),
        MemoryOperator::F32Load => load(stacks, resources, NumberType::F32, op, arg),
        MemoryOperator::F64Load => load(stacks, resources, NumberType::F64, op, arg),
        MemoryOperator::I32Store | MemoryOperator::I32Store8 | MemoryOperator::I32Store16 => {
            store(stacks, resources, NumberType::I32, op, arg)
        }
        MemoryOperator::I64Store
        | MemoryOperator::I64Store8
        | MemoryOperator::I64Store16
        | MemoryOperator::I64Store32 => store(stacks, resources, NumberType::I64, op, arg),
        MemoryOperator::F32Store => store(stacks, resources, NumberType::F32, op, arg),
        MemoryOperator::F64Store => store(stacks, resources, NumberType::F64, op, arg),
    }
}
