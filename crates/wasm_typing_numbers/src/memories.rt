//! Operators on memories, loads and stores aside.

ghost use Rattle.std.specs.Prelude.{◌≡◌, nat_lt};
ghost use Rattle.wasm_operators.specs.WasmOperatorsPlain.declared.memories.BulkMemoryOperator.TheVariants.{MemorySize, MemoryGrow, MemoryFill, MemoryCopy, MemoryInit, DataDrop, MemoryDiscard};
ghost use Rattle.wasm_typing_checks.specs.WasmSpecRules.Attempts.{passes};
ghost use Rattle.wasm_typing_checks.specs.WasmSpecSteps.Shapes.{memory_shape};
ghost use Rattle.wasm_typing_checks.specs.WasmTypingStacks.BodyStacks.{Kept};
ghost use Rattle.wasm_typing_checks.specs.Steps.{Performs};

use std::alloc::Allocator;
use wasm_operators::operators_plain::{BulkMemoryOperator, NumberType};
use wasm_readers_errors::WasmFeatures;
use wasm_typing_checks::typing_stacks::{Stacks, TypeWord};
use wasm_typing_checks::validator_resources::WasmModuleResources;
use wasm_typing_checks::{
    OperatorError, OperatorFault, OperatorRule, Takes, ValTypes, address, has, lesser, plain,
};

/// Whether a data segment is there, by the number that the module tells in front of its code.
fn has_data<T: WasmModuleResources>(resources: &T, data_index: u32) -> bool
    ensures { result ≡ passes (nat_lt data_index) (T.context resources.now).data_count }
{
    match resources.data_count() {
        Some(count) => data_index < count,
        None => false,
    }
}

/// What is told of a data segment that isn't there.
fn missing_data<T: WasmModuleResources>(resources: &T, data_index: u32) -> OperatorFault {
    match resources.data_count() {
        Some(_) => OperatorFault::at(OperatorRule::UnknownData, data_index),
        None => OperatorFault::new(OperatorRule::MissingDataCount),
    }
}

/// `memory.size`.
#[tactic(auto, using(crate::proofs::Cited::acts, crate::proofs::Cited::memories, crate::proofs::Cited::types))]
fn memory_size<A: Allocator, T: WasmModuleResources>(
    stacks: &mut Stacks<A>,
    resources: &T,
    mem: u32,
) -> Result<(), OperatorError>
    ensures took { Performs result (T.context resources.now) (memory_shape (MemorySize mem))
        stacks.old stacks.new }
    ensures same { Kept stacks.old stacks.new }
{
    match resources.memory_at(mem) {
        Some(memory) => plain(
            stacks,
            resources,
            Takes::None,
            ValTypes::One(address(memory.memory64)),
        ),
        None => Err(OperatorError::Refused(OperatorFault::at(OperatorRule::UnknownMemory, mem))),
    }
}

/// `memory.grow`.
#[tactic(auto, using(crate::proofs::Cited::acts, crate::proofs::Cited::memories, crate::proofs::Cited::types))]
fn memory_grow<A: Allocator, T: WasmModuleResources>(
    stacks: &mut Stacks<A>,
    resources: &T,
    mem: u32,
) -> Result<(), OperatorError>
    ensures took { Performs result (T.context resources.now) (memory_shape (MemoryGrow mem))
        stacks.old stacks.new }
    ensures same { Kept stacks.old stacks.new }
{
    match resources.memory_at(mem) {
        Some(memory) => {
            let address = address(memory.memory64);
            plain(
                stacks,
                resources,
                Takes::One(address),
                ValTypes::One(address),
            )
        },
        None => Err(OperatorError::Refused(OperatorFault::at(OperatorRule::UnknownMemory, mem))),
    }
}

/// `memory.fill`.
#[tactic(auto, using(crate::proofs::Cited::acts, crate::proofs::Cited::memories, crate::proofs::Cited::types))]
fn memory_fill<A: Allocator, T: WasmModuleResources>(
    stacks: &mut Stacks<A>,
    resources: &T,
    mem: u32,
) -> Result<(), OperatorError>
    ensures took { Performs result (T.context resources.now) (memory_shape (MemoryFill mem))
        stacks.old stacks.new }
    ensures same { Kept stacks.old stacks.new }
{
    if !has(stacks, WasmFeatures::BULK_MEMORY) {
        Err(OperatorFault::new(OperatorRule::BulkMemory))?;
    }
    match resources.memory_at(mem) {
        Some(memory) => {
            let address = address(memory.memory64);
            plain(
                stacks,
                resources,
                Takes::Three(address, TypeWord::number(NumberType::I32), address),
                ValTypes::None,
            )
        },
        None => Err(OperatorError::Refused(OperatorFault::at(OperatorRule::UnknownMemory, mem))),
    }
}

/// `memory.init`.
#[tactic(auto, using(crate::proofs::Cited::acts, crate::proofs::Cited::memories, crate::proofs::Cited::types))]
fn memory_init<A: Allocator, T: WasmModuleResources>(
    stacks: &mut Stacks<A>,
    resources: &T,
    data_index: u32,
    mem: u32,
) -> Result<(), OperatorError>
    ensures took { Performs result (T.context resources.now)
        (memory_shape (MemoryInit data_index mem)) stacks.old stacks.new }
    ensures same { Kept stacks.old stacks.new }
{
    if !has(stacks, WasmFeatures::BULK_MEMORY) {
        Err(OperatorFault::new(OperatorRule::BulkMemory))?;
    }
    if !has_data(resources, data_index) {
        return Err(OperatorError::Refused(missing_data(resources, data_index)));
    }
    match resources.memory_at(mem) {
        Some(memory) => {
            let number = TypeWord::number(NumberType::I32);
            plain(
                stacks,
                resources,
                Takes::Three(address(memory.memory64), number, number),
                ValTypes::None,
            )
        },
        None => Err(OperatorError::Refused(OperatorFault::at(OperatorRule::UnknownMemory, mem))),
    }
}

/// `data.drop`.
#[tactic(auto, using(crate::proofs::Cited::acts, crate::proofs::Cited::memories, crate::proofs::Cited::types))]
fn data_drop<A: Allocator, T: WasmModuleResources>(
    stacks: &mut Stacks<A>,
    resources: &T,
    data_index: u32,
) -> Result<(), OperatorError>
    ensures took { Performs result (T.context resources.now) (memory_shape (DataDrop data_index))
        stacks.old stacks.new }
    ensures same { Kept stacks.old stacks.new }
{
    if !has(stacks, WasmFeatures::BULK_MEMORY) {
        Err(OperatorFault::new(OperatorRule::BulkMemory))?;
    }
    if !has_data(resources, data_index) {
        return Err(OperatorError::Refused(missing_data(resources, data_index)));
    }
    plain(stacks, resources, Takes::None, ValTypes::None)
}

/// `memory.copy`.
#[tactic(auto, using(crate::proofs::Cited::acts, crate::proofs::Cited::memories, crate::proofs::Cited::types))]
fn memory_copy<A: Allocator, T: WasmModuleResources>(
    stacks: &mut Stacks<A>,
    resources: &T,
    dst_mem: u32,
    src_mem: u32,
) -> Result<(), OperatorError>
    ensures took { Performs result (T.context resources.now)
        (memory_shape (MemoryCopy dst_mem src_mem)) stacks.old stacks.new }
    ensures same { Kept stacks.old stacks.new }
{
    if !has(stacks, WasmFeatures::BULK_MEMORY) {
        Err(OperatorFault::new(OperatorRule::BulkMemory))?;
    }
    let to = match resources.memory_at(dst_mem) {
        Some(memory) => memory.memory64,
        None => return Err(OperatorError::Refused(OperatorFault::at(
            OperatorRule::UnknownMemory,
            dst_mem,
        ))),
    };
    let from = match resources.memory_at(src_mem) {
        Some(memory) => memory.memory64,
        None => return Err(OperatorError::Refused(OperatorFault::at(
            OperatorRule::UnknownMemory,
            src_mem,
        ))),
    };
    plain(
        stacks,
        resources,
        Takes::Three(address(to), address(from), lesser(to, from)),
        ValTypes::None,
    )
}

/// `memory.discard`.
#[tactic(auto, using(crate::proofs::Cited::acts, crate::proofs::Cited::memories, crate::proofs::Cited::types))]
fn memory_discard<A: Allocator, T: WasmModuleResources>(
    stacks: &mut Stacks<A>,
    resources: &T,
    mem: u32,
) -> Result<(), OperatorError>
    ensures took { Performs result (T.context resources.now) (memory_shape (MemoryDiscard mem))
        stacks.old stacks.new }
    ensures same { Kept stacks.old stacks.new }
{
    if !has(stacks, WasmFeatures::MEMORY_CONTROL) {
        Err(OperatorFault::at(OperatorRule::OpcodeBehind(0xfc), 18))?;
    }
    match resources.memory_at(mem) {
        Some(memory) => {
            let address = address(memory.memory64);
            plain(
                stacks,
                resources,
                Takes::Two(address, address),
                ValTypes::None,
            )
        },
        None => Err(OperatorError::Refused(OperatorFault::at(OperatorRule::UnknownMemory, mem))),
    }
}

/// An operator on memories.
pub fn bulk_memory<A: Allocator, T: WasmModuleResources>(
    stacks: &mut Stacks<A>,
    resources: &T,
    op: BulkMemoryOperator,
) -> Result<(), OperatorError>
    ensures took { Performs result (T.context resources.now) (memory_shape op)
        stacks.old stacks.new }
    ensures same { Kept stacks.old stacks.new }
{
    match op {
        BulkMemoryOperator::MemorySize { mem } => memory_size(stacks, resources, mem),
        BulkMemoryOperator::MemoryGrow { mem } => memory_grow(stacks, resources, mem),
        BulkMemoryOperator::MemoryInit { data_index, mem } => memory_init(
            stacks, resources, data_index, mem,
        ),
        BulkMemoryOperator::DataDrop { data_index } => data_drop(stacks, resources, data_index),
        BulkMemoryOperator::MemoryCopy { dst_mem, src_mem } => memory_copy(
            stacks, resources, dst_mem, src_mem,
        ),
        BulkMemoryOperator::MemoryFill { mem } => memory_fill(stacks, resources, mem),
        BulkMemoryOperator::MemoryDiscard { mem } => memory_discard(stacks, resources, mem),
    }
}
