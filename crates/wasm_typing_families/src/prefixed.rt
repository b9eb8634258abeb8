//! Operators behind a prefix.

ghost use Rattle.std.specs.Prelude.{◌≡◌, ◌≤◌, Some, true, OnOk, OnErr};
ghost use Rattle.wasm_readers.specs.WrittenIndices.{written};
ghost use Rattle.wasm_readers.specs.WasmReadersBytes.Reader.{SameInput, position_in, rest};
ghost use Rattle.wasm_operators.specs.Instructions.{instruction_at, aggregate_from, atomics_from, bulk_from, vectors_from};
ghost use Rattle.wasm_typing_blocks.specs.WasmTypingChecks.WasmTypingStacks.BodyStacks.{state_of, Kept};
ghost use Rattle.wasm_typing_families.specs.StepsFromBytes.{stepped};

use std::alloc::Allocator;
use wasm_operators::operators_plain::saturating_signature;
use wasm_readers::BinaryReader;
use wasm_typing_arrays::step_array;
use wasm_typing_blocks::typing_stacks::Stacks;
use wasm_typing_blocks::validator_resources::WasmModuleResources;
use wasm_typing_casts::{step_cast, step_conversion};
use wasm_typing_steps::NotTaken;
use wasm_typing_steps::operators_seldom::{
    next_array, next_atomic, next_cast, next_conversion, next_on_memories, next_on_tables,
    next_on_vectors, next_saturating, next_struct, next_vector_constant,
};
use wasm_typing_steps::typing_control::as_fast;
use wasm_typing_steps::typing_numbers::{
    bulk_memory, compute, constant, step_atomic, step_table, step_vector,
};
use wasm_typing_structs::step_struct;

/// The step of the operator of this code behind the prefix `0xfb`.
#[inline(never)]
#[tactic(auto, using(crate::proofs::SeldomSteps::families))]
pub(crate) fn step_aggregate<'a, A: Allocator, T: WasmModuleResources>(
    front: BinaryReader<'a>,
    reader: &mut BinaryReader<'a>,
    stacks: &mut Stacks<A>,
    resources: &T,
    code: u32,
) -> Result<(), NotTaken>
    requires at { instruction_at written (rest front)
        ≡ aggregate_from written code (rest reader.old) }
    requires frame { stacks.old.is_open ≡ true }
    ensures input { SameInput reader.old reader.new }
    ensures onward { position_in reader.old ≤ position_in reader.new }
    ensures took { OnOk result (stepped (T.context resources.now) stacks.old front.entry
        ≡ Some (state_of stacks.new, rest reader.new)) }
    ensures left { OnErr result (state_of stacks.new ≡ state_of stacks.old) }
    ensures same { Kept stacks.old stacks.new }
{
    if code < 6 {
        match next_struct(reader, code) {
            Some(op) => as_fast(step_struct(stacks, resources, op)),
            None => Err(NotTaken::Left),
        }
    } else if code < 20 {
        match next_array(reader, code) {
            Some(op) => as_fast(step_array(stacks, resources, op)),
            None => Err(NotTaken::Left),
        }
    } else if code < 26 {
        match next_cast(reader, code) {
            Some(op) => as_fast(step_cast(stacks, resources, op)),
            None => Err(NotTaken::Left),
        }
    } else {
        match next_conversion(reader, code) {
            Some(op) => as_fast(step_conversion(stacks, resources, op)),
            None => Err(NotTaken::Left),
        }
    }
}

/// The step of the operator of this code behind the prefix `0xfc`.
#[inline(never)]
#[tactic(auto, using(crate::proofs::SeldomSteps::families))]
pub(crate) fn step_bulk<'a, A: Allocator, T: WasmModuleResources>(
    front: BinaryReader<'a>,
    reader: &mut BinaryReader<'a>,
    stacks: &mut Stacks<A>,
    resources: &T,
    code: u32,
) -> Result<(), NotTaken>
    requires at { instruction_at written (rest front) ≡ bulk_from written code (rest reader.old) }
    requires frame { stacks.old.is_open ≡ true }
    ensures input { SameInput reader.old reader.new }
    ensures onward { position_in reader.old ≤ position_in reader.new }
    ensures took { OnOk result (stepped (T.context resources.now) stacks.old front.entry
        ≡ Some (state_of stacks.new, rest reader.new)) }
    ensures left { OnErr result (state_of stacks.new ≡ state_of stacks.old) }
    ensures same { Kept stacks.old stacks.new }
{
    if code < 8 {
        match next_saturating(reader, code) {
            Some(op) => as_fast(compute(stacks, resources, saturating_signature(op))),
            None => Err(NotTaken::Left),
        }
    } else if code < 12 {
        match next_on_memories(reader, code) {
            Some(op) => as_fast(bulk_memory(stacks, resources, op)),
            None => Err(NotTaken::Left),
        }
    } else {
        match next_on_tables(reader, code) {
            Some(op) => as_fast(step_table(stacks, resources, op)),
            None => Err(NotTaken::Left),
        }
    }
}

/// The step of the operator of this code behind the prefix `0xfd`.
#[inline(never)]
#[tactic(auto, using(crate::proofs::SeldomSteps::families))]
pub(crate) fn step_on_vectors<'a, A: Allocator, T: WasmModuleResources>(
    front: BinaryReader<'a>,
    reader: &mut BinaryReader<'a>,
    stacks: &mut Stacks<A>,
    resources: &T,
    code: u32,
) -> Result<(), NotTaken>
    requires at { instruction_at written (rest front)
        ≡ vectors_from written code (rest reader.old) }
    requires frame { stacks.old.is_open ≡ true }
    ensures input { SameInput reader.old reader.new }
    ensures onward { position_in reader.old ≤ position_in reader.new }
    ensures took { OnOk result (stepped (T.context resources.now) stacks.old front.entry
        ≡ Some (state_of stacks.new, rest reader.new)) }
    ensures left { OnErr result (state_of stacks.new ≡ state_of stacks.old) }
    ensures same { Kept stacks.old stacks.new }
{
    if code == 12 {
        match next_vector_constant(reader, code) {
            Some(op) => as_fast(constant(stacks, resources, op)),
            None => Err(NotTaken::Left),
        }
    } else {
        match next_on_vectors(reader, code) {
            Some((op, values)) => as_fast(step_vector(stacks, resources, op, values)),
            None => Err(NotTaken::Left),
        }
    }
}

/// The step of the operator of this code behind the prefix `0xfe`.
#[inline(never)]
#[tactic(auto, using(crate::proofs::SeldomSteps::families))]
pub(crate) fn step_atomics<'a, A: Allocator, T: WasmModuleResources>(
    front: BinaryReader<'a>,
    reader: &mut BinaryReader<'a>,
    stacks: &mut Stacks<A>,
    resources: &T,
    code: u32,
) -> Result<(), NotTaken>
    requires at { instruction_at written (rest front)
        ≡ atomics_from written code (rest reader.old) }
    requires frame { stacks.old.is_open ≡ true }
    ensures input { SameInput reader.old reader.new }
    ensures onward { position_in reader.old ≤ position_in reader.new }
    ensures took { OnOk result (stepped (T.context resources.now) stacks.old front.entry
        ≡ Some (state_of stacks.new, rest reader.new)) }
    ensures left { OnErr result (state_of stacks.new ≡ state_of stacks.old) }
    ensures same { Kept stacks.old stacks.new }
{
    match next_atomic(reader, code) {
        Some((op, values)) => as_fast(step_atomic(stacks, resources, op, values)),
        None => Err(NotTaken::Left),
    }
}
