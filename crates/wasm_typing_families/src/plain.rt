//! Operators without a prefix that compilers write less often.

ghost use Rattle.std.specs.Prelude.{◌≡◌, ◌≤◌, Some, true, OnOk, OnErr};
ghost use Rattle.wasm_readers.specs.WrittenIndices.{written};
ghost use Rattle.wasm_readers.specs.WasmReadersBytes.Reader.{SameInput, position_in, rest};
ghost use Rattle.wasm_operators.specs.Instructions.{instruction_at, plain_from};
ghost use Rattle.wasm_typing_blocks.specs.WasmTypingChecks.WasmTypingStacks.BodyStacks.{state_of, Kept};
ghost use Rattle.wasm_typing_families.specs.StepsFromBytes.{stepped};

use std::alloc::Allocator;
use wasm_readers::BinaryReader;
use wasm_typing_blocks::typing_stacks::Stacks;
use wasm_typing_blocks::validator_resources::WasmModuleResources;
use wasm_typing_blocks::{step_call, step_control, step_parametric, step_variable};
use wasm_typing_casts::step_reference;
use wasm_typing_steps::NotTaken;
use wasm_typing_steps::operators_seldom::{
    next_call, next_control, next_memory_size, next_on_references, next_select, next_table_access,
    next_write,
};
use wasm_typing_steps::typing_control::as_fast;
use wasm_typing_steps::typing_numbers::{bulk_memory, step_table};

/// The step of the operator of this opcode, if it opens or ends a frame, or throws.
#[inline(never)]
#[tactic(auto, using(crate::proofs::SeldomSteps::families))]
pub(crate) fn step_on_blocks<'a, A: Allocator, T: WasmModuleResources>(
    front: BinaryReader<'a>,
    reader: &mut BinaryReader<'a>,
    stacks: &mut Stacks<A>,
    resources: &T,
    opcode: u8,
) -> Result<(), NotTaken>
    requires at { instruction_at written (rest front) ≡ plain_from written opcode (rest reader.old) }
    requires frame { stacks.old.is_open ≡ true }
    ensures input { SameInput reader.old reader.new }
    ensures onward { position_in reader.old ≤ position_in reader.new }
    ensures took { OnOk result (stepped (T.context resources.now) stacks.old front.entry
        ≡ Some (state_of stacks.new, rest reader.new)) }
    ensures left { OnErr result (state_of stacks.new ≡ state_of stacks.old) }
    ensures same { Kept stacks.old stacks.new }
{
    match next_control(reader, opcode) {
        Some(op) => as_fast(step_control(stacks, resources, op)),
        None => Err(NotTaken::Left),
    }
}

/// The step of the operator of this opcode, if it is a call by a reference or instead of a return,
/// `select`, or one that writes a local or a global.
#[inline(never)]
#[tactic(auto, using(crate::proofs::SeldomSteps::families))]
pub(crate) fn step_on_operands<'a, A: Allocator, T: WasmModuleResources>(
    front: BinaryReader<'a>,
    reader: &mut BinaryReader<'a>,
    stacks: &mut Stacks<A>,
    resources: &T,
    opcode: u8,
) -> Result<(), NotTaken>
    requires at { instruction_at written (rest front) ≡ plain_from written opcode (rest reader.old) }
    requires frame { stacks.old.is_open ≡ true }
    ensures input { SameInput reader.old reader.new }
    ensures onward { position_in reader.old ≤ position_in reader.new }
    ensures took { OnOk result (stepped (T.context resources.now) stacks.old front.entry
        ≡ Some (state_of stacks.new, rest reader.new)) }
    ensures left { OnErr result (state_of stacks.new ≡ state_of stacks.old) }
    ensures same { Kept stacks.old stacks.new }
{
    if opcode < 0x18 {
        match next_call(reader, opcode) {
            Some(op) => as_fast(step_call(stacks, resources, op)),
            None => Err(NotTaken::Left),
        }
    } else if opcode < 0x20 {
        match next_select(reader, opcode) {
            Some(op) => as_fast(step_parametric(stacks, resources, op)),
            None => Err(NotTaken::Left),
        }
    } else {
        match next_write(reader, opcode) {
            Some(op) => as_fast(step_variable(stacks, resources, op)),
            None => Err(NotTaken::Left),
        }
    }
}

/// The step of the operator of this opcode, if it is one on tables, memories or references.
#[inline(never)]
#[tactic(auto, using(crate::proofs::SeldomSteps::families))]
pub(crate) fn step_on_values<'a, A: Allocator, T: WasmModuleResources>(
    front: BinaryReader<'a>,
    reader: &mut BinaryReader<'a>,
    stacks: &mut Stacks<A>,
    resources: &T,
    opcode: u8,
) -> Result<(), NotTaken>
    requires at { instruction_at written (rest front) ≡ plain_from written opcode (rest reader.old) }
    requires frame { stacks.old.is_open ≡ true }
    ensures input { SameInput reader.old reader.new }
    ensures onward { position_in reader.old ≤ position_in reader.new }
    ensures took { OnOk result (stepped (T.context resources.now) stacks.old front.entry
        ≡ Some (state_of stacks.new, rest reader.new)) }
    ensures left { OnErr result (state_of stacks.new ≡ state_of stacks.old) }
    ensures same { Kept stacks.old stacks.new }
{
    if opcode < 0x28 {
        match next_table_access(reader, opcode) {
            Some(op) => as_fast(step_table(stacks, resources, op)),
            None => Err(NotTaken::Left),
        }
    } else if opcode < 0x41 {
        match next_memory_size(reader, opcode) {
            Some(op) => as_fast(bulk_memory(stacks, resources, op)),
            None => Err(NotTaken::Left),
        }
    } else {
        match next_on_references(reader, opcode) {
            Some(op) => as_fast(step_reference(stacks, resources, op)),
            None => Err(NotTaken::Left),
        }
    }
}
