//! Reading and typing at once.

ghost use Rattle.std.specs.Prelude.{◌≡◌, ◌≤◌, ◌<◌, Some};
ghost use Rattle.wasm_typing_fast.specs.WasmReadersBytes.Reader.{SameInput, position_in, rest};
ghost use Rattle.wasm_typing_fast.specs.WasmTypingControl.WasmTypingChecks.WasmValidatorResources.Answers.{world};
ghost use Rattle.wasm_typing_fast.specs.WasmTypingControl.WasmTypingChecks.WasmTypingStacks.BodyStacks.{state_of, around, Kept};
ghost use Rattle.wasm_typing_steps.specs.InstructionSteps.{Fuses, FusesAs, step_at};
ghost use Rattle.wasm_typing_steps.specs.ToldSteps.{IsPlain, OnLeft, OnTaken, Tells, told_at};

use crate::told::{Told, leave, tell};
use std::alloc::Allocator;
use wasm_operators_seldom::{next_bits_32, next_bits_64};
use wasm_typing_fast::operators_plain::{
    BinaryReader, NumberType, access_from_opcode, numeric_from_opcode, signature_in_place,
};
use wasm_typing_fast::typing_control::{Stacks, WasmModuleResources};
use wasm_typing_fast::{
    NotTaken, access, branch_away, branch_perhaps, call_function, call_in_table, compute, constant,
    do_nothing, drop_one, end, get_global, local_get, local_set, local_tee, next_block, next_byte,
    next_index, next_memarg, open_block, open_if, open_loop, pass_i32, pass_i64, return_all,
    select_of_two, set_global, trap,
};

/// A numeric operator, a load or a store.
#[inline(always)]
#[tactic(auto, using(crate::proofs::FusedInstructions::tables))]
fn step_by_table<A: Allocator, T: WasmModuleResources>(
    reader: &mut BinaryReader,
    stacks: &mut Stacks<A>,
    resources: &T,
    opcode: u8,
) -> Result<(), NotTaken>
    ensures input { SameInput reader.old reader.new }
    ensures onward { position_in reader.old ≤ position_in reader.new }
    ensures took { Fuses result (T.context resources.now) opcode reader.old
        stacks.old reader.new stacks.new }
    ensures same { Kept stacks.old stacks.new }
    ensures plain { IsPlain result opcode }
{
    match numeric_from_opcode(opcode) {
        Some(op) => {
            if 0x45 <= opcode && opcode < 0xd0 {
                compute(stacks, resources, signature_in_place(op))
            } else {
                Err(NotTaken::Left)
            }
        }
        None => match access_from_opcode(opcode) {
            Some(op) => {
                if 0x28 <= opcode && opcode < 0x3f {
                    let arg = next_memarg(reader)?;
                    access(stacks, resources, op, arg)
                } else {
                    Err(NotTaken::Left)
                }
            }
            None => Err(NotTaken::Left),
        },
    }
}

/// A call by a table.
#[inline(always)]
#[tactic(auto, using(crate::proofs::FusedInstructions::structures))]
fn call_by_table<A: Allocator, T: WasmModuleResources>(
    reader: &mut BinaryReader,
    stacks: &mut Stacks<A>,
    resources: &T,
) -> Told
    ensures input { SameInput reader.old reader.new }
    ensures onward { position_in reader.old ≤ position_in reader.new }
    ensures took { FusesAs result (T.context resources.now) 0x11 reader.old
        stacks.old reader.new stacks.new }
    ensures same { Kept stacks.old stacks.new }
    ensures told { Tells result 0x11 }
{
    let type_index = match next_index(reader) {
        Ok(index) => index,
        Err(why) => return leave(why),
    };
    let table_index = match next_index(reader) {
        Ok(index) => index,
        Err(why) => return leave(why),
    };
    tell(
        call_in_table(stacks, resources, type_index, table_index),
        Told::Quiet,
    )
}

/// A constant or a control operator, or another.
#[inline(always)]
#[tactic(auto, using(crate::proofs::FusedInstructions::structures))]
fn step_structural<A: Allocator, T: WasmModuleResources>(
    reader: &mut BinaryReader,
    stacks: &mut Stacks<A>,
    resources: &T,
    opcode: u8,
) -> Told
    ensures input { SameInput reader.old reader.new }
    ensures onward { position_in reader.old ≤ position_in reader.new }
    ensures took { FusesAs result (T.context resources.now) opcode reader.old
        stacks.old reader.new stacks.new }
    ensures same { Kept stacks.old stacks.new }
    ensures told { Tells result opcode }
{
    match opcode {
        0x00 => tell(trap(stacks, resources), Told::Quiet),
        0x01 => tell(do_nothing(stacks, resources), Told::Quiet),
        0x02 => match next_block(reader) {
            Ok(block) => tell(open_block(stacks, resources, block), Told::Opens),
            Err(why) => leave(why),
        },
        0x03 => match next_block(reader) {
            Ok(block) => tell(open_loop(stacks, resources, block), Told::OpensLoop),
            Err(why) => leave(why),
        },
        0x04 => match next_block(reader) {
            Ok(block) => tell(open_if(stacks, resources, block), Told::OpensThen),
            Err(why) => leave(why),
        },
        0x0b => tell(end(stacks, resources), Told::Closes),
        0x0c => match next_index(reader) {
            Ok(index) => tell(branch_away(stacks, resources, index), Told::Branches),
            Err(why) => leave(why),
        },
        0x0d => match next_index(reader) {
            Ok(index) => tell(
                branch_perhaps(stacks, resources, index),
                Told::BranchesPerhaps,
            ),
            Err(why) => leave(why),
        },
        0x0f => tell(return_all(stacks, resources), Told::Quiet),
        0x10 => match next_index(reader) {
            Ok(index) => tell(call_function(stacks, resources, index), Told::Quiet),
            Err(why) => leave(why),
        },
        0x11 => call_by_table(reader, stacks, resources),
        0x1a => tell(drop_one(stacks, resources), Told::Quiet),
        0x1b => tell(select_of_two(stacks, resources), Told::Quiet),
        0x41 => match pass_i32(reader) {
            Ok(()) => tell(constant(stacks, resources, NumberType::I32), Told::Quiet),
            Err(why) => leave(why),
        },
        0x42 => match pass_i64(reader) {
            Ok(()) => tell(constant(stacks, resources, NumberType::I64), Told::Quiet),
            Err(why) => leave(why),
        },
        // Of a floating-point number only its bytes count.
        0x43 => match next_bits_32(reader) {
            Some(_) => tell(constant(stacks, resources, NumberType::F32), Told::Quiet),
            None => Told::Left,
        },
        0x44 => match next_bits_64(reader) {
            Some(_) => tell(constant(stacks, resources, NumberType::F64), Told::Quiet),
            None => Told::Left,
        },
        _ => tell(
            step_by_table(reader, stacks, resources, opcode),
            Told::Quiet,
        ),
    }
}

/// An operator on a local or a global, or another.
#[inline(always)]
#[tactic(auto, using(crate::proofs::FusedInstructions::variables))]
fn step_by_opcode<A: Allocator, T: WasmModuleResources>(
    reader: &mut BinaryReader,
    stacks: &mut Stacks<A>,
    resources: &T,
    opcode: u8,
) -> Told
    ensures input { SameInput reader.old reader.new }
    ensures onward { position_in reader.old ≤ position_in reader.new }
    ensures took { FusesAs result (T.context resources.now) opcode reader.old
        stacks.old reader.new stacks.new }
    ensures same { Kept stacks.old stacks.new }
    ensures told { Tells result opcode }
{
    match opcode {
        0x20 => match next_index(reader) {
            Ok(index) => tell(local_get(stacks, resources, index), Told::Quiet),
            Err(why) => leave(why),
        },
        0x21 => match next_index(reader) {
            Ok(index) => tell(local_set(stacks, resources, index), Told::Quiet),
            Err(why) => leave(why),
        },
        0x22 => match next_index(reader) {
            Ok(index) => tell(local_tee(stacks, resources, index), Told::Quiet),
            Err(why) => leave(why),
        },
        0x23 => match next_index(reader) {
            Ok(index) => tell(get_global(stacks, resources, index), Told::Quiet),
            Err(why) => leave(why),
        },
        0x24 => match next_index(reader) {
            Ok(index) => tell(set_global(stacks, resources, index), Told::Quiet),
            Err(why) => leave(why),
        },
        _ => step_structural(reader, stacks, resources, opcode),
    }
}

/// Reads and types the next operator, if a frame is open. Where that isn't done the reader may
/// stand further on.
#[inline(always)]
#[tactic(auto, using(crate::proofs::FusedInstructions::steps))]
fn next_step<A: Allocator, T: WasmModuleResources>(
    reader: &mut BinaryReader,
    stacks: &mut Stacks<A>,
    resources: &T,
) -> Told
    ensures input { SameInput reader.old reader.new }
    ensures further { OnTaken result (position_in reader.old < position_in reader.new) }
    ensures took { OnTaken result (step_at (world (T.context resources.now))
        (around stacks.old (T.context resources.now)) (state_of stacks.old) (rest reader.old)
        ≡ Some (state_of stacks.new, rest reader.new)) }
    ensures left { OnLeft result (state_of stacks.new ≡ state_of stacks.old) }
    ensures same { Kept stacks.old stacks.new }
    ensures told { OnTaken result (told_at (rest reader.old) ≡ Some result) }
{
    if !stacks.is_open {
        return Told::Left;
    }
    match next_byte(reader) {
        Ok(opcode) => step_by_opcode(reader, stacks, resources, opcode),
        Err(why) => leave(why),
    }
}

/// Reads the next operator and takes its step, where it is a frequent one and its operands are of
/// known types: those that a compiler's output is made of. Tells what it does to blocks and labels.
///
/// Where it isn't, or the bytes or the operator are wrong in any way, and where a stack's growth is
/// refused its memory, nothing has changed, and the reader stands where it stood.
#[inline(always)]
pub fn told_step<A: Allocator, T: WasmModuleResources>(
    reader: &mut BinaryReader,
    stacks: &mut Stacks<A>,
    resources: &T,
) -> Told
    ensures input { SameInput reader.old reader.new }
    ensures further { OnTaken result (position_in reader.old < position_in reader.new) }
    ensures took { OnTaken result (step_at (world (T.context resources.now))
        (around stacks.old (T.context resources.now)) (state_of stacks.old) (rest reader.old)
        ≡ Some (state_of stacks.new, rest reader.new)) }
    ensures unread { OnLeft result (reader.new ≡ reader.old) }
    ensures left { OnLeft result (state_of stacks.new ≡ state_of stacks.old) }
    ensures same { Kept stacks.old stacks.new }
    ensures told { OnTaken result (told_at (rest reader.old) ≡ Some result) }
{
    let mut ahead = *reader;
    let told = next_step(&mut ahead, stacks, resources);
    if told.is_taken() {
        reader.go_on_from(&ahead);
    }
    told
}
