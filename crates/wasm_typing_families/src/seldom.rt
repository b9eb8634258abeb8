//! The step of the next operator, if it is one that compilers write less often.

ghost use Rattle.std.specs.Prelude.{◌≡◌, ◌≤◌, ◌<◌, ◌∷◌, Some, true, OnOk, OnErr};
ghost use Rattle.wasm_readers.specs.WasmReadersBytes.Reader.{SameInput, position_in, rest};
ghost use Rattle.wasm_typing_blocks.specs.WasmTypingChecks.WasmTypingStacks.BodyStacks.{state_of, Kept};
ghost use Rattle.wasm_typing_families.specs.StepsFromBytes.{stepped};

use crate::plain::{step_on_blocks, step_on_operands, step_on_values};
use crate::prefixed::{step_aggregate, step_atomics, step_bulk, step_on_vectors};
use std::alloc::Allocator;
use wasm_readers::BinaryReader;
use wasm_typing_blocks::typing_stacks::Stacks;
use wasm_typing_blocks::validator_resources::WasmModuleResources;
use wasm_typing_steps::NotTaken;

/// The step of the operator of which this prefix was read, if it is one that is typed here.
#[inline(always)]
#[tactic(auto, using(crate::proofs::SeldomSteps::fronts))]
fn step_prefixed<'a, A: Allocator, T: WasmModuleResources>(
    front: BinaryReader<'a>,
    reader: &mut BinaryReader<'a>,
    stacks: &mut Stacks<A>,
    resources: &T,
    prefix: u8,
) -> Result<(), NotTaken>
    requires read { rest front ≡ prefix ∷ rest reader.old }
    requires prefix { 0xfb ≤ prefix }
    requires frame { stacks.old.is_open ≡ true }
    ensures input { SameInput reader.old reader.new }
    ensures onward { position_in reader.old ≤ position_in reader.new }
    ensures took { OnOk result (stepped (T.context resources.now) stacks.old front.entry
        ≡ Some (state_of stacks.new, rest reader.new)) }
    ensures left { OnErr result (state_of stacks.new ≡ state_of stacks.old) }
    ensures same { Kept stacks.old stacks.new }
{
    let Some(code) = reader.next_var_u32() else {
        return Err(NotTaken::Left);
    };
    match prefix {
        0xfb => step_aggregate(front, reader, stacks, resources, code),
        0xfc => step_bulk(front, reader, stacks, resources, code),
        0xfd => step_on_vectors(front, reader, stacks, resources, code),
        0xfe => step_atomics(front, reader, stacks, resources, code),
        _ => Err(NotTaken::Left),
    }
}

/// Whether some operator that is typed here begins with this byte.
#[inline(always)]
fn begins_seldom(opcode: u8) -> bool {
    match opcode {
        0x02 | 0x03 | 0x04 | 0x05 | 0x08 | 0x0a | 0x0b => true,
        0x12 | 0x13 | 0x14 | 0x15 | 0x1b | 0x1c | 0x1f => true,
        0x21 | 0x22 | 0x24 | 0x25 | 0x26 | 0x3f | 0x40 => true,
        0xd0 | 0xd1 | 0xd2 | 0xd3 | 0xd4 | 0xd5 | 0xd6 => true,
        0xfb | 0xfc | 0xfd | 0xfe => true,
        _ => false,
    }
}

/// The step of the next operator, of which this byte was read, if it is one that is typed here. Where
/// that isn't done the reader may stand further on.
#[cold]
#[inline(never)]
#[tactic(auto, using(crate::proofs::SeldomSteps::fronts))]
fn step_behind<'a, A: Allocator, T: WasmModuleResources>(
    front: BinaryReader<'a>,
    reader: &mut BinaryReader<'a>,
    stacks: &mut Stacks<A>,
    resources: &T,
    opcode: u8,
) -> Result<(), NotTaken>
    requires read { rest front ≡ opcode ∷ rest reader.old }
    ensures input { SameInput reader.old reader.new }
    ensures onward { position_in reader.old ≤ position_in reader.new }
    ensures took { OnOk result (stepped (T.context resources.now) stacks.old front.entry
        ≡ Some (state_of stacks.new, rest reader.new)) }
    ensures left { OnErr result (state_of stacks.new ≡ state_of stacks.old) }
    ensures same { Kept stacks.old stacks.new }
{
    if !stacks.is_open {
        return Err(NotTaken::Left);
    }
    if opcode >= 0xfb {
        step_prefixed(front, reader, stacks, resources, opcode)
    } else if opcode < 0x10 || opcode == 0x1f {
        step_on_blocks(front, reader, stacks, resources, opcode)
    } else if opcode < 0x25 {
        step_on_operands(front, reader, stacks, resources, opcode)
    } else {
        step_on_values(front, reader, stacks, resources, opcode)
    }
}

/// Reads the next operator and takes its step, where it is one that compilers write less often, or
/// whose operands often only match what is wanted.
///
/// # Errors
///
/// Where that isn't done all stays: the operator is another, or it can't be read or isn't valid, or
/// memory was refused.
#[inline(always)]
pub fn seldom_step<'a, A: Allocator, T: WasmModuleResources>(
    reader: &mut BinaryReader<'a>,
    stacks: &mut Stacks<A>,
    resources: &T,
) -> Result<(), NotTaken>
    ensures input { SameInput reader.old reader.new }
    ensures further { OnOk result (position_in reader.old < position_in reader.new) }
    ensures took { OnOk result (stepped (T.context resources.now) stacks.old reader.old
        ≡ Some (state_of stacks.new, rest reader.new)) }
    ensures unread { OnErr result (reader.new ≡ reader.old) }
    ensures left { OnErr result (state_of stacks.new ≡ state_of stacks.old) }
    ensures same { Kept stacks.old stacks.new }
{
    // What is lent can't be kept in registers, so that the look has a reader of its own.
    let mut look = *reader;
    let Some(opcode) = look.next_u8() else {
        return Err(NotTaken::Left);
    };
    if !begins_seldom(opcode) {
        return Err(NotTaken::Left);
    }
    let mut ahead = look;
    match step_behind(*reader, &mut ahead, stacks, resources, opcode) {
        Ok(()) => {
            reader.go_on_from(&ahead);
            Ok(())
        }
        Err(error) => Err(error),
    }
}
