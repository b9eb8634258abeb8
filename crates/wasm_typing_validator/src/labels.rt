//! Branches by a table, read and typed at once.

ghost use Rattle.std.specs.Prelude.{◌≡◌, ◌≤◌, ◌<◌, true, [], Some, IfOk, OnOk, OnErr};
ghost use Rattle.wasm_readers.specs.WasmReadersBytes.Reader.{SameInput, position_in, rest};
ghost use Rattle.wasm_operators.specs.WasmOperatorsPlain.WasmSpec.Values.{u32_at};
ghost use Rattle.wasm_typing_families.specs.WasmTypingBlocks.WasmTypingChecks.WasmSpecSteps.Actions.{label};
ghost use Rattle.wasm_typing_families.specs.WasmTypingBlocks.WasmTypingChecks.WasmTypingStacks.BodyStacks.{state_of, Kept};
ghost use Rattle.wasm_typing_families.specs.WasmTypingBlocks.WasmTypingChecks.Steps.{typed};
ghost use Rattle.wasm_typing_validator.specs.Labels.{Lists};
ghost use Rattle.wasm_typing_validator.specs.StepsFromBytes.{stepped};

use std::alloc::Allocator;
use wasm_operators::operators_plain::NumberType;
use wasm_readers::BinaryReader;
use wasm_typing_families::typing_blocks::typing_stacks::{Stacks, TypeWord};
use wasm_typing_families::typing_blocks::validator_resources::WasmModuleResources;
use wasm_typing_families::typing_steps::{Block, NotTaken, frame_at, peek};

/// Whether a label is that of a block without types, to which a branch takes nothing.
#[inline(always)]
#[tactic(auto, using(crate::proofs::Cited::empties))]
fn takes_nothing<A: Allocator, T: WasmModuleResources>(
    stacks: &Stacks<A>,
    _resources: &T,
    depth: u32,
) -> bool
    ensures { result ≡ true → typed stacks.now (T.context _resources.now) (label depth) ≡ Some [] }
{
    match frame_at(stacks, depth as usize) {
        Some(frame) => match frame.block.seen() {
            Block::Empty => true,
            Block::Value(_) | Block::Func(_) => false,
        },
        None => false,
    }
}

/// The next label, where a branch to it takes nothing.
#[inline(always)]
fn next_label<A: Allocator, T: WasmModuleResources>(
    reader: &mut BinaryReader,
    stacks: &Stacks<A>,
    resources: &T,
) -> Result<u32, NotTaken>
    ensures same { SameInput reader.old reader.new }
    ensures onward { position_in reader.old ≤ position_in reader.new }
    ensures read { IfOk result (λ l. u32_at (rest reader.old) ≡ Some (l, rest reader.new)) }
    ensures empty { IfOk result (λ l. typed stacks.now (T.context resources.now) (label l)
        ≡ Some []) }
{
    match reader.next_var_u32() {
        Some(depth) => {
            if takes_nothing(stacks, resources, depth) {
                Ok(depth)
            } else {
                Err(NotTaken::Left)
            }
        }
        None => Err(NotTaken::Left),
    }
}

/// Passes so many labels, where a branch to any of them takes nothing.
fn pass_labels<A: Allocator, T: WasmModuleResources>(
    reader: &mut BinaryReader,
    stacks: &Stacks<A>,
    resources: &T,
    count: u32,
) -> Result<(), NotTaken>
    ensures same { SameInput reader.old reader.new }
    ensures onward { position_in reader.old ≤ position_in reader.new }
    ensures ok { OnOk result (Lists stacks.now (T.context resources.now) count
        (rest reader.old) (rest reader.new)) }
{
    let mut ahead = *reader;
    let mut left = count;
    'passing: while left > 0 {
        next_label(&mut ahead, stacks, resources)?;
        left -= 1;
    }
    reader.go_on_from(&ahead);
    Ok(())
}

/// Reads the next operator and takes its step, where it is `br_table` and a branch to any of its
/// labels takes nothing. Where that isn't done the reader may stand further on.
#[cold]
#[inline(never)]
fn step_by_labels<A: Allocator, T: WasmModuleResources>(
    reader: &mut BinaryReader,
    stacks: &mut Stacks<A>,
    resources: &T,
) -> Result<(), NotTaken>
    ensures input { SameInput reader.old reader.new }
    ensures further { OnOk result (position_in reader.old < position_in reader.new) }
    ensures took { OnOk result (stepped (T.context resources.now) stacks.old reader.old
        ≡ Some (state_of stacks.new, rest reader.new)) }
    ensures left { OnErr result (state_of stacks.new ≡ state_of stacks.old) }
    ensures same { Kept stacks.old stacks.new }
{
    if !stacks.is_open {
        return Err(NotTaken::Left);
    }
    let opcode = match reader.next_u8() {
        Some(opcode) => opcode,
        None => return Err(NotTaken::Left),
    };
    if opcode != 0x0e {
        return Err(NotTaken::Left);
    }
    peek(stacks, resources, 0, TypeWord::number(NumberType::I32))?;
    let count = match reader.next_var_u32() {
        Some(count) => count,
        None => return Err(NotTaken::Left),
    };
    pass_labels(reader, stacks, resources, count)?;
    next_label(reader, stacks, resources)?;
    stacks.take(1);
    stacks.stop();
    Ok(())
}

/// Reads the next operator and takes its step, where it is `br_table` and a branch to any of its
/// labels takes nothing. Where that isn't done all stays.
#[inline(always)]
pub(crate) fn table_step<'a, A: Allocator, T: WasmModuleResources>(
    reader: &mut BinaryReader<'a>,
    stacks: &mut Stacks<A>,
    resources: &T,
) -> Result<(), NotTaken>
    ensures input { SameInput reader.old reader.new }
    ensures further { OnOk result (position_in reader.old < position_in reader.new) }
    ensures took { OnOk result (stepped (T.context resources.now) stacks.old reader.old
        ≡ Some (state_of stacks.new, rest reader.new)) }
    ensures unread { OnErr result (reader.new ≡ reader.old) }
    ensures left { OnErr result (state_of stacks.new ≡ state_of stacks.old) }
    ensures same { Kept stacks.old stacks.new }
{
    let mut ahead = *reader;
    match step_by_labels(&mut ahead, stacks, resources) {
        Ok(()) => {
            reader.go_on_from(&ahead);
            Ok(())
        }
        Err(error) => Err(error),
    }
}
