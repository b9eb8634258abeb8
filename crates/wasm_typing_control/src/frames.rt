//! Frames that are opened.

ghost use Rattle.std.specs.Prelude.{◌≤◌, length};
ghost use Rattle.wasm_typing_numbers.specs.WasmTypingChecks.WasmValidatorResources.Answers.{world};
ghost use Rattle.wasm_typing_numbers.specs.WasmTypingStacks.BodyStacks.{state_of, below, Kept};
ghost use Rattle.wasm_typing_numbers.specs.WasmTypingStacks.SeenBlocks.{block_in, kind_of};
ghost use Rattle.wasm_typing_numbers.specs.WasmTypingChecks.Steps.{Turns};
ghost use Rattle.wasm_typing_numbers.specs.WasmTypingChecks.SeenTypes.{types_seen};
ghost use Rattle.wasm_typing_control.specs.FrameEntries.{entered};

use crate::peeks::peek_types;
use std::alloc::Allocator;
use wasm_typing_numbers::operators::FrameKind;
use wasm_typing_numbers::typing_checks::{OperatorError, ValTypes, check_types, exchange_types};
use wasm_typing_numbers::typing_stacks::{BlockWord, Stacks};
use wasm_typing_numbers::validator_resources::WasmModuleResources;

/// Opens a frame of this kind and type, by identities, over what it takes, which is written anew,
/// below so many operands that are taken already. Where that can't be, all stays.
#[tactic(auto, using(crate::proofs::Cited::acts, crate::proofs::OpenFrames::enters))]
fn open_anew<'a, A: Allocator, T: WasmModuleResources>(
    stacks: &mut Stacks<A>,
    resources: &T,
    kind: FrameKind,
    block: BlockWord,
    first: usize,
    takes: ValTypes<'a>,
) -> Result<(), OperatorError>
    requires { first ≤ length (state_of stacks.old).operands }
    ensures took { Turns result (λ s. entered (world (T.context resources.now)) (kind_of kind)
        (block_in block) (types_seen takes.entry) (below first s)) stacks.old stacks.new }
    ensures same { Kept stacks.old stacks.new }
{
    let taken = match check_types(stacks, resources, first, takes) {
        Ok(taken) => taken,
        Err(fault) => return Err(OperatorError::Refused(fault)),
    };
    match stacks.open_below(kind, block, taken) {
        Ok(()) => match exchange_types(stacks, taken, takes) {
            Ok(()) => Ok(()),
            Err(_) => {
                stacks.close();
                Err(OperatorError::OutOfMemory)
            }
        },
        Err(_) => Err(OperatorError::OutOfMemory),
    }
}

/// Opens a frame of this kind and type, by identities, over what it takes, below so many operands
/// that are taken already. Operands that are known to be of the types that it takes stay where they
/// are. Where that can't be, all stays.
#[tactic(auto, using(crate::proofs::Cited::acts, crate::proofs::OpenFrames::enters))]
pub fn open_frame<'a, A: Allocator, T: WasmModuleResources>(
    stacks: &mut Stacks<A>,
    resources: &T,
    kind: FrameKind,
    block: BlockWord,
    first: usize,
    takes: ValTypes<'a>,
) -> Result<(), OperatorError>
    requires { first ≤ length (state_of stacks.old).operands }
    ensures took { Turns result (λ s. entered (world (T.context resources.now)) (kind_of kind)
        (block_in block) (types_seen takes.entry) (below first s)) stacks.old stacks.new }
    ensures same { Kept stacks.old stacks.new }
{
    if let Ok(taken) = peek_types(stacks, resources, first, takes) {
        return match stacks.open_below(kind, block, taken) {
            Ok(()) => {
                stacks.take(first);
                Ok(())
            }
            Err(_) => Err(OperatorError::OutOfMemory),
        };
    }
    open_anew(stacks, resources, kind, block, first, takes)
}
