//! The end of a frame.

ghost use Rattle.std.specs.Prelude.{◌≡◌, Some};
ghost use Rattle.wasm_typing_numbers.specs.WasmSpecSteps.Matching.{matches_vals};
ghost use Rattle.wasm_typing_numbers.specs.WasmTypingChecks.WasmValidatorResources.WasmSpecRules.Signatures.{Signature};
ghost use Rattle.wasm_typing_numbers.specs.WasmSpecSteps.Shapes.{closing};
ghost use Rattle.wasm_typing_numbers.specs.WasmTypingChecks.WasmValidatorResources.Answers.{world};
ghost use Rattle.wasm_readers_types.specs.WasmReadersValues.declared.indices.UnpackedIndex.{UnpackedIndex};
ghost use Rattle.wasm_typing_numbers.specs.WasmTypingStacks.BodyStacks.{Kept};
ghost use Rattle.wasm_typing_numbers.specs.WasmTypingStacks.SeenBlocks.{block_in, kind_of};
ghost use Rattle.wasm_typing_numbers.specs.WasmTypingChecks.Steps.{Performs};
ghost use Rattle.wasm_typing_control.specs.Blocks.{signature_in, ends_in};

use crate::labels::{block_gives, function_type};
use std::alloc::Allocator;
use wasm_typing_numbers::operators::FrameKind;
use wasm_typing_numbers::typing_checks::{
    OperatorError, OperatorFault, OperatorRule, check_types, exchange_types, match_all,
};
use wasm_typing_numbers::typing_stacks::{Block, BlockWord, Stacks};
use wasm_typing_numbers::validator_resources::WasmModuleResources;

/// Whether an `if` of this type may end without `else`.
#[tactic(auto, using(crate::proofs::FrameEnds::ends))]
fn gives_what_it_takes<T: WasmModuleResources>(resources: &T, block: BlockWord) -> bool
    ensures { (g : Signature UnpackedIndex)
        → signature_in (T.context resources.now) (block_in block) ≡ Some g
        → result ≡ matches_vals (world (T.context resources.now)) g.takes g.gives }
{
    match block.seen() {
        Block::Empty => true,
        Block::Value(_) => false,
        Block::Func(type_index) => match function_type(resources, type_index) {
            Some(signature) => match_all(resources, signature.params(), signature.results()),
            None => false,
        },
    }
}

/// Whether a frame of this kind and type may end.
fn may_end<T: WasmModuleResources>(resources: &T, kind: FrameKind, block: BlockWord) -> bool
    ensures { (g : Signature UnpackedIndex)
        → signature_in (T.context resources.now) (block_in block) ≡ Some g
        → result ≡ ends_in (world (T.context resources.now)) (kind_of kind) g }
{
    match kind {
        FrameKind::If => gives_what_it_takes(resources, block),
        FrameKind::Block => true,
        FrameKind::Loop => true,
        FrameKind::Else => true,
        FrameKind::TryTable => true,
        FrameKind::LegacyTry => true,
        FrameKind::LegacyCatch => true,
        FrameKind::LegacyCatchAll => true,
    }
}

/// `end`.
#[tactic(auto, using(crate::proofs::Cited::acts, crate::proofs::FrameEnds::leaves))]
pub fn end<A: Allocator, T: WasmModuleResources>(
    stacks: &mut Stacks<A>,
    resources: &T,
) -> Result<(), OperatorError>
    ensures took { Performs result (T.context resources.now) closing stacks.old stacks.new }
    ensures same { Kept stacks.old stacks.new }
{
    if !stacks.is_open {
        return Err(OperatorError::Refused(OperatorFault::new(OperatorRule::Ended)));
    }
    let frame = stacks.frame;
    let types = match block_gives(resources, frame.block) {
        Some(types) => types,
        None => return Err(OperatorError::Refused(OperatorFault::new(OperatorRule::UnknownType))),
    };
    let taken = match check_types(stacks, resources, 0, types) {
        Ok(taken) => taken,
        Err(fault) => return Err(OperatorError::Refused(fault)),
    };
    if stacks.operands.len() - taken != frame.height {
        return Err(OperatorError::Refused(OperatorFault::new(OperatorRule::OperandsLeft)));
    }
    if !may_end(resources, frame.kind, frame.block) {
        return Err(OperatorError::Refused(OperatorFault::new(OperatorRule::MissingElse)));
    }
    match exchange_types(stacks, taken, types) {
        Ok(()) => {
            stacks.close();
            Ok(())
        }
        Err(_) => Err(OperatorError::OutOfMemory),
    }
}
