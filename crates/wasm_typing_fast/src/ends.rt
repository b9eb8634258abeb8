//! The end of a frame.

ghost use Rattle.std.specs.Prelude.{◌≡◌, ◌<◌, IfOk};
ghost use Rattle.wasm_typing_control.specs.WasmTypingChecks.WasmSpecSteps.Machine.{is_if, pop_vals, push_vals};
ghost use Rattle.wasm_typing_control.specs.WasmTypingChecks.WasmSpecSteps.Shapes.{closing};
ghost use Rattle.wasm_typing_control.specs.WasmTypingChecks.WasmValidatorResources.Answers.{world};
ghost use Rattle.wasm_typing_control.specs.WasmTypingChecks.WasmTypingStacks.BodyStacks.{state_of, below, Kept};
ghost use Rattle.wasm_typing_control.specs.WasmTypingChecks.SeenTypes.{types_seen};
ghost use Rattle.wasm_typing_control.specs.WasmTypingChecks.WasmTypingStacks.SeenBlocks.{kind_of};
ghost use Rattle.wasm_typing_control.specs.FastSteps.{Peeked, Performs};

use crate::general::end_generally;
use std::alloc::Allocator;
use wasm_operators::FrameKind;
use wasm_typing_control::typing_checks::{ValTypes, exchange_types};
use wasm_typing_control::typing_stacks::{Block, Stacks};
use wasm_typing_control::validator_resources::WasmModuleResources;
use wasm_typing_control::{NotTaken, block_gives, peek, peek_types};

/// Whether a frame is that of an `if` before its `else`.
#[inline(always)]
fn is_if(kind: FrameKind) -> bool
    ensures { result ≡ is_if (kind_of kind) }
{
    match kind {
        FrameKind::If => true,
        FrameKind::Block => false,
        FrameKind::Else => false,
        FrameKind::Loop => false,
        FrameKind::TryTable => false,
        FrameKind::LegacyTry => false,
        FrameKind::LegacyCatch => false,
        FrameKind::LegacyCatchAll => false,
    }
}

/// Looks whether operands of these types are on top: such that are known to be of them, or any where
/// code isn't reached and none is left.
#[inline(always)]
#[tactic(auto, using(crate::proofs::FrameEnds::unreached))]
fn peek_results<'a, A: Allocator, T: WasmModuleResources>(
    stacks: &Stacks<A>,
    resources: &T,
    types: ValTypes<'a>,
) -> Result<usize, NotTaken>
    ensures popped { Peeked result (pop_vals (world (T.context resources.now))
        (types_seen types.entry) (state_of stacks.now)) (state_of stacks.now) }
    ensures there { IfOk result (λ k. 0 < k → push_vals (types_seen types.entry)
        (below k (state_of stacks.now)) ≡ state_of stacks.now) }
{
    if stacks.is_open && stacks.frame.unreachable && stacks.operands.len() == stacks.frame.height {
        return Ok(0);
    }
    peek_types(stacks, resources, 0, types)
}

/// The end of a frame of a function type, or of one that gives a value which isn't on top. That of an
/// `if` is left to the general way, and so is one where it isn't seen at once that the operands are
/// of the type.
#[cold]
#[inline(never)]
#[tactic(auto, using(crate::proofs::FastActions::acts, crate::proofs::FrameEnds::ends))]
fn end_typed<A: Allocator, T: WasmModuleResources>(
    stacks: &mut Stacks<A>,
    resources: &T,
) -> Result<(), NotTaken>
    ensures took { Performs result (T.context resources.now) closing
        stacks.old stacks.new }
    ensures same { Kept stacks.old stacks.new }
{
    if !stacks.is_open {
        return Err(NotTaken::Left);
    }
    let frame = stacks.frame;
    if is_if(frame.kind) {
        return end_generally(stacks, resources);
    }
    let Some(types) = block_gives(resources, frame.block) else {
        return Err(NotTaken::Left);
    };
    let taken = match peek_results(stacks, resources, types) {
        Ok(taken) => taken,
        Err(_) => return end_generally(stacks, resources),
    };
    if stacks.operands.len() - taken != frame.height {
        return Err(NotTaken::Left);
    }
    if taken > 0 {
        stacks.close();
        return Ok(());
    }
    match exchange_types(stacks, taken, types) {
        Ok(()) => {
            stacks.close();
            Ok(())
        }
        Err(_) => Err(NotTaken::OutOfMemory),
    }
}

/// `end`.
#[inline(always)]
#[tactic(auto, using(crate::proofs::FastActions::acts, crate::proofs::FrameEnds::ends))]
pub fn end<A: Allocator, T: WasmModuleResources>(
    stacks: &mut Stacks<A>,
    resources: &T,
) -> Result<(), NotTaken>
    ensures took { Performs result (T.context resources.now) closing
        stacks.old stacks.new }
    ensures same { Kept stacks.old stacks.new }
{
    if !stacks.is_open {
        return Err(NotTaken::Left);
    }
    match stacks.frame.block.seen() {
        Block::Empty => {
            if stacks.operands.len() != stacks.frame.height {
                return Err(NotTaken::Left);
            }
            stacks.close();
            Ok(())
        }
        Block::Value(ty) => {
            if is_if(stacks.frame.kind) {
                return Err(NotTaken::Left);
            }
            match peek(stacks, resources, 0, ty) {
                Ok(()) => {
                    if stacks.operands.len() - 1 != stacks.frame.height {
                        return Err(NotTaken::Left);
                    }
                    stacks.close();
                    Ok(())
                }
                Err(_) => end_typed(stacks, resources),
            }
        }
        Block::Func(_) => end_typed(stacks, resources),
    }
}
