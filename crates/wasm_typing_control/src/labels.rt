//! The types of blocks and labels.

ghost use Rattle.std.specs.Prelude.{◌≡◌, slice_get};
ghost use Rattle.std.specs.Option.{option_map};
ghost use Rattle.wasm_typing_numbers.specs.WasmSpecSteps.Actions.{label, returned};
ghost use Rattle.wasm_typing_numbers.specs.WasmTypingChecks.WasmValidatorResources.WasmSpecRules.Attempts.{last_of};
ghost use Rattle.wasm_typing_numbers.specs.WasmSpecSteps.Meanings.{label_by};
ghost use Rattle.wasm_typing_numbers.specs.WasmTypingChecks.WasmValidatorResources.Answers.{signature_seen};
ghost use Rattle.wasm_typing_numbers.specs.WasmTypingStacks.BodyStacks.{state_of};
ghost use Rattle.wasm_typing_numbers.specs.WasmTypingStacks.SeenBlocks.{block_in, kind_of, frame_of};
ghost use Rattle.wasm_typing_numbers.specs.WasmTypingChecks.Steps.{typed};
ghost use Rattle.wasm_typing_numbers.specs.WasmTypingChecks.SeenTypes.{types_seen};
ghost use Rattle.wasm_typing_control.specs.Blocks.{function_in, signature_in};

use crate::results::val_types_of;
use std::alloc::Allocator;
use wasm_readers_types::{CompositeInnerType, FuncType};
use wasm_typing_numbers::operators::FrameKind;
use wasm_typing_numbers::typing_checks::ValTypes;
use wasm_typing_numbers::typing_stacks::{Block, BlockWord, Frame, Stacks};
use wasm_typing_numbers::validator_resources::WasmModuleResources;

/// The function type of this type index, if it is one.
#[inline(always)]
pub fn function_type<'a, T: WasmModuleResources>(
    resources: &'a T,
    type_index: u32,
) -> Option<&'a FuncType<T::A>>
    ensures { option_map (λ f. signature_seen f.now) result
        ≡ function_in (T.context resources.now) type_index }
{
    match resources.sub_type_at(type_index) {
        Some(sub) => match &sub.composite_type.inner {
            CompositeInnerType::Func(signature) => Some(signature),
            _ => None,
        },
        None => None,
    }
}

/// What a block of this type takes.
#[inline(always)]
#[tactic(auto, using(crate::proofs::LabelTypes::blocks))]
pub fn block_takes<'a, T: WasmModuleResources>(
    resources: &'a T,
    block: BlockWord,
) -> Option<ValTypes<'a>>
    ensures { option_map types_seen result
        ≡ option_map (λ g. g.takes) (signature_in (T.context resources.now) (block_in block)) }
{
    match block.seen() {
        Block::Empty => Some(ValTypes::None),
        Block::Value(_) => Some(ValTypes::None),
        Block::Func(type_index) => match function_type(resources, type_index) {
            Some(signature) => Some(val_types_of(signature.params())),
            None => None,
        },
    }
}

/// What a block of this type gives.
#[inline(always)]
#[tactic(auto, using(crate::proofs::LabelTypes::blocks))]
pub fn block_gives<'a, T: WasmModuleResources>(
    resources: &'a T,
    block: BlockWord,
) -> Option<ValTypes<'a>>
    ensures { option_map types_seen result
        ≡ option_map (λ g. g.gives) (signature_in (T.context resources.now) (block_in block)) }
{
    match block.seen() {
        Block::Empty => Some(ValTypes::None),
        Block::Value(ty) => Some(ValTypes::One(ty)),
        Block::Func(type_index) => match function_type(resources, type_index) {
            Some(signature) => Some(val_types_of(signature.results())),
            None => None,
        },
    }
}

/// What a branch to a frame of this kind and type takes.
#[inline(always)]
fn branch_types<'a, T: WasmModuleResources>(
    resources: &'a T,
    kind: FrameKind,
    block: BlockWord,
) -> Option<ValTypes<'a>>
    ensures { option_map types_seen result
        ≡ option_map (label_by (kind_of kind))
        (signature_in (T.context resources.now) (block_in block)) }
{
    match kind {
        FrameKind::Loop => block_takes(resources, block),
        FrameKind::Block => block_gives(resources, block),
        FrameKind::If => block_gives(resources, block),
        FrameKind::Else => block_gives(resources, block),
        FrameKind::TryTable => block_gives(resources, block),
        FrameKind::LegacyTry => block_gives(resources, block),
        FrameKind::LegacyCatch => block_gives(resources, block),
        FrameKind::LegacyCatchAll => block_gives(resources, block),
    }
}

/// The frame of this label, counted from the innermost, if there is one.
#[inline(always)]
#[tactic(auto, using(crate::proofs::LabelTypes::frames))]
pub fn frame_at<A: Allocator>(stacks: &Stacks<A>, depth: usize) -> Option<Frame>
    ensures { option_map frame_of result ≡ slice_get (state_of stacks.now).frames depth }
{
    if !stacks.is_open {
        return None;
    }
    if depth == 0 {
        Some(stacks.frame)
    } else {
        stacks.outer.get(depth - 1)
    }
}

/// What a branch to this label takes, if there is one.
#[inline(always)]
#[tactic(auto, using(crate::proofs::LabelTypes::labels))]
pub fn label_types<'a, A: Allocator, T: WasmModuleResources>(
    stacks: &Stacks<A>,
    resources: &'a T,
    depth: u32,
) -> Option<ValTypes<'a>>
    ensures { typed stacks.now (T.context resources.now) (label depth)
        ≡ option_map types_seen result }
{
    match frame_at(stacks, depth as usize) {
        Some(frame) => branch_types(resources, frame.kind, frame.block),
        None => None,
    }
}

/// The frame of the body itself, if it is open.
#[inline(always)]
#[tactic(auto, using(crate::proofs::LabelTypes::lasts))]
fn outermost<A: Allocator>(stacks: &Stacks<A>) -> Option<Frame>
    ensures { option_map frame_of result ≡ last_of (state_of stacks.now).frames }
{
    if !stacks.is_open {
        return None;
    }
    let count = stacks.outer.len();
    if count == 0 {
        Some(stacks.frame)
    } else {
        stacks.outer.get(count - 1)
    }
}

/// What the body gives, if it is open.
#[inline(always)]
#[tactic(auto, using(crate::proofs::LabelTypes::labels))]
pub fn returned_types<'a, A: Allocator, T: WasmModuleResources>(
    stacks: &Stacks<A>,
    resources: &'a T,
) -> Option<ValTypes<'a>>
    ensures { typed stacks.now (T.context resources.now) returned ≡ option_map types_seen result }
{
    match outermost(stacks) {
        Some(frame) => block_gives(resources, frame.block),
        None => None,
    }
}
