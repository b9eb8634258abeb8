//! What a validator of operators shows.

ghost use Rattle.std.specs.Prelude.{◌≡◌, ◌≤◌, ◌<◌, ◌^◌, ◌-◌, length, slice_get, Some, IfSome};
ghost use Rattle.std.specs.Option.{option_map};
ghost use Rattle.wasm_readers_types.specs.WasmReadersValues.SeenValues.{val_of};
ghost use Rattle.wasm_typing_families.specs.WasmTypingBlocks.WasmTypingChecks.WasmSpecSteps.Meanings.{label_by};
ghost use Rattle.wasm_typing_families.specs.WasmTypingBlocks.WasmTypingChecks.WasmTypingStacks.SeenBlocks.{block_in, kind_of};
ghost use Rattle.wasm_typing_families.specs.WasmTypingSteps.WasmTypingControl.Blocks.{function_in, signature_in};
ghost use Rattle.wasm_typing_validator.specs.BodyTyping.{typed_state, locals_in};
ghost use Rattle.wasm_typing_validator.specs.QueryResults.{known_type, shown_frame, label_counts_in, height_of_empty_in};

use crate::validator::OperatorValidator;
use std::alloc::Allocator;
use wasm_operators::{BlockType, FrameKind};
use wasm_readers::readers_errors::WasmFeatures;
use wasm_readers_types::{CompositeInnerType, ValType};
use wasm_typing_families::typing_blocks::typing_stacks::{BlockWord, Operand};
use wasm_typing_families::typing_blocks::validator_resources::WasmModuleResources;
use wasm_typing_families::typing_steps::{Block, frame_at};

/// A control frame (Core Specification 3.0, Appendix, Validation Algorithm): what opened it, its
/// block type, how many operands stood below and how many locals had been set before it, and
/// whether the rest of its code isn't reached.
#[derive(Clone, Copy)]
pub struct Frame {
    pub kind: FrameKind,
    pub block_type: BlockType,
    pub height: usize,
    pub unreachable: bool,
    pub init_height: usize,
}

/// A number, or the greatest of 32 bits where it is greater.
fn as_far_as_counted(height: usize) -> u32
    ensures few { height < 2 ^ 32 → result ≡ height }
    ensures many { 2 ^ 32 ≤ height → result ≡ 2 ^ 32 - 1 }
{
    if height < 4_294_967_296 {
        height as u32
    } else {
        4_294_967_295
    }
}

/// How many operands a branch to the label of a frame of this kind takes, whose block has the function
/// type of this type index, if it is one, with how many operands stand below it.
#[cold]
#[inline(never)]
fn function_counts<T: WasmModuleResources>(
    resources: &T,
    kind: FrameKind,
    type_index: u32,
    height: usize,
) -> Option<(usize, usize)>
    ensures { result ≡ option_map (λ g. (length (label_by (kind_of kind) g), height))
        (function_in (T.context resources.now) type_index) }
{
    match resources.sub_type_at(type_index) {
        Some(sub) => match &sub.composite_type.inner {
            CompositeInnerType::Func(signature) => match kind {
                FrameKind::Loop => Some((signature.params().len(), height)),
                FrameKind::Block
                | FrameKind::If
                | FrameKind::Else
                | FrameKind::TryTable
                | FrameKind::LegacyTry
                | FrameKind::LegacyCatch
                | FrameKind::LegacyCatchAll => Some((signature.results().len(), height)),
            },
            _ => None,
        },
        None => None,
    }
}

/// How many operands a branch to the label of a frame of this kind and type takes, if its block type
/// is one, with how many operands stand below it. Only a block of a function type needs a look-up.
#[inline(always)]
#[tactic(auto, using(crate::proofs::LabelCounts::counts))]
fn frame_counts<T: WasmModuleResources>(
    resources: &T,
    kind: FrameKind,
    block: BlockWord,
    height: usize,
) -> Option<(usize, usize)>
    ensures { result ≡ option_map (λ g. (length (label_by (kind_of kind) g), height))
        (signature_in (T.context resources.now) (block_in block)) }
{
    match block.seen() {
        Block::Empty => Some((0, height)),
        Block::Value(_) => match kind {
            FrameKind::Loop => Some((0, height)),
            FrameKind::Block
            | FrameKind::If
            | FrameKind::Else
            | FrameKind::TryTable
            | FrameKind::LegacyTry
            | FrameKind::LegacyCatch
            | FrameKind::LegacyCatchAll => Some((1, height)),
        },
        Block::Func(type_index) => function_counts(resources, kind, type_index, height),
    }
}

impl<A: Allocator> OperatorValidator<A> {
    /// The features.
    pub fn features(&self) -> &WasmFeatures
        ensures { result.now ≡ self.now.stacks.features }
    {
        &self.stacks.features
    }

    /// How many locals there are, parameters included.
    pub fn len_locals(&self) -> u32
        ensures { result ≡ length (locals_in self.now) }
    {
        self.stacks.locals.len()
    }

    /// The type of a local, if there is one of this index.
    pub fn get_local_type(&self, index: u32) -> Option<ValType>
        ensures { option_map val_of result ≡ option_map (λ l. l.content)
            (slice_get (locals_in self.now) index) }
    {
        match self.stacks.locals.get(index) {
            Some(local) => Some(local.ty().ty()),
            None => None,
        }
    }

    /// How many operands there are.
    #[inline(always)]
    pub fn len_operands(&self) -> usize
        ensures { result ≡ length (typed_state self.now).operands }
    {
        self.stacks.operands.len()
    }

    /// How many operands there are, and 2³² - 1 where there are more.
    pub fn operand_stack_height(&self) -> u32
        ensures few { length (typed_state self.now).operands < 2 ^ 32
            → result ≡ length (typed_state self.now).operands }
        ensures many { 2 ^ 32 ≤ length (typed_state self.now).operands → result ≡ 2 ^ 32 - 1 }
    {
        as_far_as_counted(self.stacks.operands.len())
    }

    /// The type of the operand at this depth, the top at 0: nothing where there is no such
    /// operand, and no type where the operand's type isn't known, in code that isn't reached.
    pub fn get_operand_type(&self, depth: usize) -> Option<Option<ValType>>
        ensures { option_map (option_map val_of) result
            ≡ option_map known_type (slice_get (typed_state self.now).operands depth) }
    {
        match self.stacks.operands.get(depth) {
            Some(operand) => match operand.seen() {
                Operand::Known(ty) => Some(Some(ty)),
                Operand::Bottom | Operand::BottomReference | Operand::Open(_) => Some(None),
            },
            None => None,
        }
    }

    /// How many frames are open, and 2³² - 1 where there are more.
    pub fn control_stack_height(&self) -> u32
        ensures few { length (typed_state self.now).frames < 2 ^ 32
            → result ≡ length (typed_state self.now).frames }
        ensures many { 2 ^ 32 ≤ length (typed_state self.now).frames → result ≡ 2 ^ 32 - 1 }
    {
        if self.stacks.is_open {
            as_far_as_counted(self.stacks.outer.len().saturating_add(1))
        } else {
            0
        }
    }

    /// The frame at this depth, the innermost at 0, if there is one.
    pub fn get_control_frame(&self, depth: usize) -> Option<Frame>
        ensures { option_map shown_frame result ≡ slice_get (typed_state self.now).frames depth }
    {
        match frame_at(&self.stacks, depth) {
            Some(frame) => Some(Frame {
                kind: frame.kind,
                block_type: frame.block.block_type(),
                height: frame.height,
                unreachable: frame.unreachable,
                init_height: frame.init_height,
            }),
            None => None,
        }
    }

    /// How many operands stand below the frame of the label at this depth, the innermost at 0, if there
    /// is such a label and its block is one without types, so that a branch to it takes nothing.
    #[inline(always)]
    #[tactic(auto, using(crate::proofs::LabelCounts::empties))]
    pub fn height_of_empty<T: WasmModuleResources>(
        &self,
        _resources: &T,
        depth: u32,
    ) -> Option<usize>
        ensures shown { result ≡ height_of_empty_in (typed_state self.now) depth }
        ensures counts { IfSome result (λ h. label_counts_in (T.context _resources.now)
            (typed_state self.now) depth ≡ Some (0, h)) }
    {
        match frame_at(&self.stacks, depth as usize) {
            Some(frame) => match frame.block.seen() {
                Block::Empty => Some(frame.height),
                Block::Value(_) | Block::Func(_) => None,
            },
            None => None,
        }
    }

    /// How many operands a branch to the label at this depth takes, the innermost at 0, and how many
    /// stand below its frame, if there is such a label: the results of its block, and the parameters
    /// of a `loop` (Core Specification 3.0, Validation, Instructions, `br`).
    #[inline(always)]
    #[tactic(auto, using(crate::proofs::LabelCounts::labels))]
    pub fn label_counts<T: WasmModuleResources>(
        &self,
        resources: &T,
        depth: u32,
    ) -> Option<(usize, usize)>
        ensures { result ≡ label_counts_in (T.context resources.now) (typed_state self.now) depth }
    {
        match frame_at(&self.stacks, depth as usize) {
            Some(frame) => frame_counts(resources, frame.kind, frame.block, frame.height),
            None => None,
        }
    }
}
