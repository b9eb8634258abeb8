//! How many operands blocks and labels take.

ghost use Rattle.std.specs.Prelude.{◌≡◌, Some, IfSome};
ghost use Rattle.wasm_operators.specs.SeenControl.{block_of};
ghost use Rattle.wasm_typing_validator.specs.BodyTyping.{typed_state};
ghost use Rattle.wasm_validator_func.specs.Labels.{block_arity_in, label_arity_in, label_counts_in, height_of_empty_in};

use crate::func_validator::FuncValidator;
use std::alloc::Allocator;
use wasm_operators::{BlockType, FrameKind};
use wasm_readers_types::CompositeInnerType;
use wasm_validator_resources::WasmModuleResources;

/// How many parameters and results a block of this type has, if it is a block type of the module.
pub fn block_arity<T: WasmModuleResources>(resources: &T, ty: BlockType) -> Option<(usize, usize)>
    ensures { result ≡ block_arity_in (T.context resources.now) (block_of ty) }
{
    match ty {
        BlockType::Empty => Some((0, 0)),
        BlockType::Value(_) => Some((0, 1)),
        BlockType::FuncType(type_index) => match resources.sub_type_at(type_index) {
            Some(sub) => match &sub.composite_type.inner {
                CompositeInnerType::Func(signature) => {
                    Some((signature.params().len(), signature.results().len()))
                }
                _ => None,
            },
            None => None,
        },
    }
}

impl<T: WasmModuleResources, A: Allocator> FuncValidator<T, A> {
    /// How many operands a branch to the label at this depth takes, the innermost at 0, if there is
    /// one: the results of its block, and the parameters of a `loop` (Core Specification 3.0,
    /// Validation, Instructions, `br`).
    pub fn label_arity(&self, depth: u32) -> Option<usize>
        ensures { result ≡ label_arity_in (T.context self.now.resources)
            (typed_state self.now.validator) depth }
    {
        match self.get_control_frame(depth as usize) {
            Some(frame) => match block_arity(&self.resources, frame.block_type) {
                Some((takes, gives)) => match frame.kind {
                    FrameKind::Loop => Some(takes),
                    FrameKind::Block
                    | FrameKind::If
                    | FrameKind::Else
                    | FrameKind::TryTable
                    | FrameKind::LegacyTry
                    | FrameKind::LegacyCatch
                    | FrameKind::LegacyCatchAll => Some(gives),
                },
                None => None,
            },
            None => None,
        }
    }

    /// How many operands stand below the frame of the label at this depth, the innermost at 0, if there
    /// is such a label and its block is one without types, so that a branch to it takes nothing (Core
    /// Specification 3.0, Validation, Instructions, `br`).
    #[inline(always)]
    pub fn height_of_empty(&self, depth: u32) -> Option<usize>
        ensures shown { result ≡ height_of_empty_in (typed_state self.now.validator) depth }
        ensures counts { IfSome result (λ h. label_counts_in (T.context self.now.resources)
            (typed_state self.now.validator) depth ≡ Some (0, h)) }
    {
        self.validator.height_of_empty(&self.resources, depth)
    }

    /// How many operands a branch to the label at this depth takes, the innermost at 0, and how many
    /// stand below its frame, if there is such a label: the results of its block, and the parameters
    /// of a `loop` (Core Specification 3.0, Validation, Instructions, `br`).
    #[inline(always)]
    pub fn label_counts(&self, depth: u32) -> Option<(usize, usize)>
        ensures { result ≡ label_counts_in (T.context self.now.resources)
            (typed_state self.now.validator) depth }
    {
        self.validator.label_counts(&self.resources, depth)
    }
}
