//! What is asked of a validator of operators, to tell how many operands an operator takes and
//! gives.

ghost use Rattle.std.specs.Prelude.{◌≡◌, length, slice_get};
ghost use Rattle.std.specs.Option.{option_map};
ghost use Rattle.wasm_readers_types.specs.SeenTypes.{sub_of, func_of};
ghost use Rattle.wasm_operators.specs.SeenControl.{block_of};
ghost use Rattle.wasm_typing_arity.specs.ArityQueries.{kind_of, func_alone};
ghost use Rattle.wasm_typing_validator.specs.ModuleAnswers.{tag_counts, labels_in, kinds_in};

use crate::validator::OperatorValidator;
use crate::visitor::OperatorVisitor;
use crate::{FrameStack, ModuleArity};
use std::alloc::Allocator;
use wasm_operators::{BlockType, FrameKind};
use wasm_readers_types::{CompositeInnerType, ContType, FuncType, RefType, SubType, UnpackedIndex};
use wasm_typing_families::typing_blocks::validator_resources::WasmModuleResources;
use wasm_typing_families::typing_steps::frame_at;

/// How many parameters and results the type of this tag has, if there is one and both numbers have
/// 32 bits.
pub fn tag_arity<T: WasmModuleResources>(resources: &T, tag_index: u32) -> Option<(u32, u32)>
    ensures { result ≡ tag_counts (T.context resources.now) tag_index }
{
    match resources.tag_at(tag_index) {
        Some(signature) => {
            let params = signature.params().len();
            let results = signature.results().len();
            if params < 4_294_967_296 && results < 4_294_967_296 {
                Some((params as u32, results as u32))
            } else {
                None
            }
        }
        None => None,
    }
}

/// The function type that a type is, if it is one.
pub fn func_type_of<A: Allocator>(sub: &SubType<A>) -> Option<&FuncType<A>>
    ensures { option_map (λ f. func_of f.now) result ≡ func_alone (sub_of sub.now).comp }
{
    match &sub.composite_type.inner {
        CompositeInnerType::Func(signature) => Some(signature),
        _ => None,
    }
}

impl<A: Allocator> OperatorValidator<A> {
    /// How many frames are open, as far as 32 bits count.
    pub fn count_labels(&self) -> u32
        ensures { result ≡ length (labels_in self.now.stacks) }
    {
        if !self.stacks.is_open {
            return 0;
        }
        let outer = self.stacks.outer.len();
        if outer < 4_294_967_295 {
            outer as u32 + 1
        } else {
            4_294_967_295
        }
    }

    /// The block type and the kind of the frame of this label, counted from the innermost, if there
    /// is one that 32 bits count.
    pub fn label_block(&self, depth: u32) -> Option<(BlockType, FrameKind)>
        ensures { option_map (λ x. (block_of x.0, kind_of x.1)) result
            ≡ slice_get (labels_in self.now.stacks) depth }
    {
        if depth == 4_294_967_295 {
            return None;
        }
        match frame_at(&self.stacks, depth as usize) {
            Some(frame) => Some((frame.block.block_type(), frame.kind)),
            None => None,
        }
    }

    /// The kind of the innermost frame, if one is open.
    #[tactic(auto, using(crate::proofs::FrameQueries::kinds))]
    pub fn current_frame(&self) -> Option<FrameKind>
        ensures { option_map kind_of result ≡ slice_get (kinds_in self.now.stacks) 0 }
    {
        if self.stacks.is_open {
            Some(self.stacks.frame.kind)
        } else {
            None
        }
    }
}

impl<'v, 'r, T: WasmModuleResources, A: Allocator> ModuleArity for OperatorVisitor<'v, 'r, T, A> {
    type A = T::A;

    ghost use Rattle.wasm_typing_validator.specs.ModuleAnswers.{asked_in};

    ghost asked = { λ v. asked_in v.validator.now.stacks (T.context v.resources.now) };

    fn sub_type_at(&self, type_index: u32) -> Option<&SubType<Self::A>> {
        self.resources.sub_type_at(type_index)
    }

    fn tag_type_arity(&self, tag_index: u32) -> Option<(u32, u32)> {
        tag_arity(self.resources, tag_index)
    }

    fn type_index_of_function(&self, function_index: u32) -> Option<u32> {
        self.resources.type_index_of_function(function_index)
    }

    fn func_type_of_cont_type(&self, cont_type: &ContType) -> Option<&FuncType<Self::A>> {
        match cont_type.0.as_core_type_id() {
            Some(id) => match self.resources.sub_type_of(UnpackedIndex::Id(id)) {
                Some(ty) => func_type_of(ty),
                None => None,
            },
            None => None,
        }
    }

    fn sub_type_of_ref_type(&self, ref_type: &RefType) -> Option<&SubType<Self::A>> {
        match ref_type.type_index() {
            Some(UnpackedIndex::Id(id)) => self.resources.sub_type_of(UnpackedIndex::Id(id)),
            _ => None,
        }
    }

    fn control_stack_height(&self) -> u32 {
        self.validator.count_labels()
    }

    fn label_block(&self, depth: u32) -> Option<(BlockType, FrameKind)> {
        self.validator.label_block(depth)
    }
}

impl<'v, 'r, T: WasmModuleResources, A: Allocator> FrameStack for OperatorVisitor<'v, 'r, T, A> {
    ghost use Rattle.wasm_typing_validator.specs.ModuleAnswers.{kinds_in};

    ghost kinds = { λ v. kinds_in v.validator.now.stacks };

    fn current_frame(&self) -> Option<FrameKind> {
        self.validator.current_frame()
    }
}
