//! What is asked of the validator of one function, to tell how many operands an operator takes and
//! gives.

use crate::func_validator::FuncValidator;
use std::alloc::Allocator;
use wasm_operators::{BlockType, FrameKind};
use wasm_readers_types::{ContType, FuncType, RefType, SubType, UnpackedIndex};
use wasm_typing_validator::{FrameStack, ModuleArity, func_type_of, tag_arity};
use wasm_validator_resources::WasmModuleResources;

impl<T: WasmModuleResources, A: Allocator> ModuleArity for FuncValidator<T, A> {
    type A = T::A;

    ghost use Rattle.wasm_typing_validator.specs.ModuleAnswers.{asked_in};

    ghost asked = { λ v. asked_in v.validator.stacks (T.context v.resources) };

    fn sub_type_at(&self, type_index: u32) -> Option<&SubType<Self::A>> {
        self.resources.sub_type_at(type_index)
    }

    fn tag_type_arity(&self, tag_index: u32) -> Option<(u32, u32)> {
        tag_arity(&self.resources, tag_index)
    }

    fn type_index_of_function(&self, function_index: u32) -> Option<u32> {
        self.resources.type_index_of_function(function_index)
    }

    fn func_type_of_cont_type(&self, cont_type: &ContType) -> Option<&FuncType<Self::A>> {
        match cont_type.0.as_core_type_id() {
            Some(id) => match self.resources.sub_type_of(UnpackedIndex::Id(id)) {
                Some(ty) => func_type_of(ty),
                None => None,
            },
            None => None,
        }
    }

    fn sub_type_of_ref_type(&self, ref_type: &RefType) -> Option<&SubType<Self::A>> {
        match ref_type.type_index() {
            Some(UnpackedIndex::Id(id)) => self.resources.sub_type_of(UnpackedIndex::Id(id)),
            _ => None,
        }
    }

    fn control_stack_height(&self) -> u32 {
        self.validator.count_labels()
    }

    fn label_block(&self, depth: u32) -> Option<(BlockType, FrameKind)> {
        self.validator.label_block(depth)
    }
}

impl<T: WasmModuleResources, A: Allocator> FrameStack for FuncValidator<T, A> {
    ghost use Rattle.wasm_typing_validator.specs.ModuleAnswers.{kinds_in};

    ghost kinds = { λ v. kinds_in v.validator.stacks };

    fn current_frame(&self) -> Option<FrameKind> {
        self.validator.current_frame()
    }
}
