//! What is asked of a module, and of the frames of a body.

ghost use Rattle.std.specs.Prelude.{◌≡◌, length, slice_get};
ghost use Rattle.std.specs.Option.{option_map, option_and_then};
ghost use Rattle.wasm_readers_types.specs.SeenTypes.{sub_of, func_of};
ghost use Rattle.wasm_readers_types.specs.WasmReadersValues.SeenValues.{index_of, ref_of, index_in};
ghost use Rattle.wasm_operators.specs.SeenControl.{block_of};
ghost use Rattle.wasm_typing_arity.specs.ArityQueries.{Asked, kind_of, type_of_id, func_alone};

use std::alloc::Allocator;
use wasm_operators::{BlockType, FrameKind};
use wasm_readers_types::{ContType, FuncType, RefType, SubType};

/// What is asked of a module, and of the frames of a body, to tell how many operands an operator
/// takes and gives.
pub trait ModuleArity {
    /// The memory that the types are in.
    type A: Allocator;

    /// What the methods answer.
    ghost asked: { Self → Asked };

    /// The type of this type index, if there is one.
    fn sub_type_at(&self, type_index: u32) -> Option<&SubType<Self::A>>
        ensures { option_map (λ t. sub_of t.now) result ≡ (asked self.now).types type_index };

    /// How many parameters and results the type of this tag has, if there is one.
    fn tag_type_arity(&self, tag_index: u32) -> Option<(u32, u32)>
        ensures { result ≡ (asked self.now).tags tag_index };

    /// The type index of this function, if there is one.
    fn type_index_of_function(&self, function_index: u32) -> Option<u32>
        ensures { result ≡ (asked self.now).functions function_index };

    /// The function type of a continuation type that has an id: none where it has another index,
    /// where the id isn't known, or where its type isn't a function type.
    fn func_type_of_cont_type(&self, cont_type: &ContType) -> Option<&FuncType<Self::A>>
        ensures { option_map (λ f. func_of f.now) result
            ≡ option_and_then (λ d. func_alone d.comp)
            (type_of_id (asked self.now) (index_of cont_type.now.0)) };

    /// The type that a reference type names by its id: none where it is abstract, where it has another
    /// index, or where the id isn't known.
    fn sub_type_of_ref_type(&self, ref_type: &RefType) -> Option<&SubType<Self::A>>
        ensures { option_map (λ t. sub_of t.now) result
            ≡ option_and_then (type_of_id (asked self.now)) (index_in (ref_of ref_type.now).heap) };

    /// How many frames the body has open.
    fn control_stack_height(&self) -> u32
        ensures { result ≡ length (asked self.now).frames };

    /// The block type and the kind of the frame of this label, counted from the innermost, if there
    /// is one.
    fn label_block(&self, depth: u32) -> Option<(BlockType, FrameKind)>
        ensures { option_map (λ x. (block_of x.0, kind_of x.1)) result
            ≡ slice_get (asked self.now).frames depth };
}
