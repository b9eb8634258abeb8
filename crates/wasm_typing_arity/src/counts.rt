//! How many types a list has that a module or a body names. Counts have 128 bits, so that no sum of
//! them wraps.

ghost use Rattle.std.specs.Prelude.{◌≡◌, IfSome};
ghost use Rattle.wasm_readers_types.specs.SeenTypes.{sub_of};
ghost use Rattle.wasm_operators.specs.Maps.{map_block};
ghost use Rattle.wasm_operators.specs.SeenControl.{block_of};
ghost use Rattle.wasm_spec_steps.specs.Actions.{of_type, of_function, of_tag, params, label, returned, fields};
ghost use Rattle.wasm_typing_arity.specs.Arities.{func_counts, field_count, signature_counts, block_counts, innermost_counts, how_many, index_number};
ghost use Rattle.wasm_typing_arity.specs.Sizes.{IsSmall, AreSmall};

use crate::module::ModuleArity;
use std::alloc::Allocator;
use wasm_operators::{BlockType, FrameKind};
use wasm_readers_types::{CompositeInnerType, SubType};

/// How many parameters and results a type has: none where it isn't a function type.
fn func_counts<A: Allocator>(ty: &SubType<A>) -> Option<(u128, u128)>
    ensures counted { result ≡ func_counts (sub_of ty.now).comp }
    ensures small { IfSome result AreSmall }
{
    match &ty.composite_type.inner {
        CompositeInnerType::Func(func) => {
            Some((func.params().len() as u128, func.results().len() as u128))
        }
        _ => None,
    }
}

/// How many parameters and results the function type of this index has.
pub(crate) fn type_counts<M: ModuleArity>(resources: &M, type_index: u32) -> Option<(u128, u128)>
    ensures counted { result ≡ signature_counts (M.asked resources.now) (of_type type_index) }
    ensures small { IfSome result AreSmall }
{
    match resources.sub_type_at(type_index) {
        Some(ty) => func_counts(ty),
        None => None,
    }
}

/// How many parameters and results a function has.
pub(crate) fn function_counts<M: ModuleArity>(
    resources: &M,
    function_index: u32,
) -> Option<(u128, u128)>
    ensures counted { result ≡ signature_counts (M.asked resources.now)
        (of_function function_index) }
    ensures small { IfSome result AreSmall }
{
    match resources.type_index_of_function(function_index) {
        Some(type_index) => type_counts(resources, type_index),
        None => None,
    }
}

/// How many parameters the type of a tag has.
pub(crate) fn tag_count<M: ModuleArity>(resources: &M, tag_index: u32) -> Option<u128>
    ensures { result ≡ how_many (M.asked resources.now) (params (of_tag tag_index)) }
{
    match resources.tag_type_arity(tag_index) {
        Some((params, _)) => Some(params as u128),
        None => None,
    }
}

/// How many operands a block takes and gives.
pub(crate) fn block_counts<M: ModuleArity>(resources: &M, ty: BlockType) -> Option<(u128, u128)>
    ensures seen { result ≡ block_counts (M.asked resources.now) (block_of ty) }
    ensures numbered { result ≡ block_counts (M.asked resources.now)
        (map_block index_number (block_of ty)) }
    ensures small { IfSome result AreSmall }
{
    match ty {
        BlockType::Empty => Some((0, 0)),
        BlockType::Value(_) => Some((0, 1)),
        BlockType::FuncType(type_index) => type_counts(resources, type_index),
    }
}

/// How many operands the innermost frame takes and gives.
pub(crate) fn innermost_counts<M: ModuleArity>(resources: &M) -> Option<(u128, u128)>
    ensures counted { result ≡ innermost_counts (M.asked resources.now) }
{
    match resources.label_block(0) {
        Some((ty, _)) => block_counts(resources, ty),
        None => None,
    }
}

/// How many operands a branch to this label takes.
pub(crate) fn label_count<M: ModuleArity>(resources: &M, depth: u32) -> Option<u128>
    ensures counted { result ≡ how_many (M.asked resources.now) (label depth) }
    ensures small { IfSome result IsSmall }
{
    match resources.label_block(depth) {
        Some((ty, kind)) => match block_counts(resources, ty) {
            Some((takes, gives)) => match kind {
                FrameKind::Loop => Some(takes),
                FrameKind::Block
                | FrameKind::If
                | FrameKind::Else
                | FrameKind::TryTable
                | FrameKind::LegacyTry
                | FrameKind::LegacyCatch
                | FrameKind::LegacyCatchAll => { Some(gives) }
            },
            None => None,
        },
        None => None,
    }
}

/// How many operands the body returns.
#[tactic(auto, using(crate::proofs::Frames::frames))]
pub(crate) fn returned_count<M: ModuleArity>(resources: &M) -> Option<u128>
    ensures counted { result ≡ how_many (M.asked resources.now) returned }
{
    let height = resources.control_stack_height();
    let outermost = if height == 0 { 0 } else { height - 1 };
    match resources.label_block(outermost) {
        Some((ty, _)) => match block_counts(resources, ty) {
            Some((_, gives)) => Some(gives),
            None => None,
        },
        None => None,
    }
}

/// How many fields the structure type of this index has.
pub(crate) fn field_count<M: ModuleArity>(resources: &M, type_index: u32) -> Option<u128>
    ensures counted { result ≡ how_many (M.asked resources.now) (fields type_index) }
    ensures small { IfSome result IsSmall }
{
    match resources.sub_type_at(type_index) {
        Some(ty) => match &ty.composite_type.inner {
            CompositeInnerType::Struct(ty) => Some(ty.fields.len() as u128),
            _ => None,
        },
        None => None,
    }
}
