//! Block types by identities.

ghost use Rattle.wasm_operators.specs.Control.{value_block, func_block};
ghost use Rattle.wasm_operators.specs.SeenControl.{block_of};
ghost use Rattle.wasm_readers_types.specs.WasmReadersValues.SeenValues.{val_of};
ghost use Rattle.wasm_spec.specs.Syntax.{map_val};
ghost use Rattle.wasm_typing_control.specs.WasmTypingChecks.WasmValidatorResources.Answers.{written_index, IsWrittenVal};
ghost use Rattle.wasm_typing_blocks.specs.WrittenOperators.{block_written, IsWrittenBlock};
ghost use Rattle.wasm_typing_blocks.specs.KnownBlockTypes.{Opens, block_known};

use std::alloc::Allocator;
use wasm_operators::BlockType;
use wasm_readers::readers_errors::WasmFeatures;
use wasm_readers_types::ValType;
use wasm_typing_control::type_reached;
use wasm_typing_control::typing_checks::{OperatorFault, OperatorRule, ValTypes, has};
use wasm_typing_control::typing_stacks::{BlockWord, Stacks, TypeWord};
use wasm_typing_control::validator_resources::WasmModuleResources;

/// A block type by identities, and what the block takes.
#[derive(Clone, Copy)]
pub(crate) struct Opening<'a> {
    pub(crate) word: BlockWord,
    pub(crate) takes: ValTypes<'a>,
}

/// A block with one result of a written type.
#[tactic(auto, using(crate::proofs::BlockTypes::resolving))]
fn resolve_value<'a, A: Allocator, T: WasmModuleResources>(
    stacks: &Stacks<A>,
    resources: &'a T,
    ty: ValType,
) -> Result<Opening<'a>, OperatorFault>
    requires { IsWrittenVal (val_of ty) }
    ensures { Opens result (block_known stacks.now (T.context resources.now)
        (value_block (map_val written_index (val_of ty)))) }
{
    let mut named = ty;
    match resources.check_value_type(&mut named, &stacks.features, 0) {
        Ok(()) => Ok(Opening {
            word: BlockWord::value(TypeWord::new(named)),
            takes: ValTypes::None,
        }),
        Err(refusal) => Err(OperatorFault::written_type(refusal)),
    }
}

/// A block of the function type of this type index.
#[tactic(auto, using(crate::proofs::BlockTypes::resolving))]
fn resolve_function<'a, A: Allocator, T: WasmModuleResources>(
    stacks: &Stacks<A>,
    resources: &'a T,
    type_index: u32,
) -> Result<Opening<'a>, OperatorFault>
    ensures { Opens result (block_known stacks.now (T.context resources.now)
        (func_block type_index)) }
{
    if !has(stacks, WasmFeatures::MULTI_VALUE) {
        return Err(OperatorFault::new(OperatorRule::MultiValue));
    }
    match type_reached(stacks, resources, type_index) {
        Ok(signature) => Ok(Opening {
            word: BlockWord::func(type_index),
            takes: ValTypes::Many(signature.params()),
        }),
        Err(fault) => Err(fault),
    }
}

/// A written block type by identities, where the features and the module allow it.
#[tactic(auto, using(crate::proofs::BlockTypes::resolving))]
pub(crate) fn resolve<'a, A: Allocator, T: WasmModuleResources>(
    stacks: &Stacks<A>,
    resources: &'a T,
    ty: BlockType,
) -> Result<Opening<'a>, OperatorFault>
    requires { IsWrittenBlock (block_of ty) }
    ensures { Opens result (block_known stacks.now (T.context resources.now) (block_written ty)) }
{
    match ty {
        BlockType::Empty => Ok(Opening {
            word: BlockWord::empty(),
            takes: ValTypes::None,
        }),
        BlockType::Value(ty) => resolve_value(stacks, resources, ty),
        BlockType::FuncType(type_index) => resolve_function(stacks, resources, type_index),
    }
}
