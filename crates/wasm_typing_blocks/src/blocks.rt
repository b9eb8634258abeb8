//! `block`, `loop` and `if`.

ghost use Rattle.wasm_operators.specs.Control.{block, loop, if_};
ghost use Rattle.wasm_operators.specs.SeenControl.{block_of};
ghost use Rattle.wasm_typing_control.specs.WasmTypingChecks.WasmSpecSteps.Shapes.{control_shape, opening, block_checks, nothing};
ghost use Rattle.wasm_typing_control.specs.WasmTypingChecks.WasmTypingStacks.BodyStacks.{Kept};
ghost use Rattle.wasm_typing_control.specs.WasmTypingChecks.WasmTypingStacks.SeenBlocks.{kind_of};
ghost use Rattle.wasm_typing_control.specs.WasmTypingChecks.Steps.{Performs};
ghost use Rattle.wasm_typing_blocks.specs.WrittenOperators.{block_written, IsWrittenBlock};

use crate::openings::resolve;
use std::alloc::Allocator;
use wasm_operators::operators_plain::NumberType;
use wasm_operators::{BlockType, FrameKind};
use wasm_typing_control::open_frame;
use wasm_typing_control::typing_checks::{OperatorError, check_type};
use wasm_typing_control::typing_stacks::{Stacks, TypeWord};
use wasm_typing_control::validator_resources::WasmModuleResources;

/// Opens a frame of this kind, over what its type takes.
#[tactic(auto, using(crate::proofs::Cited::acts, crate::proofs::BlockEntries::enters))]
pub(crate) fn open_plain<A: Allocator, T: WasmModuleResources>(
    stacks: &mut Stacks<A>,
    resources: &T,
    kind: FrameKind,
    ty: BlockType,
) -> Result<(), OperatorError>
    requires { IsWrittenBlock (block_of ty) }
    ensures took { Performs result (T.context resources.now)
        (opening (block_checks (block_written ty)) nothing (kind_of kind) (block_written ty))
        stacks.old stacks.new }
    ensures same { Kept stacks.old stacks.new }
{
    match resolve(stacks, resources, ty) {
        Ok(opening) => open_frame(stacks, resources, kind, opening.word, 0, opening.takes),
        Err(fault) => Err(OperatorError::Refused(fault)),
    }
}

/// `block` (Core Specification 3.0, Validation, Instructions, Control Instructions): a frame whose
/// label takes what the block gives.
///
/// # Errors
///
/// Refuses a block type that the features or the module don't have (`ValueType`, `MultiValue`,
/// `UnknownType`, `NotAFunction`, `Shared`), and operands that aren't what the block takes
/// (`Operand`). Where it is refused, all stays.
pub fn open_block<A: Allocator, T: WasmModuleResources>(
    stacks: &mut Stacks<A>,
    resources: &T,
    ty: BlockType,
) -> Result<(), OperatorError>
    requires { IsWrittenBlock (block_of ty) }
    ensures took { Performs result (T.context resources.now)
        (control_shape (block (block_written ty))) stacks.old stacks.new }
    ensures same { Kept stacks.old stacks.new }
{
    open_plain(stacks, resources, FrameKind::Block, ty)
}

/// `loop` (Core Specification 3.0, Validation, Instructions, Control Instructions): a frame whose
/// label takes what the block takes.
///
/// # Errors
///
/// Refuses what [`open_block`] refuses. Where it is refused, all stays.
pub fn open_loop<A: Allocator, T: WasmModuleResources>(
    stacks: &mut Stacks<A>,
    resources: &T,
    ty: BlockType,
) -> Result<(), OperatorError>
    requires { IsWrittenBlock (block_of ty) }
    ensures took { Performs result (T.context resources.now)
        (control_shape (loop (block_written ty))) stacks.old stacks.new }
    ensures same { Kept stacks.old stacks.new }
{
    open_plain(stacks, resources, FrameKind::Loop, ty)
}

/// `if` (Core Specification 3.0, Validation, Instructions, Control Instructions): it takes its
/// condition, and opens a frame over what is below it.
///
/// # Errors
///
/// Refuses what [`open_block`] refuses, and a condition that isn't of `i32` (`Operand`). Where it
/// is refused, all stays.
#[tactic(auto, using(crate::proofs::Cited::acts, crate::proofs::BlockEntries::enters))]
pub fn open_if<A: Allocator, T: WasmModuleResources>(
    stacks: &mut Stacks<A>,
    resources: &T,
    ty: BlockType,
) -> Result<(), OperatorError>
    requires { IsWrittenBlock (block_of ty) }
    ensures took { Performs result (T.context resources.now)
        (control_shape (if_ (block_written ty))) stacks.old stacks.new }
    ensures same { Kept stacks.old stacks.new }
{
    let opening = match resolve(stacks, resources, ty) {
        Ok(opening) => opening,
        Err(fault) => return Err(OperatorError::Refused(fault)),
    };
    let condition = TypeWord::number(NumberType::I32);
    match check_type(stacks, resources, 0, condition) {
        Ok(first) => open_frame(
            stacks,
            resources,
            FrameKind::If,
            opening.word,
            first,
            opening.takes,
        ),
        Err(fault) => Err(OperatorError::Refused(fault)),
    }
}
