//! The start of a frame that takes nothing, and gives nothing or a number.

ghost use Rattle.std.specs.Prelude.{◌≡◌, ◌≤◌, IfOk, OnOk, true, length};
ghost use Rattle.std.specs.declared.option.Option.TheVariants.{Some};
ghost use Rattle.wasm_spec.specs.Syntax.{i32};
ghost use Rattle.wasm_typing_control.specs.WasmTypingChecks.WasmSpecRules.FeatureFlags.{features_of};
ghost use Rattle.wasm_typing_control.specs.WasmTypingChecks.WasmValidatorResources.Answers.{world};
ghost use Rattle.wasm_typing_control.specs.WasmTypingChecks.WasmSpecSteps.Machine.{pop_val};
ghost use Rattle.wasm_operators.specs.Control.{block, loop, if_};
ghost use Rattle.wasm_typing_control.specs.WasmTypingChecks.WasmSpecSteps.Shapes.{control_shape, opening, block_checks, nothing};
ghost use Rattle.wasm_typing_control.specs.WasmTypingChecks.WasmTypingStacks.BodyStacks.{state_of, below, Kept};
ghost use Rattle.wasm_typing_control.specs.WasmTypingChecks.WasmTypingStacks.SeenBlocks.{block_in, kind_of};
ghost use Rattle.wasm_typing_fast.specs.Blocks.{block_giving, block_named, allows_giving};
ghost use Rattle.wasm_typing_control.specs.FastSteps.{Performs};

use std::alloc::Allocator;
use wasm_operators::FrameKind;
use wasm_operators_plain::NumberType;
use wasm_typing_control::typing_numbers::allows_number;
use wasm_typing_control::typing_stacks::{BlockWord, Stacks, TypeWord};
use wasm_typing_control::validator_resources::WasmModuleResources;
use wasm_typing_control::{NotTaken, peek};

/// The block type that gives nothing or this number, where the features allow it.
#[inline(always)]
fn block_word<A: Allocator>(
    stacks: &Stacks<A>,
    gives: Option<NumberType>,
) -> Result<BlockWord, NotTaken>
    ensures named { IfOk result (λ word. block_in word ≡ block_named gives) }
    ensures allowed { OnOk result (allows_giving (features_of stacks.now.features) gives ≡ true) }
{
    match gives {
        None => Ok(BlockWord::empty()),
        Some(ty) => {
            if !allows_number(stacks, ty) {
                return Err(NotTaken::Left);
            }
            Ok(BlockWord::value(TypeWord::number(ty)))
        }
    }
}

/// A frame of this kind.
#[inline(always)]
#[tactic(auto, using(crate::proofs::FastActions::acts, crate::proofs::FrameEntries::enters))]
fn open_plain<A: Allocator, T: WasmModuleResources>(
    stacks: &mut Stacks<A>,
    _resources: &T,
    kind: FrameKind,
    gives: Option<NumberType>,
) -> Result<(), NotTaken>
    ensures took { Performs result (T.context _resources.now)
        (opening (block_checks (block_giving gives)) nothing (kind_of kind) (block_giving gives))
        stacks.old stacks.new }
    ensures same { Kept stacks.old stacks.new }
{
    match block_word(stacks, gives) {
        Ok(block) => match stacks.open(kind, block) {
            Ok(()) => Ok(()),
            Err(_) => Err(NotTaken::OutOfMemory),
        },
        Err(error) => Err(error),
    }
}

/// `block`.
#[inline(always)]
pub fn open_block<A: Allocator, T: WasmModuleResources>(
    stacks: &mut Stacks<A>,
    resources: &T,
    gives: Option<NumberType>,
) -> Result<(), NotTaken>
    ensures took { Performs result (T.context resources.now)
        (control_shape (block (block_giving gives))) stacks.old stacks.new }
    ensures same { Kept stacks.old stacks.new }
{
    open_plain(stacks, resources, FrameKind::Block, gives)
}

/// `loop`.
#[inline(always)]
pub fn open_loop<A: Allocator, T: WasmModuleResources>(
    stacks: &mut Stacks<A>,
    resources: &T,
    gives: Option<NumberType>,
) -> Result<(), NotTaken>
    ensures took { Performs result (T.context resources.now)
        (control_shape (loop (block_giving gives))) stacks.old stacks.new }
    ensures same { Kept stacks.old stacks.new }
{
    open_plain(stacks, resources, FrameKind::Loop, gives)
}

/// The block type of an `if` over its condition.
#[inline(always)]
fn conditioned_word<A: Allocator, T: WasmModuleResources>(
    stacks: &Stacks<A>,
    resources: &T,
    gives: Option<NumberType>,
) -> Result<BlockWord, NotTaken>
    ensures named { IfOk result (λ word. block_in word ≡ block_named gives) }
    ensures allowed { OnOk result (allows_giving (features_of stacks.now.features) gives ≡ true) }
    ensures popped { OnOk result (pop_val (world (T.context resources.now)) i32
        (state_of stacks.now) ≡ Some (below 1 (state_of stacks.now))) }
    ensures within { OnOk result (1 ≤ length (state_of stacks.now).operands) }
{
    let block = block_word(stacks, gives)?;
    peek(stacks, resources, 0, TypeWord::number(NumberType::I32))?;
    Ok(block)
}

/// `if`, which takes its condition.
#[inline(always)]
#[tactic(auto, using(crate::proofs::FastActions::acts, crate::proofs::FrameEntries::enters))]
pub fn open_if<A: Allocator, T: WasmModuleResources>(
    stacks: &mut Stacks<A>,
    resources: &T,
    gives: Option<NumberType>,
) -> Result<(), NotTaken>
    ensures took { Performs result (T.context resources.now)
        (control_shape (if_ (block_giving gives))) stacks.old stacks.new }
    ensures same { Kept stacks.old stacks.new }
{
    match conditioned_word(stacks, resources, gives) {
        Ok(block) => match stacks.open_below(FrameKind::If, block, 1) {
            Ok(()) => {
                stacks.take(1);
                Ok(())
            }
            Err(_) => Err(NotTaken::OutOfMemory),
        },
        Err(error) => Err(error),
    }
}
