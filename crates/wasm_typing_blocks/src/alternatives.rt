//! `else`.

ghost use Rattle.std.specs.Prelude.{◌≡◌, true};
ghost use Rattle.wasm_operators.specs.Control.{else_};
ghost use Rattle.wasm_typing_control.specs.WasmTypingChecks.WasmSpecSteps.Machine.{is_if};
ghost use Rattle.wasm_typing_control.specs.WasmTypingChecks.WasmSpecSteps.Shapes.{control_shape};
ghost use Rattle.wasm_typing_control.specs.WasmTypingChecks.WasmTypingStacks.BodyStacks.{state_of, Kept};
ghost use Rattle.wasm_typing_control.specs.WasmTypingChecks.WasmTypingStacks.SeenBlocks.{kind_of};
ghost use Rattle.wasm_typing_control.specs.WasmTypingChecks.Steps.{Performs};
ghost use Rattle.wasm_typing_blocks.specs.FrameKinds.{again};

use std::alloc::Allocator;
use wasm_operators::FrameKind;
use wasm_typing_control::typing_checks::{
    OperatorError, OperatorFault, OperatorRule, check_types, exchange_types,
};
use wasm_typing_control::typing_stacks::Stacks;
use wasm_typing_control::validator_resources::WasmModuleResources;
use wasm_typing_control::{block_gives, block_takes};

/// Whether it is an `if` without its `else`.
fn is_if(kind: FrameKind) -> bool
    ensures { result ≡ is_if (kind_of kind) }
{
    match kind {
        FrameKind::If => true,
        FrameKind::Block => false,
        FrameKind::Loop => false,
        FrameKind::Else => false,
        FrameKind::TryTable => false,
        FrameKind::LegacyTry => false,
        FrameKind::LegacyCatch => false,
        FrameKind::LegacyCatchAll => false,
    }
}

/// Begins the innermost frame again as one of this kind, and forgets which locals it set.
#[tactic(auto, using(crate::proofs::ElseAndCatch::begins))]
pub(crate) fn begin_again<A: Allocator>(stacks: &mut Stacks<A>, kind: FrameKind)
    requires { stacks.old.is_open ≡ true }
    ensures state { state_of stacks.new ≡ again (kind_of kind) (state_of stacks.old) }
    ensures same { Kept stacks.old stacks.new }
{
    stacks.locals.unset(stacks.frame.init_height);
    stacks.frame.kind = kind;
    stacks.frame.unreachable = false;
    stacks.frame.init_height = stacks.locals.count_set();
}

/// `else` (Core Specification 3.0, Validation, Instructions, Control Instructions): what an `if`
/// gives is taken, and its frame begins again over what it takes.
///
/// # Errors
///
/// Refuses operands that aren't what the frame gives (`Operand`), others above those that stood
/// below it (`OperandsLeft`), and a frame that isn't that of an `if` (`ElseWithoutIf`). Where it is
/// refused, all stays.
#[tactic(auto, using(crate::proofs::Cited::acts, crate::proofs::ElseAndCatch::turns))]
pub fn turn_to_else<A: Allocator, T: WasmModuleResources>(
    stacks: &mut Stacks<A>,
    resources: &T,
) -> Result<(), OperatorError>
    ensures took { Performs result (T.context resources.now) (control_shape else_)
        stacks.old stacks.new }
    ensures same { Kept stacks.old stacks.new }
{
    if !stacks.is_open {
        return Err(OperatorError::Refused(OperatorFault::new(OperatorRule::Ended)));
    }
    let frame = stacks.frame;
    let gives = match block_gives(resources, frame.block) {
        Some(gives) => gives,
        None => return Err(OperatorError::Refused(OperatorFault::new(OperatorRule::UnknownType))),
    };
    let takes = match block_takes(resources, frame.block) {
        Some(takes) => takes,
        None => return Err(OperatorError::Refused(OperatorFault::new(OperatorRule::UnknownType))),
    };
    let taken = match check_types(stacks, resources, 0, gives) {
        Ok(taken) => taken,
        Err(fault) => return Err(OperatorError::Refused(fault)),
    };
    if stacks.operands.len() - taken != frame.height {
        return Err(OperatorError::Refused(OperatorFault::new(OperatorRule::OperandsLeft)));
    }
    if !is_if(frame.kind) {
        return Err(OperatorError::Refused(OperatorFault::new(OperatorRule::ElseWithoutIf)));
    }
    match exchange_types(stacks, taken, takes) {
        Ok(()) => {
            begin_again(stacks, FrameKind::Else);
            Ok(())
        }
        Err(_) => Err(OperatorError::OutOfMemory),
    }
}
