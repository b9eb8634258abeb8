//! `try`, and what is done with its exceptions, by the legacy exception-handling proposal.

ghost use Rattle.std.specs.Prelude.{◌≡◌, true, false, OnOk, OnErr};
ghost use Rattle.wasm_spec_rules.specs.FeatureFlags.{features_of};
ghost use Rattle.wasm_operators.specs.Legacy.{catch_, catch_all, rethrow, delegate};
ghost use Rattle.wasm_operators.specs.SeenLegacy.{legacy_of};
ghost use Rattle.wasm_typing_control.specs.WasmTypingChecks.WasmSpecSteps.Machine.{is_try, may_catch, has_caught, delegates};
ghost use Rattle.wasm_typing_control.specs.WasmTypingChecks.WasmSpecSteps.Shapes.{legacy_shape};
ghost use Rattle.wasm_typing_control.specs.WasmTypingChecks.WasmTypingStacks.BodyStacks.{state_of, Kept};
ghost use Rattle.wasm_typing_control.specs.WasmTypingChecks.WasmTypingStacks.SeenBlocks.{kind_of};
ghost use Rattle.wasm_typing_control.specs.WasmTypingChecks.SeenTypes.{types_seen};
ghost use Rattle.wasm_typing_control.specs.WasmTypingChecks.Steps.{Took, Performs};
ghost use Rattle.wasm_typing_blocks.specs.Legacy.{are_on, enabled_shape, caught};
ghost use Rattle.wasm_typing_blocks.specs.WrittenOperators.{legacy_written, IsWrittenLegacy};

use crate::alternatives::begin_again;
use crate::blocks::open_plain;
use crate::exceptions::thrown_types;
use std::alloc::Allocator;
use wasm_operators::{FrameKind, LegacyOperator};
use wasm_readers::readers_errors::WasmFeatures;
use wasm_typing_control::typing_checks::{
    OperatorError, OperatorFault, OperatorRule, ValTypes, check_types, exchange_types, has,
};
use wasm_typing_control::typing_stacks::Stacks;
use wasm_typing_control::validator_resources::WasmModuleResources;
use wasm_typing_control::{block_gives, end, frame_at, trap};

/// Whether it is a `try` that has caught nothing.
fn is_try(kind: FrameKind) -> bool
    ensures { result ≡ is_try (kind_of kind) }
{
    match kind {
        FrameKind::LegacyTry => true,
        FrameKind::Block => false,
        FrameKind::If => false,
        FrameKind::Else => false,
        FrameKind::Loop => false,
        FrameKind::TryTable => false,
        FrameKind::LegacyCatch => false,
        FrameKind::LegacyCatchAll => false,
    }
}

/// Whether a `catch` or a `catch_all` may follow.
fn may_catch(kind: FrameKind) -> bool
    ensures { result ≡ may_catch (kind_of kind) }
{
    match kind {
        FrameKind::LegacyTry => true,
        FrameKind::LegacyCatch => true,
        FrameKind::Block => false,
        FrameKind::If => false,
        FrameKind::Else => false,
        FrameKind::Loop => false,
        FrameKind::TryTable => false,
        FrameKind::LegacyCatchAll => false,
    }
}

/// Whether an exception is caught in it.
fn has_caught(kind: FrameKind) -> bool
    ensures { result ≡ has_caught (kind_of kind) }
{
    match kind {
        FrameKind::LegacyCatch => true,
        FrameKind::LegacyCatchAll => true,
        FrameKind::Block => false,
        FrameKind::If => false,
        FrameKind::Else => false,
        FrameKind::Loop => false,
        FrameKind::TryTable => false,
        FrameKind::LegacyTry => false,
    }
}

/// Leaves the frame of a `try` or of a `catch`, and opens another of its type in its place, in which
/// these operands stand. `rule` is what is told of another frame.
#[tactic(auto, using(crate::proofs::Cited::acts, crate::proofs::ElseAndCatch::catches))]
fn catch_with<'a, A: Allocator, T: WasmModuleResources>(
    stacks: &mut Stacks<A>,
    resources: &T,
    kind: FrameKind,
    types: ValTypes<'a>,
    rule: OperatorRule,
) -> Result<(), OperatorError>
    ensures took { Took result (caught stacks.old (T.context resources.now) (kind_of kind)
        (types_seen types.entry)) (state_of stacks.old) (state_of stacks.new) }
    ensures same { Kept stacks.old stacks.new }
{
    if !stacks.is_open {
        return Err(OperatorError::Refused(OperatorFault::new(OperatorRule::Ended)));
    }
    let frame = stacks.frame;
    let gives = match block_gives(resources, frame.block) {
        Some(gives) => gives,
        None => return Err(OperatorError::Refused(OperatorFault::new(OperatorRule::UnknownType))),
    };
    let taken = match check_types(stacks, resources, 0, gives) {
        Ok(taken) => taken,
        Err(fault) => return Err(OperatorError::Refused(fault)),
    };
    if stacks.operands.len() - taken != frame.height {
        return Err(OperatorError::Refused(OperatorFault::new(OperatorRule::OperandsLeft)));
    }
    if !may_catch(frame.kind) {
        return Err(OperatorError::Refused(OperatorFault::new(rule)));
    }
    match exchange_types(stacks, taken, types) {
        Ok(()) => {
            begin_again(stacks, kind);
            Ok(())
        }
        Err(_) => Err(OperatorError::OutOfMemory),
    }
}

/// `catch`: what the `try` or the `catch` before it gives is taken, and its frame begins again over
/// what an exception of the tag holds.
#[tactic(auto, using(crate::proofs::Cited::acts, crate::proofs::ExceptionTypes::throws))]
fn catch<A: Allocator, T: WasmModuleResources>(
    stacks: &mut Stacks<A>,
    resources: &T,
    tag: u32,
) -> Result<(), OperatorError>
    ensures took { Performs result (T.context resources.now) (enabled_shape (catch_ tag))
        stacks.old stacks.new }
    ensures same { Kept stacks.old stacks.new }
{
    match thrown_types(resources, tag) {
        Ok(types) => catch_with(
            stacks,
            resources,
            FrameKind::LegacyCatch,
            ValTypes::Many(types),
            OperatorRule::CatchOutsideTry,
        ),
        Err(fault) => Err(OperatorError::Refused(fault)),
    }
}

/// `catch_all`: the same over nothing.
#[tactic(auto, using(crate::proofs::ElseAndCatch::catches_all))]
fn catch_all<A: Allocator, T: WasmModuleResources>(
    stacks: &mut Stacks<A>,
    resources: &T,
) -> Result<(), OperatorError>
    ensures took { Performs result (T.context resources.now) (enabled_shape catch_all)
        stacks.old stacks.new }
    ensures same { Kept stacks.old stacks.new }
{
    catch_with(
        stacks,
        resources,
        FrameKind::LegacyCatchAll,
        ValTypes::None,
        OperatorRule::CatchAllOutsideTry,
    )
}

/// Whether the innermost frame is a `try` that has caught nothing, and this label, counted from
/// outside of it, is there.
#[tactic(auto, using(crate::proofs::LegacyLabels::outside))]
fn check_outside<A: Allocator>(stacks: &Stacks<A>, depth: u32) -> Result<(), OperatorFault>
    ensures ok { OnOk result (delegates (state_of stacks.now).frames depth ≡ true) }
    ensures err { OnErr result (delegates (state_of stacks.now).frames depth ≡ false) }
{
    if !stacks.is_open {
        return Err(OperatorFault::new(OperatorRule::Ended));
    }
    if !is_try(stacks.frame.kind) {
        return Err(OperatorFault::new(OperatorRule::DelegateOutsideTry));
    }
    match frame_at(stacks, depth as usize + 1) {
        Some(_) => Ok(()),
        None => Err(OperatorFault::new(OperatorRule::UnknownLabel)),
    }
}

/// `delegate`: the end of a `try` whose exceptions are thrown at this label.
#[tactic(auto, using(crate::proofs::Cited::acts, crate::proofs::LegacyLabels::finds))]
fn delegate<A: Allocator, T: WasmModuleResources>(
    stacks: &mut Stacks<A>,
    resources: &T,
    depth: u32,
) -> Result<(), OperatorError>
    ensures took { Performs result (T.context resources.now) (enabled_shape (delegate depth))
        stacks.old stacks.new }
    ensures same { Kept stacks.old stacks.new }
{
    match check_outside(stacks, depth) {
        Ok(()) => end(stacks, resources),
        Err(fault) => Err(OperatorError::Refused(fault)),
    }
}

/// `rethrow`: what follows isn't reached.
#[tactic(auto, using(crate::proofs::Cited::acts, crate::proofs::LegacyLabels::finds))]
fn rethrow<A: Allocator, T: WasmModuleResources>(
    stacks: &mut Stacks<A>,
    resources: &T,
    depth: u32,
) -> Result<(), OperatorError>
    ensures took { Performs result (T.context resources.now) (enabled_shape (rethrow depth))
        stacks.old stacks.new }
    ensures same { Kept stacks.old stacks.new }
{
    let frame = match frame_at(stacks, depth as usize) {
        Some(frame) => frame,
        None => {
            return Err(OperatorError::Refused(OperatorFault::new(OperatorRule::UnknownLabel)));
        }
    };
    if has_caught(frame.kind) {
        trap(stacks, resources)
    } else {
        Err(OperatorError::Refused(OperatorFault::new(OperatorRule::RethrowLabel)))
    }
}

/// Whether both proposals are on that the operators need. Without `LEGACY_EXCEPTIONS` this opcode is
/// none.
fn check_features<A: Allocator>(stacks: &Stacks<A>, opcode: u8) -> Result<(), OperatorFault>
    ensures ok { OnOk result (are_on (features_of stacks.now.features) ≡ true) }
    ensures err { OnErr result (are_on (features_of stacks.now.features) ≡ false) }
{
    if !has(stacks, WasmFeatures::LEGACY_EXCEPTIONS) {
        return Err(OperatorFault::at(OperatorRule::LegacyExceptions, opcode as u32));
    }
    if !has(stacks, WasmFeatures::EXCEPTIONS) {
        return Err(OperatorFault::new(OperatorRule::Exceptions));
    }
    Ok(())
}

/// An operator of legacy exceptions, where both proposals are on.
fn step_enabled<A: Allocator, T: WasmModuleResources>(
    stacks: &mut Stacks<A>,
    resources: &T,
    op: LegacyOperator,
) -> Result<(), OperatorError>
    requires { IsWrittenLegacy (legacy_of op) }
    ensures took { Performs result (T.context resources.now)
        (enabled_shape (legacy_written op)) stacks.old stacks.new }
    ensures same { Kept stacks.old stacks.new }
{
    match op {
        LegacyOperator::Try { blockty } => {
            open_plain(stacks, resources, FrameKind::LegacyTry, blockty)
        }
        LegacyOperator::Catch { tag_index } => catch(stacks, resources, tag_index),
        LegacyOperator::Rethrow { relative_depth } => rethrow(stacks, resources, relative_depth),
        LegacyOperator::Delegate { relative_depth } => delegate(stacks, resources, relative_depth),
        LegacyOperator::CatchAll => catch_all(stacks, resources),
    }
}

/// An operator of legacy exceptions (the legacy exception-handling proposal, Validation), as it is
/// written in a module.
///
/// # Errors
///
/// Refuses it without the proposal (`LegacyExceptions`) and without that of exceptions
/// (`Exceptions`); what [`open_block`](crate::open_block) refuses; a `catch` or `catch_all` behind
/// another frame than that of a `try` or of a `catch` (`CatchOutsideTry`, `CatchAllOutsideTry`), a
/// `delegate` of another frame than that of a `try` (`DelegateOutsideTry`), operands that aren't
/// what the frame before gives (`Operand`) and others besides (`OperandsLeft`); a tag that isn't
/// there (`UnknownTag`) or has results (`TagResults`), a label that isn't there (`UnknownLabel`), and
/// a `rethrow` to a frame that has caught nothing (`RethrowLabel`). Where it is refused, all stays.
#[tactic(auto, using(crate::proofs::Cited::acts, crate::proofs::LegacyLabels::gated))]
pub fn step_legacy<A: Allocator, T: WasmModuleResources>(
    stacks: &mut Stacks<A>,
    resources: &T,
    op: LegacyOperator,
) -> Result<(), OperatorError>
    requires { IsWrittenLegacy (legacy_of op) }
    ensures took { Performs result (T.context resources.now)
        (legacy_shape (legacy_written op)) stacks.old stacks.new }
    ensures same { Kept stacks.old stacks.new }
{
    match check_features(stacks, op.opcode()) {
        Ok(()) => step_enabled(stacks, resources, op),
        Err(fault) => Err(OperatorError::Refused(fault)),
    }
}
