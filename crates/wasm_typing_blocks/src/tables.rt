//! `br_table`.

ghost use Rattle.std.specs.Prelude.{◌≡◌, ◌≤◌, [], true, Some, is_ok, length};
ghost use Rattle.wasm_spec.specs.Values.{u32_at};
ghost use Rattle.wasm_operators.specs.Control.{br_table};
ghost use Rattle.wasm_operators.specs.SeenLists.{listed};
ghost use Rattle.wasm_typing_control.specs.WasmTypingChecks.WasmSpecSteps.Actions.{label};
ghost use Rattle.wasm_typing_control.specs.WasmTypingChecks.WasmSpecSteps.Shapes.{control_shape};
ghost use Rattle.wasm_typing_control.specs.WasmTypingChecks.WasmTypingStacks.BodyStacks.{state_of, Kept};
ghost use Rattle.wasm_typing_control.specs.WasmTypingChecks.Steps.{Performs, typed};
ghost use Rattle.wasm_typing_control.specs.WasmTypingChecks.SeenTypes.{types_seen};
ghost use Rattle.wasm_typing_blocks.specs.BranchTargets.{fits, all_fit, LastPasses};

use std::alloc::Allocator;
use wasm_operators::operators_plain::NumberType;
use wasm_operators::{BrTable, Listed};
use wasm_typing_control::typing_checks::{
    OperatorError, OperatorFault, OperatorRule, ValTypes, check_type, check_types,
};
use wasm_typing_control::typing_stacks::{Block, Stacks, TypeWord};
use wasm_typing_control::validator_resources::WasmModuleResources;
use wasm_typing_control::{frame_at, label_types};

/// How many types these are.
#[tactic(auto, using(crate::proofs::TableBranches::counts))]
fn count<'a>(types: ValTypes<'a>) -> usize
    ensures { result ≡ length (types_seen types.entry) }
{
    match types {
        ValTypes::None => 0,
        ValTypes::One(_) => 1,
        ValTypes::Many(types) => types.len(),
    }
}

/// Whether a target takes so many operands, and finds its types below those that are taken already.
#[inline(never)]
#[tactic(auto, using(crate::proofs::TableBranches::targets))]
fn check_target<A: Allocator, T: WasmModuleResources>(
    stacks: &Stacks<A>,
    resources: &T,
    first: usize,
    wanted: usize,
    label: u32,
) -> Result<(), OperatorFault>
    requires { first ≤ length (state_of stacks.now).operands }
    ensures { is_ok result ≡ fits stacks.now (T.context resources.now) first wanted label }
{
    let types = match label_types(stacks, resources, label) {
        Some(types) => types,
        None => return Err(OperatorFault::at(OperatorRule::UnknownLabel, label)),
    };
    if count(types) != wanted {
        return Err(OperatorFault::at(OperatorRule::LabelTypes, label));
    }
    match check_types(stacks, resources, first, types) {
        Ok(_) => Ok(()),
        Err(fault) => Err(fault),
    }
}

/// Whether a label is that of a block without types, to which a branch takes nothing.
#[inline(always)]
#[tactic(auto, using(crate::proofs::TableBranches::empties))]
fn takes_nothing<A: Allocator, T: WasmModuleResources>(
    stacks: &Stacks<A>,
    _resources: &T,
    depth: u32,
) -> bool
    ensures { result ≡ true → typed stacks.now (T.context _resources.now) (label depth) ≡ Some [] }
{
    match frame_at(stacks, depth as usize) {
        Some(frame) => match frame.block.seen() {
            Block::Empty => true,
            Block::Value(_) => false,
            Block::Func(_) => false,
        },
        None => false,
    }
}

/// Whether it is the label that was checked last.
#[inline(always)]
fn is_last(last: Option<u32>, label: u32) -> bool
    ensures { result ≡ true → last ≡ Some label }
{
    match last {
        Some(checked) => checked == label,
        None => false,
    }
}

/// The same, where a label without types and the one that was checked last aren't checked again.
#[inline(always)]
#[tactic(auto, using(crate::proofs::TableBranches::targets))]
fn check_once<A: Allocator, T: WasmModuleResources>(
    stacks: &Stacks<A>,
    resources: &T,
    first: usize,
    wanted: usize,
    last: Option<u32>,
    label: u32,
) -> Result<(), OperatorFault>
    requires first { first ≤ length (state_of stacks.now).operands }
    requires known { LastPasses (fits stacks.now (T.context resources.now) first wanted) last }
    ensures { is_ok result ≡ fits stacks.now (T.context resources.now) first wanted label }
{
    if wanted == 0 {
        if takes_nothing(stacks, resources, label) {
            return Ok(());
        }
    }
    if is_last(last, label) {
        Ok(())
    } else {
        check_target(stacks, resources, first, wanted, label)
    }
}

/// Whether each target takes so many operands, and finds its types.
#[tactic(auto, using(crate::proofs::TableBranches::lists))]
fn check_targets<'a, A: Allocator, T: WasmModuleResources>(
    stacks: &Stacks<A>,
    resources: &T,
    first: usize,
    wanted: usize,
    targets: Listed<'a, u32>,
) -> Result<(), OperatorFault>
    requires { first ≤ length (state_of stacks.now).operands }
    ensures { is_ok result ≡ all_fit stacks.now (T.context resources.now) first wanted
        (listed u32_at targets.entry) }
{
    let mut left = targets.items();
    let mut last = None;
    'checking: while let Some(label) = left.next() {
        match check_once(stacks, resources, first, wanted, last, label) {
            Ok(()) => {}
            Err(fault) => return Err(fault),
        }
        last = Some(label);
    }
    Ok(())
}

/// `br_table` (Core Specification 3.0, Validation, Instructions, Control Instructions): it takes an
/// index and what its labels take, and what follows isn't reached. Each label finds its own types.
///
/// # Errors
///
/// Refuses an index that isn't of `i32` and operands that aren't what a label takes (`Operand`), a
/// label that isn't there (`UnknownLabel`), and one that takes more or fewer operands than the
/// default (`LabelTypes`). Where it is refused, all stays.
#[tactic(auto, using(crate::proofs::Cited::acts, crate::proofs::TableBranches::tables))]
pub fn branch_by_table<'a, A: Allocator, T: WasmModuleResources>(
    stacks: &mut Stacks<A>,
    resources: &T,
    table: BrTable<'a>,
) -> Result<(), OperatorError>
    ensures took { Performs result (T.context resources.now)
        (control_shape (br_table (listed u32_at table.entry.targets) table.entry.default))
        stacks.old stacks.new }
    ensures same { Kept stacks.old stacks.new }
{
    if !stacks.is_open {
        return Err(OperatorError::Refused(OperatorFault::new(OperatorRule::Ended)));
    }
    let index = TypeWord::number(NumberType::I32);
    let first = match check_type(stacks, resources, 0, index) {
        Ok(first) => first,
        Err(fault) => return Err(OperatorError::Refused(fault)),
    };
    let default = table.default;
    let types = match label_types(stacks, resources, default) {
        Some(types) => types,
        None => {
            let fault = OperatorFault::at(OperatorRule::UnknownLabel, default);
            return Err(OperatorError::Refused(fault));
        }
    };
    match check_targets(stacks, resources, first, count(types), table.targets) {
        Ok(()) => {}
        Err(fault) => return Err(OperatorError::Refused(fault)),
    }
    match check_types(stacks, resources, first, types) {
        Ok(taken) => {
            stacks.take(taken);
            stacks.stop();
            Ok(())
        }
        Err(fault) => Err(OperatorError::Refused(fault)),
    }
}
