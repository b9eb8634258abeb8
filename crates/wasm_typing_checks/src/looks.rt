//! Looks at operands below others that count as taken.

ghost use Rattle.std.specs.Prelude.{◌≡◌, ◌≤◌, Some, true, length, map, IfSome};
ghost use Rattle.wasm_validator_resources.specs.WasmReadersTypes.WasmReadersValues.SeenValues.{val_of};
ghost use Rattle.wasm_typing_stacks.specs.SeenTypeWords.{val_in};
ghost use Rattle.wasm_typing_stacks.specs.WasmSpecSteps.Machine.{bottom, matches_operand, pop_any, pop_val, pop_vals, push_vals};
ghost use Rattle.wasm_typing_stacks.specs.SeenOperands.{operand_of};
ghost use Rattle.wasm_validator_resources.specs.Answers.{world};
ghost use Rattle.wasm_typing_stacks.specs.BodyStacks.{state_of, below};
ghost use Rattle.wasm_typing_checks.specs.Steps.{Looked, Checked};

use crate::faults::OperatorFault;
use crate::known::has_known;
use crate::matching::matches;
use std::alloc::Allocator;
use wasm_typing_stacks::operators_plain::NumberType;
use wasm_typing_stacks::{Stacks, TypeWord, Word};
use wasm_validator_resources::WasmModuleResources;
use wasm_validator_resources::readers_errors::OperatorRule;
use wasm_validator_resources::readers_types::ValType;

/// The operand below so many that are taken already, and how many are taken with it.
#[inline(always)]
#[tactic(auto, using(crate::proofs::OperandLookups::looks))]
pub fn look<A: Allocator>(stacks: &Stacks<A>, taken: usize) -> Option<(Word, usize)>
    requires { taken ≤ length (state_of stacks.now).operands }
    ensures { Looked result (pop_any (below taken (state_of stacks.now))) (state_of stacks.now) }
{
    if !stacks.is_open {
        return None;
    }
    if stacks.operands.len() - taken == stacks.frame.height {
        if stacks.frame.unreachable {
            Some((Word::bottom(), taken))
        } else {
            None
        }
    } else {
        let operand = stacks.operands.get(taken)?;
        Some((operand, taken + 1))
    }
}

/// Whether an operand of this type is below so many that are taken already, and how many are taken
/// with it.
#[inline(always)]
#[tactic(auto, using(crate::proofs::OperandLookups::checks))]
pub fn check_type<A: Allocator, T: WasmModuleResources>(
    stacks: &Stacks<A>,
    resources: &T,
    taken: usize,
    ty: TypeWord,
) -> Result<usize, OperatorFault>
    requires { taken ≤ length (state_of stacks.now).operands }
    ensures { Checked result (pop_val (world (T.context resources.now)) (val_in ty)
        (below taken (state_of stacks.now))) (state_of stacks.now) }
{
    match look(stacks, taken) {
        Some((operand, taken)) => {
            if matches(resources, operand, ty) {
                Ok(taken)
            } else {
                Err(OperatorFault::operand(ty, Some(operand)))
            }
        }
        None => Err(OperatorFault::operand(ty, None)),
    }
}

/// Whether code isn't reached here, and no operand of the innermost frame is left below so many that
/// are taken already: any more may be taken then.
#[inline(always)]
#[tactic(auto, using(crate::proofs::OperandLookups::looks))]
fn is_all_taken<A: Allocator>(stacks: &Stacks<A>, taken: usize) -> bool
    requires { taken ≤ length (state_of stacks.now).operands }
    ensures { result ≡ true → pop_any (below taken (state_of stacks.now))
        ≡ Some (bottom, below taken (state_of stacks.now)) }
{
    if !stacks.is_open {
        return false;
    }
    if stacks.operands.len() - taken != stacks.frame.height {
        return false;
    }
    stacks.frame.unreachable
}

/// Looks whether operands that are known to be of these types, the last one on top, are in the
/// innermost frame, below so many that are taken already, and how many are taken with them.
#[inline(always)]
#[tactic(auto, using(crate::proofs::InnermostOperands::finds))]
pub fn look_many<A: Allocator, T: WasmModuleResources>(
    stacks: &Stacks<A>,
    _resources: &T,
    taken: usize,
    types: &[ValType],
) -> Option<usize>
    ensures popped { IfSome result (λ k. pop_vals (world (T.context _resources.now))
        (map val_of types.now) (below taken (state_of stacks.now))
        ≡ Some (below k (state_of stacks.now))) }
    ensures there { IfSome result (λ k. push_vals (map val_of types.now)
        (below k (state_of stacks.now)) ≡ below taken (state_of stacks.now)) }
    ensures within { IfSome result (λ k. k ≤ length (state_of stacks.now).operands) }
{
    if !stacks.is_open {
        return None;
    }
    let count = stacks.operands.len();
    if count < stacks.frame.height {
        return None;
    }
    let above = count - stacks.frame.height;
    if above < taken {
        return None;
    }
    if above - taken < types.len() {
        return None;
    }
    if !has_known(stacks, taken, types) {
        return None;
    }
    Some(taken + types.len())
}

/// Looks, where code isn't reached, whether all operands of the innermost frame below so many that
/// are taken already are known to be of the last of these types, and how many are taken with them.
#[inline(never)]
#[tactic(auto, using(crate::proofs::OperandLists::last_looks))]
fn look_last<A: Allocator, T: WasmModuleResources>(
    stacks: &Stacks<A>,
    resources: &T,
    taken: usize,
    types: &[ValType],
) -> Option<usize>
    ensures popped { IfSome result (λ k. pop_vals (world (T.context resources.now))
        (map val_of types.now) (below taken (state_of stacks.now))
        ≡ Some (below k (state_of stacks.now))) }
    ensures within { IfSome result (λ k. k ≤ length (state_of stacks.now).operands) }
{
    if !stacks.frame.unreachable {
        return None;
    }
    let height = stacks.frame.height;
    let count = stacks.operands.len();
    if count < height {
        return None;
    }
    if count - height < taken {
        return None;
    }
    let left = count - height - taken;
    if types.len() < left {
        return None;
    }
    let all = look_many(stacks, resources, taken, &types[types.len() - left..])?;
    if !is_all_taken(stacks, all) {
        return None;
    }
    Some(all)
}

/// An operand and a type that it matches.
#[derive(Clone, Copy)]
struct Matched {
    operand: Word,
    ty: TypeWord,
}

/// Whether an operand is of a type. The two that matched last aren't looked up in the list of types
/// again.
#[inline(always)]
#[tactic(auto, using(crate::proofs::OperandLookups::matches_again))]
fn matches_next<T: WasmModuleResources>(
    resources: &T,
    operand: Word,
    ty: TypeWord,
    last: &mut Matched,
) -> bool
    requires { matches_operand (world (T.context resources.now)) (operand_of last.old.operand)
        (val_in last.old.ty) ≡ true }
    ensures decided { result ≡ matches_operand (world (T.context resources.now))
        (operand_of operand) (val_in ty) }
    ensures kept { matches_operand (world (T.context resources.now)) (operand_of last.new.operand)
        (val_in last.new.ty) ≡ true }
{
    if operand.bits == last.operand.bits && ty.bits == last.ty.bits {
        return true;
    }
    if matches(resources, operand, ty) {
        *last = Matched { operand, ty };
        return true;
    }
    false
}

/// As [`check_type`], for one of many types.
#[inline(always)]
#[tactic(auto, using(crate::proofs::OperandLookups::checks))]
fn check_next<A: Allocator, T: WasmModuleResources>(
    stacks: &Stacks<A>,
    resources: &T,
    taken: usize,
    ty: TypeWord,
    last: &mut Matched,
) -> Result<usize, OperatorFault>
    requires within { taken ≤ length (state_of stacks.now).operands }
    requires matched { matches_operand (world (T.context resources.now)) (operand_of last.old.operand)
        (val_in last.old.ty) ≡ true }
    ensures checked { Checked result (pop_val (world (T.context resources.now)) (val_in ty)
        (below taken (state_of stacks.now))) (state_of stacks.now) }
    ensures kept { matches_operand (world (T.context resources.now)) (operand_of last.new.operand)
        (val_in last.new.ty) ≡ true }
{
    match look(stacks, taken) {
        Some((operand, taken)) => {
            if matches_next(resources, operand, ty, last) {
                Ok(taken)
            } else {
                Err(OperatorFault::operand(ty, Some(operand)))
            }
        }
        None => Err(OperatorFault::operand(ty, None)),
    }
}

/// Whether operands of these types, the last one on top, are below so many that are taken already,
/// and how many are taken with them.
#[tactic(auto, using(crate::proofs::OperandLists::list_checks))]
pub fn check_many<A: Allocator, T: WasmModuleResources>(
    stacks: &Stacks<A>,
    resources: &T,
    taken: usize,
    types: &[ValType],
) -> Result<usize, OperatorFault>
    requires { taken ≤ length (state_of stacks.now).operands }
    ensures { Checked result (pop_vals (world (T.context resources.now)) (map val_of types.now)
        (below taken (state_of stacks.now))) (state_of stacks.now) }
{
    if let Some(taken) = look_many(stacks, resources, taken, types) {
        return Ok(taken);
    }
    if let Some(taken) = look_last(stacks, resources, taken, types) {
        return Ok(taken);
    }
    let count = types.len();
    let mut taken = taken;
    // an operand of any type matches each
    let mut last = Matched {
        operand: Word::bottom(),
        ty: TypeWord::number(NumberType::I32),
    };
    'checking: for i in 0..count {
        if is_all_taken(stacks, taken) {
            return Ok(taken);
        }
        taken = check_next(
            stacks,
            resources,
            taken,
            TypeWord::new(types[count - 1 - i]),
            &mut last,
        )?;
    }
    Ok(taken)
}
