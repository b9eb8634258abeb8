//! Operands that are known to be of given types.

ghost use Rattle.std.specs.Prelude.{◌≡◌, ◌≤◌, ◌+◌, true, false, length, drop, map, OnOk, OnErr};
ghost use Rattle.wasm_validator_resources.specs.WasmReadersTypes.WasmReadersValues.SeenValues.{val_of};
ghost use Rattle.wasm_typing_stacks.specs.WasmSpecSteps.Machine.{push_vals, pushed_onto};
ghost use Rattle.wasm_typing_stacks.specs.SeenOperands.{operand_of};
ghost use Rattle.wasm_typing_stacks.specs.BodyStacks.{state_of, below, Kept};

use crate::known_lists::are_known;
use std::alloc::{AllocError, Allocator};
use wasm_typing_stacks::{Stack, Stacks, Word};
use wasm_validator_resources::readers_types::ValType;

/// Whether operands that are known to be of these types, the last one on top, stand below so many.
#[inline(always)]
#[tactic(auto, using(crate::proofs::KnownOperands::knows))]
pub fn has_known<A: Allocator>(stacks: &Stacks<A>, taken: usize, types: &[ValType]) -> bool
    ensures there { result ≡ true → push_vals (map val_of types.now)
        (below (taken + length types.now) (state_of stacks.now))
        ≡ below taken (state_of stacks.now) }
    ensures within { result ≡ true
        → taken + length types.now ≤ length (state_of stacks.now).operands }
{
    let count = stacks.operands.len();
    if count < taken {
        return false;
    }
    if count - taken < types.len() {
        return false;
    }
    are_known(stacks.operands.slice(taken, types.len()), types)
}

/// Gives operands of these types in the place of so many, the last one on top, where operands that
/// are known to be of them stand in their places still, some above the top, since they were taken.
/// Says whether it did. Where not, all stays.
#[tactic(auto, using(crate::proofs::KnownOperands::lifts))]
fn lift_known<A: Allocator>(operands: &mut Stack<Word, A>, taken: usize, types: &[ValType]) -> bool
    requires there { taken ≤ length operands.old }
    requires fewer { taken ≤ length types.now }
    ensures given { result ≡ true → map operand_of operands.new
        ≡ pushed_onto (map val_of types.now) (drop taken (map operand_of operands.old)) }
    ensures left { result ≡ false → operands.new ≡ operands.old }
{
    let count = operands.len();
    if !operands.lift(types.len() - taken) {
        return false;
    }
    if are_known(operands.slice(0, types.len()), types) {
        return true;
    }
    operands.truncate(count);
    false
}

/// Gives operands of these types in the place of so many, the last one on top. Where those in their
/// places are known to be of them already, none is written. Where memory is refused, all stays.
#[tactic(auto, using(crate::proofs::KnownOperands::stays))]
pub(crate) fn exchange_many<A: Allocator>(
    stacks: &mut Stacks<A>,
    taken: usize,
    types: &[ValType],
) -> Result<(), AllocError>
    requires { taken ≤ length (state_of stacks.old).operands }
    ensures ok { OnOk result (state_of stacks.new
        ≡ push_vals (map val_of types.now) (below taken (state_of stacks.old))) }
    ensures err { OnErr result (state_of stacks.new ≡ state_of stacks.old) }
    ensures frame { stacks.new.frame ≡ stacks.old.frame }
    ensures open { stacks.new.is_open ≡ stacks.old.is_open }
    ensures same { Kept stacks.old stacks.new }
{
    if types.len() <= taken {
        let above = taken - types.len();
        if has_known(stacks, above, types) {
            stacks.take(above);
            return Ok(());
        }
    } else if lift_known(&mut stacks.operands, taken, types) {
        return Ok(());
    }
    stacks.exchange_many(taken, types)
}
