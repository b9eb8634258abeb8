//! Types that operands are checked against, and that are given.

ghost use Rattle.std.specs.Prelude.{◌≡◌, ◌≤◌, ◌∷◌, [], length, OnOk, OnErr};
ghost use Rattle.wasm_typing_stacks.specs.SeenTypeWords.{val_in};
ghost use Rattle.wasm_typing_stacks.specs.WasmSpecSteps.Machine.{pop_vals, push_vals};
ghost use Rattle.wasm_validator_resources.specs.Answers.{world};
ghost use Rattle.wasm_typing_stacks.specs.BodyStacks.{state_of, below, Kept};
ghost use Rattle.wasm_typing_checks.specs.Steps.{Checked};
ghost use Rattle.wasm_typing_checks.specs.SeenTypes.{types_seen, takes_seen};

use crate::faults::OperatorFault;
use crate::known::exchange_many;
use crate::looks::{check_many, check_type};
use std::alloc::{AllocError, Allocator};
use wasm_typing_stacks::{Stacks, TypeWord, Word};
use wasm_validator_resources::WasmModuleResources;
use wasm_validator_resources::readers_types::ValType;

/// None, one or many value types.
#[derive(Clone, Copy)]
pub enum ValTypes<'a> {
    None,
    One(TypeWord),
    Many(&'a [ValType]),
}

/// What an operator takes, the last one on top.
#[derive(Clone, Copy)]
pub enum Takes<'a> {
    None,
    One(TypeWord),
    Two(TypeWord, TypeWord),
    Three(TypeWord, TypeWord, TypeWord),
    Many(&'a [ValType]),
}

/// Whether operands of two types are below so many that are taken already.
#[inline(always)]
#[tactic(auto, using(crate::proofs::OperandExchanges::two))]
fn check_two<A: Allocator, T: WasmModuleResources>(
    stacks: &Stacks<A>,
    resources: &T,
    taken: usize,
    first: TypeWord,
    second: TypeWord,
) -> Result<usize, OperatorFault>
    requires { taken ≤ length (state_of stacks.now).operands }
    ensures { Checked result (pop_vals (world (T.context resources.now))
        (val_in first ∷ val_in second ∷ []) (below taken (state_of stacks.now)))
        (state_of stacks.now) }
{
    let taken = match check_type(stacks, resources, taken, second) {
        Ok(taken) => taken,
        Err(fault) => return Err(fault),
    };
    check_type(stacks, resources, taken, first)
}

/// Whether operands of these types are below so many that are taken already, and how many are taken
/// with them.
#[inline(always)]
pub fn check_types<'a, A: Allocator, T: WasmModuleResources>(
    stacks: &Stacks<A>,
    resources: &T,
    taken: usize,
    types: ValTypes<'a>,
) -> Result<usize, OperatorFault>
    requires { taken ≤ length (state_of stacks.now).operands }
    ensures { Checked result (pop_vals (world (T.context resources.now)) (types_seen types.entry)
        (below taken (state_of stacks.now))) (state_of stacks.now) }
{
    match types {
        ValTypes::None => Ok(taken),
        ValTypes::One(ty) => check_type(stacks, resources, taken, ty),
        ValTypes::Many(types) => check_many(stacks, resources, taken, types),
    }
}

/// Whether the operands are on top that an operator takes, and how many these are.
#[inline(always)]
#[tactic(auto, using(crate::proofs::OperandExchanges::three))]
pub fn check_takes<'a, A: Allocator, T: WasmModuleResources>(
    stacks: &Stacks<A>,
    resources: &T,
    takes: Takes<'a>,
) -> Result<usize, OperatorFault>
    ensures { Checked result (pop_vals (world (T.context resources.now)) (takes_seen takes.entry)
        (state_of stacks.now)) (state_of stacks.now) }
{
    match takes {
        Takes::None => Ok(0),
        Takes::One(ty) => check_type(stacks, resources, 0, ty),
        Takes::Two(first, second) => check_two(stacks, resources, 0, first, second),
        Takes::Three(first, second, third) => match check_type(stacks, resources, 0, third) {
            Ok(taken) => check_two(stacks, resources, taken, first, second),
            Err(fault) => Err(fault),
        },
        Takes::Many(types) => check_many(stacks, resources, 0, types),
    }
}

/// Gives operands of these types in the place of so many. Where memory is refused, all stays.
#[inline(always)]
pub fn exchange_types<'a, A: Allocator>(
    stacks: &mut Stacks<A>,
    taken: usize,
    types: ValTypes<'a>,
) -> Result<(), AllocError>
    requires { taken ≤ length (state_of stacks.old).operands }
    ensures ok { OnOk result (state_of stacks.new
        ≡ push_vals (types_seen types.entry) (below taken (state_of stacks.old))) }
    ensures err { OnErr result (state_of stacks.new ≡ state_of stacks.old) }
    ensures frame { stacks.new.frame ≡ stacks.old.frame }
    ensures open { stacks.new.is_open ≡ stacks.old.is_open }
    ensures same { Kept stacks.old stacks.new }
{
    match types {
        ValTypes::None => {
            stacks.take(taken);
            Ok(())
        }
        ValTypes::One(ty) => stacks.exchange(taken, Word::known(ty)),
        ValTypes::Many(types) => exchange_many(stacks, taken, types),
    }
}
