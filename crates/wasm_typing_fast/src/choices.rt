//! `drop`, and `select` between numbers.

ghost use Rattle.wasm_typing_control.specs.WasmTypingChecks.WasmSpecSteps.Shapes.{choosing, dropping};
ghost use Rattle.wasm_typing_control.specs.WasmTypingChecks.WasmTypingStacks.BodyStacks.{Kept};
ghost use Rattle.wasm_typing_control.specs.FastSteps.{Performs};

use std::alloc::Allocator;
use wasm_operators_plain::NumberType;
use wasm_typing_control::typing_checks::look;
use wasm_typing_control::typing_stacks::{Stacks, TypeWord};
use wasm_typing_control::validator_resources::WasmModuleResources;
use wasm_typing_control::{NotTaken, peek};

/// `select` between two numbers of this type, of which the lower one stays.
#[inline(always)]
#[tactic(auto, using(crate::proofs::FastActions::acts))]
fn select_number<A: Allocator, T: WasmModuleResources>(
    stacks: &mut Stacks<A>,
    resources: &T,
    ty: NumberType,
) -> Result<(), NotTaken>
    ensures took { Performs result (T.context resources.now) choosing stacks.old stacks.new }
    ensures same { Kept stacks.old stacks.new }
{
    peek(stacks, resources, 2, TypeWord::number(ty))?;
    peek(stacks, resources, 1, TypeWord::number(ty))?;
    peek(stacks, resources, 0, TypeWord::number(NumberType::I32))?;
    stacks.take(2);
    Ok(())
}

/// `select` between two floats.
#[cold]
#[inline(never)]
fn select_float<A: Allocator, T: WasmModuleResources>(
    stacks: &mut Stacks<A>,
    resources: &T,
) -> Result<(), NotTaken>
    ensures took { Performs result (T.context resources.now) choosing stacks.old stacks.new }
    ensures same { Kept stacks.old stacks.new }
{
    match peek(stacks, resources, 1, TypeWord::number(NumberType::F32)) {
        Ok(()) => select_number(stacks, resources, NumberType::F32),
        Err(_) => select_number(stacks, resources, NumberType::F64),
    }
}

/// `select` between two numbers of one type.
#[inline(always)]
pub fn select_of_two<A: Allocator, T: WasmModuleResources>(
    stacks: &mut Stacks<A>,
    resources: &T,
) -> Result<(), NotTaken>
    ensures took { Performs result (T.context resources.now) choosing stacks.old stacks.new }
    ensures same { Kept stacks.old stacks.new }
{
    match peek(stacks, resources, 1, TypeWord::number(NumberType::I32)) {
        Ok(()) => select_number(stacks, resources, NumberType::I32),
        Err(_) => match peek(stacks, resources, 1, TypeWord::number(NumberType::I64)) {
            Ok(()) => select_number(stacks, resources, NumberType::I64),
            Err(_) => select_float(stacks, resources),
        },
    }
}

/// `drop`.
#[inline(always)]
#[tactic(auto, using(crate::proofs::FastActions::acts, crate::proofs::LocalOperators::drops))]
pub fn drop_one<A: Allocator, T: WasmModuleResources>(
    stacks: &mut Stacks<A>,
    _resources: &T,
) -> Result<(), NotTaken>
    ensures took { Performs result (T.context _resources.now) dropping
        stacks.old stacks.new }
    ensures same { Kept stacks.old stacks.new }
{
    match look(stacks, 0) {
        Some((_, taken)) => {
            stacks.take(taken);
            Ok(())
        }
        None => Err(NotTaken::Left),
    }
}
