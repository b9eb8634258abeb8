//! Constants and numeric operators.

ghost use Rattle.std.specs.Prelude.{◌∷◌, []};
ghost use Rattle.wasm_operators_plain.specs.declared.signatures.Signature.TheVariants.{Unary, Binary};
ghost use Rattle.wasm_typing_control.specs.WasmTypingChecks.WasmSpecSteps.Actions.{allows};
ghost use Rattle.wasm_typing_control.specs.WasmTypingChecks.WasmSpecSteps.Shapes.{computing, number_type, nothing, one, plain as plain_shape};
ghost use Rattle.wasm_typing_control.specs.WasmTypingChecks.WasmTypingStacks.BodyStacks.{Kept};
ghost use Rattle.wasm_typing_control.specs.FastSteps.{Performs};

use std::alloc::Allocator;
use wasm_operators_plain::{NumberType, Signature};
use wasm_typing_control::typing_numbers::allows_number;
use wasm_typing_control::typing_stacks::{Stacks, TypeWord};
use wasm_typing_control::validator_resources::WasmModuleResources;
use wasm_typing_control::{NotTaken, exchange_known, exchange_two_known, give_known};

/// An operator that takes a number and gives one.
#[inline(always)]
#[tactic(auto, using(crate::proofs::FastActions::acts, crate::proofs::Cited::types))]
fn unary<A: Allocator, T: WasmModuleResources>(
    stacks: &mut Stacks<A>,
    resources: &T,
    from: NumberType,
    to: NumberType,
) -> Result<(), NotTaken>
    ensures took { Performs result (T.context resources.now) (computing (Unary from to))
        stacks.old stacks.new }
    ensures same { Kept stacks.old stacks.new }
{
    if !allows_number(stacks, from) {
        return Err(NotTaken::Left);
    }
    if !allows_number(stacks, to) {
        return Err(NotTaken::Left);
    }
    exchange_known(
        stacks,
        resources,
        TypeWord::number(from),
        TypeWord::number(to),
    )
}

/// An operator that takes two numbers of one type and gives one.
#[inline(always)]
#[tactic(auto, using(crate::proofs::FastActions::acts, crate::proofs::Cited::types))]
fn binary<A: Allocator, T: WasmModuleResources>(
    stacks: &mut Stacks<A>,
    resources: &T,
    from: NumberType,
    to: NumberType,
) -> Result<(), NotTaken>
    ensures took { Performs result (T.context resources.now) (computing (Binary from to))
        stacks.old stacks.new }
    ensures same { Kept stacks.old stacks.new }
{
    if !allows_number(stacks, from) {
        return Err(NotTaken::Left);
    }
    if !allows_number(stacks, to) {
        return Err(NotTaken::Left);
    }
    exchange_two_known(
        stacks,
        resources,
        TypeWord::number(from),
        TypeWord::number(from),
        TypeWord::number(to),
    )
}

/// An operator that takes and gives numbers.
#[inline(always)]
pub fn compute<A: Allocator, T: WasmModuleResources>(
    stacks: &mut Stacks<A>,
    resources: &T,
    signature: Signature,
) -> Result<(), NotTaken>
    ensures took { Performs result (T.context resources.now) (computing signature)
        stacks.old stacks.new }
    ensures same { Kept stacks.old stacks.new }
{
    match signature {
        Signature::Unary(from, to) => unary(stacks, resources, from, to),
        Signature::Binary(from, to) => binary(stacks, resources, from, to),
    }
}

/// A constant of a number type.
#[inline(always)]
#[tactic(auto, using(crate::proofs::FastActions::acts, crate::proofs::Cited::types))]
pub fn constant<A: Allocator, T: WasmModuleResources>(
    stacks: &mut Stacks<A>,
    resources: &T,
    ty: NumberType,
) -> Result<(), NotTaken>
    ensures took { Performs result (T.context resources.now)
        (plain_shape (allows (number_type ty) ∷ []) nothing (one (number_type ty)))
        stacks.old stacks.new }
    ensures same { Kept stacks.old stacks.new }
{
    if !allows_number(stacks, ty) {
        return Err(NotTaken::Left);
    }
    give_known(stacks, resources, TypeWord::number(ty))
}
