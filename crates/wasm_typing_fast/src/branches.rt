//! Branches, and what stops code.

ghost use Rattle.wasm_operators.specs.Control.{br, br_if, return_, nop, unreachable};
ghost use Rattle.wasm_typing_control.specs.WasmTypingChecks.WasmSpecSteps.Shapes.{control_shape};
ghost use Rattle.wasm_typing_control.specs.WasmTypingChecks.WasmTypingStacks.BodyStacks.{Kept};
ghost use Rattle.wasm_typing_control.specs.FastSteps.{Performs};

use crate::general::{branch_generally, branch_if_generally, return_generally};
use std::alloc::Allocator;
use wasm_operators_plain::NumberType;
use wasm_typing_control::typing_stacks::{Stacks, TypeWord};
use wasm_typing_control::validator_resources::WasmModuleResources;
use wasm_typing_control::{NotTaken, label_types, peek, peek_types, returned_types};

/// `nop`.
#[inline(always)]
#[tactic(auto, using(crate::proofs::FastActions::acts, crate::proofs::BranchOperands::branches))]
pub fn do_nothing<A: Allocator, T: WasmModuleResources>(
    _stacks: &mut Stacks<A>,
    _resources: &T,
) -> Result<(), NotTaken>
    ensures took { Performs result (T.context _resources.now) (control_shape nop)
        _stacks.old _stacks.new }
    ensures same { Kept _stacks.old _stacks.new }
{
    Ok(())
}

/// `unreachable`.
#[inline(always)]
#[tactic(auto, using(crate::proofs::FastActions::acts, crate::proofs::BranchOperands::branches))]
pub fn trap<A: Allocator, T: WasmModuleResources>(
    stacks: &mut Stacks<A>,
    _resources: &T,
) -> Result<(), NotTaken>
    ensures took { Performs result (T.context _resources.now) (control_shape unreachable)
        stacks.old stacks.new }
    ensures same { Kept stacks.old stacks.new }
{
    if !stacks.is_open {
        return Err(NotTaken::Left);
    }
    stacks.stop();
    Ok(())
}

/// `br`. Where operands aren't seen at once to be of the label's types, the general way decides.
#[inline(always)]
#[tactic(auto, using(crate::proofs::FastActions::acts, crate::proofs::BranchOperands::branches))]
pub fn branch_away<A: Allocator, T: WasmModuleResources>(
    stacks: &mut Stacks<A>,
    resources: &T,
    depth: u32,
) -> Result<(), NotTaken>
    ensures took { Performs result (T.context resources.now) (control_shape (br depth))
        stacks.old stacks.new }
    ensures same { Kept stacks.old stacks.new }
{
    if !stacks.is_open {
        return Err(NotTaken::Left);
    }
    let types = match label_types(stacks, resources, depth) {
        Some(types) => types,
        None => return Err(NotTaken::Left),
    };
    match peek_types(stacks, resources, 0, types) {
        Ok(taken) => {
            stacks.take(taken);
            stacks.stop();
            Ok(())
        }
        Err(_) => branch_generally(stacks, resources, depth),
    }
}

/// `br_if`. Where it isn't seen at once that the operands are of the label's types, the general way
/// decides.
#[inline(always)]
#[tactic(auto, using(crate::proofs::FastActions::acts, crate::proofs::BranchOperands::branches))]
pub fn branch_perhaps<A: Allocator, T: WasmModuleResources>(
    stacks: &mut Stacks<A>,
    resources: &T,
    depth: u32,
) -> Result<(), NotTaken>
    ensures took { Performs result (T.context resources.now) (control_shape (br_if depth))
        stacks.old stacks.new }
    ensures same { Kept stacks.old stacks.new }
{
    peek(stacks, resources, 0, TypeWord::number(NumberType::I32))?;
    let types = match label_types(stacks, resources, depth) {
        Some(types) => types,
        None => return Err(NotTaken::Left),
    };
    match peek_types(stacks, resources, 1, types) {
        Ok(_) => {
            stacks.take(1);
            Ok(())
        }
        Err(_) => branch_if_generally(stacks, resources, depth),
    }
}

/// `return`. Where it isn't seen at once that the operands are of the body's types, the general way
/// decides.
#[inline(always)]
#[tactic(auto, using(crate::proofs::FastActions::acts, crate::proofs::BranchOperands::branches))]
pub fn return_all<A: Allocator, T: WasmModuleResources>(
    stacks: &mut Stacks<A>,
    resources: &T,
) -> Result<(), NotTaken>
    ensures took { Performs result (T.context resources.now) (control_shape return_)
        stacks.old stacks.new }
    ensures same { Kept stacks.old stacks.new }
{
    if !stacks.is_open {
        return Err(NotTaken::Left);
    }
    let types = match returned_types(stacks, resources) {
        Some(types) => types,
        None => return Err(NotTaken::Left),
    };
    match peek_types(stacks, resources, 0, types) {
        Ok(taken) => {
            stacks.take(taken);
            stacks.stop();
            Ok(())
        }
        Err(_) => return_generally(stacks, resources),
    }
}
