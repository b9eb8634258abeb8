//! Operators that the general way steps once they are read, out of line.

ghost use Rattle.wasm_operators_plain.specs.declared.calls.CallOperator.TheVariants.{Call, CallIndirect};
ghost use Rattle.wasm_operators.specs.Control.{br, br_if, return_};
ghost use Rattle.wasm_typing_control.specs.WasmTypingChecks.WasmSpecSteps.Shapes.{call_shape, control_shape, closing};
ghost use Rattle.wasm_typing_control.specs.WasmTypingChecks.WasmTypingStacks.BodyStacks.{Kept};
ghost use Rattle.wasm_typing_control.specs.FastSteps.{Performs};

use std::alloc::Allocator;
use wasm_typing_control::typing_stacks::Stacks;
use wasm_typing_control::validator_resources::WasmModuleResources;
use wasm_typing_control::{
    NotTaken, as_fast, branch, branch_if, call, call_indirect, end, give_back,
};

/// `call`.
#[cold]
#[inline(never)]
pub(crate) fn call_generally<A: Allocator, T: WasmModuleResources>(
    stacks: &mut Stacks<A>,
    resources: &T,
    index: u32,
) -> Result<(), NotTaken>
    ensures took { Performs result (T.context resources.now) (call_shape (Call index))
        stacks.old stacks.new }
    ensures same { Kept stacks.old stacks.new }
{
    as_fast(call(stacks, resources, index))
}

/// `call_indirect`.
#[cold]
#[inline(never)]
pub(crate) fn call_in_table_generally<A: Allocator, T: WasmModuleResources>(
    stacks: &mut Stacks<A>,
    resources: &T,
    type_index: u32,
    table_index: u32,
) -> Result<(), NotTaken>
    ensures took { Performs result (T.context resources.now)
        (call_shape (CallIndirect type_index table_index)) stacks.old stacks.new }
    ensures same { Kept stacks.old stacks.new }
{
    as_fast(call_indirect(stacks, resources, type_index, table_index))
}

/// `br`.
#[cold]
#[inline(never)]
pub(crate) fn branch_generally<A: Allocator, T: WasmModuleResources>(
    stacks: &mut Stacks<A>,
    resources: &T,
    depth: u32,
) -> Result<(), NotTaken>
    ensures took { Performs result (T.context resources.now) (control_shape (br depth))
        stacks.old stacks.new }
    ensures same { Kept stacks.old stacks.new }
{
    as_fast(branch(stacks, resources, depth))
}

/// `br_if`.
#[cold]
#[inline(never)]
pub(crate) fn branch_if_generally<A: Allocator, T: WasmModuleResources>(
    stacks: &mut Stacks<A>,
    resources: &T,
    depth: u32,
) -> Result<(), NotTaken>
    ensures took { Performs result (T.context resources.now) (control_shape (br_if depth))
        stacks.old stacks.new }
    ensures same { Kept stacks.old stacks.new }
{
    as_fast(branch_if(stacks, resources, depth))
}

/// `return`.
#[cold]
#[inline(never)]
pub(crate) fn return_generally<A: Allocator, T: WasmModuleResources>(
    stacks: &mut Stacks<A>,
    resources: &T,
) -> Result<(), NotTaken>
    ensures took { Performs result (T.context resources.now) (control_shape return_)
        stacks.old stacks.new }
    ensures same { Kept stacks.old stacks.new }
{
    as_fast(give_back(stacks, resources))
}

/// `end`.
#[cold]
#[inline(never)]
pub(crate) fn end_generally<A: Allocator, T: WasmModuleResources>(
    stacks: &mut Stacks<A>,
    resources: &T,
) -> Result<(), NotTaken>
    ensures took { Performs result (T.context resources.now) closing stacks.old stacks.new }
    ensures same { Kept stacks.old stacks.new }
{
    as_fast(end(stacks, resources))
}
