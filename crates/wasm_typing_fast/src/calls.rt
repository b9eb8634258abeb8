//! Calls.

ghost use Rattle.wasm_operators_plain.specs.declared.calls.CallOperator.TheVariants.{Call, CallIndirect};
ghost use Rattle.wasm_typing_control.specs.WasmTypingChecks.WasmSpecSteps.Shapes.{call_shape};
ghost use Rattle.wasm_typing_control.specs.WasmTypingChecks.WasmTypingStacks.BodyStacks.{Kept};
ghost use Rattle.wasm_typing_control.specs.FastSteps.{Performs};

use crate::general::{call_generally, call_in_table_generally};
use std::alloc::Allocator;
use wasm_readers_types::ValType;
use wasm_typing_control::typing_checks::{ValTypes, address, exchange_types};
use wasm_typing_control::typing_numbers::table_reached;
use wasm_typing_control::typing_stacks::Stacks;
use wasm_typing_control::validator_resources::WasmModuleResources;
use wasm_typing_control::{
    NotTaken, function_reached, peek, peek_types, type_reached, val_types_of,
};

/// `call`. Where it isn't seen at once that the operands are of the function's types, the general
/// way decides.
#[inline(always)]
#[tactic(auto, using(crate::proofs::FastActions::acts))]
pub fn call_function<A: Allocator, T: WasmModuleResources>(
    stacks: &mut Stacks<A>,
    resources: &T,
    index: u32,
) -> Result<(), NotTaken>
    ensures took { Performs result (T.context resources.now) (call_shape (Call index))
        stacks.old stacks.new }
    ensures same { Kept stacks.old stacks.new }
{
    let signature = match function_reached(stacks, resources, index) {
        Ok(signature) => signature,
        Err(_) => return Err(NotTaken::Left),
    };
    match peek_types(stacks, resources, 0, ValTypes::Many(signature.params())) {
        Ok(taken) => match exchange_types(stacks, taken, val_types_of(signature.results())) {
            Ok(()) => Ok(()),
            Err(_) => Err(NotTaken::OutOfMemory),
        },
        Err(_) => call_generally(stacks, resources, index),
    }
}

/// `call_indirect`, as `call`.
#[cold]
#[inline(never)]
#[tactic(auto, using(crate::proofs::FastActions::acts))]
pub fn call_in_table<A: Allocator, T: WasmModuleResources>(
    stacks: &mut Stacks<A>,
    resources: &T,
    type_index: u32,
    table_index: u32,
) -> Result<(), NotTaken>
    ensures took { Performs result (T.context resources.now)
        (call_shape (CallIndirect type_index table_index)) stacks.old stacks.new }
    ensures same { Kept stacks.old stacks.new }
{
    let Ok(table) = table_reached(stacks, resources, table_index) else {
        return Err(NotTaken::Left);
    };
    if !resources.is_subtype(ValType::Ref(table.element_type), ValType::FUNCREF) {
        return Err(NotTaken::Left);
    }
    let Ok(signature) = type_reached(stacks, resources, type_index) else {
        return Err(NotTaken::Left);
    };
    peek(stacks, resources, 0, address(table.table64))?;
    match peek_types(stacks, resources, 1, ValTypes::Many(signature.params())) {
        Ok(count) => match exchange_types(stacks, count, val_types_of(signature.results())) {
            Ok(()) => Ok(()),
            Err(_) => Err(NotTaken::OutOfMemory),
        },
        Err(_) => call_in_table_generally(stacks, resources, type_index, table_index),
    }
}
