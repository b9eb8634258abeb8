//! Calls.

ghost use Rattle.wasm_typing_numbers.specs.WasmOperators.WasmOperatorsPlain.declared.calls.CallOperator.TheVariants.{Call, CallIndirect, CallRef};
ghost use Rattle.wasm_typing_numbers.specs.WasmSpecSteps.Shapes.{call_shape};
ghost use Rattle.wasm_typing_numbers.specs.WasmTypingStacks.BodyStacks.{Kept};
ghost use Rattle.wasm_typing_numbers.specs.WasmTypingChecks.Steps.{Performs};

use crate::reach::{function_reached, null_or, type_reached};
use crate::results::val_types_of;
use std::alloc::Allocator;
use wasm_readers_types::ValType;
use wasm_typing_numbers::readers_errors::WasmFeatures;
use wasm_typing_numbers::table_reached;
use wasm_typing_numbers::typing_checks::{
    OperatorError, OperatorFault, OperatorRule, Takes, ValTypes, address, has, plain, plain_with,
};
use wasm_typing_numbers::typing_stacks::Stacks;
use wasm_typing_numbers::validator_resources::WasmModuleResources;

/// `call`: takes a function's parameters, and gives its results (Core Specification 3.0,
/// Validation, Control Instructions).
#[tactic(auto, using(crate::proofs::Cited::acts, crate::proofs::Cited::types, crate::proofs::CallLookups::calls))]
pub fn call<A: Allocator, T: WasmModuleResources>(
    stacks: &mut Stacks<A>,
    resources: &T,
    function_index: u32,
) -> Result<(), OperatorError>
    ensures took { Performs result (T.context resources.now) (call_shape (Call function_index))
        stacks.old stacks.new }
    ensures same { Kept stacks.old stacks.new }
{
    match function_reached(stacks, resources, function_index) {
        Ok(signature) => plain(
            stacks,
            resources,
            Takes::Many(signature.params()),
            val_types_of(signature.results()),
        ),
        Err(fault) => Err(OperatorError::Refused(fault)),
    }
}

/// `call_indirect`: takes the parameters of a function type with a place in a table of functions on
/// top, and gives the results (Core Specification 3.0, Validation, Control Instructions).
#[tactic(auto, using(crate::proofs::Cited::acts, crate::proofs::Cited::types, crate::proofs::CallLookups::calls))]
pub fn call_indirect<A: Allocator, T: WasmModuleResources>(
    stacks: &mut Stacks<A>,
    resources: &T,
    type_index: u32,
    table_index: u32,
) -> Result<(), OperatorError>
    ensures took { Performs result (T.context resources.now)
        (call_shape (CallIndirect type_index table_index)) stacks.old stacks.new }
    ensures same { Kept stacks.old stacks.new }
{
    let table = match table_reached(stacks, resources, table_index) {
        Ok(table) => table,
        Err(fault) => return Err(OperatorError::Refused(fault)),
    };
    if !resources.is_subtype(ValType::Ref(table.element_type), ValType::FUNCREF) {
        return Err(OperatorError::Refused(OperatorFault::at(
            OperatorRule::TableTypes,
            table_index,
        )));
    }
    match type_reached(stacks, resources, type_index) {
        Ok(signature) => plain_with(
            stacks,
            resources,
            ValTypes::Many(signature.params()),
            address(table.table64),
            val_types_of(signature.results()),
        ),
        Err(fault) => Err(OperatorError::Refused(fault)),
    }
}

/// `call_ref`: takes the parameters of a function type with a reference to such a function, or
/// null, on top, and gives the results (Core Specification 3.0, Validation, Control Instructions).
#[tactic(auto, using(crate::proofs::Cited::acts, crate::proofs::Cited::types, crate::proofs::CallLookups::calls))]
pub fn call_ref<A: Allocator, T: WasmModuleResources>(
    stacks: &mut Stacks<A>,
    resources: &T,
    type_index: u32,
) -> Result<(), OperatorError>
    ensures took { Performs result (T.context resources.now) (call_shape (CallRef type_index))
        stacks.old stacks.new }
    ensures same { Kept stacks.old stacks.new }
{
    if !has(stacks, WasmFeatures::FUNCTION_REFERENCES) {
        return Err(OperatorError::Refused(OperatorFault::new(OperatorRule::FunctionReferences)));
    }
    let reference = match null_or(resources, type_index) {
        Some(reference) => reference,
        None => {
            return Err(OperatorError::Refused(OperatorFault::at(
                OperatorRule::UnknownType,
                type_index,
            )));
        }
    };
    match type_reached(stacks, resources, type_index) {
        Ok(signature) => plain_with(
            stacks,
            resources,
            ValTypes::Many(signature.params()),
            reference,
            val_types_of(signature.results()),
        ),
        Err(fault) => Err(OperatorError::Refused(fault)),
    }
}
