//! Operators on many elements of tables and on element segments.

ghost use Rattle.wasm_operators.specs.WasmOperatorsPlain.declared.tables.TableOperator.TheVariants.{TableCopy, TableInit, ElemDrop};
ghost use Rattle.wasm_typing_checks.specs.WasmSpecSteps.Shapes.{table_shape};
ghost use Rattle.wasm_typing_checks.specs.WasmTypingStacks.BodyStacks.{Kept};
ghost use Rattle.wasm_typing_checks.specs.Steps.{Performs};

use crate::reach::table_reached;
use std::alloc::Allocator;
use wasm_operators::operators_plain::NumberType;
use wasm_readers_errors::WasmFeatures;
use wasm_readers_types::ValType;
use wasm_typing_checks::typing_stacks::{Stacks, TypeWord};
use wasm_typing_checks::validator_resources::WasmModuleResources;
use wasm_typing_checks::{
    OperatorError, OperatorFault, OperatorRule, Takes, ValTypes, address, has, lesser, plain,
};

/// `table.copy`: takes an address in each of two tables, the one that is read on top, and a number
/// of elements above them (Core Specification 3.0, Validation, Table Instructions).
#[tactic(auto, using(crate::proofs::Cited::acts, crate::proofs::Cited::types, crate::proofs::TableLookups::tables))]
pub fn table_copy<A: Allocator, T: WasmModuleResources>(
    stacks: &mut Stacks<A>,
    resources: &T,
    dst_table: u32,
    src_table: u32,
) -> Result<(), OperatorError>
    ensures took { Performs result (T.context resources.now)
        (table_shape (TableCopy dst_table src_table)) stacks.old stacks.new }
    ensures same { Kept stacks.old stacks.new }
{
    if !has(stacks, WasmFeatures::BULK_MEMORY) {
        Err(OperatorFault::new(OperatorRule::BulkMemory))?;
    }
    let from = table_reached(stacks, resources, src_table)?;
    let to = table_reached(stacks, resources, dst_table)?;
    if !resources.is_subtype(
        ValType::Ref(from.element_type),
        ValType::Ref(to.element_type),
    ) {
        return Err(OperatorError::Refused(OperatorFault::at(OperatorRule::TableTypes, dst_table)));
    }
    plain(
        stacks,
        resources,
        Takes::Three(
            address(to.table64),
            address(from.table64),
            lesser(to.table64, from.table64),
        ),
        ValTypes::None,
    )
}

/// `table.init`: takes an address in a table, a place in an element segment, and a number of
/// elements on top (Core Specification 3.0, Validation, Table Instructions).
#[tactic(auto, using(crate::proofs::Cited::acts, crate::proofs::Cited::types, crate::proofs::TableLookups::tables))]
pub fn table_init<A: Allocator, T: WasmModuleResources>(
    stacks: &mut Stacks<A>,
    resources: &T,
    elem_index: u32,
    table: u32,
) -> Result<(), OperatorError>
    ensures took { Performs result (T.context resources.now)
        (table_shape (TableInit elem_index table)) stacks.old stacks.new }
    ensures same { Kept stacks.old stacks.new }
{
    if !has(stacks, WasmFeatures::BULK_MEMORY) {
        Err(OperatorFault::new(OperatorRule::BulkMemory))?;
    }
    let to = table_reached(stacks, resources, table)?;
    let from = match resources.element_type_at(elem_index) {
        Some(ty) => ty,
        None => return Err(OperatorError::Refused(OperatorFault::at(
            OperatorRule::UnknownElements,
            elem_index,
        ))),
    };
    if !resources.is_subtype(ValType::Ref(from), ValType::Ref(to.element_type)) {
        return Err(OperatorError::Refused(OperatorFault::at(OperatorRule::TableTypes, table)));
    }
    let number = TypeWord::number(NumberType::I32);
    plain(
        stacks,
        resources,
        Takes::Three(address(to.table64), number, number),
        ValTypes::None,
    )
}

/// `elem.drop`: takes nothing and gives nothing (Core Specification 3.0, Validation, Table
/// Instructions).
#[tactic(auto, using(crate::proofs::Cited::acts, crate::proofs::Cited::types, crate::proofs::TableLookups::tables))]
pub fn elem_drop<A: Allocator, T: WasmModuleResources>(
    stacks: &mut Stacks<A>,
    resources: &T,
    elem_index: u32,
) -> Result<(), OperatorError>
    ensures took { Performs result (T.context resources.now) (table_shape (ElemDrop elem_index))
        stacks.old stacks.new }
    ensures same { Kept stacks.old stacks.new }
{
    if !has(stacks, WasmFeatures::BULK_MEMORY) {
        Err(OperatorFault::new(OperatorRule::BulkMemory))?;
    }
    match resources.element_type_at(elem_index) {
        Some(_) => plain(stacks, resources, Takes::None, ValTypes::None),
        None => Err(OperatorError::Refused(OperatorFault::at(
            OperatorRule::UnknownElements,
            elem_index,
        ))),
    }
}
