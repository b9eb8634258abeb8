//! Operators on a table's elements and its size.

ghost use Rattle.wasm_operators.specs.WasmOperatorsPlain.declared.tables.TableOperator.TheVariants.{TableGet, TableSet, TableSize, TableGrow, TableFill};
ghost use Rattle.wasm_typing_checks.specs.WasmSpecSteps.Shapes.{table_shape};
ghost use Rattle.wasm_typing_checks.specs.WasmTypingStacks.BodyStacks.{Kept};
ghost use Rattle.wasm_typing_checks.specs.Steps.{Performs};

use crate::reach::table_reached;
use std::alloc::Allocator;
use wasm_readers_errors::WasmFeatures;
use wasm_typing_checks::typing_stacks::{Stacks, TypeWord};
use wasm_typing_checks::validator_resources::WasmModuleResources;
use wasm_typing_checks::{
    OperatorError, OperatorFault, OperatorRule, Takes, ValTypes, address, has, plain,
};

/// `table.get`: takes an address, and gives an element (Core Specification 3.0, Validation, Table
/// Instructions).
#[tactic(auto, using(crate::proofs::Cited::acts, crate::proofs::Cited::types, crate::proofs::TableLookups::tables))]
pub fn table_get<A: Allocator, T: WasmModuleResources>(
    stacks: &mut Stacks<A>,
    resources: &T,
    table: u32,
) -> Result<(), OperatorError>
    ensures took { Performs result (T.context resources.now) (table_shape (TableGet table))
        stacks.old stacks.new }
    ensures same { Kept stacks.old stacks.new }
{
    if !has(stacks, WasmFeatures::REFERENCE_TYPES) {
        Err(OperatorFault::new(OperatorRule::ReferenceTypes))?;
    }
    let ty = table_reached(stacks, resources, table)?;
    plain(
        stacks,
        resources,
        Takes::One(address(ty.table64)),
        ValTypes::One(TypeWord::reference(ty.element_type)),
    )
}

/// `table.set`: takes an address, and an element on top (Core Specification 3.0, Validation, Table
/// Instructions).
#[tactic(auto, using(crate::proofs::Cited::acts, crate::proofs::Cited::types, crate::proofs::TableLookups::tables))]
pub fn table_set<A: Allocator, T: WasmModuleResources>(
    stacks: &mut Stacks<A>,
    resources: &T,
    table: u32,
) -> Result<(), OperatorError>
    ensures took { Performs result (T.context resources.now) (table_shape (TableSet table))
        stacks.old stacks.new }
    ensures same { Kept stacks.old stacks.new }
{
    if !has(stacks, WasmFeatures::REFERENCE_TYPES) {
        Err(OperatorFault::new(OperatorRule::ReferenceTypes))?;
    }
    let ty = table_reached(stacks, resources, table)?;
    plain(
        stacks,
        resources,
        Takes::Two(address(ty.table64), TypeWord::reference(ty.element_type)),
        ValTypes::None,
    )
}

/// `table.size`: gives a size, of the type of an address (Core Specification 3.0, Validation, Table
/// Instructions).
#[tactic(auto, using(crate::proofs::Cited::acts, crate::proofs::Cited::types, crate::proofs::TableLookups::tables))]
pub fn table_size<A: Allocator, T: WasmModuleResources>(
    stacks: &mut Stacks<A>,
    resources: &T,
    table: u32,
) -> Result<(), OperatorError>
    ensures took { Performs result (T.context resources.now) (table_shape (TableSize table))
        stacks.old stacks.new }
    ensures same { Kept stacks.old stacks.new }
{
    if !has(stacks, WasmFeatures::REFERENCE_TYPES) {
        Err(OperatorFault::new(OperatorRule::ReferenceTypes))?;
    }
    let ty = table_reached(stacks, resources, table)?;
    plain(
        stacks,
        resources,
        Takes::None,
        ValTypes::One(address(ty.table64)),
    )
}

/// `table.grow`: takes an element, and a number of elements on top, and gives the size from before
/// (Core Specification 3.0, Validation, Table Instructions).
#[tactic(auto, using(crate::proofs::Cited::acts, crate::proofs::Cited::types, crate::proofs::TableLookups::tables))]
pub fn table_grow<A: Allocator, T: WasmModuleResources>(
    stacks: &mut Stacks<A>,
    resources: &T,
    table: u32,
) -> Result<(), OperatorError>
    ensures took { Performs result (T.context resources.now) (table_shape (TableGrow table))
        stacks.old stacks.new }
    ensures same { Kept stacks.old stacks.new }
{
    if !has(stacks, WasmFeatures::REFERENCE_TYPES) {
        Err(OperatorFault::new(OperatorRule::ReferenceTypes))?;
    }
    let ty = table_reached(stacks, resources, table)?;
    let address = address(ty.table64);
    plain(
        stacks,
        resources,
        Takes::Two(TypeWord::reference(ty.element_type), address),
        ValTypes::One(address),
    )
}

/// `table.fill`: takes an address, an element, and a number of elements on top (Core Specification
/// 3.0, Validation, Table Instructions).
#[tactic(auto, using(crate::proofs::Cited::acts, crate::proofs::Cited::types, crate::proofs::TableLookups::tables))]
pub fn table_fill<A: Allocator, T: WasmModuleResources>(
    stacks: &mut Stacks<A>,
    resources: &T,
    table: u32,
) -> Result<(), OperatorError>
    ensures took { Performs result (T.context resources.now) (table_shape (TableFill table))
        stacks.old stacks.new }
    ensures same { Kept stacks.old stacks.new }
{
    if !has(stacks, WasmFeatures::REFERENCE_TYPES) {
        Err(OperatorFault::new(OperatorRule::ReferenceTypes))?;
    }
    let ty = table_reached(stacks, resources, table)?;
    let address = address(ty.table64);
    plain(
        stacks,
        resources,
        Takes::Three(address, TypeWord::reference(ty.element_type), address),
        ValTypes::None,
    )
}
