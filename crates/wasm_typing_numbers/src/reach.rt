//! What a body may reach.

ghost use Rattle.std.specs.Prelude.{◌≡◌, Some, None, IfOk, OnErr};
ghost use Rattle.wasm_readers_types.specs.SeenExterns.{table_of};
ghost use Rattle.wasm_typing_numbers.specs.ReachableTables.{table_in};

use std::alloc::Allocator;
use wasm_readers_types::TableType;
use wasm_typing_checks::typing_stacks::Stacks;
use wasm_typing_checks::validator_resources::WasmModuleResources;
use wasm_typing_checks::{OperatorFault, OperatorRule, reaches};

/// The type of the table of this index.
///
/// # Errors
///
/// Refuses an unknown table, and one that isn't shared where the body is a shared function's.
pub fn table_reached<A: Allocator, T: WasmModuleResources>(
    stacks: &Stacks<A>,
    resources: &T,
    table: u32,
) -> Result<TableType, OperatorFault>
    ensures ok { IfOk result (λ t. table_in (T.context resources.now) stacks.now.is_shared
        table ≡ Some (table_of t)) }
    ensures err { OnErr result (table_in (T.context resources.now)
        stacks.now.is_shared table ≡ None) }
{
    match resources.table_at(table) {
        Some(ty) => {
            if reaches(stacks, ty.shared) {
                Ok(ty)
            } else {
                Err(OperatorFault::at(OperatorRule::Shared, table))
            }
        }
        None => Err(OperatorFault::at(OperatorRule::UnknownTable, table)),
    }
}
