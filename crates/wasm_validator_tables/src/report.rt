//! What is told of a table without ownership.

ghost use Rattle.std.specs.Prelude.{◌≡◌, IfErr, OnOk, OnErr};
ghost use Rattle.wasm_validator_tables.specs.FunctionTables.{Tells};
ghost use Rattle.wasm_validator_tables.specs.TableReports.{AreWritten, IsTold, Stays, counts_in};

use crate::function::{NoTable, make_table};
use std::alloc::{Allocator, Global};
use wasm_spec_side_tables::Entry;
use wasm_validator_modules::readers::WasmFeatures;
use wasm_validator_side_table::SideTable;

/// What is told of a table beside its entries. C reads it as part of `struct ruthvelka_side_table`.
#[repr(C)]
#[derive(Clone, Copy)]
pub struct TableCounts {
    /// How many entries there are.
    pub entries: u64,
    /// The offset of the first instruction.
    pub first: u32,
    /// The offset behind the last one.
    pub end: u32,
    /// How many operands there are at most.
    pub operands: u32,
    /// How many locals there are, parameters included.
    pub locals: u32,
}

/// Makes a table as [`make_table`] does, and tells of it: it writes its entries as far as there is
/// room.
///
/// # Errors
///
/// As [`make_table`]. Nothing is written then.
pub fn tell_table(
    alloc: Global,
    bytes: &[u8],
    features: WasmFeatures,
    function: u32,
    counts: &mut TableCounts,
    entries: &mut [Entry],
) -> Result<(), NoTable>
    ensures told { OnOk result (IsTold bytes.now features function counts.new entries.old
        entries.new) }
    ensures decides { IfErr result (Tells bytes.now features function) }
    ensures stays { OnErr result (Stays counts.old counts.new entries.old entries.new) }
{
    let mut table = SideTable::new(alloc);
    match make_table(alloc, bytes, features, function, &mut table) {
        Ok(()) => {
            *counts = counts_of(&table);
            write_all(entries, table.entries());
            Ok(())
        }
        Err(why) => Err(why),
    }
}

/// What is told of a table beside its entries.
pub fn counts_of<A: Allocator>(table: &SideTable<A>) -> TableCounts
    ensures { result ≡ counts_in table.now }
{
    TableCounts {
        entries: table.entries().len() as u64,
        first: table.first(),
        end: table.end(),
        operands: table.operands(),
        locals: table.locals(),
    }
}

/// Writes as many of these as there is room for.
pub fn write_all<T: Copy>(to: &mut [T], given: &[T])
    ensures { AreWritten given.now to.old to.new }
{
    let most = to.len().min(given.len());
    to[..most].copy_from_slice(&given[..most]);
}
