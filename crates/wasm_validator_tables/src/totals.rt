//! What is told of all tables of a module without ownership.

ghost use Rattle.std.specs.Prelude.{◌≡◌, true, false, length, IfOk, IfErr};
ghost use Rattle.wasm_validator_modules.specs.Verdict.{DecidesAlone};
ghost use Rattle.wasm_validator_tables.specs.ModuleTables.{HasSomeLargeBody};
ghost use Rattle.wasm_validator_tables.specs.ModuleReports.{AllStay, AreTold};
ghost use Rattle.wasm_validator_tables.specs.TableReports.{AreWritten};

use crate::module::{BodyTable, ModuleTables, NoTables, make_tables};
use crate::report::write_all;
use std::alloc::Global;
use wasm_spec_side_tables::Entry;
use wasm_validator_modules::readers::WasmFeatures;
use wasm_validator_modules::{Error, Types};

/// How many tables a module has, and how many entries they have together. C reads it as part of
/// `struct ruthvelka_side_tables`.
#[repr(C)]
#[derive(Clone, Copy)]
pub struct TableTotals {
    pub tables: u64,
    pub entries: u64,
}

/// The answer on a module whose tables were asked for.
#[derive(Drop)]
pub struct TablesAnswer {
    /// The types of the module, or why it was refused.
    pub answer: Result<Types, Error>,
    /// Whether tables were told: if not of a valid module, then a body ends where offsets have more
    /// than 32 bits.
    pub are_told: bool,
}

/// Makes tables as [`make_tables`] does, and tells of them: it writes them and their entries as far
/// as there is room, and nothing where it tells of none.
pub fn tell_tables(
    alloc: Global,
    bytes: &[u8],
    features: WasmFeatures,
    totals: &mut TableTotals,
    tables: &mut [BodyTable],
    entries: &mut [Entry],
) -> TablesAnswer
    ensures decided { DecidesAlone result.answer bytes.now 0 features }
    ensures told { result.are_told ≡ true → AreTold bytes.now features totals.new tables.old
        tables.new entries.old entries.new }
    ensures stays { result.are_told ≡ false → AllStay totals.old totals.new tables.old tables.new
        entries.old entries.new }
    ensures large { result.are_told ≡ false
        → IfOk result.answer (λ t. HasSomeLargeBody bytes.now features) }
    ensures refused { IfErr result.answer (λ e. result.are_told ≡ false) }
{
    match make_tables(alloc, bytes, features) {
        Ok(made) => {
            *totals = totals_of(&made);
            write_tables(tables, &made);
            write_entries(entries, &made);
            let ModuleTables {
                types,
                tables: _,
                entries: _,
            } = made;
            TablesAnswer {
                answer: Ok(types),
                are_told: true,
            }
        }
        Err(NoTables::Refused(error)) => TablesAnswer {
            answer: Err(error),
            are_told: false,
        },
        Err(NoTables::TooLarge(types)) => TablesAnswer {
            answer: Ok(types),
            are_told: false,
        },
    }
}

fn totals_of(made: &ModuleTables) -> TableTotals
    ensures tables { result.tables ≡ length made.now.tables.items }
    ensures entries { result.entries ≡ length made.now.entries.items }
{
    TableTotals {
        tables: made.tables.len() as u64,
        entries: made.entries.len() as u64,
    }
}

fn write_tables(to: &mut [BodyTable], made: &ModuleTables)
    ensures { AreWritten made.now.tables.items to.old to.new }
{
    write_all(to, made.tables.as_slice());
}

fn write_entries(to: &mut [Entry], made: &ModuleTables)
    ensures { AreWritten made.now.entries.items to.old to.new }
{
    write_all(to, made.entries.as_slice());
}
