//! The side tables of one function's body, or of all, for interpreters that run them in place.

ghost use Rattle.std.specs.Prelude.{◌≡◌, ◌≢◌, ◌⊎◌, true, false};
ghost use Rattle.wasm_validator_handles.specs.WasmValidator.Verdict.{AreModule, AreNoModule};
ghost use Rattle.wasm_validator_tables.specs.FunctionTables.{HasLargeBody, HasNoBody};
ghost use Rattle.wasm_validator_tables.specs.ModuleReports.{AllStay, AreTold};
ghost use Rattle.wasm_validator_tables.specs.ModuleTables.{HasSomeLargeBody};
ghost use Rattle.wasm_validator_tables.specs.TableReports.{IsTold, Stays};
ghost use Rattle.wasm_validator_handles.specs.Arrays.{HasText};
ghost use Rattle.ruthvelka_c.specs.Reports.{Told, flags};

use crate::answers::answer_alone;
use crate::handles::{STATUS_DONE, STATUS_NO_MEMORY, STATUS_REFUSED, STATUS_WRONG, error_status};
use crate::report::{Report, report_of, write_message};
use std::alloc::Global;
use wasm_validator_handles::validator::{Flags, WasmFeatures};
use wasm_validator_tables::{
    BodyTable, Entry, NoTable, TableCounts, TableTotals, tell_table, tell_tables,
};

/// Validates one module with these proposals, as `ruthvelka_proved_validate` does. Of a valid module
/// it tells of the side table of the body of the function with this index, and writes its entries,
/// as far as there is room. The call is wrong where there is no such body, or it ends past 32 bits.
#[unsafe(no_mangle)]
pub extern "C" fn ruthvelka_proved_side_table(
    alloc: Global,
    bytes: &[u8],
    features: u64,
    function: u32,
    message: &mut [u8],
    report: &mut Report,
    counts: &mut TableCounts,
    entries: &mut [Entry],
) -> u32
    ensures told { Told bytes.now features report.new }
    ensures valid { result ≡ STATUS_DONE → AreModule (flags features) bytes.now }
    ensures table { result ≡ STATUS_DONE → IsTold bytes.now (flags features) function counts.new
        entries.old entries.new }
    ensures refused { result ≡ STATUS_REFUSED → AreNoModule (flags features) bytes.now }
    ensures stays { result ≢ STATUS_DONE → Stays counts.old counts.new entries.old entries.new }
    ensures wrong { result ≡ STATUS_WRONG → AreModule (flags features) bytes.now }
    ensures none { result ≡ STATUS_WRONG → HasNoBody bytes.now (flags features) function
        ⊎ HasLargeBody bytes.now (flags features) function }
    ensures message { HasText report.new.message_length message.old message.new }
{
    let answer = answer_alone(alloc, bytes, features);
    let message_length = write_message(alloc, &answer, message);
    *report = report_of(&answer, message_length);
    match &answer {
        Ok(_) => tell(alloc, bytes, features, function, counts, entries),
        Err(error) => error_status(error),
    }
}

/// The same of a module that was accepted.
fn tell(
    alloc: Global,
    bytes: &[u8],
    features: u64,
    function: u32,
    counts: &mut TableCounts,
    entries: &mut [Entry],
) -> u32
    ensures table { result ≡ STATUS_DONE → IsTold bytes.now (flags features) function counts.new
        entries.old entries.new }
    ensures stays { result ≢ STATUS_DONE → Stays counts.old counts.new entries.old entries.new }
    ensures accepted { result ≢ STATUS_REFUSED }
    ensures none { result ≡ STATUS_WRONG → HasNoBody bytes.now (flags features) function
        ⊎ HasLargeBody bytes.now (flags features) function }
{
    let features = WasmFeatures::from_bits_retain(features);
    match tell_table(alloc, bytes, features, function, counts, entries) {
        Ok(()) => STATUS_DONE,
        Err(NoTable::Refused(_)) => STATUS_NO_MEMORY,
        Err(NoTable::NoBody) => STATUS_WRONG,
        Err(NoTable::TooLarge) => STATUS_WRONG,
    }
}

/// Validates one module with these proposals, and makes the side tables of all its bodies meanwhile.
/// Of a valid module it writes them, in their order, and their entries, as far as there is room. The
/// call is wrong where a body ends past 32 bits.
#[unsafe(no_mangle)]
pub extern "C" fn ruthvelka_proved_side_tables(
    alloc: Global,
    bytes: &[u8],
    features: u64,
    message: &mut [u8],
    report: &mut Report,
    totals: &mut TableTotals,
    tables: &mut [BodyTable],
    entries: &mut [Entry],
) -> u32
    ensures told { Told bytes.now features report.new }
    ensures valid { result ≡ STATUS_DONE → AreModule (flags features) bytes.now }
    ensures tables { result ≡ STATUS_DONE → AreTold bytes.now (flags features) totals.new tables.old
        tables.new entries.old entries.new }
    ensures refused { result ≡ STATUS_REFUSED → AreNoModule (flags features) bytes.now }
    ensures stays { result ≢ STATUS_DONE → AllStay totals.old totals.new tables.old tables.new
        entries.old entries.new }
    ensures wrong { result ≡ STATUS_WRONG → AreModule (flags features) bytes.now }
    ensures large { result ≡ STATUS_WRONG → HasSomeLargeBody bytes.now (flags features) }
    ensures message { HasText report.new.message_length message.old message.new }
{
    let features = WasmFeatures::from_bits_retain(features);
    let told = tell_tables(alloc, bytes, features, totals, tables, entries);
    let message_length = write_message(alloc, &told.answer, message);
    *report = report_of(&told.answer, message_length);
    match &told.answer {
        Ok(_) => done_or_wrong(told.are_told),
        Err(refusal) => error_status(refusal),
    }
}

/// The status of a valid module whose tables were asked for.
fn done_or_wrong(are_told: bool) -> u32
    ensures done { result ≡ STATUS_DONE → are_told ≡ true }
    ensures wrong { result ≢ STATUS_DONE → are_told ≡ false }
    ensures accepted { result ≢ STATUS_REFUSED }
{
    if are_told { STATUS_DONE } else { STATUS_WRONG }
}
