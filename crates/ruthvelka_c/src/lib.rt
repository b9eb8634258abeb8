//! The C interface of the validator. `include/ruthvelka.h` says to a C programmer what is promised;
//! here it is stated and proved, by the clauses of the validator itself.
#![tactic(auto)]

ghost use Rattle.std.specs.Prelude.{◌≡◌, ◌≤◌, ◌⊎◌, length, map};
ghost use Rattle.bitflags.specs.Sets.{known_bits};
ghost use Rattle.wasm_validator_handles.specs.Names.{bits_named};
ghost use Rattle.wasm_validator_handles.specs.WasmValidator.Verdict.{AreModule, AreNoModule};
ghost use Rattle.wasm_validator_handles.specs.Arrays.{HasText};
ghost use Rattle.ruthvelka_c.specs.Externs.{ToldWithExterns};
ghost use Rattle.ruthvelka_c.specs.Lists.{ListStays, QueriesStay, ToldList, ToldQueries, bytes_of};
ghost use Rattle.ruthvelka_c.specs.Names.{HasName};
ghost use Rattle.ruthvelka_c.specs.Reports.{Told, ToldWithIds, flags};

mod answers;
mod externs;
mod handles;
mod lists;
mod queries;
mod report;
mod sections;
mod side_tables;
mod types;

use answers::{answer_alone, answer_list, write_ids};
use externs::{gather_answer, write_all};
pub use lists::Bytes;
use lists::{gather_functions, gather_types, write_reports};
use queries::answer_queries;
pub use queries::{IS_SUBTYPE, MAY_BE_GIVEN, NO, Query, UNKNOWN, YES};
use report::{report_no_memory, report_of, report_with_names, write_message};
pub use report::{NO_FUNCTION, NO_MEMORY, NOT_CHECKED, REFUSED, Report, VALID};
use std::alloc::Global;
pub use wasm_validator_handles::Extern;
use wasm_validator_handles::validator::{Flags, WasmFeatures};
use wasm_validator_handles::{all_features, find_feature, find_name, write_name, write_numbers};

/// The version of the library, as major · 1,000,000 + minor · 1,000 + patch.
#[unsafe(no_mangle)]
pub extern "C" fn ruthvelka_proved_version() -> u32
    ensures { result ≡ 1000 }
{
    1000
}

/// The bits of all features, `CRATE_LIMITS` among them.
#[unsafe(no_mangle)]
pub extern "C" fn ruthvelka_proved_features() -> u64
    ensures { result ≡ known_bits ⟦<WasmFeatures as Flags>⟧.table }
{
    all_features()
}

/// The bits of the feature with this name, or none.
#[unsafe(no_mangle)]
pub extern "C" fn ruthvelka_proved_feature(name: &[u8]) -> u64
    ensures { result ≡ bits_named ⟦<WasmFeatures as Flags>⟧.table name.now }
{
    find_feature(name)
}

/// Writes the name of the feature with these bits, as far as there is room, and gives its length,
/// which is 0 where there is no such feature.
#[unsafe(no_mangle)]
pub extern "C" fn ruthvelka_proved_feature_name(bits: u64, name: &mut [u8]) -> u64
    ensures { HasName ⟦<WasmFeatures as Flags>⟧.table bits result name.old name.new }
{
    write_name(name, find_name(bits))
}

/// Validates one module with these proposals, writes the message of a refusal as far as there is
/// room, and reports the verdict, which is also the result.
#[unsafe(no_mangle)]
pub extern "C" fn ruthvelka_proved_validate(
    alloc: Global,
    bytes: &[u8],
    features: u64,
    message: &mut [u8],
    report: &mut Report,
) -> u32
    ensures told { Told bytes.now features report.new }
    ensures verdict { result ≡ report.new.verdict }
    ensures known { result ≤ 2 }
    ensures valid { result ≡ VALID → AreModule (flags features) bytes.now }
    ensures refused { result ≡ REFUSED → AreNoModule (flags features) bytes.now }
    ensures place { result ≡ REFUSED → report.new.offset ≤ length bytes.now }
    ensures message { HasText report.new.message_length message.old message.new }
{
    let answer = answer_alone(alloc, bytes, features);
    let message_length = write_message(alloc, &answer, message);
    *report = report_of(&answer, message_length);
    report.verdict
}

/// The same, and writes the ids of the module's types, and of the types of its functions, by their
/// indices, as far as there is room. Nothing is written there where the module is not valid.
#[unsafe(no_mangle)]
pub extern "C" fn ruthvelka_proved_validate_with_ids(
    alloc: Global,
    bytes: &[u8],
    features: u64,
    message: &mut [u8],
    report: &mut Report,
    type_ids: &mut [u32],
    function_ids: &mut [u32],
) -> u32
    ensures told { ToldWithIds bytes.now features report.new type_ids.old type_ids.new
        function_ids.old function_ids.new }
    ensures verdict { result ≡ report.new.verdict }
    ensures known { result ≤ 2 }
    ensures valid { result ≡ VALID → AreModule (flags features) bytes.now }
    ensures refused { result ≡ REFUSED → AreNoModule (flags features) bytes.now }
    ensures place { result ≡ REFUSED → report.new.offset ≤ length bytes.now }
    ensures message { HasText report.new.message_length message.old message.new }
{
    let answer = answer_alone(alloc, bytes, features);
    let message_length = write_message(alloc, &answer, message);
    write_ids(&answer, type_ids, function_ids);
    *report = report_of(&answer, message_length);
    report.verdict
}

/// The same, and writes the imports of the module, by their pairs of names, its exports, in their
/// order, and all their names, as far as there is room. Nothing is written there where the module is
/// not valid, or where memory to gather them is refused, which is then the verdict.
#[unsafe(no_mangle)]
pub extern "C" fn ruthvelka_proved_validate_with_externs(
    alloc: Global,
    bytes: &[u8],
    features: u64,
    message: &mut [u8],
    report: &mut Report,
    imports: &mut [Extern],
    exports: &mut [Extern],
    names: &mut [u8],
) -> u32
    ensures told { ToldWithExterns bytes.now features report.new imports.old imports.new
        exports.old exports.new names.old names.new }
    ensures verdict { result ≡ report.new.verdict }
    ensures known { result ≤ 2 }
    ensures valid { result ≡ VALID → AreModule (flags features) bytes.now }
    ensures refused { result ≡ REFUSED → AreNoModule (flags features) bytes.now }
    ensures place { result ≡ REFUSED → report.new.offset ≤ length bytes.now }
    ensures message { HasText report.new.message_length message.old message.new }
{
    let answer = answer_alone(alloc, bytes, features);
    match gather_answer(alloc, &answer) {
        Ok(externs) => {
            let message_length = write_message(alloc, &answer, message);
            let names_length = write_all(&externs, imports, exports, names);
            *report = report_with_names(&answer, message_length, names_length);
            report.verdict
        }
        Err(_) => {
            *report = report_no_memory();
            NO_MEMORY
        }
    }
}

/// Validates modules one after another by one validator with these proposals, as far as it goes, and
/// reports on each. The ids of the types, and of the types of the functions, of all accepted modules
/// come one module after another, all as far as there is room. The result is `VALID` where this was
/// done, whatever the verdicts are, and `NO_MEMORY` where memory was refused: nothing is written then.
#[unsafe(no_mangle)]
pub extern "C" fn ruthvelka_proved_validate_list(
    alloc: Global,
    modules: &[Bytes],
    features: u64,
    reports: &mut [Report],
    type_ids: &mut [u32],
    function_ids: &mut [u32],
) -> u32
    ensures told { result ≡ VALID → ToldList (map bytes_of modules.now) features reports.old
        reports.new type_ids.old type_ids.new function_ids.old function_ids.new }
    ensures memory { result ≡ NO_MEMORY → ListStays reports.old reports.new type_ids.old
        type_ids.new function_ids.old function_ids.new }
    ensures known { (result ≡ VALID) ⊎ (result ≡ NO_MEMORY) }
{
    let Ok(answers) = answer_list(alloc, modules, features) else {
        return NO_MEMORY;
    };
    let Ok(types) = gather_types(alloc, answers.as_slice()) else {
        return NO_MEMORY;
    };
    let Ok(functions) = gather_functions(alloc, answers.as_slice()) else {
        return NO_MEMORY;
    };
    write_reports(answers.as_slice(), modules.len(), reports);
    write_numbers(type_ids, types.as_slice());
    write_numbers(function_ids, functions.as_slice());
    VALID
}

/// The same with answers to questions about accepted modules, each in its place, and no ids.
#[unsafe(no_mangle)]
pub extern "C" fn ruthvelka_proved_validate_list_with_queries(
    alloc: Global,
    modules: &[Bytes],
    features: u64,
    reports: &mut [Report],
    queries: &mut [Query],
) -> u32
    ensures told { result ≡ VALID → ToldQueries (map bytes_of modules.now) features reports.old
        reports.new queries.old queries.new }
    ensures memory { result ≡ NO_MEMORY → QueriesStay reports.old reports.new
        queries.old queries.new }
    ensures known { (result ≡ VALID) ⊎ (result ≡ NO_MEMORY) }
{
    let Ok(answers) = answer_list(alloc, modules, features) else {
        return NO_MEMORY;
    };
    write_reports(answers.as_slice(), modules.len(), reports);
    answer_queries(answers.as_slice(), queries);
    VALID
}
