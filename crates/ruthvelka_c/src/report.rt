//! What is told of one module.

ghost use Rattle.std.specs.Prelude.{◌≡◌};
ghost use Rattle.std.specs.declared.result.Result.TheVariants.{Err};
ghost use Rattle.wasm_validator_handles.specs.WasmValidator.WasmValidatorCore.declared.error.Error.TheVariants.{OutOfMemory};
ghost use Rattle.wasm_validator_handles.specs.Arrays.{HasText};
ghost use Rattle.ruthvelka_c.specs.Reports.{Tells, TellsCounts, TellsRefusal, bits_of, verdict_of};
ghost use Rattle.wasm_validator_handles.specs.WasmValidator.WasmValidatorTypes.ShownModules.{shown_by};

use std::alloc::Global;
use wasm_validator_handles::validator::{Error, Flags, Types, TypesRef, WasmFeatures};
use wasm_validator_handles::{count_exports, count_imports, write_text};

/// The verdict where the bytes are a valid module.
pub const VALID: u32 = 0;
/// The verdict where they are none.
pub const REFUSED: u32 = 1;
/// The verdict where memory was refused, so that nothing is said of the bytes.
pub const NO_MEMORY: u32 = 2;
/// The verdict of a module of a list that was not looked at.
pub const NOT_CHECKED: u32 = 3;
/// In the place of a function's index, where it is no body that is refused.
pub const NO_FUNCTION: u32 = 4_294_967_295;

/// What the validator answers.
pub type Answer = Result<Types, Error>;

/// What is told of a module. C reads it as `struct ruthvelka_report`.
#[repr(C)]
#[derive(Clone, Copy)]
pub struct Report {
    pub offset: u64,
    pub missing_features: u64,
    pub message_length: u64,
    pub imports: u64,
    pub exports: u64,
    pub names_length: u64,
    pub verdict: u32,
    pub function: u32,
    pub types: u32,
    pub functions: u32,
    pub tables: u32,
    pub memories: u32,
    pub globals: u32,
    pub tags: u32,
}

/// The report on an answer whose message has this length, and no names.
pub fn report_of(answer: &Answer, message_length: u64) -> Report
    ensures tells { Tells answer.now result }
    ensures message { result.message_length ≡ message_length }
    ensures names { result.names_length ≡ 0 }
{
    match answer {
        Ok(types) => report_counts(&types.as_ref(), message_length),
        Err(error) => report_refusal(error, message_length),
    }
}

/// The same, with the length of all names.
pub fn report_with_names(answer: &Answer, message_length: u64, names_length: u64) -> Report
    ensures tells { Tells answer.now result }
    ensures message { result.message_length ≡ message_length }
    ensures names { result.names_length ≡ names_length }
{
    let mut report = report_of(answer, message_length);
    report.names_length = names_length;
    report
}

/// The report that memory was refused.
pub fn report_no_memory() -> Report
    ensures tells { Tells (Err OutOfMemory) result }
    ensures message { result.message_length ≡ 0 }
{
    report_refusal(&Error::OutOfMemory, 0)
}

/// The report on an accepted module, with no names.
pub fn report_counts(types: &TypesRef<'_>, message_length: u64) -> Report
    ensures tells { TellsCounts (shown_by types.now).spaces result }
    ensures message { result.message_length ≡ message_length }
    ensures names { result.names_length ≡ 0 }
{
    Report {
        offset: 0,
        missing_features: 0,
        message_length,
        imports: count_imports(types),
        exports: count_exports(types),
        names_length: 0,
        verdict: VALID,
        function: NO_FUNCTION,
        types: types.core_type_count_in_module(),
        functions: types.function_count(),
        tables: types.table_count(),
        memories: types.memory_count(),
        globals: types.global_count(),
        tags: types.tag_count(),
    }
}

/// The report on a refusal.
pub fn report_refusal(error: &Error, message_length: u64) -> Report
    ensures tells { TellsRefusal error.now result }
    ensures message { result.message_length ≡ message_length }
    ensures names { result.names_length ≡ 0 }
{
    Report {
        offset: error.offset(),
        missing_features: bits(error.missing_features()),
        message_length,
        imports: 0,
        exports: 0,
        names_length: 0,
        verdict: refusal_verdict(error),
        function: error.function().unwrap_or(NO_FUNCTION),
        types: 0,
        functions: 0,
        tables: 0,
        memories: 0,
        globals: 0,
        tags: 0,
    }
}

fn refusal_verdict(error: &Error) -> u32
    ensures { result ≡ verdict_of error.now }
{
    match error {
        Error::Refused(_) => REFUSED,
        Error::DuplicateExport { name: _, offset: _ } => REFUSED,
        Error::InFunction { .. } => REFUSED,
        Error::OutOfMemory => NO_MEMORY,
    }
}

/// The bits of the proposal that is missing, if one is.
fn bits(missing: Option<WasmFeatures>) -> u64
    ensures { result ≡ bits_of missing }
{
    match missing {
        Some(features) => features.bits(),
        None => 0,
    }
}

/// Writes why a module is refused, as far as there is room, and gives the length of the whole text.
/// It is empty where the module is accepted, and where memory is refused, for the module or for it.
pub fn write_message(alloc: Global, answer: &Answer, to: &mut [u8]) -> u64
    ensures { HasText result to.old to.new }
{
    match answer {
        Ok(_) | Err(Error::OutOfMemory) => write_text(to, b""),
        Err(error) => match format!(in alloc; "{error}") {
            Ok(text) => write_text(to, text.as_str().as_bytes()),
            Err(_) => write_text(to, b""),
        },
    }
}
