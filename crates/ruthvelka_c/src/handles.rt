//! Validators, and the types of modules, behind handles that C keeps between calls.

ghost use Rattle.std.specs.Prelude.{◌≡◌, ◌⊎◌};
ghost use Rattle.std.specs.declared.option.Option.TheVariants.{None as Nothing, Some as Just};
ghost use Rattle.wasm_validator_handles.specs.HandleContents.{AreTypes, types_of, validator_of};
ghost use Rattle.wasm_validator_handles.specs.WasmValidator.ValidatorStages.{fresh};
ghost use Rattle.wasm_validator_handles.specs.Arrays.{HasText};
ghost use Rattle.ruthvelka_c.specs.Handles.{AreModuleHere, SaysLinked, SaysMatching, SaysSubtype, TellsAnswer, TellsIds, TellsOn, TellsReset, answer_of, error_status, refusal_status};
ghost use Rattle.ruthvelka_c.specs.Reports.{flags};

use crate::lists::not_checked;
use crate::queries::{UNKNOWN, judge_below, say, say_given};
use crate::report::{Answer, Report, report_counts, report_of, report_refusal, write_message};
use std::alloc::Global;
use wasm_validator_handles::validator::{
    CoreTypeId, Error, Flags, Types, Validator, ValidatorId, WasmFeatures,
};
use wasm_validator_handles::{
    Handle, Kept, NotAsked, ValueType, are_one, longer, match_values, nth_export, nth_import,
    write_function_ids, write_type_ids,
};

/// It was done.
pub const STATUS_DONE: u32 = 16;
/// The bytes are a valid module.
pub const STATUS_VALID: u32 = 17;
/// They are none.
pub const STATUS_REFUSED: u32 = 18;
/// Memory was refused, so that nothing is said.
pub const STATUS_NO_MEMORY: u32 = 19;
/// The validator stands within a module that it refused, and stays there.
pub const STATUS_FAILED: u32 = 20;
/// There is no validator, or there are no types, behind the handle.
pub const STATUS_WRONG: u32 = 21;

/// Puts a new validator with these proposals and this number behind the handle.
#[unsafe(no_mangle)]
pub extern "C" fn ruthvelka_proved_validator_new(
    alloc: Global,
    features: u64,
    number: usize,
    validator: &mut Handle,
) -> u32
    ensures made { result ≡ STATUS_DONE
        → validator_of validator.new.value ≡ Just (fresh number (flags features)) }
    ensures refused { result ≡ STATUS_NO_MEMORY → validator.new.value ≡ validator.old.value }
    ensures known { (result ≡ STATUS_DONE) ⊎ (result ≡ STATUS_NO_MEMORY) }
{
    let made = new_validator(alloc, features, number);
    match validator.hold(alloc, Kept::Validator(made)) {
        Ok(()) => STATUS_DONE,
        Err(_) => STATUS_NO_MEMORY,
    }
}

fn new_validator(alloc: Global, features: u64, number: usize) -> Validator
    ensures { result ≡ fresh number (flags features) }
{
    let features = WasmFeatures::from_bits_retain(features);
    Validator::new_with_features(alloc, features, ValidatorId::from_number(number))
}

/// Lets go what stands behind the handle, and leaves nothing there.
#[unsafe(no_mangle)]
pub extern "C" fn ruthvelka_proved_handle_free(alloc: Global, handle: &mut Handle)
    ensures { handle.new.value ≡ Nothing }
{
    drop(handle.open(alloc));
}

/// Asks the validator behind the handle about a module, behind a reset. It writes the message of a
/// refusal as far as there is room, and a report, whose verdict is no status; and it puts the types
/// of an accepted module behind the second handle, where nothing is left otherwise.
#[unsafe(no_mangle)]
pub extern "C" fn ruthvelka_proved_validator_validate(
    alloc: Global,
    validator: &mut Handle,
    bytes: &[u8],
    message: &mut [u8],
    report: &mut Report,
    types: &mut Handle,
) -> u32
    ensures told { TellsOn bytes.now validator.old.value validator.new.value report.new
        types.new.value result }
    ensures valid { result ≡ STATUS_VALID → AreModuleHere validator.old.value bytes.now }
    ensures message { HasText report.new.message_length message.old message.new }
{
    drop(types.open(alloc));
    match validator.validate(alloc, bytes) {
        Ok(answer) => tell_answer(alloc, answer, message, report, types),
        Err(why) => {
            *report = not_checked();
            status_of(why)
        }
    }
}

/// Tells of the answer on a module, and keeps its types behind the handle, which holds nothing.
fn tell_answer(
    alloc: Global,
    answer: Answer,
    message: &mut [u8],
    report: &mut Report,
    types: &mut Handle,
) -> u32
    requires { types.old.value ≡ Nothing }
    ensures told { TellsAnswer answer report.new types.new.value result }
    ensures message { HasText report.new.message_length message.old message.new }
{
    let message_length = write_message(alloc, &answer, message);
    *report = report_of(&answer, message_length);
    match answer {
        Ok(shown) => match types.hold_types(alloc, shown) {
            Ok(()) => STATUS_VALID,
            Err(_) => {
                *report = report_refusal(&Error::OutOfMemory, message_length);
                STATUS_NO_MEMORY
            }
        },
        Err(error) => error_status(&error),
    }
}

/// The status of a refusal, and of want of memory.
pub fn error_status(error: &Error) -> u32
    ensures { result ≡ error_status error.now }
{
    match error {
        Error::OutOfMemory => STATUS_NO_MEMORY,
        Error::Refused(_) => STATUS_REFUSED,
        Error::DuplicateExport { name: _, offset: _ } => STATUS_REFUSED,
        Error::InFunction { .. } => STATUS_REFUSED,
    }
}

fn status_of(why: NotAsked) -> u32
    ensures { result ≡ refusal_status why }
{
    match why {
        NotAsked::NoValidator => STATUS_WRONG,
        NotAsked::HasFailed => STATUS_FAILED,
    }
}

/// Makes the validator behind the handle ready for its next module. Its types keep their ids.
#[unsafe(no_mangle)]
pub extern "C" fn ruthvelka_proved_validator_reset(alloc: Global, validator: &mut Handle) -> u32
    ensures { TellsReset validator.old.value validator.new.value result }
{
    match validator.reset(alloc) {
        Ok(()) => STATUS_DONE,
        Err(why) => status_of(why),
    }
}

/// Puts the types behind the first handle behind the second one too.
#[unsafe(no_mangle)]
pub extern "C" fn ruthvelka_proved_types_retain(
    alloc: Global,
    types: &mut Handle,
    copy: &mut Handle,
) -> u32
    ensures kept { types.new.value ≡ types.old.value }
    ensures shared { result ≡ STATUS_DONE
        → AreTypes (types_of types.old.value) (types_of copy.new.value) }
    ensures refused { result ≡ STATUS_NO_MEMORY → copy.new.value ≡ copy.old.value }
    ensures wrong { result ≡ STATUS_WRONG
        → (types_of types.old.value ≡ Nothing) × (copy.new.value ≡ copy.old.value) }
    ensures known { (result ≡ STATUS_DONE) ⊎ (result ≡ STATUS_NO_MEMORY)
        ⊎ (result ≡ STATUS_WRONG) }
{
    match types.share(alloc) {
        Some(Ok(kept)) => match copy.hold(alloc, kept) {
            Ok(()) => STATUS_DONE,
            Err(_) => STATUS_NO_MEMORY,
        },
        Some(Err(_)) => STATUS_NO_MEMORY,
        None => STATUS_WRONG,
    }
}

/// Reports how many items the module has whose types stand behind the handle, and writes the ids of
/// its types, and of the types of its functions, as far as there is room.
#[unsafe(no_mangle)]
pub extern "C" fn ruthvelka_proved_types_ids(
    alloc: Global,
    types: &mut Handle,
    report: &mut Report,
    type_ids: &mut [u32],
    function_ids: &mut [u32],
) -> u32
    ensures kept { types.new.value ≡ types.old.value }
    ensures told { TellsIds (types_of types.old.value) report.old report.new type_ids.old
        type_ids.new function_ids.old function_ids.new result }
{
    let Some(it) = types.open(alloc) else {
        return STATUS_WRONG;
    };
    let status = tell_ids(it.as_ref(), report, type_ids, function_ids);
    types.close(it);
    status
}

fn tell_ids(kept: &Kept, report: &mut Report, type_ids: &mut [u32], function_ids: &mut [u32]) -> u32
    ensures { TellsIds (types_of (Just kept.now)) report.old report.new type_ids.old type_ids.new
        function_ids.old function_ids.new result }
{
    match kept.types() {
        Some(types) => {
            let shown = types.as_ref();
            *report = report_counts(&shown, 0);
            write_type_ids(type_ids, &shown);
            write_function_ids(function_ids, &shown);
            STATUS_DONE
        }
        None => STATUS_WRONG,
    }
}

/// Whether the type with the first id is that with the second one, or declared to be below it.
#[unsafe(no_mangle)]
pub extern "C" fn ruthvelka_proved_types_is_subtype(
    alloc: Global,
    types: &mut Handle,
    first: u32,
    second: u32,
) -> u32
    ensures kept { types.new.value ≡ types.old.value }
    ensures says { SaysSubtype (types_of types.old.value) first second result }
{
    let Some(it) = types.open(alloc) else {
        return STATUS_WRONG;
    };
    let answer = say_subtype(it.as_ref(), first, second);
    types.close(it);
    answer
}

fn say_subtype(kept: &Kept, first: u32, second: u32) -> u32
    ensures { SaysSubtype (types_of (Just kept.now)) first second result }
{
    match kept.types() {
        Some(types) => judge_below(
            types.as_ref().type_list(),
            CoreTypeId::from_index(first),
            CoreTypeId::from_index(second),
        ),
        None => STATUS_WRONG,
    }
}

/// Whether the first value type matches the second one.
#[unsafe(no_mangle)]
pub extern "C" fn ruthvelka_proved_types_matches(
    alloc: Global,
    types: &mut Handle,
    first: &ValueType,
    second: &ValueType,
) -> u32
    ensures kept { types.new.value ≡ types.old.value }
    ensures says { SaysMatching (types_of types.old.value) first.now second.now result }
{
    let Some(it) = types.open(alloc) else {
        return STATUS_WRONG;
    };
    let answer = say_matching(it.as_ref(), *first, *second);
    types.close(it);
    answer
}

fn say_matching(kept: &Kept, first: ValueType, second: ValueType) -> u32
    ensures { SaysMatching (types_of (Just kept.now)) first second result }
{
    match kept.types() {
        Some(types) => say_maybe(match_values(types.as_ref().type_list(), first, second)),
        None => STATUS_WRONG,
    }
}

fn say_maybe(answer: Option<bool>) -> u32
    ensures { result ≡ answer_of answer }
{
    match answer {
        Some(yes) => say(yes),
        None => UNKNOWN,
    }
}

/// Whether what the first module exports behind so many others may be given for what the second one
/// imports behind so many others. Both are of one validator.
#[unsafe(no_mangle)]
pub extern "C" fn ruthvelka_proved_types_may_be_given(
    alloc: Global,
    exporter: &mut Handle,
    exported: u32,
    importer: &mut Handle,
    imported: u32,
) -> u32
    ensures exporter { exporter.new.value ≡ exporter.old.value }
    ensures importer { importer.new.value ≡ importer.old.value }
    ensures says { SaysLinked (types_of exporter.old.value) exported (types_of importer.old.value)
        imported result }
{
    let Some(first) = exporter.open(alloc) else {
        return STATUS_WRONG;
    };
    let Some(second) = importer.open(alloc) else {
        exporter.close(first);
        return STATUS_WRONG;
    };
    let answer = say_between(first.as_ref(), exported, second.as_ref(), imported);
    exporter.close(first);
    importer.close(second);
    answer
}

fn say_between(first: &Kept, exported: u32, second: &Kept, imported: u32) -> u32
    ensures { SaysLinked (types_of (Just first.now)) exported (types_of (Just second.now)) imported
        result }
{
    match first.types() {
        Some(exporter) => match second.types() {
            Some(importer) => say_linked(exporter, exported, importer, imported),
            None => STATUS_WRONG,
        },
        None => STATUS_WRONG,
    }
}

fn say_linked(exporter: &Types, exported: u32, importer: &Types, imported: u32) -> u32
    ensures { SaysLinked (Just exporter.now) exported (Just importer.now) imported result }
{
    let first = exporter.as_ref();
    let second = importer.as_ref();
    if are_one(first.id(), second.id()) {
        say_given(
            nth_export(&first, exported),
            nth_import(&second, imported),
            Some(longer(first.type_list(), second.type_list())),
        )
    } else {
        STATUS_WRONG
    }
}
