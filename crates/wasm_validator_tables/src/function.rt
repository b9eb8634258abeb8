//! One function of a module.

ghost use Rattle.std.specs.Prelude.{ℕ, ◌≡◌, ◌<◌, ◌^◌, IfOk, IfErr, OnOk, OnErr};
ghost use Rattle.wasm_parser.specs.Places.{ends_at};
ghost use Rattle.wasm_parser.specs.PayloadViews.{body_reader, seen};
ghost use Rattle.wasm_validator_modules.specs.PayloadAnswers.{GivenEndBy, IsRefused};
ghost use Rattle.wasm_validator_side_table.specs.WasmValidatorSideNotes.Tables.{IsEmptyTable};
ghost use Rattle.wasm_validator_side_table.specs.Answers.{end_of};
ghost use Rattle.wasm_validator_tables.specs.FunctionTables.{FoundEndsBy, Gives, IsBodyIn, IsMade, IsTableIn, Takes, Tells, TellsOf, found_at, found_seen, reason_of};

use std::alloc::{Allocator, Global};
use wasm_validator_modules::readers::{FunctionBody, Parser, Payload, WasmFeatures};
use wasm_validator_modules::validator_func::{FuncToValidate, FuncValidatorAllocations};
use wasm_validator_modules::{Error, ValidPayload, Validator, ValidatorId, ValidatorResources};
use wasm_validator_side_table::validator_func::FuncValidator;
use wasm_validator_side_table::{
    SideTable, SideTableError, validate_next_with_side_table, validate_with_side_table,
};

/// Why there is no side table.
#[derive(Drop)]
pub enum NoTable<A: Allocator = Global> {
    /// The module isn't valid up to the function's body, or the body isn't, or memory was refused.
    Refused(Error<A>),
    /// The module has no body of such a function.
    NoBody,
    /// The body is valid, but the offset behind it has more than 32 bits.
    TooLarge,
}

/// The body of a function, as a payload handed it out.
#[derive(Drop)]
pub struct Found<'a, A: Allocator> {
    pub(crate) function: FuncToValidate<ValidatorResources<A>>,
    pub(crate) body: FunctionBody<'a>,
}

/// Validates a module up to the body of the function with this index, imported ones counted, and
/// makes the side table of the body. Bodies before it are passed over, and what is behind it isn't
/// looked at.
///
/// # Errors
///
/// Refused where a payload or the body is, and where memory is; and there is none where the module
/// has no such body, or has it where offsets have more than 32 bits. The table is empty then.
pub fn make_table<A: Allocator + Copy>(
    alloc: A,
    bytes: &[u8],
    features: WasmFeatures,
    function: u32,
    table: &mut SideTable<A>,
) -> Result<(), NoTable<A>>
    ensures made { OnOk result (IsTableIn bytes.now features function table.new) }
    ensures decides { IfErr result (Tells bytes.now features function) }
    ensures empty { OnErr result (IsEmptyTable table.new) }
{
    table.clear();
    let found = match find_body(alloc, bytes, features, function) {
        Ok(found) => found,
        Err(why) => return Err(why),
    };
    match make_for(FuncValidatorAllocations::new(alloc), found, table) {
        Ok(_memory) => Ok(()),
        Err(why) => Err(why),
    }
}

/// The body of this function, where the payloads up to it are accepted.
fn find_body<'a, A: Allocator + Copy>(
    alloc: A,
    bytes: &'a [u8],
    features: WasmFeatures,
    function: u32,
) -> Result<Found<'a, A>, NoTable<A>>
    ensures found { IfOk result (λ f. IsBodyIn bytes.now features function (found_seen f)
        (found_at f)) }
    ensures decides { IfErr result (Tells bytes.now features function) }
{
    let mut validator = Validator::new_with_features(alloc, features, ValidatorId::from_number(0));
    let mut payloads = Parser::new(alloc, 0).parse_all(bytes);
    'payloads: loop {
        let payload = match payloads.next_payload() {
            Ok(Some(payload)) => payload,
            Ok(None) => return Err(NoTable::NoBody),
            Err(refusal) => return Err(NoTable::Refused(Error::Refused(refusal))),
        };
        match take(&mut validator, &payload, function) {
            Ok(None) => drop(payload),
            Ok(Some(found)) => {
                drop(payload);
                return Ok(found);
            }
            Err(error) => {
                drop(payload);
                return Err(NoTable::Refused(error));
            }
        }
    }
}

/// Lets the validator take a payload. Gives what it hands out if that is the body of this function.
fn take<'a, A: Allocator + Copy>(
    validator: &mut Validator<A>,
    payload: &Payload<'a, A>,
    function: u32,
) -> Result<Option<Found<'a, A>>, Error<A>>
    ensures taken { IfOk result (Takes function (seen payload.now) (ends_at payload.now)
        validator.old validator.new) }
    ensures refused { IfErr result (IsRefused (seen payload.now) validator.old validator.new) }
{
    match validator.payload(payload) {
        Ok(valid) => Ok(pick(valid, function)),
        Err(error) => Err(error),
    }
}

/// What a payload gave, if that is the body of this function.
fn pick<'a, A: Allocator>(valid: ValidPayload<'a, A>, function: u32) -> Option<Found<'a, A>>
    ensures gives { Gives function valid.entry result }
    ensures within { (end : ℕ) → GivenEndBy end valid.entry → FoundEndsBy end result }
{
    match valid {
        ValidPayload::Func(it, body) => {
            if it.index == function {
                Some(Found { function: it, body })
            } else {
                None
            }
        }
        ValidPayload::Ok => None,
        ValidPayload::End(_types) => None,
    }
}

/// Why there is no table of the body of the function with this index.
fn reason<A: Allocator>(index: u32, error: SideTableError) -> NoTable<A>
    ensures { result ≡ reason_of index error }
{
    match error {
        SideTableError::Refused(refusal) => NoTable::Refused(Error::InFunction { index, refusal }),
        SideTableError::OutOfMemory => NoTable::Refused(Error::OutOfMemory),
        SideTableError::TooLarge => NoTable::TooLarge,
    }
}

/// Makes the side table of a body that was handed out, in memory that is given back.
pub fn make_for<A: Allocator + Copy>(
    memory: FuncValidatorAllocations<A>,
    found: Found<'_, A>,
    table: &mut SideTable<A>,
) -> Result<FuncValidatorAllocations<A>, NoTable<A>>
    ensures made { OnOk result (IsMade (found_seen found.entry) (found_at found.entry) table.new) }
    ensures decides { IfErr result (TellsOf (found_seen found.entry) (found_at found.entry)) }
    ensures empty { OnErr result (IsEmptyTable table.new) }
{
    let Found { function, body } = found;
    let index = function.index;
    match validate_with_side_table(function, &body, memory, table) {
        Ok(memory) => Ok(memory),
        Err(error) => Err(reason(index, error)),
    }
}

/// Makes the side table of a body that was handed out and ends where 32 bits have the offset, in place
/// of the one that the validator validated before.
pub fn make_next<A: Allocator + Copy>(
    validator: &mut FuncValidator<ValidatorResources<A>, A>,
    found: Found<'_, A>,
    table: &mut SideTable<A>,
) -> Result<(), NoTable<A>>
    requires few { end_of (body_reader found.body) < 2 ^ 32 }
    ensures made { OnOk result (IsMade (found_seen found.entry) (found_at found.entry) table.new) }
    ensures decides { IfErr result (TellsOf (found_seen found.entry) (found_at found.entry)) }
{
    let Found { function, body } = found;
    let index = function.index;
    match validate_next_with_side_table(validator, function, &body, table) {
        Ok(()) => Ok(()),
        Err(error) => Err(reason(index, error)),
    }
}
