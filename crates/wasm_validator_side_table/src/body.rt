//! Whole bodies.

ghost use Rattle.std.specs.Prelude.{◌≡◌, ◌<◌, ◌≤◌, ◌^◌, max, [], false, true, OnOk, OnErr, IfErr};
ghost use Rattle.wasm_spec_rules.specs.FeatureFlags.{features_of};
ghost use Rattle.wasm_readers.specs.WasmReadersBytes.Reader.{SameInput, position_in, place_of_next, rest};
ghost use Rattle.wasm_parser.specs.PayloadViews.{body_of, body_reader};
ghost use Rattle.wasm_validator_resources.specs.Answers.{world};
ghost use Rattle.wasm_validator_side_notes.specs.WasmTypingValidator.WasmTypingStacks.BodyStacks.{Kept};
ghost use Rattle.wasm_validator_side_notes.specs.WasmTypingValidator.BodyTyping.{typed_state, locals_in};
ghost use Rattle.wasm_validator_side_notes.specs.WasmTypingValidator.TypedInstructions.{within, IsRefusedAt, StandsIn, ReadsTo};
ghost use Rattle.wasm_validator_side_notes.specs.WasmTypingValidator.StepsFromBytes.{ReadsStep, stepped};
ghost use Rattle.wasm_validator_side_notes.specs.WasmValidatorFunc.Bodies.{instructions_from};
ghost use Rattle.wasm_validator_side_notes.specs.WasmValidatorFunc.Functions.{IsFunctionBody};
ghost use Rattle.wasm_validator_side_notes.specs.WasmValidatorFunc.BodyValidation.{body_in, Validates};
ghost use Rattle.wasm_validator_side_table.specs.Answers.{IsBehind, Makes, StandsSo, end_of};
ghost use Rattle.wasm_validator_side_notes.specs.TableViews.{shown};
ghost use Rattle.wasm_validator_side_notes.specs.Tables.{Advances, Reaches, HasRead, IsTableOf, IsEmptyTable};

use crate::error::{SideTableError, of_validator};
use std::alloc::Allocator;
use wasm_parser::FunctionBody;
use wasm_readers::BinaryReader;
use wasm_readers_errors::{Error, Fault, OperatorRule, Refusal};
use wasm_validator_resources::WasmModuleResources;
use wasm_validator_side_notes::side_tables::narrow_offset;
use wasm_validator_side_notes::validator_func::{
    FuncToValidate, FuncValidator, FuncValidatorAllocations, read_served,
};
use wasm_validator_side_notes::{SideTable, Taken, Told};

/// The refusal of bytes behind the end of a body, at the first of them.
fn behind_end(offset: u64) -> Error
    ensures { IsRefusedAt offset result }
{
    Error::Refused(Refusal::new(Fault::Operator(OperatorRule::Ended, 0), offset))
}

/// Notes the next operator, and lets the validator take its step.
#[tactic(auto, using(wasm_validator_side_notes::proofs::NextInstructions::advancing))]
fn read_one<'a, T: WasmModuleResources, A: Allocator, B: Allocator>(
    table: &mut SideTable<A>,
    validator: &mut FuncValidator<T, B>,
    reader: &mut BinaryReader<'a>,
) -> Result<(), Error>
    requires { validator.old.validator.failed ≡ false }
    ensures advances { OnOk result (Advances (world (T.context validator.old.resources))
        (within validator.old.validator (T.context validator.old.resources))
        (typed_state validator.old.validator) (shown table.old) (place_of_next reader.old)
        (rest reader.old) (typed_state validator.new.validator) (shown table.new)
        (place_of_next reader.new) (rest reader.new)) }
    ensures took { ReadsStep result (stepped (T.context validator.old.resources)
        validator.old.validator.stacks reader.old) (typed_state validator.new.validator)
        (rest reader.new) }
    ensures going { OnOk result (validator.new.validator.failed ≡ false) }
    ensures kept { Kept validator.old.validator.stacks validator.new.validator.stacks }
    ensures resources { validator.new.resources ≡ validator.old.resources }
    ensures index { validator.new.index ≡ validator.old.index }
    ensures input { SameInput reader.old reader.new }
    ensures further { OnOk result (position_in reader.old < position_in reader.new) }
    ensures place { IfErr result (StandsIn reader.old) }
{
    let start = reader.original_position();
    let op = match read_served(reader, *validator.features()) {
        Ok(op) => op,
        Err(refusal) => return Err(Error::Refused(refusal)),
    };
    let end = reader.original_position();
    let Some(at) = narrow_offset(start) else {
        return Err(Error::OutOfMemory);
    };
    let Some(behind) = narrow_offset(end) else {
        return Err(Error::OutOfMemory);
    };
    match table.op(validator, at, behind, &op) {
        Ok(()) => Ok(()),
        Err(error) => Err(error),
    }
}

/// Notes the next operator, and lets the validator take its step, where no fast step was taken.
#[inline(never)]
fn read_left<'a, T: WasmModuleResources, A: Allocator, B: Allocator>(
    table: &mut SideTable<A>,
    validator: &mut FuncValidator<T, B>,
    reader: &mut BinaryReader<'a>,
) -> Result<(), Error>
    requires { validator.old.validator.failed ≡ false }
    ensures advances { OnOk result (Advances (world (T.context validator.old.resources))
        (within validator.old.validator (T.context validator.old.resources))
        (typed_state validator.old.validator) (shown table.old) (place_of_next reader.old)
        (rest reader.old) (typed_state validator.new.validator) (shown table.new)
        (place_of_next reader.new) (rest reader.new)) }
    ensures took { ReadsStep result (stepped (T.context validator.old.resources)
        validator.old.validator.stacks reader.old) (typed_state validator.new.validator)
        (rest reader.new) }
    ensures going { OnOk result (validator.new.validator.failed ≡ false) }
    ensures kept { Kept validator.old.validator.stacks validator.new.validator.stacks }
    ensures resources { validator.new.resources ≡ validator.old.resources }
    ensures index { validator.new.index ≡ validator.old.index }
    ensures input { SameInput reader.old reader.new }
    ensures further { OnOk result (position_in reader.old < position_in reader.new) }
    ensures place { IfErr result (StandsIn reader.old) }
{
    match table.read_other(validator, reader) {
        Taken::Yes => return Ok(()),
        Taken::No => {}
        Taken::NoMemory => return Err(Error::OutOfMemory),
    }
    match read_one(table, validator, reader) {
        Ok(()) => Ok(()),
        Err(error) => Err(error),
    }
}

/// Notes that there are more operands than ever before. Says no where there are 4,294,967,295 or more.
#[cold]
#[inline(never)]
fn raise_to(height: &mut usize, count: usize) -> bool
    ensures high { result ≡ true → height.new ≡ count }
    ensures few { result ≡ true → count < 4_294_967_295 }
{
    if 4_294_967_295 <= count {
        return false;
    }
    *height = count;
    true
}

/// Notes how many operands there are, if there were never so many. Says no where there are
/// 4,294,967,295 or more.
#[inline(always)]
fn raise(height: &mut usize, count: usize) -> bool
    ensures high { result ≡ true → height.new ≡ max height.old count }
    ensures few { result ≡ true → height.old < 4_294_967_295 → height.new < 4_294_967_295 }
    ensures fits { result ≡ true → height.old < 4_294_967_295 → count < 4_294_967_295 }
{
    if *height < count {
        return raise_to(height, count);
    }
    true
}

/// Notes and validates operators up to the end of the body.
fn read_all<'a, T: WasmModuleResources, A: Allocator, B: Allocator>(
    table: &mut SideTable<A>,
    validator: &mut FuncValidator<T, B>,
    reader: &mut BinaryReader<'a>,
) -> Result<(), Error>
    requires going { validator.old.validator.failed ≡ false }
    requires empty { (typed_state validator.old.validator).operands ≡ [] }
    ensures reaches { OnOk result (Reaches (world (T.context validator.old.resources))
        (within validator.old.validator (T.context validator.old.resources))
        (typed_state validator.old.validator) (shown table.old) (place_of_next reader.old)
        (rest reader.old) (typed_state validator.new.validator) (shown table.new)
        table.new.operands (place_of_next reader.new) (rest reader.new)) }
    ensures took { ReadsTo result (instructions_from (world (T.context validator.old.resources))
        (within validator.old.validator (T.context validator.old.resources))
        (typed_state validator.old.validator) (rest reader.old))
        (typed_state validator.new.validator) (rest reader.new) }
    ensures kept { Kept validator.old.validator.stacks validator.new.validator.stacks }
    ensures behind { OnOk result (IsBehind validator.old.resources validator.old.index
        validator.new) }
    ensures input { SameInput reader.old reader.new }
    ensures onward { position_in reader.old ≤ position_in reader.new }
    ensures place { IfErr result (StandsIn reader.old) }
{
    let mut ahead = *reader;
    let mut height = 0usize;
    'operators: while !validator.is_finished() {
        let count = validator.len_operands();
        if !raise(&mut height, count) {
            return Err(Error::OutOfMemory);
        }
        let start = ahead;
        let told = validator.told_op(&mut ahead);
        if told.is_quiet() {
            if !table.note_told(validator, Told::Quiet, start, ahead, count as u32) {
                return Err(Error::OutOfMemory);
            }
            continue;
        }
        if told.is_taken() {
            if !table.note_told(validator, told, start, ahead, count as u32) {
                return Err(Error::OutOfMemory);
            }
            continue;
        }
        // The reader itself is not lent, so that it can be kept in registers.
        let mut behind = ahead;
        match read_left(table, validator, &mut behind) {
            Ok(()) => {}
            Err(error) => return Err(error),
        }
        ahead.go_on_from(&behind);
    }
    if !raise(&mut height, validator.len_operands()) {
        return Err(Error::OutOfMemory);
    }
    table.set_operands(height as u32);
    reader.go_on_from(&ahead);
    Ok(())
}

/// Validates a whole body, and notes its operators.
fn read_body<T: WasmModuleResources, A: Allocator, B: Allocator>(
    table: &mut SideTable<A>,
    validator: &mut FuncValidator<T, B>,
    body: &FunctionBody<'_>,
) -> Result<(), Error>
    requires going { validator.old.validator.failed ≡ false }
    requires empty { (typed_state validator.old.validator).operands ≡ [] }
    ensures read { OnOk result (HasRead (T.context validator.old.resources)
        validator.old.validator validator.new.validator (shown table.old) table.new
        (body_reader body.now)) }
    ensures took { Validates result (body_in validator.old.validator
        (T.context validator.old.resources) (body_of body.now))
        (locals_in validator.new.validator) (typed_state validator.new.validator) }
    ensures behind { OnOk result (IsBehind validator.old.resources validator.old.index
        validator.new) }
    ensures place { IfErr result (StandsIn (body_reader body.now)) }
{
    let mut reader = body.get_binary_reader();
    match validator.read_locals(&mut reader) {
        Ok(()) => {}
        Err(error) => return Err(error),
    }
    let start = reader.original_position();
    match read_all(table, validator, &mut reader) {
        Ok(()) => {}
        Err(error) => return Err(error),
    }
    let stop = reader.original_position();
    if !reader.is_empty() {
        return Err(behind_end(stop));
    }
    let Some(first) = narrow_offset(start) else {
        return Err(Error::OutOfMemory);
    };
    let Some(end) = narrow_offset(stop) else {
        return Err(Error::OutOfMemory);
    };
    table.set_places(first, end);
    Ok(())
}

/// The greatest offset that an entry may have.
const MOST: u64 = 4_294_967_295;

/// Whether the offset behind a body has more than 32 bits, so that it has no table.
#[tactic(auto, using(crate::proofs::WholeTables::ends))]
pub fn is_too_large(body: &FunctionBody<'_>) -> bool
    ensures few { result ≡ false → end_of (body_reader body.now) < 2 ^ 32 }
    ensures many { result ≡ true → 2 ^ 32 ≤ end_of (body_reader body.now) }
{
    MOST < body.get_binary_reader().range().end
}

/// Begins a body whose end is at an offset that an entry may have, validates it, and makes its table.
#[tactic(auto, using(crate::proofs::WholeTables::answers))]
fn make_next<T: WasmModuleResources + Drop, A: Allocator, B: Allocator>(
    validator: &mut FuncValidator<T, B>,
    function: FuncToValidate<T>,
    body: &FunctionBody<'_>,
    table: &mut SideTable<A>,
) -> Result<(), SideTableError>
    requires few { end_of (body_reader body.now) < 2 ^ 32 }
    ensures table { OnOk result (IsTableOf (features_of function.features)
        (T.context function.resources) function.ty (place_of_next (body_reader body.now))
        (body_of body.now) table.new) }
    ensures decides { Makes (IsFunctionBody (features_of function.features)
        (T.context function.resources) function.ty (body_of body.now))
        (body_reader body.now) result }
    ensures behind { OnOk result (IsBehind function.resources function.index validator.new) }
    ensures place { IfErr result (StandsSo (body_reader body.now)) }
{
    match table.begin() {
        Ok(()) => {}
        Err(_) => return Err(SideTableError::OutOfMemory),
    }
    match validator.begin_next(function) {
        Ok(()) => {}
        Err(error) => return Err(of_validator(error)),
    }
    match read_body(table, validator, body) {
        Ok(()) => {}
        Err(error) => return Err(of_validator(error)),
    }
    let locals = validator.len_locals();
    table.set_locals(locals);
    if table.finish() {
        Ok(())
    } else {
        Err(SideTableError::OutOfMemory)
    }
}

/// Validates the body of another function in place of the one that this validator validated before,
/// and makes its side table, both in memory that was used before. The offset behind it must be one
/// that an entry may have ([`is_too_large`]).
///
/// # Errors
///
/// Refused exactly where [`FuncToValidate::validate`] refuses the body, and where memory is. The
/// table is empty then, and the validator of no use until it begins another body.
pub fn validate_next_with_side_table<T: WasmModuleResources + Drop, A: Allocator, B: Allocator>(
    validator: &mut FuncValidator<T, B>,
    function: FuncToValidate<T>,
    body: &FunctionBody<'_>,
    table: &mut SideTable<A>,
) -> Result<(), SideTableError>
    requires few { end_of (body_reader body.now) < 2 ^ 32 }
    ensures table { OnOk result (IsTableOf (features_of function.features)
        (T.context function.resources) function.ty (place_of_next (body_reader body.now))
        (body_of body.now) table.new) }
    ensures decides { Makes (IsFunctionBody (features_of function.features)
        (T.context function.resources) function.ty (body_of body.now))
        (body_reader body.now) result }
    ensures behind { OnOk result (IsBehind function.resources function.index validator.new) }
    ensures place { IfErr result (StandsSo (body_reader body.now)) }
    ensures empty { OnErr result (IsEmptyTable table.new) }
{
    match make_next(validator, function, body, table) {
        Ok(()) => Ok(()),
        Err(error) => {
            table.clear();
            Err(error)
        }
    }
}

/// Validates a body, and makes its table where the offset behind it is one that an entry may have, by
/// look-ups that are lent.
#[tactic(auto, using(crate::proofs::WholeTables::answers))]
fn make<T: WasmModuleResources + Drop, A: Allocator, B: Allocator>(
    function: FuncToValidate<T>,
    body: &FunctionBody<'_>,
    allocations: FuncValidatorAllocations<B>,
    table: &mut SideTable<A>,
) -> Result<FuncValidatorAllocations<B>, SideTableError>
    ensures table { OnOk result (IsTableOf (features_of function.features)
        (T.context function.resources) function.ty (place_of_next (body_reader body.now))
        (body_of body.now) table.new) }
    ensures decides { Makes (IsFunctionBody (features_of function.features)
        (T.context function.resources) function.ty (body_of body.now))
        (body_reader body.now) result }
    ensures place { IfErr result (StandsSo (body_reader body.now)) }
{
    let lent = FuncToValidate {
        resources: &function.resources,
        index: function.index,
        ty: function.ty,
        features: function.features,
    };
    if is_too_large(body) {
        return match lent.validate(body, allocations) {
            Ok(_memory) => Err(SideTableError::TooLarge),
            Err(error) => Err(of_validator(error)),
        };
    }
    let mut validator = FuncValidator::without_body(&function.resources, allocations);
    match make_next(&mut validator, lent, body, table) {
        Ok(()) => Ok(validator.into_allocations()),
        Err(error) => Err(error),
    }
}

/// Validates a body, and makes its side table, both in memory that was used before.
///
/// # Errors
///
/// Refused exactly where [`FuncToValidate::validate`] refuses the body, and where memory is. A valid
/// body whose end is at an offset of more than 32 bits has none either. The table is empty then.
pub fn validate_with_side_table<T: WasmModuleResources + Drop, A: Allocator, B: Allocator>(
    function: FuncToValidate<T>,
    body: &FunctionBody<'_>,
    allocations: FuncValidatorAllocations<B>,
    table: &mut SideTable<A>,
) -> Result<FuncValidatorAllocations<B>, SideTableError>
    ensures table { OnOk result (IsTableOf (features_of function.features)
        (T.context function.resources) function.ty (place_of_next (body_reader body.now))
        (body_of body.now) table.new) }
    ensures decides { Makes (IsFunctionBody (features_of function.features)
        (T.context function.resources) function.ty (body_of body.now))
        (body_reader body.now) result }
    ensures place { IfErr result (StandsSo (body_reader body.now)) }
    ensures empty { OnErr result (IsEmptyTable table.new) }
{
    match make(function, body, allocations, table) {
        Ok(memory) => Ok(memory),
        Err(error) => {
            table.clear();
            Err(error)
        }
    }
}
