//! Bodies, read and typed operator by operator.

ghost use Rattle.std.specs.Prelude.{◌≡◌, ◌≤◌, ◌<◌, ◌||◌, not, true, false, is_ok, IfErr, OnOk};
ghost use Rattle.wasm_readers_bytes.specs.Reader.{SameInput, position_in, rest};
ghost use Rattle.wasm_readers_errors.specs.Refusals.{plain};
ghost use Rattle.wasm_spec_steps.specs.Steps.{is_finished};
ghost use Rattle.wasm_parser.specs.PayloadViews.{body_of, body_reader};
ghost use Rattle.wasm_validator_resources.specs.Answers.{world};
ghost use Rattle.wasm_typing_validator.specs.WasmTypingStacks.BodyStacks.{Kept};
ghost use Rattle.wasm_typing_validator.specs.BodyTyping.{typed_state, locals_in};
ghost use Rattle.wasm_typing_validator.specs.TypedInstructions.{within, IsRefusedAt, StandsIn, ReadsTo};
ghost use Rattle.wasm_typing_validator.specs.StepsFromBytes.{ReadsStep, stepped};
ghost use Rattle.wasm_validator_func.specs.Bodies.{FindsTheSame, instructions_from};
ghost use Rattle.wasm_validator_func.specs.BodyValidation.{body_in, Goes, Validates};

use crate::locals::read_declarations;
use std::alloc::Allocator;
use wasm_parser::FunctionBody;
use wasm_readers::BinaryReader;
use wasm_readers_errors::{Error, Fault, OperatorRule, Refusal};
use wasm_typing_validator::{NotTaken, OperatorValidator};
use wasm_validator_resources::WasmModuleResources;

/// The refusal by a rule, at this offset.
#[inline(never)]
pub(crate) fn refused(rule: OperatorRule, offset: u64) -> Error
    ensures place { IsRefusedAt offset result }
    ensures told { result ≡ Error.Refused (plain (Fault.Operator rule 0) offset) }
{
    Error::Refused(Refusal::new(Fault::Operator(rule, 0), offset))
}

/// Want of memory, after which the validator has failed.
#[cold]
#[inline(never)]
fn out_of_memory<A: Allocator>(validator: &mut OperatorValidator<A>) -> Error
    ensures error { result ≡ Error.OutOfMemory }
    ensures same { Kept validator.old.stacks validator.new.stacks }
    ensures failed { validator.new.failed ≡ true }
{
    validator.fail();
    Error::OutOfMemory
}

/// Reads the next operator, and takes its step. The reader itself is not lent, so that it can be
/// kept in registers.
#[inline(always)]
fn read_one<'a, A: Allocator, T: WasmModuleResources>(
    validator: &mut OperatorValidator<A>,
    resources: &T,
    reader: &mut BinaryReader<'a>,
) -> Result<(), Error>
    ensures took { validator.old.failed ≡ false → ReadsStep result
        (stepped (T.context resources.now) validator.old.stacks reader.old)
        (typed_state validator.new) (rest reader.new) }
    ensures input { SameInput reader.old reader.new }
    ensures onward { position_in reader.old ≤ position_in reader.new }
    ensures further { OnOk result (position_in reader.old < position_in reader.new) }
    ensures same { Kept validator.old.stacks validator.new.stacks }
    ensures failed { validator.new.failed ≡ (validator.old.failed || not (is_ok result)) }
    ensures place { IfErr result (StandsIn reader.old) }
{
    let mut behind = *reader;
    let step = validator.read_op(resources, &mut behind);
    reader.go_on_from(&behind);
    step
}

/// Takes the steps by operators that can be taken fast, up to the `end` that closes the body. What
/// takes a step is in line, and lends only copies of the reader, so that the reader is kept in
/// registers.
///
/// # Errors
///
/// `Left` where an operator can't be taken fast, and `OutOfMemory` where memory was refused for it; the
/// reader then stands before it.
#[inline(never)]
fn read_fast<'a, A: Allocator, T: WasmModuleResources>(
    validator: &mut OperatorValidator<A>,
    resources: &T,
    reader: &mut BinaryReader<'a>,
) -> Result<(), NotTaken>
    requires { validator.old.failed ≡ false }
    ensures leads { FindsTheSame (world (T.context resources.now))
        (within validator.old (T.context resources.now)) (typed_state validator.old)
        (rest reader.old) (typed_state validator.new) (rest reader.new) }
    ensures finished { is_finished (typed_state validator.new) ≡ is_ok result }
    ensures same { Kept validator.old.stacks validator.new.stacks }
    ensures failed { validator.new.failed ≡ false }
    ensures input { SameInput reader.old reader.new }
    ensures onward { position_in reader.old ≤ position_in reader.new }
{
    let mut ahead = *reader;
    'operators: while !validator.is_finished() {
        match validator.fast_op(resources, &mut ahead) {
            Ok(()) => continue,
            Err(reason) => {
                reader.go_on_from(&ahead);
                return Err(reason);
            }
        }
    }
    reader.go_on_from(&ahead);
    Ok(())
}

/// The instructions of a body, up to the `end` that closes it.
fn read_instructions<'a, A: Allocator, T: WasmModuleResources>(
    validator: &mut OperatorValidator<A>,
    resources: &T,
    reader: &mut BinaryReader<'a>,
) -> Result<(), Error>
    requires { validator.old.failed ≡ false }
    ensures took { ReadsTo result (instructions_from (world (T.context resources.now))
        (within validator.old (T.context resources.now)) (typed_state validator.old)
        (rest reader.old)) (typed_state validator.new) (rest reader.new) }
    ensures same { Kept validator.old.stacks validator.new.stacks }
    ensures failed { validator.new.failed ≡ not (is_ok result) }
    ensures input { SameInput reader.old reader.new }
    ensures onward { position_in reader.old ≤ position_in reader.new }
    ensures place { IfErr result (StandsIn reader.old) }
{
    'instructions: while !validator.is_finished() {
        match read_fast(validator, resources, reader) {
            Ok(()) => return Ok(()),
            Err(NotTaken::Left) => {}
            Err(NotTaken::OutOfMemory) => return Err(out_of_memory(validator)),
        }
        match read_one(validator, resources, reader) {
            Ok(()) => {}
            Err(error) => return Err(error),
        }
    }
    Ok(())
}

/// Reads and types a whole body: its declarations of locals, and its instructions up to the `end`
/// that closes it, with nothing behind it.
///
/// # Errors
///
/// Refused at the first declaration or instruction that can't be read or isn't valid, and at the
/// first byte behind the closing `end`; and where memory is.
pub(crate) fn check_body<A: Allocator, T: WasmModuleResources>(
    validator: &mut OperatorValidator<A>,
    resources: &T,
    body: &FunctionBody<'_>,
) -> Result<(), Error>
    requires { validator.old.failed ≡ false }
    ensures took { Validates result (body_in validator.old (T.context resources.now)
        (body_of body.now)) (locals_in validator.new) (typed_state validator.new) }
    ensures goes { Goes validator.old validator.new }
    ensures failed { validator.new.failed ≡ not (is_ok result) }
    ensures place { IfErr result (StandsIn (body_reader body.now)) }
{
    let mut reader = body.get_binary_reader();
    match read_declarations(validator, resources, &mut reader) {
        Ok(()) => {}
        Err(error) => return Err(error),
    }
    match read_instructions(validator, resources, &mut reader) {
        Ok(()) => {}
        Err(error) => return Err(error),
    }
    if reader.is_empty() {
        return Ok(());
    }
    validator.fail();
    Err(refused(OperatorRule::Ended, reader.original_position()))
}
