//! Constant expressions, read and typed operator by operator.

ghost use Rattle.std.specs.Prelude.{◌≡◌, ◌≤◌, ◌<◌, false, Some, None, Ok, Err, IfErr, OnOk};
ghost use Rattle.wasm_readers.specs.WasmReadersBytes.Reader.{SameInput, position_in, rest};
ghost use Rattle.wasm_operators.specs.Maps.{map_instruction};
ghost use Rattle.wasm_operators.specs.SeenOperators.{operator_of};
ghost use Rattle.wasm_validator_resources.specs.Answers.{world, written_index};
ghost use Rattle.wasm_typing_validator.specs.WasmTypingStacks.BodyStacks.{Kept};
ghost use Rattle.wasm_typing_validator.specs.StackSteps.{IsWrittenInstruction};
ghost use Rattle.wasm_typing_validator.specs.BodyTyping.{typed_state};
ghost use Rattle.wasm_validator_references.specs.WasmSpecValidity.Expressions.{functions_named};
ghost use Rattle.wasm_validator_references.specs.Notes.{noting};
ghost use Rattle.wasm_validator_constants.specs.Constants.{constant_step, constant_from, constant_names};
ghost use Rattle.wasm_typing_validator.specs.TypedInstructions.{within, IsRefusedAt, StandsIn, TookAt, ReadsTo};

use crate::operators::{gated_constant, is_constant, reads_constants};
use bitflags::Flags;
use std::alloc::{AllocError, Allocator};
use wasm_operators::operators_plain::VariableOperator;
use wasm_operators::{Operator, ReferenceOperator};
use wasm_readers::BinaryReader;
use wasm_readers::readers_errors::{Error, Fault, OperatorRule, Refusal, WasmFeatures};
use wasm_typing_validator::{OperatorValidator, read_served};
use wasm_validator_references::NotesFunctions;
use wasm_validator_resources::WasmModuleResources;

/// The rule against an operator that no constant expression has, and its number. Without the feature
/// that serves them, the operators on vectors, the atomic ones and those of legacy exceptions are
/// refused as they are in a body.
fn rule_against<'a>(features: WasmFeatures, op: &Operator<'a>) -> (OperatorRule, u32) {
    match *op {
        Operator::Vector(_, _) if !features.contains(WasmFeatures::VECTOR_OPERATORS) => {
            (OperatorRule::VectorOperators, 0)
        }
        Operator::Atomic(_, _) if !features.contains(WasmFeatures::ATOMIC_OPERATORS) => {
            (OperatorRule::AtomicOperators, 0)
        }
        Operator::Legacy(op) if !features.contains(WasmFeatures::LEGACY_EXCEPTIONS) => {
            (OperatorRule::LegacyExceptions, op.opcode() as u32)
        }
        _ => (OperatorRule::NotConstant, 0),
    }
}

/// The refusal of an operator that a constant expression doesn't have, at this offset.
#[inline(never)]
fn not_constant<'a>(features: WasmFeatures, op: &Operator<'a>, offset: u64) -> Error
    ensures { IsRefusedAt offset result }
{
    match gated_constant(op) {
        Some(gated) => Error::Refused(Refusal::missing(
            Fault::GatedConstant(gated),
            offset,
            gated.feature(),
        )),
        None => {
            let (rule, number) = rule_against(features, op);
            Error::Refused(Refusal {
                fault: Fault::Operator(rule, number),
                offset,
                missing: rule.missing(),
            })
        }
    }
}

/// The refusal of a global that a constant expression may not read, at this offset.
#[inline(never)]
fn not_readable<'a, T: WasmModuleResources>(resources: &T, op: &Operator<'a>, offset: u64) -> Error
    ensures { IsRefusedAt offset result }
{
    let global_index = match *op {
        Operator::Variable(VariableOperator::GlobalGet { global_index }) => global_index,
        _ => 0,
    };
    let rule = match resources.global_at(global_index) {
        None => OperatorRule::UnknownGlobal,
        Some(global) if global.mutable => OperatorRule::MutableGlobal,
        Some(_) => OperatorRule::LocalGlobal,
    };
    Error::Refused(Refusal {
        fault: Fault::Operator(rule, global_index),
        offset,
        missing: rule.missing(),
    })
}

/// Takes one step by an operator of a constant expression, which stands at this offset, a byte
/// counted from the start of the input. So many globals are imported, and they come first.
///
/// The types of the operator must name type indices of the module, and nothing may have been
/// refused before.
///
/// # Errors
///
/// Refused, at the offset, where a constant expression may not have the operator or read the
/// global, and where the operator isn't valid here (Core Specification 3.0, Validation,
/// Instructions, Constant Expressions); and where memory is.
pub fn check_constant_operator<'a, A: Allocator, T: WasmModuleResources>(
    validator: &mut OperatorValidator<A>,
    resources: &T,
    imported_globals: u32,
    op: &Operator<'a>,
    offset: u64,
) -> Result<(), Error>
    requires written { IsWrittenInstruction (operator_of op.now) }
    requires going { validator.old.failed ≡ false }
    ensures took { TookAt offset result (constant_step (world (T.context resources.now))
        (within validator.old (T.context resources.now)) imported_globals
        (map_instruction written_index (operator_of op.now)) (typed_state validator.old))
        (typed_state validator.new) }
    ensures same { Kept validator.old.stacks validator.new.stacks }
    ensures failed { OnOk result (validator.new.failed ≡ false) }
{
    let features = *validator.features();
    if !is_constant(features, op) {
        return Err(not_constant(features, op, offset));
    }
    if !reads_constants(features, resources, imported_globals, op) {
        return Err(not_readable(resources, op, offset));
    }
    match validator.op(resources, op) {
        Ok(()) => Ok(()),
        Err(error) => Err(error.at(offset)),
    }
}

/// Notes the function that an operator of a constant expression names, if it names one.
///
/// # Errors
///
/// Fails where memory is refused.
#[inline(always)]
pub fn note_function<'a, N: NotesFunctions>(
    notes: &mut N,
    op: &Operator<'a>,
) -> Result<(), AllocError>
    ensures { OnOk result (notes.new ≡ noting N.note (functions_named
        (map_instruction written_index (operator_of op.now))) notes.old) }
{
    match *op {
        Operator::Reference(op) => match op {
            ReferenceOperator::RefFunc { function_index } => notes.note(function_index),
            _ => Ok(()),
        },
        _ => Ok(()),
    }
}

/// Reads and types the constant expression that the bytes begin with, up to the `end` that closes
/// it, and notes the functions that it names. So many globals are imported, and they come first.
///
/// The validator is one that begins a constant expression; nothing may have been refused before.
///
/// # Errors
///
/// Refused, at the first operator that can't be read, that no constant expression has or that isn't
/// valid behind those before it (Core Specification 3.0, Validation, Instructions, Constant
/// Expressions); and where memory is.
pub fn check_constant_expression<'a, A: Allocator, T: WasmModuleResources, N: NotesFunctions>(
    validator: &mut OperatorValidator<A>,
    resources: &T,
    imported_globals: u32,
    notes: &mut N,
    reader: &mut BinaryReader<'a>,
) -> Result<(), Error>
    requires { validator.old.failed ≡ false }
    ensures took { ReadsTo result (constant_from (world (T.context resources.now))
        (within validator.old (T.context resources.now)) imported_globals
        (typed_state validator.old) (rest reader.old))
        (typed_state validator.new) (rest reader.new) }
    ensures noted { OnOk result (notes.new ≡ noting N.note
        (constant_names (world (T.context resources.now))
        (within validator.old (T.context resources.now)) imported_globals
        (typed_state validator.old) (rest reader.old)) notes.old) }
    ensures same { Kept validator.old.stacks validator.new.stacks }
    ensures failed { OnOk result (validator.new.failed ≡ false) }
    ensures input { SameInput reader.old reader.new }
    ensures onward { position_in reader.old ≤ position_in reader.new }
    ensures place { IfErr result (StandsIn reader.old) }
{
    'operators: while !validator.is_finished() {
        let offset = reader.original_position();
        let op = match read_served(reader, *validator.features()) {
            Ok(op) => op,
            Err(refusal) => return Err(Error::Refused(refusal)),
        };
        match check_constant_operator(validator, resources, imported_globals, &op, offset) {
            Ok(()) => {}
            Err(error) => return Err(error),
        }
        note_function(notes, &op)?;
    }
    Ok(())
}
