//! Operators as the validator of a function takes them.

ghost use Rattle.std.specs.Prelude.{◌≡◌, ◌≤◌, ◌<◌, Some, None, IfOk, IfErr, OnOk, OnErr};
ghost use Rattle.wasm_readers_bytes.specs.Reader.{SameInput, RefusedFrom, position_in, rest};
ghost use Rattle.wasm_readers.specs.WrittenIndices.{written};
ghost use Rattle.wasm_operators.specs.Instructions.{instruction_at};
ghost use Rattle.wasm_operators.specs.SeenOperators.{operator_of};
ghost use Rattle.wasm_spec_steps.specs.ServedInstructions.{served};
ghost use Rattle.wasm_spec_rules.specs.FeatureFlags.{features_of};
ghost use Rattle.wasm_typing_validator.specs.StackSteps.{IsWrittenInstruction};

use wasm_operators::Operator;
use wasm_readers::BinaryReader;
use wasm_readers_errors::{Refusal, WasmFeatures};

/// The next operator, where the features serve it: as [`read_operator`], but that the opcodes of
/// proposals that are off are none.
///
/// # Errors
///
/// Refused where the bytes begin with no operator, or with one that the features don't serve.
pub fn read_served<'a>(
    reader: &mut BinaryReader<'a>,
    features: WasmFeatures,
) -> Result<Operator<'a>, Refusal>
    ensures same { SameInput reader.old reader.new }
    ensures onward { position_in reader.old ≤ position_in reader.new }
    ensures refusal { IfErr result (RefusedFrom reader.old) }
    ensures ok { IfOk result (λ op. instruction_at written (rest reader.old)
        ≡ Some (operator_of op, rest reader.new)) }
    ensures written { IfOk result (λ op. IsWrittenInstruction (operator_of op)) }
    ensures further { OnOk result (position_in reader.old < position_in reader.new) }
    ensures err { OnErr result (served (features_of features)
        (instruction_at written (rest reader.old)) ≡ None) }
{
    match wasm_typing_validator::read_served(reader, features) {
        Ok(op) => Ok(op),
        Err(refusal) => Err(refusal),
    }
}

/// The next operator, whose types name type indices of a module, as
/// [`crate::FuncValidator::op`] asks (Core Specification 3.0, Binary Format, Instructions).
///
/// # Errors
///
/// Refused where the bytes begin with no operator.
pub fn read_operator<'a>(reader: &mut BinaryReader<'a>) -> Result<Operator<'a>, Refusal>
    ensures same { SameInput reader.old reader.new }
    ensures onward { position_in reader.old ≤ position_in reader.new }
    ensures refusal { IfErr result (RefusedFrom reader.old) }
    ensures ok { IfOk result (λ op. instruction_at written (rest reader.old)
        ≡ Some (operator_of op, rest reader.new)) }
    ensures written { IfOk result (λ op. IsWrittenInstruction (operator_of op)) }
    ensures further { OnOk result (position_in reader.old < position_in reader.new) }
    ensures err { OnErr result (instruction_at written (rest reader.old) ≡ None) }
{
    match wasm_operators::read_operator(reader) {
        Ok(op) => Ok(op),
        Err(refusal) => Err(refusal),
    }
}
