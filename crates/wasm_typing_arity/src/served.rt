//! Operators that the features serve.

ghost use Rattle.std.specs.Prelude.{◌≡◌, ◌≤◌, ◌<◌, true, Some, None, IfOk, IfErr, OnOk, OnErr};
ghost use Rattle.wasm_operators.specs.WasmOperatorsPlain.WasmReaders.WasmReadersBytes.Reader.{SameInput, position_in, rest, RefusedFrom};
ghost use Rattle.wasm_operators.specs.WasmOperatorsPlain.WasmReaders.WrittenIndices.{written};
ghost use Rattle.wasm_operators.specs.Instructions.{instruction_at};
ghost use Rattle.wasm_operators.specs.SeenOperators.{operator_of};
ghost use Rattle.wasm_operators.specs.SeenReferences.{cast_of};
ghost use Rattle.wasm_spec_steps.specs.WasmSpecRules.FeatureFlags.{features_of};
ghost use Rattle.wasm_spec_steps.specs.ServedInstructions.{serves_cast, serves, served};
ghost use Rattle.wasm_typing_arity.specs.OpcodeRefusals.{RefusedAround};

use wasm_operators::readers::BinaryReader;
use wasm_operators::readers_errors::{Refusal, WasmFeatures};
use wasm_operators::{
    BulkMemoryOperator, CastOperator, Operator, read_operator, unknown_opcode,
    unknown_prefixed_opcode,
};

/// Whether the features serve an operator on descriptors. They serve every other cast.
fn serves_cast(features: WasmFeatures, op: CastOperator) -> bool
    ensures { result ≡ serves_cast (features_of features) (cast_of op) }
{
    match op {
        CastOperator::RefGetDesc { .. }
        | CastOperator::RefCastDescEqNonNull { .. }
        | CastOperator::RefCastDescEqNullable { .. }
        | CastOperator::BrOnCastDescEq { .. }
        | CastOperator::BrOnCastDescEqFail { .. } => features.descriptor_operators(),
        _ => true,
    }
}

/// Whether the features serve this operator: those of proposals beyond the standard need a feature
/// of their own, without which their opcodes are none.
pub fn is_served(features: WasmFeatures, op: &Operator<'_>) -> bool
    ensures { result ≡ serves (features_of features) (operator_of op.now) }
{
    match *op {
        Operator::BulkMemory(BulkMemoryOperator::MemoryDiscard { .. }) => features.memory_control(),
        Operator::Cast(op) => serves_cast(features, op),
        Operator::Wide(_) => features.wide_arithmetic(),
        Operator::Shared(_, _) => features.shared_atomic_operators(),
        Operator::Continuation(_) => features.stack_switching_operators(),
        _ => true,
    }
}

/// Whether an opcode behind a prefix is one that only a feature of its own serves, and this isn't on.
fn is_prefixed_off(features: WasmFeatures, prefix: u8, code: u32) -> bool {
    match prefix {
        0xfb => 34 <= code && code < 39 && !features.descriptor_operators(),
        0xfc => {
            (code == 18 && !features.memory_control())
                || (19 <= code && code < 23 && !features.wide_arithmetic())
        }
        0xfe => {
            (code == 4 || (0x4f <= code && code < 0x72)) && !features.shared_atomic_operators()
        }
        _ => false,
    }
}

/// The refusal of an opcode that the features don't serve, where one stands here; and this refusal
/// otherwise.
#[cold]
#[inline(never)]
fn refusal_of(front: BinaryReader<'_>, features: WasmFeatures, refusal: Refusal) -> Refusal
    ensures { RefusedAround front.entry refusal result }
{
    let offset = front.original_position();
    let mut reader = front;
    let Some(opcode) = reader.next_u8() else {
        return refusal;
    };
    if 0xe0 <= opcode && opcode < 0xe7 && !features.stack_switching_operators() {
        return unknown_opcode(opcode, offset);
    }
    if opcode < 0xfb {
        return refusal;
    }
    match reader.next_var_u32() {
        Some(code) if is_prefixed_off(features, opcode, code) => {
            unknown_prefixed_opcode(opcode, code, offset)
        }
        _ => refusal,
    }
}

/// The next operator, where the features serve it. So the opcodes of proposals that are off are none,
/// whatever stands behind them.
///
/// # Errors
///
/// Refused where the bytes begin with no operator, and where they begin with one that the features
/// don't serve.
#[tactic(auto, using(crate::proofs::UnservedOperators::reads))]
pub fn read_served<'a>(
    reader: &mut BinaryReader<'a>,
    features: WasmFeatures,
) -> Result<Operator<'a>, Refusal>
    ensures same { SameInput reader.old reader.new }
    ensures onward { position_in reader.old ≤ position_in reader.new }
    ensures refusal { IfErr result (RefusedFrom reader.old) }
    ensures ok { IfOk result (λ op. instruction_at written (rest reader.old)
        ≡ Some (operator_of op, rest reader.new)) }
    ensures further { OnOk result (position_in reader.old < position_in reader.new) }
    ensures served { IfOk result (λ op. serves (features_of features) (operator_of op) ≡ true) }
    ensures err { OnErr result (served (features_of features)
        (instruction_at written (rest reader.old)) ≡ None) }
{
    let front = *reader;
    match read_operator(reader) {
        Ok(op) => {
            if is_served(features, &op) {
                Ok(op)
            } else {
                let offset = front.original_position();
                Err(refusal_of(front, features, unknown_opcode(0xff, offset)))
            }
        }
        Err(refusal) => Err(refusal_of(front, features, refusal)),
    }
}
