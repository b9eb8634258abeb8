//! Operators and their reading.

ghost use Rattle.std.specs.Prelude.{◌≡◌, ◌≤◌, ◌<◌, ◌+◌, Some, None, IfOk, IfErr, OnOk, OnErr};
ghost use Rattle.wasm_operators_proposals.specs.WasmOperatorsPlain.WasmReaders.WasmReadersBytes.Reader.{SameInput, position_in, original, rest, RefusedFrom};
ghost use Rattle.wasm_operators_proposals.specs.WasmOperatorsPlain.WasmReaders.WrittenIndices.{written};
ghost use Rattle.wasm_operators_proposals.specs.WasmOperatorsPlain.Refusals.{RefusedBetween};
ghost use Rattle.wasm_operators_proposals.specs.WasmOperatorsPlain.WasmReadersTypes.WasmReadersValues.declared.indices.UnpackedIndex.{UnpackedIndex};
ghost use Rattle.wasm_operators.specs.Control.{control_from};
ghost use Rattle.wasm_operators.specs.Legacy.{legacy_from};
ghost use Rattle.wasm_operators.specs.Instructions.{control, legacy, of_family, aggregate_from, bulk_from, vectors_from, atomics_from, prefixed_from, plain_from, instruction_at, with_access};
ghost use Rattle.wasm_operators_proposals.specs.WasmOperatorsAtomic.SharedCodes.{shared_operator_from};
ghost use Rattle.wasm_operators.specs.SeenOperators.{operator_of};

use crate::control::{ControlOperator, ParametricOperator, read_control, read_parametric};
use crate::frequent::next_frequent;
use crate::immediates::{ImmediateValues, read_immediates};
use crate::legacy::{LegacyOperator, read_legacy};
use crate::references::{CastOperator, ReferenceOperator, read_cast, read_reference};
use wasm_operators_proposals::operators_atomic::operators_vector::{
    self, VectorOperator, vector_form,
};
use wasm_operators_proposals::operators_atomic::{
    AtomicOperator, SharedAtomicOperator, WideOperator, atomic_form, operator_from_code,
    shared_form, shared_operator_from_code, wide_from_code,
};
use wasm_operators_proposals::operators_plain::readers::BinaryReader;
use wasm_operators_proposals::operators_plain::readers_errors::Refusal;
use wasm_operators_proposals::operators_plain::{
    ArrayOperator, BulkMemoryOperator, CallOperator, ConstantOperator, ConversionOperator, MemArg,
    MemoryOperator, NumericOperator, SaturatingOperator, StructOperator, TableOperator,
    VariableOperator, access_from_opcode, conversion_from_code, numeric_from_opcode, read_array,
    read_call, read_constant, read_memarg, read_memory, read_memory_size, read_struct, read_table,
    read_table_access, read_variable, read_vector, saturating_from_code, shared_from_code,
    unknown_opcode, unknown_prefixed_opcode,
};
use wasm_operators_proposals::{
    AccessValues, ContinuationOperator, read_access_values, read_continuation,
};

/// An operator, by its family (Core Specification 3.0, Binary Format, Instructions).
#[derive(Clone, Copy, Debug)]
pub enum Operator<'a> {
    Control(ControlOperator<'a>),
    /// An operator of legacy exceptions.
    Legacy(LegacyOperator),
    Call(CallOperator),
    Parametric(ParametricOperator<'a>),
    Variable(VariableOperator),
    Table(TableOperator),
    /// A load or a store.
    Memory(MemoryOperator, MemArg),
    BulkMemory(BulkMemoryOperator),
    Constant(ConstantOperator),
    Numeric(NumericOperator),
    Saturating(SaturatingOperator),
    Reference(ReferenceOperator),
    Cast(CastOperator),
    Conversion(ConversionOperator),
    Struct(StructOperator),
    Array(ArrayOperator),
    /// An operator on vectors other than the constant.
    Vector(VectorOperator, ImmediateValues),
    Atomic(AtomicOperator, ImmediateValues),
    /// An operator on integers of 128 bits (the wide-arithmetic proposal).
    Wide(WideOperator),
    /// An operator on continuations (the stack-switching proposal).
    Continuation(ContinuationOperator<'a>),
    /// An atomic access to a global, a table, a structure or an array, or `pause`.
    Shared(SharedAtomicOperator, AccessValues),
}

/// An operator, or why there is none.
type Read<'a> = Result<Operator<'a>, Refusal>;

/// The operator of this code behind the prefix `0xfb`, which stood at this offset.
#[tactic(auto, unfolding(crate::specs::Instructions::aggregate_from))]
fn read_aggregate<'a>(reader: &mut BinaryReader<'a>, code: u32, offset: u64) -> Read<'a>
    requires { offset ≤ original reader.old + position_in reader.old }
    ensures same { SameInput reader.old reader.new }
    ensures onward { position_in reader.old ≤ position_in reader.new }
    ensures refusal { IfErr result (RefusedBetween offset reader.old) }
    ensures ok { IfOk result (λ op. aggregate_from written code (rest reader.old)
        ≡ Some (operator_of op, rest reader.new)) }
    ensures err { OnErr result (aggregate_from written code (rest reader.old) ≡ None) }
{
    if code < 6 {
        Ok(Operator::Struct(read_struct(reader, code, offset)?))
    } else if code < 20 {
        Ok(Operator::Array(read_array(reader, code, offset)?))
    } else if code < 26 {
        Ok(Operator::Cast(read_cast(reader, code, offset)?))
    } else if code < 32 {
        match conversion_from_code(code) {
            Some(op) => Ok(Operator::Conversion(op)),
            None => Err(unknown_prefixed_opcode(0xfb, code, offset)),
        }
    } else if code < 34 {
        Ok(Operator::Struct(read_struct(reader, code, offset)?))
    } else {
        Ok(Operator::Cast(read_cast(reader, code, offset)?))
    }
}

/// The operator of this code behind the prefix `0xfc`, which stood at this offset.
#[tactic(auto, unfolding(crate::specs::Instructions::bulk_from))]
fn read_bulk<'a>(reader: &mut BinaryReader<'a>, code: u32, offset: u64) -> Read<'a>
    requires { offset ≤ original reader.old + position_in reader.old }
    ensures same { SameInput reader.old reader.new }
    ensures onward { position_in reader.old ≤ position_in reader.new }
    ensures refusal { IfErr result (RefusedBetween offset reader.old) }
    ensures ok { IfOk result (λ op. bulk_from written code (rest reader.old)
        ≡ Some (operator_of op, rest reader.new)) }
    ensures err { OnErr result (bulk_from written code (rest reader.old) ≡ None) }
{
    if code < 8 {
        match saturating_from_code(code) {
            Some(op) => Ok(Operator::Saturating(op)),
            None => Err(unknown_prefixed_opcode(0xfc, code, offset)),
        }
    } else if code < 12 {
        Ok(Operator::BulkMemory(read_memory(reader, code, offset)?))
    } else if code < 18 {
        Ok(Operator::Table(read_table(reader, code, offset)?))
    } else if code < 19 {
        Ok(Operator::BulkMemory(read_memory(reader, code, offset)?))
    } else {
        match wide_from_code(code) {
            Some(op) => Ok(Operator::Wide(op)),
            None => Err(unknown_prefixed_opcode(0xfc, code, offset)),
        }
    }
}

/// The operator of this code behind the prefix `0xfd`, which stood at this offset.
#[tactic(auto, unfolding(crate::specs::Instructions::vectors_from))]
fn read_on_vectors<'a>(reader: &mut BinaryReader<'a>, code: u32, offset: u64) -> Read<'a>
    requires { offset ≤ original reader.old + position_in reader.old }
    ensures same { SameInput reader.old reader.new }
    ensures onward { position_in reader.old ≤ position_in reader.new }
    ensures refusal { IfErr result (RefusedBetween offset reader.old) }
    ensures ok { IfOk result (λ op. vectors_from written code (rest reader.old)
        ≡ Some (operator_of op, rest reader.new)) }
    ensures err { OnErr result (vectors_from written code (rest reader.old) ≡ None) }
{
    if code == 12 {
        return Ok(Operator::Constant(read_vector(reader, code, offset)?));
    }
    match operators_vector::operator_from_code(code) {
        Some(op) => Ok(Operator::Vector(op, read_immediates(reader, vector_form(op), offset)?)),
        None => Err(unknown_prefixed_opcode(0xfd, code, offset)),
    }
}

/// The access of this code behind the prefix `0xfe`, which stood at this offset.
fn read_shared<'a>(reader: &mut BinaryReader<'a>, code: u32, offset: u64) -> Read<'a>
    requires { offset ≤ original reader.old + position_in reader.old }
    ensures same { SameInput reader.old reader.new }
    ensures onward { position_in reader.old ≤ position_in reader.new }
    ensures refusal { IfErr result (RefusedBetween offset reader.old) }
    ensures ok { IfOk result (λ op. with_access {R = UnpackedIndex} (rest reader.old)
        (shared_operator_from code) ≡ Some (operator_of op, rest reader.new)) }
    ensures err { OnErr result (with_access {R = UnpackedIndex} (rest reader.old)
        (shared_operator_from code) ≡ None) }
{
    match shared_operator_from_code(code) {
        Some(op) => Ok(Operator::Shared(op, read_access_values(reader, shared_form(op))?)),
        None => Err(unknown_prefixed_opcode(0xfe, code, offset)),
    }
}

/// The operator of this code behind the prefix `0xfe`, which stood at this offset.
#[tactic(auto, unfolding(crate::specs::Instructions::atomics_from))]
fn read_atomic<'a>(reader: &mut BinaryReader<'a>, code: u32, offset: u64) -> Read<'a>
    requires { offset ≤ original reader.old + position_in reader.old }
    ensures same { SameInput reader.old reader.new }
    ensures onward { position_in reader.old ≤ position_in reader.new }
    ensures refusal { IfErr result (RefusedBetween offset reader.old) }
    ensures ok { IfOk result (λ op. atomics_from written code (rest reader.old)
        ≡ Some (operator_of op, rest reader.new)) }
    ensures err { OnErr result (atomics_from written code (rest reader.old) ≡ None) }
{
    if code == 0x72 {
        return match shared_from_code(code) {
            Some(op) => Ok(Operator::Conversion(op)),
            None => Err(unknown_prefixed_opcode(0xfe, code, offset)),
        };
    }
    if code == 4 || code >= 0x4f {
        return read_shared(reader, code, offset);
    }
    match operator_from_code(code) {
        Some(op) => Ok(Operator::Atomic(op, read_immediates(reader, atomic_form(op), offset)?)),
        None => Err(unknown_prefixed_opcode(0xfe, code, offset)),
    }
}

/// The operator of this code behind this prefix, which stood at this offset.
#[tactic(auto, unfolding(crate::specs::Instructions::prefixed_from))]
fn read_prefixed<'a>(
    reader: &mut BinaryReader<'a>,
    prefix: u8,
    code: u32,
    offset: u64,
) -> Result<Operator<'a>, Refusal>
    requires { offset ≤ original reader.old + position_in reader.old }
    ensures same { SameInput reader.old reader.new }
    ensures onward { position_in reader.old ≤ position_in reader.new }
    ensures refusal { IfErr result (RefusedBetween offset reader.old) }
    ensures ok { IfOk result (λ op. prefixed_from written prefix code (rest reader.old)
        ≡ Some (operator_of op, rest reader.new)) }
    ensures err { OnErr result (prefixed_from written prefix code (rest reader.old) ≡ None) }
{
    match prefix {
        0xfb => read_aggregate(reader, code, offset),
        0xfc => read_bulk(reader, code, offset),
        0xfd => read_on_vectors(reader, code, offset),
        0xfe => read_atomic(reader, code, offset),
        _ => Err(unknown_opcode(prefix, offset)),
    }
}

/// The control operator of this opcode, as an operator.
#[inline(always)]
fn read_as_control<'a>(reader: &mut BinaryReader<'a>, opcode: u8, offset: u64) -> Read<'a>
    requires { offset ≤ original reader.old + position_in reader.old }
    ensures same { SameInput reader.old reader.new }
    ensures onward { position_in reader.old ≤ position_in reader.new }
    ensures refusal { IfErr result (RefusedBetween offset reader.old) }
    ensures ok { IfOk result (λ op. of_family control (control_from written opcode (rest reader.old))
        ≡ Some (operator_of op, rest reader.new)) }
    ensures err { OnErr result (of_family control (control_from written opcode (rest reader.old))
        ≡ None) }
{
    Ok(Operator::Control(read_control(reader, opcode, offset)?))
}

/// The operator of legacy exceptions of this opcode, as an operator.
#[inline(always)]
fn read_as_legacy<'a>(reader: &mut BinaryReader<'a>, opcode: u8, offset: u64) -> Read<'a>
    requires { offset ≤ original reader.old + position_in reader.old }
    ensures same { SameInput reader.old reader.new }
    ensures onward { position_in reader.old ≤ position_in reader.new }
    ensures refusal { IfErr result (RefusedBetween offset reader.old) }
    ensures ok { IfOk result (λ op. of_family legacy (legacy_from written opcode (rest reader.old))
        ≡ Some (operator_of op, rest reader.new)) }
    ensures err { OnErr result (of_family legacy (legacy_from written opcode (rest reader.old))
        ≡ None) }
{
    Ok(Operator::Legacy(read_legacy(reader, opcode, offset)?))
}

/// The operator of this opcode, which is from `0x20` on and below `0xfb` and stood at this offset.
#[tactic(auto, unfolding(crate::specs::Instructions::plain_from))]
fn read_on_values<'a>(reader: &mut BinaryReader<'a>, opcode: u8, offset: u64) -> Read<'a>
    requires place { offset ≤ original reader.old + position_in reader.old }
    requires values { 0x20 ≤ opcode }
    ensures same { SameInput reader.old reader.new }
    ensures onward { position_in reader.old ≤ position_in reader.new }
    ensures refusal { IfErr result (RefusedBetween offset reader.old) }
    ensures ok { IfOk result (λ op. plain_from written opcode (rest reader.old)
        ≡ Some (operator_of op, rest reader.new)) }
    ensures err { OnErr result (plain_from written opcode (rest reader.old) ≡ None) }
{
    if opcode < 0x25 {
        Ok(Operator::Variable(read_variable(reader, opcode, offset)?))
    } else if opcode < 0x28 {
        Ok(Operator::Table(read_table_access(reader, opcode, offset)?))
    } else if opcode < 0x3f {
        match access_from_opcode(opcode) {
            Some(op) => Ok(Operator::Memory(op, read_memarg(reader)?)),
            None => Err(unknown_opcode(opcode, offset)),
        }
    } else if opcode < 0x41 {
        Ok(Operator::BulkMemory(read_memory_size(reader, opcode, offset)?))
    } else if opcode < 0x45 {
        Ok(Operator::Constant(read_constant(reader, opcode, offset)?))
    } else if opcode < 0xd0 {
        match numeric_from_opcode(opcode) {
            Some(op) => Ok(Operator::Numeric(op)),
            None => Err(unknown_opcode(opcode, offset)),
        }
    } else if opcode < 0xe0 {
        Ok(Operator::Reference(read_reference(reader, opcode, offset)?))
    } else {
        Ok(Operator::Continuation(read_continuation(reader, opcode, offset)?))
    }
}

/// The operator of this opcode, which is below `0xfb` and stood at this offset.
#[tactic(auto, unfolding(crate::specs::Instructions::plain_from))]
fn read_plain<'a>(reader: &mut BinaryReader<'a>, opcode: u8, offset: u64) -> Read<'a>
    requires { offset ≤ original reader.old + position_in reader.old }
    ensures same { SameInput reader.old reader.new }
    ensures onward { position_in reader.old ≤ position_in reader.new }
    ensures refusal { IfErr result (RefusedBetween offset reader.old) }
    ensures ok { IfOk result (λ op. plain_from written opcode (rest reader.old)
        ≡ Some (operator_of op, rest reader.new)) }
    ensures err { OnErr result (plain_from written opcode (rest reader.old) ≡ None) }
{
    if opcode < 0x06 {
        read_as_control(reader, opcode, offset)
    } else if opcode < 0x08 {
        read_as_legacy(reader, opcode, offset)
    } else if opcode < 0x09 {
        read_as_control(reader, opcode, offset)
    } else if opcode < 0x0a {
        read_as_legacy(reader, opcode, offset)
    } else if opcode < 0x10 {
        read_as_control(reader, opcode, offset)
    } else if opcode < 0x18 {
        Ok(Operator::Call(read_call(reader, opcode, offset)?))
    } else if opcode < 0x1a {
        read_as_legacy(reader, opcode, offset)
    } else if opcode < 0x1f {
        Ok(Operator::Parametric(read_parametric(reader, opcode, offset)?))
    } else if opcode < 0x20 {
        read_as_control(reader, opcode, offset)
    } else {
        read_on_values(reader, opcode, offset)
    }
}

/// The next operator, whatever it is.
#[inline(never)]
#[tactic(auto, unfolding(crate::specs::Instructions::instruction_at))]
fn read_any<'a>(reader: &mut BinaryReader<'a>) -> Result<Operator<'a>, Refusal>
    ensures same { SameInput reader.old reader.new }
    ensures onward { position_in reader.old ≤ position_in reader.new }
    ensures refusal { IfErr result (RefusedFrom reader.old) }
    ensures ok { IfOk result (λ op. instruction_at written (rest reader.old)
        ≡ Some (operator_of op, rest reader.new)) }
    ensures further { OnOk result (position_in reader.old < position_in reader.new) }
    ensures err { OnErr result (instruction_at written (rest reader.old) ≡ None) }
{
    let offset = reader.original_position();
    let opcode = reader.read_u8()?;
    if opcode < 0xfb {
        read_plain(reader, opcode, offset)
    } else if opcode == 0xff {
        Err(unknown_opcode(opcode, offset))
    } else {
        let code = reader.read_var_u32()?;
        read_prefixed(reader, opcode, code, offset)
    }
}

/// The next operator.
#[inline]
pub fn read_operator<'a>(reader: &mut BinaryReader<'a>) -> Result<Operator<'a>, Refusal>
    ensures same { SameInput reader.old reader.new }
    ensures onward { position_in reader.old ≤ position_in reader.new }
    ensures refusal { IfErr result (RefusedFrom reader.old) }
    ensures ok { IfOk result (λ op. instruction_at written (rest reader.old)
        ≡ Some (operator_of op, rest reader.new)) }
    ensures further { OnOk result (position_in reader.old < position_in reader.new) }
    ensures err { OnErr result (instruction_at written (rest reader.old) ≡ None) }
{
    let mut ahead = *reader;
    match next_frequent(&mut ahead) {
        Some(op) => {
            reader.go_on_from(&ahead);
            Ok(op)
        }
        None => {
            // A place of its own, so that the operators above can be kept in registers.
            let found = read_any(reader);
            found
        }
    }
}
