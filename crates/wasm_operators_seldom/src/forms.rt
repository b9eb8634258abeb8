//! Operators on vectors and atomic ones, and bits that are read.

ghost use Rattle.std.specs.Prelude.{◌≡◌, ◌≤◌, Some, IfSome};
ghost use Rattle.wasm_operators.specs.WasmOperatorsPlain.WasmReaders.WasmReadersBytes.Reader.{SameInput, position_in, rest};
ghost use Rattle.wasm_operators.specs.WasmOperatorsPlain.WasmReaders.WrittenIndices.{written};
ghost use Rattle.wasm_operators.specs.WasmOperatorsPlain.Constants.{bits_32_at, bits_64_at, bits_128_at};
ghost use Rattle.wasm_operators.specs.WasmOperatorsPlain.Memories.{memarg_at};
ghost use Rattle.wasm_operators.specs.FormImmediates.{immediates_at, place_at, values_at};
ghost use Rattle.wasm_operators.specs.Instructions.{atomic, atomics_from, constant, vector, vectors_from};

use wasm_operators::operators_atomic::{
    AtomicOperator, Form, Immediates, VectorOperator, atomic_form, vector_form,
};
use wasm_operators::readers::BinaryReader;
use wasm_operators::{ConstantOperator, ImmediateValues, MemArg, V128, read_memarg};
use wasm_operators_proposals::operators_atomic::{operator_from_code, operators_vector};

/// The bits of four bytes, the least significant first, if they are there.
#[inline(always)]
#[tactic(auto, unfolding(crate::proofs::Cited::bits_32_at))]
pub fn next_bits_32(reader: &mut BinaryReader) -> Option<u32>
    ensures same { SameInput reader.old reader.new }
    ensures onward { position_in reader.old ≤ position_in reader.new }
    ensures some { IfSome result (λ n. bits_32_at (rest reader.old) ≡ Some (n, rest reader.new)) }
{
    let first = reader.next_u8()?;
    let second = reader.next_u8()?;
    let third = reader.next_u8()?;
    let fourth = reader.next_u8()?;
    Some(
        u32::from(first)
            + (u32::from(second) << 8)
            + (u32::from(third) << 16)
            + (u32::from(fourth) << 24),
    )
}

/// The bits of eight bytes, the least significant first, if they are there.
#[inline(always)]
#[tactic(auto, unfolding(crate::proofs::Cited::bits_64_at))]
pub fn next_bits_64(reader: &mut BinaryReader) -> Option<u64>
    ensures same { SameInput reader.old reader.new }
    ensures onward { position_in reader.old ≤ position_in reader.new }
    ensures some { IfSome result (λ n. bits_64_at (rest reader.old) ≡ Some (n, rest reader.new)) }
{
    let low = next_bits_32(reader)?;
    let high = next_bits_32(reader)?;
    Some(u64::from(low) + (u64::from(high) << 32))
}

/// The bits of sixteen bytes, the least significant first, if they are there.
#[inline(always)]
#[tactic(auto, unfolding(crate::proofs::Cited::bits_128_at))]
fn next_bits_128(reader: &mut BinaryReader) -> Option<V128>
    ensures same { SameInput reader.old reader.new }
    ensures onward { position_in reader.old ≤ position_in reader.new }
    ensures some { IfSome result (λ v. bits_128_at (rest reader.old) ≡ Some (v, rest reader.new)) }
{
    let low = next_bits_64(reader)?;
    let high = next_bits_64(reader)?;
    Some(V128 { low, high })
}

/// What follows an operator of this form that accesses no memory, if it is next.
#[inline(always)]
fn next_values(reader: &mut BinaryReader, immediates: Immediates) -> Option<ImmediateValues>
    ensures same { SameInput reader.old reader.new }
    ensures onward { position_in reader.old ≤ position_in reader.new }
    ensures some { IfSome result (λ i. values_at immediates (rest reader.old)
        ≡ Some (i, rest reader.new)) }
{
    match immediates {
        Immediates::Nothing => Some(ImmediateValues::Nothing),
        Immediates::Lane(_) => Some(ImmediateValues::Lane(reader.next_u8()?)),
        Immediates::Lanes => Some(ImmediateValues::Lanes(next_bits_128(reader)?)),
        Immediates::Zero => {
            if reader.next_u8()? == 0 {
                Some(ImmediateValues::Nothing)
            } else {
                None
            }
        }
    }
}

/// The memory argument that is next, if it is there.
#[inline(always)]
fn next_memarg(reader: &mut BinaryReader) -> Option<MemArg>
    ensures same { SameInput reader.old reader.new }
    ensures onward { position_in reader.old ≤ position_in reader.new }
    ensures some { IfSome result (λ arg. memarg_at (rest reader.old)
        ≡ Some (arg, rest reader.new)) }
{
    match read_memarg(reader) {
        Ok(arg) => Some(arg),
        Err(_) => None,
    }
}

/// The memory argument that is next, with the index of a lane where there is one.
#[inline(always)]
fn next_access(reader: &mut BinaryReader, has_lane: bool) -> Option<ImmediateValues>
    ensures same { SameInput reader.old reader.new }
    ensures onward { position_in reader.old ≤ position_in reader.new }
    ensures some { IfSome result (λ i. place_at has_lane (rest reader.old)
        ≡ Some (i, rest reader.new)) }
{
    let arg = next_memarg(reader)?;
    if has_lane {
        Some(ImmediateValues::MemArgLane(arg, reader.next_u8()?))
    } else {
        Some(ImmediateValues::MemArg(arg))
    }
}

/// What follows an operator of this form, if it is next.
#[inline(always)]
fn next_immediates(reader: &mut BinaryReader, form: Form) -> Option<ImmediateValues>
    ensures same { SameInput reader.old reader.new }
    ensures onward { position_in reader.old ≤ position_in reader.new }
    ensures some { IfSome result (λ i. immediates_at form (rest reader.old)
        ≡ Some (i, rest reader.new)) }
{
    match form {
        Form::Compute { immediates, .. } => next_values(reader, immediates),
        Form::Access { lanes, .. } => next_access(reader, lanes.is_some()),
    }
}

/// The constant of a vector behind the prefix `0xfd`, if this is its code and its bytes are next.
#[inline(always)]
#[tactic(auto, unfolding(crate::proofs::Cited::vectors_from, crate::proofs::Cited::vector_from))]
pub fn next_vector_constant(reader: &mut BinaryReader, code: u32) -> Option<ConstantOperator>
    ensures same { SameInput reader.old reader.new }
    ensures onward { position_in reader.old ≤ position_in reader.new }
    ensures some { IfSome result (λ op. vectors_from written code (rest reader.old)
        ≡ Some (constant op, rest reader.new)) }
{
    if code == 12 {
        Some(ConstantOperator::V128Const {
            value: next_bits_128(reader)?,
        })
    } else {
        None
    }
}

/// The operator on vectors of this code behind the prefix `0xfd`, if it is one and what follows it is
/// next, and that.
#[inline(always)]
#[tactic(auto, unfolding(crate::proofs::Cited::vectors_from))]
pub fn next_on_vectors(
    reader: &mut BinaryReader,
    code: u32,
) -> Option<(VectorOperator, ImmediateValues)>
    ensures same { SameInput reader.old reader.new }
    ensures onward { position_in reader.old ≤ position_in reader.new }
    ensures some { IfSome result (λ x. vectors_from written code (rest reader.old)
        ≡ Some (vector x.0 x.1, rest reader.new)) }
{
    if code == 12 {
        return None;
    }
    let op = operators_vector::operator_from_code(code)?;
    let values = next_immediates(reader, vector_form(op))?;
    Some((op, values))
}

/// The atomic operator of this code behind the prefix `0xfe`, if it is one on memories and what follows
/// it is next, and that.
#[inline(always)]
#[tactic(auto, unfolding(crate::proofs::Cited::atomics_from))]
pub fn next_atomic(
    reader: &mut BinaryReader,
    code: u32,
) -> Option<(AtomicOperator, ImmediateValues)>
    ensures same { SameInput reader.old reader.new }
    ensures onward { position_in reader.old ≤ position_in reader.new }
    ensures some { IfSome result (λ x. atomics_from written code (rest reader.old)
        ≡ Some (atomic x.0 x.1, rest reader.new)) }
{
    // The others are on shared data.
    if code == 4 || code >= 0x4f {
        return None;
    }
    let op = operator_from_code(code)?;
    let values = next_immediates(reader, atomic_form(op))?;
    Some((op, values))
}
