//! The immediates of operators on vectors and of atomic ones, which their forms tell.

ghost use Rattle.std.specs.Prelude.{◌≡◌, ◌≤◌, ◌+◌, Some, None, IfOk, IfErr, OnErr};
ghost use Rattle.wasm_operators_proposals.specs.WasmOperatorsPlain.WasmReaders.WasmReadersBytes.Reader.{SameInput, position_in, original, rest};
ghost use Rattle.wasm_operators_proposals.specs.WasmOperatorsPlain.Refusals.{RefusedBetween};
ghost use Rattle.wasm_operators.specs.FormImmediates.{zero_at, values_at, place_at, immediates_at};

use wasm_operators_proposals::operators_atomic::operators_vector::{Form, Immediates};
use wasm_operators_proposals::operators_plain::readers::BinaryReader;
use wasm_operators_proposals::operators_plain::readers_errors::{Fault, Malformed, Refusal};
use wasm_operators_proposals::operators_plain::{MemArg, V128, read_bits_128, read_memarg};

/// The immediates of an operator on vectors or of an atomic one.
#[derive(Clone, Copy, PartialEq, Eq, Debug)]
pub enum ImmediateValues {
    Nothing,
    /// The index of a lane.
    Lane(u8),
    /// Sixteen indices of lanes, a byte each, the first of them the least significant.
    Lanes(V128),
    MemArg(MemArg),
    /// A memory argument and the index of a lane.
    MemArgLane(MemArg, u8),
}

/// The byte zero, behind an opcode that stood at this offset.
fn read_zero(reader: &mut BinaryReader, offset: u64) -> Result<ImmediateValues, Refusal>
    requires { offset ≤ original reader.old + position_in reader.old }
    ensures same { SameInput reader.old reader.new }
    ensures onward { position_in reader.old ≤ position_in reader.new }
    ensures refusal { IfErr result (RefusedBetween offset reader.old) }
    ensures ok { IfOk result (λ i. zero_at (rest reader.old) ≡ Some (i, rest reader.new)) }
    ensures err { OnErr result (zero_at (rest reader.old) ≡ None) }
{
    if reader.read_u8()? == 0 {
        Ok(ImmediateValues::Nothing)
    } else {
        Err(Refusal::new(Fault::Malformed(Malformed::FenceByte), offset))
    }
}

/// The immediates of an operator of this form that accesses no memory, and whose opcode stood at
/// this offset.
fn read_values(
    reader: &mut BinaryReader,
    immediates: Immediates,
    offset: u64,
) -> Result<ImmediateValues, Refusal>
    requires { offset ≤ original reader.old + position_in reader.old }
    ensures same { SameInput reader.old reader.new }
    ensures onward { position_in reader.old ≤ position_in reader.new }
    ensures refusal { IfErr result (RefusedBetween offset reader.old) }
    ensures ok { IfOk result (λ i. values_at immediates (rest reader.old)
        ≡ Some (i, rest reader.new)) }
    ensures err { OnErr result (values_at immediates (rest reader.old) ≡ None) }
{
    match immediates {
        Immediates::Nothing => Ok(ImmediateValues::Nothing),
        Immediates::Zero => read_zero(reader, offset),
        Immediates::Lane(_) => Ok(ImmediateValues::Lane(reader.read_u8()?)),
        Immediates::Lanes => Ok(ImmediateValues::Lanes(read_bits_128(reader)?)),
    }
}

/// The memory argument of an operator, with the index of a lane where it has one.
fn read_access(
    reader: &mut BinaryReader,
    has_lane: bool,
    offset: u64,
) -> Result<ImmediateValues, Refusal>
    requires { offset ≤ original reader.old + position_in reader.old }
    ensures same { SameInput reader.old reader.new }
    ensures onward { position_in reader.old ≤ position_in reader.new }
    ensures refusal { IfErr result (RefusedBetween offset reader.old) }
    ensures ok { IfOk result (λ i. place_at has_lane (rest reader.old)
        ≡ Some (i, rest reader.new)) }
    ensures err { OnErr result (place_at has_lane (rest reader.old) ≡ None) }
{
    let arg = read_memarg(reader)?;
    if has_lane {
        Ok(ImmediateValues::MemArgLane(arg, reader.read_u8()?))
    } else {
        Ok(ImmediateValues::MemArg(arg))
    }
}

/// The immediates of an operator of this form, whose opcode stood at this offset.
pub fn read_immediates(
    reader: &mut BinaryReader,
    form: Form,
    offset: u64,
) -> Result<ImmediateValues, Refusal>
    requires { offset ≤ original reader.old + position_in reader.old }
    ensures same { SameInput reader.old reader.new }
    ensures onward { position_in reader.old ≤ position_in reader.new }
    ensures refusal { IfErr result (RefusedBetween offset reader.old) }
    ensures ok { IfOk result (λ i. immediates_at form (rest reader.old)
        ≡ Some (i, rest reader.new)) }
    ensures err { OnErr result (immediates_at form (rest reader.old) ≡ None) }
{
    match form {
        Form::Compute { immediates, .. } => read_values(reader, immediates, offset),
        Form::Access { lanes, .. } => read_access(reader, lanes.is_some(), offset),
    }
}
