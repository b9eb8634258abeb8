//! Constants.

ghost use Rattle.std.specs.Prelude.{◌≡◌, ◌≤◌, ◌<◌, ◌+◌, Some, None, IfOk, IfErr, OnErr};
ghost use Rattle.wasm_readers.specs.WasmReadersBytes.Reader.{SameInput, position_in, original, rest, RefusedFrom};
ghost use Rattle.wasm_operators_plain.specs.Refusals.{RefusedBetween};
ghost use Rattle.wasm_operators_plain.specs.Constants.{bits_32_at, bits_64_at, bits_128_at, constant_from, vector_from};

use crate::opcodes::{unknown_opcode, unknown_prefixed_opcode};
use wasm_readers::BinaryReader;
use wasm_readers::readers_errors::Refusal;

/// A floating-point number of 32 bits, as its bits.
#[derive(Clone, Copy, PartialEq, Eq, Debug)]
pub struct Ieee32(pub u32);

/// A floating-point number of 64 bits, as its bits.
#[derive(Clone, Copy, PartialEq, Eq, Debug)]
pub struct Ieee64(pub u64);

/// A vector of 128 bits, as its halves.
#[derive(Clone, Copy, PartialEq, Eq, Debug)]
pub struct V128 {
    /// The 64 bits that are less significant.
    pub low: u64,
    /// The 64 bits that are more significant.
    pub high: u64,
}

/// The constants (Core Specification 3.0, Binary Format, Instructions, Numeric Instructions and
/// Vector Instructions).
#[derive(Clone, Copy, PartialEq, Eq, Debug)]
pub enum ConstantOperator {
    I32Const { value: i32 },
    I64Const { value: i64 },
    F32Const { value: Ieee32 },
    F64Const { value: Ieee64 },
    V128Const { value: V128 },
}

/// The bits of four bytes, the least significant first.
#[tactic(auto, unfolding(crate::specs::Constants::bits_32_at))]
fn read_bits_32(reader: &mut BinaryReader) -> Result<u32, Refusal>
    ensures same { SameInput reader.old reader.new }
    ensures onward { position_in reader.old ≤ position_in reader.new }
    ensures refusal { IfErr result (RefusedFrom reader.old) }
    ensures ok { IfOk result (λ n. bits_32_at (rest reader.old) ≡ Some (n, rest reader.new)) }
    ensures err { OnErr result (bits_32_at (rest reader.old) ≡ None) }
{
    let first = reader.read_u8()?;
    let second = reader.read_u8()?;
    let third = reader.read_u8()?;
    let fourth = reader.read_u8()?;
    Ok(
        u32::from(first)
            + (u32::from(second) << 8)
            + (u32::from(third) << 16)
            + (u32::from(fourth) << 24),
    )
}

/// The bits of eight bytes, the least significant first.
#[tactic(auto, unfolding(crate::specs::Constants::bits_64_at))]
fn read_bits_64(reader: &mut BinaryReader) -> Result<u64, Refusal>
    ensures same { SameInput reader.old reader.new }
    ensures onward { position_in reader.old ≤ position_in reader.new }
    ensures refusal { IfErr result (RefusedFrom reader.old) }
    ensures ok { IfOk result (λ n. bits_64_at (rest reader.old) ≡ Some (n, rest reader.new)) }
    ensures err { OnErr result (bits_64_at (rest reader.old) ≡ None) }
{
    let low = read_bits_32(reader)?;
    let high = read_bits_32(reader)?;
    Ok(u64::from(low) + (u64::from(high) << 32))
}

/// The bits of sixteen bytes, the least significant first.
#[tactic(auto, unfolding(crate::specs::Constants::bits_128_at))]
pub fn read_bits_128(reader: &mut BinaryReader) -> Result<V128, Refusal>
    ensures same { SameInput reader.old reader.new }
    ensures onward { position_in reader.old ≤ position_in reader.new }
    ensures refusal { IfErr result (RefusedFrom reader.old) }
    ensures ok { IfOk result (λ v. bits_128_at (rest reader.old) ≡ Some (v, rest reader.new)) }
    ensures err { OnErr result (bits_128_at (rest reader.old) ≡ None) }
{
    let low = read_bits_64(reader)?;
    let high = read_bits_64(reader)?;
    Ok(V128 { low, high })
}

/// The constant of this opcode, which stood at this offset.
#[inline(always)]
#[tactic(auto, unfolding(crate::specs::Constants::constant_from))]
pub fn read_constant(
    reader: &mut BinaryReader,
    opcode: u8,
    offset: u64,
) -> Result<ConstantOperator, Refusal>
    requires { offset ≤ original reader.old + position_in reader.old }
    ensures same { SameInput reader.old reader.new }
    ensures onward { position_in reader.old ≤ position_in reader.new }
    ensures refusal { IfErr result (RefusedBetween offset reader.old) }
    ensures ok { IfOk result (λ op. constant_from opcode (rest reader.old)
        ≡ Some (op, rest reader.new)) }
    ensures err { OnErr result (constant_from opcode (rest reader.old) ≡ None) }
{
    match opcode {
        0x41 => Ok(ConstantOperator::I32Const {
            value: reader.read_var_i32()?,
        }),
        0x42 => Ok(ConstantOperator::I64Const {
            value: reader.read_var_i64()?,
        }),
        0x43 => Ok(ConstantOperator::F32Const {
            value: Ieee32(read_bits_32(reader)?),
        }),
        0x44 => Ok(ConstantOperator::F64Const {
            value: Ieee64(read_bits_64(reader)?),
        }),
        _ => Err(unknown_opcode(opcode, offset)),
    }
}

/// The constant of this code behind the prefix `0xfd`, which stood at this offset.
#[tactic(auto, unfolding(crate::specs::Constants::vector_from))]
pub fn read_vector(
    reader: &mut BinaryReader,
    code: u32,
    offset: u64,
) -> Result<ConstantOperator, Refusal>
    requires { offset ≤ original reader.old + position_in reader.old }
    ensures same { SameInput reader.old reader.new }
    ensures onward { position_in reader.old ≤ position_in reader.new }
    ensures refusal { IfErr result (RefusedBetween offset reader.old) }
    ensures ok { IfOk result (λ op. vector_from code (rest reader.old)
        ≡ Some (op, rest reader.new)) }
    ensures err { OnErr result (vector_from code (rest reader.old) ≡ None) }
{
    if code == 12 {
        Ok(ConstantOperator::V128Const {
            value: read_bits_128(reader)?,
        })
    } else {
        Err(unknown_prefixed_opcode(0xfd, code, offset))
    }
}
