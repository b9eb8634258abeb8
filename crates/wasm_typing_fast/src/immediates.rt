//! Immediates, where they are there, without refusals.

ghost use Rattle.std.specs.Prelude.{◌≡◌, ◌≤◌, ◌<◌, ◌∷◌, [], Some, None, IfOk, OnOk, OnErr};
ghost use Rattle.wasm_readers_bytes.specs.Reader.{SameInput, position_in, rest};
ghost use Rattle.wasm_spec.specs.Values.{u32_at, u64_at};
ghost use Rattle.wasm_operators_plain.specs.Memories.{memarg_at};
ghost use Rattle.wasm_operators_plain.specs.WasmReaders.WrittenIndices.{written};
ghost use Rattle.wasm_operators.specs.Control.{block_at};
ghost use Rattle.wasm_typing_fast.specs.Blocks.{block_named};
ghost use Rattle.wasm_typing_fast.specs.SignedNumbers.{behind_signed, HasNoNumber, Passed};

use wasm_operators_plain::readers::BinaryReader;
use wasm_operators_plain::{MemArg, NumberType};
use wasm_typing_control::NotTaken;

/// The next byte.
#[inline(always)]
pub fn next_byte(reader: &mut BinaryReader) -> Result<u8, NotTaken>
    ensures same { SameInput reader.old reader.new }
    ensures onward { position_in reader.old ≤ position_in reader.new }
    ensures ok { IfOk result (λ byte. rest reader.old ≡ byte ∷ rest reader.new) }
    ensures none { OnErr result (rest reader.old ≡ []) }
    ensures further { OnOk result (position_in reader.old < position_in reader.new) }
{
    match reader.next_u8() {
        Some(byte) => Ok(byte),
        None => Err(NotTaken::Left),
    }
}

/// The next number, where it has one byte or two.
#[inline(always)]
fn next_short(reader: &mut BinaryReader) -> Result<u32, NotTaken>
    ensures same { SameInput reader.old reader.new }
    ensures onward { position_in reader.old ≤ position_in reader.new }
    ensures narrow { IfOk result (λ n. u32_at (rest reader.old) ≡ Some (n, rest reader.new)) }
    ensures wide { IfOk result (λ n. u64_at (rest reader.old) ≡ Some (n, rest reader.new)) }
{
    let first = next_byte(reader)?;
    if first < 128 {
        return Ok(u32::from(first));
    }
    let second = next_byte(reader)?;
    if second < 128 {
        return Ok(u32::from(first - 128) + (u32::from(second) << 7));
    }
    Err(NotTaken::Left)
}

/// The next index.
#[inline(always)]
pub fn next_index(reader: &mut BinaryReader) -> Result<u32, NotTaken>
    ensures same { SameInput reader.old reader.new }
    ensures onward { position_in reader.old ≤ position_in reader.new }
    ensures ok { IfOk result (λ n. u32_at (rest reader.old) ≡ Some (n, rest reader.new)) }
{
    let mut ahead = *reader;
    match next_short(&mut ahead) {
        Ok(index) => {
            reader.go_on_from(&ahead);
            Ok(index)
        }
        Err(_) => match reader.next_var_u32() {
            Some(index) => Ok(index),
            None => Err(NotTaken::Left),
        },
    }
}

/// The next offset.
#[inline(always)]
fn next_offset(reader: &mut BinaryReader) -> Result<u64, NotTaken>
    ensures same { SameInput reader.old reader.new }
    ensures onward { position_in reader.old ≤ position_in reader.new }
    ensures ok { IfOk result (λ n. u64_at (rest reader.old) ≡ Some (n, rest reader.new)) }
{
    let mut ahead = *reader;
    match next_short(&mut ahead) {
        Ok(offset) => {
            reader.go_on_from(&ahead);
            Ok(u64::from(offset))
        }
        Err(_) => match reader.next_var_u64() {
            Some(offset) => Ok(offset),
            None => Err(NotTaken::Left),
        },
    }
}

/// Passes up to four bytes of a signed number of more than 28 bits, and tells whether it ends with
/// them. Whatever they hold, there is room for it.
#[inline(always)]
#[tactic(auto, using(crate::proofs::NumberBytes::passes))]
fn pass_four(reader: &mut BinaryReader) -> Result<bool, NotTaken>
    ensures same { SameInput reader.old reader.new }
    ensures onward { position_in reader.old ≤ position_in reader.new }
    ensures ok { IfOk result (λ ended. Passed ended (rest reader.old) (rest reader.new)) }
    ensures none { OnErr result (HasNoNumber (rest reader.old)) }
{
    if next_byte(reader)? < 128 {
        return Ok(true);
    }
    if next_byte(reader)? < 128 {
        return Ok(true);
    }
    if next_byte(reader)? < 128 {
        return Ok(true);
    }
    if next_byte(reader)? < 128 {
        return Ok(true);
    }
    Ok(false)
}

/// Passes a signed number of four bits, as the fifth byte of one of 32 bits is.
#[inline(always)]
#[tactic(auto, using(crate::proofs::NumberBytes::lasts))]
fn pass_four_bits(reader: &mut BinaryReader) -> Result<(), NotTaken>
    ensures same { SameInput reader.old reader.new }
    ensures onward { position_in reader.old ≤ position_in reader.new }
    ensures ok { OnOk result (behind_signed 4 (rest reader.old) ≡ Some (rest reader.new)) }
    ensures none { OnErr result (behind_signed 4 (rest reader.old) ≡ None) }
{
    let byte = next_byte(reader)?;
    if byte < 8 {
        return Ok(());
    }
    if byte < 120 {
        return Err(NotTaken::Left);
    }
    if byte < 128 {
        return Ok(());
    }
    Err(NotTaken::Left)
}

/// Passes a signed number of eight bits, as the ninth and tenth byte of one of 64 bits are.
#[inline(always)]
#[tactic(auto, using(crate::proofs::NumberBytes::lasts))]
fn pass_eight_bits(reader: &mut BinaryReader) -> Result<(), NotTaken>
    ensures same { SameInput reader.old reader.new }
    ensures onward { position_in reader.old ≤ position_in reader.new }
    ensures ok { OnOk result (behind_signed 8 (rest reader.old) ≡ Some (rest reader.new)) }
    ensures none { OnErr result (behind_signed 8 (rest reader.old) ≡ None) }
{
    if next_byte(reader)? < 128 {
        return Ok(());
    }
    let sign = next_byte(reader)?;
    if sign == 0 {
        return Ok(());
    }
    if sign == 127 {
        return Ok(());
    }
    Err(NotTaken::Left)
}

/// Passes a signed number of 32 bits, if it is next.
///
/// # Errors
///
/// Where it isn't, and only there. The reader may stand further on then.
#[inline(always)]
#[tactic(auto, using(crate::proofs::NumberBytes::wholes))]
pub fn pass_i32(reader: &mut BinaryReader) -> Result<(), NotTaken>
    ensures same { SameInput reader.old reader.new }
    ensures onward { position_in reader.old ≤ position_in reader.new }
    ensures ok { OnOk result (behind_signed 32 (rest reader.old) ≡ Some (rest reader.new)) }
    ensures none { OnErr result (behind_signed 32 (rest reader.old) ≡ None) }
{
    if pass_four(reader)? {
        return Ok(());
    }
    pass_four_bits(reader)
}

/// Passes a signed number of 64 bits, if it is next.
///
/// # Errors
///
/// Where it isn't, and only there. The reader may stand further on then.
#[inline(always)]
#[tactic(auto, using(crate::proofs::NumberBytes::wholes))]
pub fn pass_i64(reader: &mut BinaryReader) -> Result<(), NotTaken>
    ensures same { SameInput reader.old reader.new }
    ensures onward { position_in reader.old ≤ position_in reader.new }
    ensures ok { OnOk result (behind_signed 64 (rest reader.old) ≡ Some (rest reader.new)) }
    ensures none { OnErr result (behind_signed 64 (rest reader.old) ≡ None) }
{
    if pass_four(reader)? {
        return Ok(());
    }
    if pass_four(reader)? {
        return Ok(());
    }
    pass_eight_bits(reader)
}

/// The next memory argument, where it is of the first memory.
#[inline(always)]
#[tactic(auto, unfolding(wasm_operators_plain::specs::Memories::memarg_at))]
pub fn next_memarg(reader: &mut BinaryReader) -> Result<MemArg, NotTaken>
    ensures same { SameInput reader.old reader.new }
    ensures onward { position_in reader.old ≤ position_in reader.new }
    ensures ok { IfOk result (λ arg. memarg_at (rest reader.old) ≡ Some (arg, rest reader.new)) }
{
    let flags = next_index(reader)?;
    if flags >= 64 {
        return Err(NotTaken::Left);
    }
    let offset = next_offset(reader)?;
    Ok(MemArg {
        align: flags as u8,
        memory: 0,
        offset,
    })
}

/// What the next block type gives, where it takes nothing and gives nothing or a number.
#[inline(always)]
#[tactic(auto, using(crate::proofs::BlockTypes::blocks))]
pub fn next_block(reader: &mut BinaryReader) -> Result<Option<NumberType>, NotTaken>
    ensures same { SameInput reader.old reader.new }
    ensures onward { position_in reader.old ≤ position_in reader.new }
    ensures ok { IfOk result (λ gives. block_at written (rest reader.old)
        ≡ Some (block_named gives, rest reader.new)) }
{
    match next_byte(reader)? {
        0x40 => Ok(None),
        0x7f => Ok(Some(NumberType::I32)),
        0x7e => Ok(Some(NumberType::I64)),
        0x7d => Ok(Some(NumberType::F32)),
        0x7c => Ok(Some(NumberType::F64)),
        _ => Err(NotTaken::Left),
    }
}
