//! Operators on memories.

ghost use Rattle.std.specs.Prelude.{◌≡◌, ◌≢◌, ◌≤◌, ◌<◌, ◌+◌, Some, None, IfSome, IfNone, IfOk, IfErr, OnOk, OnErr};
ghost use Rattle.wasm_readers.specs.WasmReadersBytes.Reader.{SameInput, position_in, original, rest, RefusedFrom};
ghost use Rattle.wasm_operators_plain.specs.Refusals.{RefusedBetween};
ghost use Rattle.wasm_operators_plain.specs.Memories.{max_align_of, access_opcode, access_from, memarg_at, memory_size_from, memory_from};
ghost use Rattle.wasm_operators_plain.specs.declared.memories.MemoryOperator.{MemoryOperator};

use crate::opcodes::{unknown_opcode, unknown_prefixed_opcode};
use wasm_readers::BinaryReader;
use wasm_readers::readers_errors::{Fault, Malformed, Refusal};

/// The loads and stores (Core Specification 3.0, Binary Format, Instructions, Memory Instructions).
#[derive(Clone, Copy, PartialEq, Eq, Debug)]
pub enum MemoryOperator {
    I32Load,
    I64Load,
    F32Load,
    F64Load,
    I32Load8S,
    I32Load8U,
    I32Load16S,
    I32Load16U,
    I64Load8S,
    I64Load8U,
    I64Load16S,
    I64Load16U,
    I64Load32S,
    I64Load32U,
    I32Store,
    I64Store,
    F32Store,
    F64Store,
    I32Store8,
    I32Store16,
    I64Store8,
    I64Store16,
    I64Store32,
}

/// Where a load or a store goes (Core Specification 3.0, Binary Format, Instructions, Memory
/// Instructions).
#[derive(Clone, Copy, PartialEq, Eq, Debug)]
pub struct MemArg {
    /// The logarithm to base 2 of the alignment in bytes, below 64.
    pub align: u8,
    /// What is added to the address, in bytes.
    pub offset: u64,
    /// The index of the memory.
    pub memory: u32,
}

/// The operators on whole memories and on data segments (Core Specification 3.0, Binary Format,
/// Instructions, Memory Instructions; and `memory.discard` of the memory-control proposal).
#[derive(Clone, Copy, Debug)]
pub enum BulkMemoryOperator {
    MemorySize { mem: u32 },
    MemoryGrow { mem: u32 },
    MemoryInit { data_index: u32, mem: u32 },
    DataDrop { data_index: u32 },
    MemoryCopy { dst_mem: u32, src_mem: u32 },
    MemoryFill { mem: u32 },
    MemoryDiscard { mem: u32 },
}

/// The load or store of this opcode, if there is one.
#[inline]
pub fn access_from_opcode(opcode: u8) -> Option<MemoryOperator>
    ensures { result ≡ access_from opcode }
{
    access_with_opcode(opcode)
}

/// The load or store that has this opcode, or none where none has.
fn access_with_opcode(opcode: u8) -> Option<MemoryOperator>
    ensures some { IfSome result (λ op. access_opcode op ≡ opcode) }
    ensures none { IfNone result ((op : MemoryOperator) → access_opcode op ≢ opcode) }
{
    match opcode {
        0x28 => Some(MemoryOperator::I32Load),
        0x29 => Some(MemoryOperator::I64Load),
        0x2a => Some(MemoryOperator::F32Load),
        0x2b => Some(MemoryOperator::F64Load),
        0x2c => Some(MemoryOperator::I32Load8S),
        0x2d => Some(MemoryOperator::I32Load8U),
        0x2e => Some(MemoryOperator::I32Load16S),
        0x2f => Some(MemoryOperator::I32Load16U),
        0x30 => Some(MemoryOperator::I64Load8S),
        0x31 => Some(MemoryOperator::I64Load8U),
        0x32 => Some(MemoryOperator::I64Load16S),
        0x33 => Some(MemoryOperator::I64Load16U),
        0x34 => Some(MemoryOperator::I64Load32S),
        0x35 => Some(MemoryOperator::I64Load32U),
        0x36 => Some(MemoryOperator::I32Store),
        0x37 => Some(MemoryOperator::I64Store),
        0x38 => Some(MemoryOperator::F32Store),
        0x39 => Some(MemoryOperator::F64Store),
        0x3a => Some(MemoryOperator::I32Store8),
        0x3b => Some(MemoryOperator::I32Store16),
        0x3c => Some(MemoryOperator::I64Store8),
        0x3d => Some(MemoryOperator::I64Store16),
        0x3e => Some(MemoryOperator::I64Store32),
        _ => None,
    }
}

/// A memory argument: an alignment, a memory index where the alignment has 64 added, and an offset.
#[inline]
#[tactic(auto, unfolding(crate::specs::Memories::memarg_at))]
pub fn read_memarg(reader: &mut BinaryReader) -> Result<MemArg, Refusal>
    ensures same { SameInput reader.old reader.new }
    ensures onward { position_in reader.old ≤ position_in reader.new }
    ensures refusal { IfErr result (RefusedFrom reader.old) }
    ensures ok { IfOk result (λ arg. memarg_at (rest reader.old) ≡ Some (arg, rest reader.new)) }
    ensures further { OnOk result (position_in reader.old < position_in reader.new) }
    ensures err { OnErr result (memarg_at (rest reader.old) ≡ None) }
{
    let flags_offset = reader.original_position();
    let flags = reader.read_var_u32()?;
    if flags < 64 {
        Ok(MemArg {
            align: flags as u8,
            memory: 0,
            offset: reader.read_var_u64()?,
        })
    } else if flags < 128 {
        Ok(MemArg {
            align: (flags - 64) as u8,
            memory: reader.read_var_u32()?,
            offset: reader.read_var_u64()?,
        })
    } else {
        Err(Refusal::new(Fault::Malformed(Malformed::Alignment), flags_offset))
    }
}

/// The size or growth of a memory, of this opcode, which stood at this offset.
#[inline]
#[tactic(auto, unfolding(crate::specs::Memories::memory_size_from))]
pub fn read_memory_size(
    reader: &mut BinaryReader,
    opcode: u8,
    offset: u64,
) -> Result<BulkMemoryOperator, Refusal>
    requires { offset ≤ original reader.old + position_in reader.old }
    ensures same { SameInput reader.old reader.new }
    ensures onward { position_in reader.old ≤ position_in reader.new }
    ensures refusal { IfErr result (RefusedBetween offset reader.old) }
    ensures ok { IfOk result (λ op. memory_size_from opcode (rest reader.old)
        ≡ Some (op, rest reader.new)) }
    ensures err { OnErr result (memory_size_from opcode (rest reader.old) ≡ None) }
{
    match opcode {
        0x3f => Ok(BulkMemoryOperator::MemorySize {
            mem: reader.read_var_u32()?,
        }),
        0x40 => Ok(BulkMemoryOperator::MemoryGrow {
            mem: reader.read_var_u32()?,
        }),
        _ => Err(unknown_opcode(opcode, offset)),
    }
}

/// The operator on memories of this code behind the prefix `0xfc`, which stood at this offset.
#[tactic(auto, unfolding(crate::specs::Memories::memory_from))]
pub fn read_memory(
    reader: &mut BinaryReader,
    code: u32,
    offset: u64,
) -> Result<BulkMemoryOperator, Refusal>
    requires { offset ≤ original reader.old + position_in reader.old }
    ensures same { SameInput reader.old reader.new }
    ensures onward { position_in reader.old ≤ position_in reader.new }
    ensures refusal { IfErr result (RefusedBetween offset reader.old) }
    ensures ok { IfOk result (λ op. memory_from code (rest reader.old)
        ≡ Some (op, rest reader.new)) }
    ensures err { OnErr result (memory_from code (rest reader.old) ≡ None) }
{
    match code {
        8 => Ok(BulkMemoryOperator::MemoryInit {
            data_index: reader.read_var_u32()?,
            mem: reader.read_var_u32()?,
        }),
        9 => Ok(BulkMemoryOperator::DataDrop {
            data_index: reader.read_var_u32()?,
        }),
        10 => Ok(BulkMemoryOperator::MemoryCopy {
            dst_mem: reader.read_var_u32()?,
            src_mem: reader.read_var_u32()?,
        }),
        11 => Ok(BulkMemoryOperator::MemoryFill {
            mem: reader.read_var_u32()?,
        }),
        18 => Ok(BulkMemoryOperator::MemoryDiscard {
            mem: reader.read_var_u32()?,
        }),
        _ => Err(unknown_prefixed_opcode(0xfc, code, offset)),
    }
}

/// The logarithm to base 2 of the bytes that it accesses. Validation refuses an alignment past it.
/// Inlined where it is called: each access of the fast step has an alignment of its own there.
#[inline(always)]
pub fn max_align(op: MemoryOperator) -> u8
    ensures { result ≡ max_align_of op }
{
    match op {
        MemoryOperator::I32Load8S
        | MemoryOperator::I32Load8U
        | MemoryOperator::I64Load8S
        | MemoryOperator::I64Load8U
        | MemoryOperator::I32Store8
        | MemoryOperator::I64Store8 => 0,
        MemoryOperator::I32Load16S
        | MemoryOperator::I32Load16U
        | MemoryOperator::I64Load16S
        | MemoryOperator::I64Load16U
        | MemoryOperator::I32Store16
        | MemoryOperator::I64Store16 => 1,
        MemoryOperator::I32Load
        | MemoryOperator::F32Load
        | MemoryOperator::I64Load32S
        | MemoryOperator::I64Load32U
        | MemoryOperator::I32Store
        | MemoryOperator::F32Store
        | MemoryOperator::I64Store32 => 2,
        MemoryOperator::I64Load
        | MemoryOperator::F64Load
        | MemoryOperator::I64Store
        | MemoryOperator::F64Store => 3,
    }
}
