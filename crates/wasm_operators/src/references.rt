//! Operators on references, and casts.

ghost use Rattle.std.specs.Prelude.{◌≡◌, ◌≤◌, ◌+◌, Some, None, IfOk, IfErr, OnErr};
ghost use Rattle.wasm_operators_proposals.specs.WasmOperatorsPlain.WasmReaders.WasmReadersBytes.Reader.{SameInput, position_in, original, rest, RefusedFrom};
ghost use Rattle.wasm_operators_proposals.specs.WasmOperatorsPlain.WasmReaders.WrittenIndices.{written};
ghost use Rattle.wasm_operators_proposals.specs.WasmOperatorsPlain.WasmSpec.BinaryTypes.{heap_at};
ghost use Rattle.wasm_operators_proposals.specs.WasmOperatorsPlain.WasmReadersTypes.WasmReadersValues.SeenValues.{ref_of};
ghost use Rattle.wasm_operators_proposals.specs.WasmOperatorsPlain.Refusals.{RefusedBetween};
ghost use Rattle.wasm_operators.specs.References.{cast_flags_at, branch_at, reference_from, described_from, cast_from};
ghost use Rattle.wasm_operators.specs.SeenReferences.{reference_of, cast_of};

use wasm_operators_proposals::operators_plain::readers::BinaryReader;
use wasm_operators_proposals::operators_plain::readers::types::read_heap_type;
use wasm_operators_proposals::operators_plain::readers_errors::{Fault, Malformed, Refusal};
use wasm_operators_proposals::operators_plain::readers_types::{HeapType, RefType};
use wasm_operators_proposals::operators_plain::{unknown_opcode, unknown_prefixed_opcode};

/// Operators on references (Core Specification 3.0, Binary Format, Instructions, Reference
/// Instructions), with the branches on null.
#[derive(Clone, Copy, Debug)]
pub enum ReferenceOperator {
    RefNull { hty: HeapType },
    RefIsNull,
    RefFunc { function_index: u32 },
    RefEq,
    RefAsNonNull,
    BrOnNull { relative_depth: u32 },
    BrOnNonNull { relative_depth: u32 },
}

/// Tests and casts of references (Core Specification 3.0, Binary Format, Instructions, Reference
/// Instructions), with the branches on casts; and `ref.get_desc`, and casts and branches by
/// descriptors (the proposal for custom descriptors), for which validation asks for
/// `DESCRIPTOR_OPERATORS` and `CUSTOM_DESCRIPTORS`.
#[derive(Clone, Copy, Debug)]
pub enum CastOperator {
    RefTestNonNull {
        hty: HeapType,
    },
    RefTestNullable {
        hty: HeapType,
    },
    RefCastNonNull {
        hty: HeapType,
    },
    RefCastNullable {
        hty: HeapType,
    },
    BrOnCast {
        relative_depth: u32,
        from_ref_type: RefType,
        to_ref_type: RefType,
    },
    BrOnCastFail {
        relative_depth: u32,
        from_ref_type: RefType,
        to_ref_type: RefType,
    },
    RefGetDesc {
        type_index: u32,
    },
    RefCastDescEqNonNull {
        hty: HeapType,
    },
    RefCastDescEqNullable {
        hty: HeapType,
    },
    BrOnCastDescEq {
        relative_depth: u32,
        from_ref_type: RefType,
        to_ref_type: RefType,
    },
    BrOnCastDescEqFail {
        relative_depth: u32,
        from_ref_type: RefType,
        to_ref_type: RefType,
    },
}

/// The operator on references of this opcode, which stood at this offset.
#[inline(always)]
#[tactic(auto, unfolding(crate::specs::References::reference_from))]
pub(crate) fn read_reference(
    reader: &mut BinaryReader,
    opcode: u8,
    offset: u64,
) -> Result<ReferenceOperator, Refusal>
    requires { offset ≤ original reader.old + position_in reader.old }
    ensures same { SameInput reader.old reader.new }
    ensures onward { position_in reader.old ≤ position_in reader.new }
    ensures refusal { IfErr result (RefusedBetween offset reader.old) }
    ensures ok { IfOk result (λ op. reference_from written opcode (rest reader.old)
        ≡ Some (reference_of op, rest reader.new)) }
    ensures err { OnErr result (reference_from written opcode (rest reader.old) ≡ None) }
{
    match opcode {
        0xd0 => Ok(ReferenceOperator::RefNull {
            hty: read_heap_type(reader)?,
        }),
        0xd1 => Ok(ReferenceOperator::RefIsNull),
        0xd2 => Ok(ReferenceOperator::RefFunc {
            function_index: reader.read_var_u32()?,
        }),
        0xd3 => Ok(ReferenceOperator::RefEq),
        0xd4 => Ok(ReferenceOperator::RefAsNonNull),
        0xd5 => Ok(ReferenceOperator::BrOnNull {
            relative_depth: reader.read_var_u32()?,
        }),
        0xd6 => Ok(ReferenceOperator::BrOnNonNull {
            relative_depth: reader.read_var_u32()?,
        }),
        _ => Err(unknown_opcode(opcode, offset)),
    }
}

/// Whether the two types of a branch on a cast have null.
#[tactic(auto, unfolding(crate::specs::References::cast_flags_at))]
fn read_cast_flags(reader: &mut BinaryReader) -> Result<(bool, bool), Refusal>
    ensures same { SameInput reader.old reader.new }
    ensures onward { position_in reader.old ≤ position_in reader.new }
    ensures refusal { IfErr result (RefusedFrom reader.old) }
    ensures ok { IfOk result (λ flags. cast_flags_at (rest reader.old)
        ≡ Some (flags, rest reader.new)) }
    ensures err { OnErr result (cast_flags_at (rest reader.old) ≡ None) }
{
    let offset = reader.original_position();
    match reader.read_u8()? {
        0 => Ok((false, false)),
        1 => Ok((true, false)),
        2 => Ok((false, true)),
        3 => Ok((true, true)),
        _ => Err(Refusal::new(Fault::Malformed(Malformed::CastFlags), offset)),
    }
}

/// A reference type of which the heap type is written.
fn read_type(reader: &mut BinaryReader, nullable: bool) -> Result<RefType, Refusal>
    ensures same { SameInput reader.old reader.new }
    ensures onward { position_in reader.old ≤ position_in reader.new }
    ensures refusal { IfErr result (RefusedFrom reader.old) }
    ensures ok { IfOk result (λ x. heap_at written (rest reader.old)
        ≡ Some ((ref_of x).heap, rest reader.new)) }
    ensures null { IfOk result (λ x. (ref_of x).nullable ≡ nullable) }
    ensures err { OnErr result (heap_at written (rest reader.old) ≡ None) }
{
    let heap_type = read_heap_type(reader)?;
    match RefType::new(nullable, heap_type) {
        Some(ty) => Ok(ty),
        None => unreachable!(),
    }
}

/// What a branch on a cast has: a label, the type of the operand and the type that it is cast to.
#[tactic(auto, unfolding(crate::specs::References::branch_at))]
fn read_branch(reader: &mut BinaryReader) -> Result<(u32, RefType, RefType), Refusal>
    ensures same { SameInput reader.old reader.new }
    ensures onward { position_in reader.old ≤ position_in reader.new }
    ensures refusal { IfErr result (RefusedFrom reader.old) }
    ensures ok { IfOk result (λ x. branch_at written (rest reader.old)
        ≡ Some ((x.0, ref_of x.1, ref_of x.2), rest reader.new)) }
    ensures err { OnErr result (branch_at written (rest reader.old) ≡ None) }
{
    let (from_nullable, to_nullable) = read_cast_flags(reader)?;
    let relative_depth = reader.read_var_u32()?;
    let from_ref_type = read_type(reader, from_nullable)?;
    let to_ref_type = read_type(reader, to_nullable)?;
    Ok((relative_depth, from_ref_type, to_ref_type))
}

/// The operator on descriptors of this code behind the prefix `0xfb`, which stood at this offset.
#[tactic(auto, unfolding(crate::specs::References::described_from))]
fn read_by_descriptor(
    reader: &mut BinaryReader,
    code: u32,
    offset: u64,
) -> Result<CastOperator, Refusal>
    requires { offset ≤ original reader.old + position_in reader.old }
    ensures same { SameInput reader.old reader.new }
    ensures onward { position_in reader.old ≤ position_in reader.new }
    ensures refusal { IfErr result (RefusedBetween offset reader.old) }
    ensures ok { IfOk result (λ op. described_from written code (rest reader.old)
        ≡ Some (cast_of op, rest reader.new)) }
    ensures err { OnErr result (described_from written code (rest reader.old) ≡ None) }
{
    match code {
        34 => Ok(CastOperator::RefGetDesc {
            type_index: reader.read_var_u32()?,
        }),
        35 => Ok(CastOperator::RefCastDescEqNonNull {
            hty: read_heap_type(reader)?,
        }),
        36 => Ok(CastOperator::RefCastDescEqNullable {
            hty: read_heap_type(reader)?,
        }),
        37 => {
            let (relative_depth, from_ref_type, to_ref_type) = read_branch(reader)?;
            Ok(CastOperator::BrOnCastDescEq {
                relative_depth,
                from_ref_type,
                to_ref_type,
            })
        }
        38 => {
            let (relative_depth, from_ref_type, to_ref_type) = read_branch(reader)?;
            Ok(CastOperator::BrOnCastDescEqFail {
                relative_depth,
                from_ref_type,
                to_ref_type,
            })
        }
        _ => Err(unknown_prefixed_opcode(0xfb, code, offset)),
    }
}

/// The test or cast of this code behind the prefix `0xfb`, which stood at this offset.
#[tactic(auto, unfolding(crate::specs::References::cast_from))]
pub(crate) fn read_cast(
    reader: &mut BinaryReader,
    code: u32,
    offset: u64,
) -> Result<CastOperator, Refusal>
    requires { offset ≤ original reader.old + position_in reader.old }
    ensures same { SameInput reader.old reader.new }
    ensures onward { position_in reader.old ≤ position_in reader.new }
    ensures refusal { IfErr result (RefusedBetween offset reader.old) }
    ensures ok { IfOk result (λ op. cast_from written code (rest reader.old)
        ≡ Some (cast_of op, rest reader.new)) }
    ensures err { OnErr result (cast_from written code (rest reader.old) ≡ None) }
{
    match code {
        20 => Ok(CastOperator::RefTestNonNull {
            hty: read_heap_type(reader)?,
        }),
        21 => Ok(CastOperator::RefTestNullable {
            hty: read_heap_type(reader)?,
        }),
        22 => Ok(CastOperator::RefCastNonNull {
            hty: read_heap_type(reader)?,
        }),
        23 => Ok(CastOperator::RefCastNullable {
            hty: read_heap_type(reader)?,
        }),
        24 => {
            let (relative_depth, from_ref_type, to_ref_type) = read_branch(reader)?;
            Ok(CastOperator::BrOnCast {
                relative_depth,
                from_ref_type,
                to_ref_type,
            })
        }
        25 => {
            let (relative_depth, from_ref_type, to_ref_type) = read_branch(reader)?;
            Ok(CastOperator::BrOnCastFail {
                relative_depth,
                from_ref_type,
                to_ref_type,
            })
        }
        _ => read_by_descriptor(reader, code, offset),
    }
}
