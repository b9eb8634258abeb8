//! Types behind opcodes: of heaps, of blocks and of casts.

ghost use Rattle.std.specs.Prelude.{◌≡◌, ◌≤◌, Some, IfSome};
ghost use Rattle.wasm_operators.specs.WasmOperatorsPlain.WasmSpec.BinaryTypes.{heap_at};
ghost use Rattle.wasm_operators.specs.WasmOperatorsPlain.WasmReadersTypes.WasmReadersValues.SeenValues.{heap_of, ref_of};
ghost use Rattle.wasm_operators.specs.WasmOperatorsPlain.WasmReaders.WasmReadersBytes.Reader.{SameInput, position_in, rest};
ghost use Rattle.wasm_operators.specs.WasmOperatorsPlain.WasmReaders.WrittenIndices.{written};
ghost use Rattle.wasm_operators.specs.Control.{block_at};
ghost use Rattle.wasm_operators.specs.References.{branch_at, cast_flags_at};
ghost use Rattle.wasm_operators.specs.SeenControl.{block_of};

use wasm_operators::readers::BinaryReader;
use wasm_operators::{BlockType, read_block_type};
use wasm_operators_proposals::operators_plain::readers::types::read_heap_type;
use wasm_operators_proposals::operators_plain::readers_types::{
    AbstractHeapType, HeapType, RefType, UnpackedIndex, ValType,
};

/// The heap type that is next, if it is there.
#[inline(always)]
#[tactic(auto, using(crate::proofs::ShortTypes::heaps))]
pub(crate) fn next_heap_type(reader: &mut BinaryReader) -> Option<HeapType>
    ensures same { SameInput reader.old reader.new }
    ensures onward { position_in reader.old ≤ position_in reader.new }
    ensures some { IfSome result (λ h. heap_at written (rest reader.old)
        ≡ Some (heap_of h, rest reader.new)) }
{
    let mut short = *reader;
    let byte = short.next_u8()?;
    // Type indices of one byte are the most frequent, and the heap types `func` and `extern`.
    if byte < 64 {
        reader.go_on_from(&short);
        return Some(HeapType::Concrete(UnpackedIndex::Module(u32::from(byte))));
    }
    if byte == 0x70 {
        reader.go_on_from(&short);
        return Some(HeapType::Abstract {
            shared: false,
            ty: AbstractHeapType::Func,
        });
    }
    if byte == 0x6f {
        reader.go_on_from(&short);
        return Some(HeapType::Abstract {
            shared: false,
            ty: AbstractHeapType::Extern,
        });
    }
    match read_heap_type(reader) {
        Ok(ty) => Some(ty),
        Err(_) => None,
    }
}

/// The reference type to the heap type that is next, if it is there.
#[inline(always)]
fn next_reference(reader: &mut BinaryReader, nullable: bool) -> Option<RefType>
    ensures same { SameInput reader.old reader.new }
    ensures onward { position_in reader.old ≤ position_in reader.new }
    ensures some { IfSome result (λ x. heap_at written (rest reader.old)
        ≡ Some ((ref_of x).heap, rest reader.new)) }
    ensures null { IfSome result (λ x. (ref_of x).nullable ≡ nullable) }
{
    let heap_type = next_heap_type(reader)?;
    RefType::new(nullable, heap_type)
}

/// The block type that is next, if it is there.
#[inline(always)]
pub(crate) fn next_block_type(reader: &mut BinaryReader) -> Option<BlockType>
    ensures same { SameInput reader.old reader.new }
    ensures onward { position_in reader.old ≤ position_in reader.new }
    ensures some { IfSome result (λ b. block_at written (rest reader.old)
        ≡ Some (block_of b, rest reader.new)) }
{
    let mut short = *reader;
    let byte = short.next_u8()?;
    // One value that is a reference is the most frequent here.
    if byte == 0x63 {
        let ty = next_reference(&mut short, true)?;
        reader.go_on_from(&short);
        return Some(BlockType::Value(ValType::Ref(ty)));
    }
    if byte == 0x64 {
        let ty = next_reference(&mut short, false)?;
        reader.go_on_from(&short);
        return Some(BlockType::Value(ValType::Ref(ty)));
    }
    match read_block_type(reader) {
        Ok(ty) => Some(ty),
        Err(_) => None,
    }
}

/// Whether the two types of a branch on a cast have null, if that is next.
#[inline(always)]
fn next_cast_flags(reader: &mut BinaryReader) -> Option<(bool, bool)>
    ensures same { SameInput reader.old reader.new }
    ensures onward { position_in reader.old ≤ position_in reader.new }
    ensures some { IfSome result (λ flags. cast_flags_at (rest reader.old)
        ≡ Some (flags, rest reader.new)) }
{
    match reader.next_u8()? {
        0 => Some((false, false)),
        1 => Some((true, false)),
        2 => Some((false, true)),
        3 => Some((true, true)),
        _ => None,
    }
}

/// What a branch on a cast has, if it is next: a label, the type of the operand and the type that it
/// is cast to.
#[inline(always)]
#[tactic(auto, unfolding(crate::proofs::Cited::branch_at))]
pub(crate) fn next_branch(reader: &mut BinaryReader) -> Option<(u32, RefType, RefType)>
    ensures same { SameInput reader.old reader.new }
    ensures onward { position_in reader.old ≤ position_in reader.new }
    ensures some { IfSome result (λ x. branch_at written (rest reader.old)
        ≡ Some ((x.0, ref_of x.1, ref_of x.2), rest reader.new)) }
{
    let (from_nullable, to_nullable) = next_cast_flags(reader)?;
    let relative_depth = reader.next_var_u32()?;
    let from_ref_type = next_reference(reader, from_nullable)?;
    let to_ref_type = next_reference(reader, to_nullable)?;
    Some((relative_depth, from_ref_type, to_ref_type))
}
