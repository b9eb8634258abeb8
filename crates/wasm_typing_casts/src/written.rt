//! Operators on references, and casts, as they are written in a module.

ghost use Rattle.std.specs.Bool.{Decides};
ghost use Rattle.wasm_typing_references.specs.WasmReadersTypes.WasmReadersValues.SeenValues.{heap_of};
ghost use Rattle.wasm_typing_references.specs.WasmOperators.SeenReferences.{reference_of, cast_of};
ghost use Rattle.wasm_typing_references.specs.WasmTypingChecks.WasmValidatorResources.Answers.{IsWrittenHeap};
ghost use Rattle.wasm_typing_references.specs.WrittenReferences.{IsWrittenReference};
ghost use Rattle.wasm_typing_casts.specs.WrittenCasts.{IsWrittenCast};

use wasm_typing_references::operators::{CastOperator, ReferenceOperator};
use wasm_typing_references::readers_types::{HeapType, UnpackedIndex};

/// Whether an index in this heap type, if there is one, is a type index of a module.
pub fn is_written_heap(ty: HeapType) -> bool
    ensures { Decides result (IsWrittenHeap (heap_of ty)) }
{
    match ty {
        HeapType::Abstract { shared: _, ty: _ } => true,
        HeapType::Concrete(UnpackedIndex::Module(_)) => true,
        HeapType::Concrete(UnpackedIndex::RecGroup(_) | UnpackedIndex::Id(_)) => false,
        HeapType::Exact(UnpackedIndex::Module(_)) => true,
        HeapType::Exact(UnpackedIndex::RecGroup(_) | UnpackedIndex::Id(_)) => false,
    }
}

/// Whether each index in a type of this operator is a type index of a module.
pub fn is_written_reference(op: ReferenceOperator) -> bool
    ensures { Decides result (IsWrittenReference (reference_of op)) }
{
    match op {
        ReferenceOperator::RefNull { hty } => is_written_heap(hty),
        _ => true,
    }
}

/// Whether each index in a type of this operator is a type index of a module.
pub fn is_written_cast(op: CastOperator) -> bool
    ensures { Decides result (IsWrittenCast (cast_of op)) }
{
    match op {
        CastOperator::RefTestNonNull { hty }
        | CastOperator::RefTestNullable { hty }
        | CastOperator::RefCastNonNull { hty }
        | CastOperator::RefCastNullable { hty }
        | CastOperator::RefCastDescEqNonNull { hty }
        | CastOperator::RefCastDescEqNullable { hty } => is_written_heap(hty),
        CastOperator::RefGetDesc { type_index: _ } => true,
        CastOperator::BrOnCast {
            relative_depth: _,
            from_ref_type,
            to_ref_type,
        }
        | CastOperator::BrOnCastFail {
            relative_depth: _,
            from_ref_type,
            to_ref_type,
        }
        | CastOperator::BrOnCastDescEq {
            relative_depth: _,
            from_ref_type,
            to_ref_type,
        }
        | CastOperator::BrOnCastDescEqFail {
            relative_depth: _,
            from_ref_type,
            to_ref_type,
        } => is_written_heap(from_ref_type.heap_type()) && is_written_heap(to_ref_type.heap_type()),
    }
}
