//! Matching of value types, for those who implement look-ups (Core Specification 3.0, Validation,
//! Matching).

ghost use Rattle.std.specs.Prelude.{◌≡◌};
ghost use Rattle.std.specs.Option.{option_map};
ghost use Rattle.wasm_readers_errors.specs.WasmSpec.MatchingTests.{matches_heap, matches_ref, matches_val};
ghost use Rattle.wasm_readers_errors.specs.WasmSpec.Syntax.{abstract_heap, concrete, exact};
ghost use Rattle.wasm_spec_rules.specs.Contexts.{Context};
ghost use Rattle.wasm_readers_types.specs.SeenTypes.{sub_of};
ghost use Rattle.wasm_readers_types.specs.WasmReadersValues.SeenValues.{abstract_heap_of, heap_of, ref_of, val_of};
ghost use Rattle.wasm_readers_types.specs.WasmReadersValues.declared.indices.UnpackedIndex.{UnpackedIndex};
ghost use Rattle.wasm_validator_resources.specs.Answers.{world};

use crate::declared::{is_above_bottom, matches_kind, same_index};
use std::alloc::Allocator;
use wasm_readers_types::{
    AbstractHeapType, HeapType, RefType, SubType, UnpackedIndex, ValType, same_flag,
};

/// What matching of types looks up of a module: its types, and which of them are above others.
pub trait DeclaredTypes {
    /// The memory that the types are in.
    type A: Allocator;

    /// What the answers are read from.
    ghost context: { Self → Context UnpackedIndex };

    /// What the type is that this stands for, if it stands for one.
    fn type_for(&self, index: UnpackedIndex) -> Option<&SubType<Self::A>>
        ensures { option_map (λ t. sub_of t.now) result ≡ (world (context self.now)).declared index };

    /// Whether the second is the first or stands for one of its ancestors.
    fn is_below(&self, a: UnpackedIndex, b: UnpackedIndex) -> bool
        ensures { result ≡ (world (context self.now)).below a b };
}

/// Whether the abstract heap type matches the heap type.
fn abstract_matches<T: DeclaredTypes>(
    types: &T,
    shared: bool,
    ty: AbstractHeapType,
    b: HeapType,
) -> bool
    ensures { result ≡ matches_heap (world (T.context types.now))
        (abstract_heap shared (abstract_heap_of ty)) (heap_of b) }
{
    match b {
        HeapType::Abstract {
            shared: other_shared,
            ty: other,
        } => same_flag(shared, other_shared) && ty.is_subtype_of(other),
        HeapType::Concrete(index) | HeapType::Exact(index) => {
            is_above_bottom(types.type_for(index), shared, ty)
        }
    }
}

/// Whether what the type or a subtype of it describes matches the heap type.
fn concrete_matches<T: DeclaredTypes>(types: &T, a: UnpackedIndex, b: HeapType) -> bool
    ensures { result ≡ matches_heap (world (T.context types.now)) (concrete a) (heap_of b) }
{
    match b {
        HeapType::Abstract { shared, ty } => matches_kind(types.type_for(a), shared, ty),
        HeapType::Concrete(index) => types.is_below(a, index),
        HeapType::Exact(_) => false,
    }
}

/// Whether what exactly the type describes matches the heap type.
fn exact_matches<T: DeclaredTypes>(types: &T, a: UnpackedIndex, b: HeapType) -> bool
    ensures { result ≡ matches_heap (world (T.context types.now)) (exact a) (heap_of b) }
{
    match b {
        HeapType::Abstract { shared, ty } => matches_kind(types.type_for(a), shared, ty),
        HeapType::Concrete(index) => types.is_below(a, index),
        HeapType::Exact(index) => same_index(a, index),
    }
}

/// Whether the first heap type matches the second.
fn heap_matches<T: DeclaredTypes>(types: &T, a: HeapType, b: HeapType) -> bool
    ensures { result ≡ matches_heap (world (T.context types.now)) (heap_of a) (heap_of b) }
{
    match a {
        HeapType::Abstract { shared, ty } => abstract_matches(types, shared, ty, b),
        HeapType::Concrete(index) => concrete_matches(types, index, b),
        HeapType::Exact(index) => exact_matches(types, index, b),
    }
}

/// Whether the first reference type matches the second.
fn ref_matches<T: DeclaredTypes>(types: &T, a: RefType, b: RefType) -> bool
    ensures { result ≡ matches_ref (world (T.context types.now)) (ref_of a) (ref_of b) }
{
    (!a.is_nullable() || b.is_nullable()) && heap_matches(types, a.heap_type(), b.heap_type())
}

/// Whether the first value type matches the second, as look-ups say it.
pub fn val_matches<T: DeclaredTypes>(types: &T, a: ValType, b: ValType) -> bool
    ensures { result ≡ matches_val (world (T.context types.now)) (val_of a) (val_of b) }
{
    match (a, b) {
        (ValType::Ref(a), ValType::Ref(b)) => ref_matches(types, a, b),
        (ValType::I32, ValType::I32)
        | (ValType::I64, ValType::I64)
        | (ValType::F32, ValType::F32)
        | (ValType::F64, ValType::F64)
        | (ValType::V128, ValType::V128) => true,
        _ => false,
    }
}
