//! What a reference to a type tells of itself, and of the type that it stands for, if it stands for
//! one: for those who implement look-ups (Core Specification 3.0, Validation, Matching, Heap Types).

ghost use Rattle.std.specs.Prelude.{◌≡◌};
ghost use Rattle.std.specs.Option.{option_map};
ghost use Rattle.wasm_readers_errors.specs.WasmSpec.Matching.{shared_flag};
ghost use Rattle.wasm_readers_errors.specs.WasmSpec.MatchingTests.{matches_kind, is_above_bottom};
ghost use Rattle.wasm_readers_types.specs.SeenTypes.{sub_of};
ghost use Rattle.wasm_readers_types.specs.WasmReadersValues.SeenValues.{abstract_heap_of};
ghost use Rattle.wasm_validator_resources.specs.Answers.{same_index};

use std::alloc::Allocator;
use wasm_readers_types::{AbstractHeapType, SubType, UnpackedIndex, same_flag};

/// Whether two references are of one form, with the same number.
pub fn same_index(a: UnpackedIndex, b: UnpackedIndex) -> bool
    ensures { result ≡ same_index a b }
{
    match (a, b) {
        (UnpackedIndex::Module(a), UnpackedIndex::Module(b)) => a == b,
        (UnpackedIndex::RecGroup(a), UnpackedIndex::RecGroup(b)) => a == b,
        (UnpackedIndex::Id(a), UnpackedIndex::Id(b)) => a.index() == b.index(),
        _ => false,
    }
}

/// Whether a type, if there is one, has this shared flag, and its kind matches the abstract heap
/// type.
pub fn matches_kind<A: Allocator>(
    sub: Option<&SubType<A>>,
    shared: bool,
    ty: AbstractHeapType,
) -> bool
    ensures { result ≡ matches_kind shared (abstract_heap_of ty)
        (option_map (λ t. sub_of t.now) sub.entry) }
{
    match sub {
        Some(sub) => {
            let composite = &sub.composite_type;
            same_flag(composite.shared, shared) && composite.inner.kind().is_subtype_of(ty)
        }
        None => false,
    }
}

/// Whether a type, if there is one, has this shared flag, and the abstract heap type is that below
/// its kind.
pub fn is_above_bottom<A: Allocator>(
    sub: Option<&SubType<A>>,
    shared: bool,
    ty: AbstractHeapType,
) -> bool
    ensures { result ≡ is_above_bottom shared (abstract_heap_of ty)
        (option_map (λ t. sub_of t.now) sub.entry) }
{
    match sub {
        Some(sub) => {
            let composite = &sub.composite_type;
            same_flag(composite.shared, shared) && composite.inner.has_bottom(ty)
        }
        None => false,
    }
}

/// Whether what a type describes, if there is one, may be shared between threads.
pub fn is_shared<A: Allocator>(sub: Option<&SubType<A>>) -> bool
    ensures { result ≡ shared_flag (option_map (λ t. sub_of t.now) sub.entry) }
{
    match sub {
        Some(sub) => sub.composite_type.shared,
        None => false,
    }
}
