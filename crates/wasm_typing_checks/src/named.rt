//! Types that operators name.

ghost use Rattle.std.specs.Prelude.{◌≡◌, true, false, slice_get, option_map};
ghost use Rattle.wasm_validator_resources.specs.WasmSpec.Syntax.{concrete, exact};
ghost use Rattle.wasm_validator_resources.specs.WasmReadersTypes.WasmReadersValues.SeenValues.{index_of};
ghost use Rattle.wasm_validator_resources.specs.WasmSpecRules.FeatureFlags.{features_of};
ghost use Rattle.wasm_typing_stacks.specs.SeenTypeWords.{val_in};
ghost use Rattle.wasm_typing_stacks.specs.WasmSpecSteps.Meanings.{ref_to};
ghost use Rattle.wasm_typing_checks.specs.DeclaredTypes.{new_heap};

use bitflags::Flags;
use std::alloc::Allocator;
use wasm_typing_stacks::{Stacks, TypeWord};
use wasm_validator_resources::WasmModuleResources;
use wasm_validator_resources::readers_errors::WasmFeatures;
use wasm_validator_resources::readers_types::{HeapType, PackedIndex, RefType, UnpackedIndex};

/// The identity of the type of this type index, if there is one.
pub fn identity<T: WasmModuleResources>(resources: &T, type_index: u32) -> Option<PackedIndex>
    ensures { option_map index_of result ≡ slice_get (T.context resources.now).types type_index }
{
    let mut heap = HeapType::Concrete(UnpackedIndex::Module(type_index));
    match resources.check_heap_type(&mut heap, 0) {
        Ok(()) => match heap {
            HeapType::Concrete(index) => index.pack(),
            HeapType::Abstract { .. } | HeapType::Exact(_) => None,
        },
        Err(_) => None,
    }
}

/// A reference, or null, to a value of a type.
pub fn nullable(identity: PackedIndex) -> TypeWord
    ensures { val_in result ≡ ref_to true (concrete (index_of identity)) }
{
    TypeWord::reference(RefType::concrete(true, identity))
}

/// A reference, or null, to a value of exactly a type.
pub fn exact_or_null(identity: PackedIndex) -> TypeWord
    ensures { val_in result ≡ ref_to true (exact (index_of identity)) }
{
    TypeWord::reference(RefType::new(true, HeapType::Exact(identity.unpack())).unwrap())
}

/// A reference to a new value of a type, which is exactly of it where descriptors can tell.
pub fn new_reference<A: Allocator>(stacks: &Stacks<A>, identity: PackedIndex) -> TypeWord
    ensures { val_in result ≡ ref_to false
        (new_heap (features_of stacks.now.features).custom_descriptors (index_of identity)) }
{
    if stacks.features.contains(WasmFeatures::CUSTOM_DESCRIPTORS) {
        TypeWord::reference(RefType::new(false, HeapType::Exact(identity.unpack())).unwrap())
    } else {
        TypeWord::reference(RefType::concrete(false, identity))
    }
}
