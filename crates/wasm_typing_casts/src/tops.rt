//! The greatest types of hierarchies.

ghost use Rattle.std.specs.Prelude.{◌≡◌, true, not};
ghost use Rattle.std.specs.Option.{option_map};
ghost use Rattle.wasm_typing_references.specs.WasmSpec.MatchingTests.{same_abstract};
ghost use Rattle.wasm_typing_references.specs.WasmSpec.Syntax.{abstract_heap, concrete, cont_heap, exact, map_heap};
ghost use Rattle.wasm_typing_references.specs.WasmReadersTypes.WasmReadersValues.SeenValues.{abstract_heap_of, heap_of, ref_of};
ghost use Rattle.wasm_typing_references.specs.WasmTypingChecks.WasmValidatorResources.Answers.{IsWrittenHeap, written_index};
ghost use Rattle.wasm_typing_casts.specs.Tops.{top_in, top_seen};

use wasm_typing_references::readers_types::{AbstractHeapType, HeapType, RefType, UnpackedIndex};
use wasm_typing_references::validator_resources::WasmModuleResources;

/// The greatest type of the hierarchy of a type index, exactly or not, and whether it is shared, if
/// the module has that type.
#[tactic(auto, using(crate::proofs::HierarchyTops::tops))]
fn top_of_index<T: WasmModuleResources>(
    resources: &T,
    type_index: u32,
) -> Option<(bool, AbstractHeapType)>
    ensures inexact { option_map top_seen result ≡ top_in (T.context resources.now)
        (concrete type_index) }
    ensures exact { option_map top_seen result ≡ top_in (T.context resources.now)
        (exact type_index) }
{
    match resources.sub_type_at(type_index) {
        Some(sub) => {
            let top = sub.composite_type.inner.kind().top();
            Some((sub.composite_type.shared, top))
        }
        None => None,
    }
}

/// The greatest type of the hierarchy of a written heap type, and whether it is shared, if the
/// module has the type that it names.
#[tactic(auto, using(crate::proofs::HierarchyTops::tops))]
pub(crate) fn top_of<T: WasmModuleResources>(
    resources: &T,
    heap: HeapType,
) -> Option<(bool, AbstractHeapType)>
    requires { IsWrittenHeap (heap_of heap) }
    ensures { option_map top_seen result ≡ top_in (T.context resources.now)
        (map_heap written_index (heap_of heap)) }
{
    match heap {
        HeapType::Abstract { shared, ty } => Some((shared, ty.top())),
        HeapType::Concrete(index) => match index {
            UnpackedIndex::Module(type_index) => top_of_index(resources, type_index),
            UnpackedIndex::RecGroup(_) => None,
            UnpackedIndex::Id(_) => None,
        },
        HeapType::Exact(index) => match index {
            UnpackedIndex::Module(type_index) => top_of_index(resources, type_index),
            UnpackedIndex::RecGroup(_) => None,
            UnpackedIndex::Id(_) => None,
        },
    }
}

/// References to an abstract heap type, with null or without.
pub(crate) fn abstract_to(nullable: bool, shared: bool, ty: AbstractHeapType) -> RefType
    ensures { ref_of result ≡ record {
      nullable = nullable;
      heap = abstract_heap shared (abstract_heap_of ty);
    } }
{
    RefType::new(nullable, HeapType::Abstract { shared, ty }).unwrap()
}

/// Whether references of the hierarchy of this greatest type can be tested: those to continuations
/// can't.
pub(crate) fn can_be_tested(top: AbstractHeapType) -> bool
    ensures { result ≡ not (same_abstract (abstract_heap_of top) cont_heap) }
{
    match top {
        AbstractHeapType::Cont => false,
        AbstractHeapType::Any
        | AbstractHeapType::Eq
        | AbstractHeapType::I31
        | AbstractHeapType::Struct
        | AbstractHeapType::Array
        | AbstractHeapType::None
        | AbstractHeapType::Func
        | AbstractHeapType::NoFunc
        | AbstractHeapType::Extern
        | AbstractHeapType::NoExtern
        | AbstractHeapType::Exn
        | AbstractHeapType::NoExn
        | AbstractHeapType::NoCont => true,
    }
}
