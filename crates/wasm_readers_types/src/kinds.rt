//! The kinds of defined types: the abstract heap types above and below all types of one kind (Core
//! Specification 3.0, Validation, Matching, Heap Types).

ghost use Rattle.std.specs.Prelude.{◌≡◌};
ghost use Rattle.std.specs.Bool.{Decides};
ghost use Rattle.wasm_readers_values.specs.WasmSpec.Matching.{kind_of, bottom_of};
ghost use Rattle.wasm_readers_values.specs.WasmSpec.MatchingTests.{same_abstract};
ghost use Rattle.wasm_readers_values.specs.SeenValues.{abstract_heap_of};
ghost use Rattle.wasm_readers_types.specs.SeenTypes.{comp_of};

use crate::types::CompositeInnerType;
use std::alloc::Allocator;
use wasm_readers_values::AbstractHeapType;

impl<A: Allocator> CompositeInnerType<A> {
    /// The abstract heap type of all types of this kind.
    pub fn kind(&self) -> AbstractHeapType
        ensures { abstract_heap_of result ≡ kind_of (comp_of self.now) }
    {
        match self {
            CompositeInnerType::Func(_) => AbstractHeapType::Func,
            CompositeInnerType::Array(_) => AbstractHeapType::Array,
            CompositeInnerType::Struct(_) => AbstractHeapType::Struct,
            CompositeInnerType::Cont(_) => AbstractHeapType::Cont,
        }
    }

    /// Whether this is the abstract heap type below all types of this kind.
    pub fn has_bottom(&self, ty: AbstractHeapType) -> bool
        ensures decided { Decides result (bottom_of (comp_of self.now) ≡ abstract_heap_of ty) }
        ensures tested { result ≡ same_abstract (bottom_of (comp_of self.now))
            (abstract_heap_of ty) }
    {
        match self {
            CompositeInnerType::Func(_) => matches!(ty, AbstractHeapType::NoFunc),
            CompositeInnerType::Array(_) | CompositeInnerType::Struct(_) => {
                matches!(ty, AbstractHeapType::None)
            }
            CompositeInnerType::Cont(_) => matches!(ty, AbstractHeapType::NoCont),
        }
    }
}
