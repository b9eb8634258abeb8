//! Subtyping on ids (Core Specification 3.0, Validation, Matching): defined types by their declared
//! ancestors, heap types, reference types and value types over these.

ghost use Rattle.std.specs.Prelude.{◌≡◌, ◌+◌, ◌<◌, ◌≤◌, ◌^◌, ℕ, length};
ghost use Rattle.std.specs.Bool.{Decides};
ghost use Rattle.std.specs.declared.option.Option.TheVariants.{Some};
ghost use Rattle.wasm_readers_errors.specs.WasmSpec.Syntax.{abstract_heap, concrete, exact};
ghost use Rattle.wasm_readers_errors.specs.WasmSpec.SupertypeOrder.{IsAncestor, IsDepth};
ghost use Rattle.wasm_readers_errors.specs.WasmSpec.Matching.{MatchesKind, IsAboveBottom, MatchesHeap, MatchesRef, MatchesVal, top_of_heap, is_shared_type, is_shared_heap, is_shared_val};
ghost use Rattle.wasm_readers_types.specs.WasmReadersValues.Indices.{IsId};
ghost use Rattle.wasm_readers_types.specs.WasmReadersValues.SeenValues.{abstract_heap_of};
ghost use Rattle.wasm_readers_types.specs.WasmReadersValues.declared.indices.UnpackedIndex.TheVariants.{Id};
ghost use Rattle.wasm_validator_type_list.specs.ListViews.{types_in};
ghost use Rattle.wasm_validator_type_list.specs.DeclarationsById.{declares};
ghost use Rattle.wasm_validator_type_list.specs.AncestorReads.{Counts};
ghost use Rattle.wasm_validator_type_list.specs.Subtyping.{IsHeapOver, IsRefOver, IsValOver, heap_by_ids, ref_by_ids, val_by_ids};

use crate::type_list::TypeList;
use std::alloc::Allocator;
use wasm_readers_types::{AbstractHeapType, CoreTypeId, HeapType, RefType, UnpackedIndex, ValType};
use wasm_validator_type_ancestors::LinkCount;

impl<A: Allocator + Copy> TypeList<A> {
    /// Whether the second type is the first or one of its declared ancestors (Core Specification
    /// 3.0, Validation, Matching, Defined Types). It takes no memory.
    pub fn id_is_subtype(&self, a: CoreTypeId, b: CoreTypeId) -> bool
        requires sub { a.index < length (types_in self.now) }
        requires sup { b.index < length (types_in self.now) }
        ensures { Decides result (IsAncestor (declares self.now.groups) a.index b.index) }
    {
        let mut count = LinkCount::new();
        self.id_is_subtype_counted(a, b, &mut count)
    }

    /// The same, and adds one to the count for each supertype link or entry of a list of ancestors that
    /// is read: one at most where the first type has 63 proper ancestors at most, as those of all
    /// modules that are accepted; no more than links lead from the first type to the second, or where
    /// this isn't an ancestor than the first has proper ancestors; and one at least where the first
    /// has more of these than the second.
    pub fn id_is_subtype_counted(&self, a: CoreTypeId, b: CoreTypeId, count: &mut LinkCount) -> bool
        requires sub { a.index < length (types_in self.now) }
        requires sup { b.index < length (types_in self.now) }
        requires room { count.old.links < 2 ^ 63 }
        ensures decides { Decides result (IsAncestor (declares self.now.groups) a.index b.index) }
        ensures counts { Counts (declares self.now.groups) a.index b.index
            count.old.links count.new.links }
        ensures one { (n : ℕ) → IsDepth (declares self.now.groups) a.index n → n ≤ 63
            → count.new.links ≤ count.old.links + 1 }
    {
        self.ancestors.is_ancestor(a, b, count)
    }

    /// Whether the first reference type matches the second (Core Specification 3.0, Validation,
    /// Matching, Reference Types).
    pub fn reftype_is_subtype(&self, a: RefType, b: RefType) -> bool
        requires sub { IsRefOver (length (types_in self.now)) a }
        requires sup { IsRefOver (length (types_in self.now)) b }
        ensures { Decides result (MatchesRef (declares self.now.groups)
            (ref_by_ids a) (ref_by_ids b)) }
    {
        if a.is_nullable() && !b.is_nullable() {
            return false;
        }
        self.heap_is_subtype(a.heap_type(), b.heap_type())
    }

    /// Whether the first value type matches the second (Core Specification 3.0, Validation,
    /// Matching, Value Types).
    pub fn valtype_is_subtype(&self, a: ValType, b: ValType) -> bool
        requires sub { IsValOver (length (types_in self.now)) a }
        requires sup { IsValOver (length (types_in self.now)) b }
        ensures { Decides result (MatchesVal (declares self.now.groups)
            (val_by_ids a) (val_by_ids b)) }
    {
        match (a, b) {
            (ValType::Ref(a), ValType::Ref(b)) => self.reftype_is_subtype(a, b),
            (ValType::I32, ValType::I32)
            | (ValType::I64, ValType::I64)
            | (ValType::F32, ValType::F32)
            | (ValType::F64, ValType::F64)
            | (ValType::V128, ValType::V128) => true,
            _ => false,
        }
    }

    /// Whether values of the reference type may be shared between threads.
    pub fn reftype_is_shared(&self, ty: RefType) -> bool
        requires { IsRefOver (length (types_in self.now)) ty }
        ensures { result ≡ is_shared_heap (declares self.now.groups) (ref_by_ids ty).heap }
    {
        self.heap_is_shared(ty.heap_type())
    }

    /// Whether values of the type may be shared between threads. Numbers and vectors may be.
    pub fn valtype_is_shared(&self, ty: ValType) -> bool
        requires { IsValOver (length (types_in self.now)) ty }
        ensures { result ≡ is_shared_val (declares self.now.groups) (val_by_ids ty) }
    {
        match ty {
            ValType::I32 | ValType::I64 | ValType::F32 | ValType::F64 | ValType::V128 => true,
            ValType::Ref(ty) => self.reftype_is_shared(ty),
        }
    }

    /// The greatest heap type of the hierarchy that the heap type stands in, with its shared flag.
    pub fn top_type(&self, heap: &HeapType) -> HeapType
        requires { IsHeapOver (length (types_in self.now)) heap.now }
        ensures { top_of_heap (declares self.now.groups) (heap_by_ids heap.now)
            ≡ Some (heap_by_ids result) }
    {
        match *heap {
            HeapType::Abstract { shared, ty } => HeapType::Abstract {
                shared,
                ty: ty.top(),
            },
            HeapType::Concrete(index) | HeapType::Exact(index) => self.top_of_type(id_in(index)),
        }
    }

    /// Whether what the heap type describes may be shared between threads.
    fn heap_is_shared(&self, heap: HeapType) -> bool
        requires { IsHeapOver (length (types_in self.now)) heap }
        ensures { result ≡ is_shared_heap (declares self.now.groups) (heap_by_ids heap) }
    {
        match heap {
            HeapType::Abstract { shared, .. } => shared,
            HeapType::Concrete(index) | HeapType::Exact(index) => {
                self.type_is_shared(id_in(index))
            }
        }
    }

    /// Whether what the type describes may be shared between threads.
    fn type_is_shared(&self, id: CoreTypeId) -> bool
        requires { id.index < length (types_in self.now) }
        ensures { result ≡ is_shared_type (declares self.now.groups) id.index }
    {
        self[id].composite_type.shared
    }

    /// The greatest heap type of the hierarchy that the type stands in, with its shared flag.
    fn top_of_type(&self, id: CoreTypeId) -> HeapType
        requires { id.index < length (types_in self.now) }
        ensures { top_of_heap (declares self.now.groups) (concrete id.index)
            ≡ Some (heap_by_ids result) }
    {
        let composite = &self[id].composite_type;
        HeapType::Abstract {
            shared: composite.shared,
            ty: composite.inner.kind().top(),
        }
    }

    /// Whether the first heap type matches the second.
    pub(super) fn heap_is_subtype(&self, a: HeapType, b: HeapType) -> bool
        requires sub { IsHeapOver (length (types_in self.now)) a }
        requires sup { IsHeapOver (length (types_in self.now)) b }
        ensures { Decides result (MatchesHeap (declares self.now.groups)
            (heap_by_ids a) (heap_by_ids b)) }
    {
        match a {
            HeapType::Abstract { shared, ty } => self.abstract_matches(shared, ty, b),
            HeapType::Concrete(index) => self.concrete_matches(id_in(index), b),
            HeapType::Exact(index) => self.exact_matches(id_in(index), b),
        }
    }

    /// Whether the abstract heap type matches the heap type.
    fn abstract_matches(&self, shared: bool, ty: AbstractHeapType, b: HeapType) -> bool
        requires { IsHeapOver (length (types_in self.now)) b }
        ensures { Decides result (MatchesHeap (declares self.now.groups)
            (abstract_heap shared (abstract_heap_of ty)) (heap_by_ids b)) }
    {
        match b {
            HeapType::Abstract {
                shared: other_shared,
                ty: other,
            } => shared == other_shared && ty.is_subtype_of(other),
            HeapType::Concrete(index) | HeapType::Exact(index) => {
                self.is_above_bottom(id_in(index), shared, ty)
            }
        }
    }

    /// Whether what the type or a subtype of it describes matches the heap type.
    fn concrete_matches(&self, id: CoreTypeId, b: HeapType) -> bool
        requires sub { id.index < length (types_in self.now) }
        requires sup { IsHeapOver (length (types_in self.now)) b }
        ensures { Decides result (MatchesHeap (declares self.now.groups)
            (concrete id.index) (heap_by_ids b)) }
    {
        match b {
            HeapType::Abstract { shared, ty } => self.matches_kind(id, shared, ty),
            HeapType::Concrete(index) => self.id_is_subtype(id, id_in(index)),
            HeapType::Exact(_) => false,
        }
    }

    /// Whether what exactly the type describes matches the heap type.
    fn exact_matches(&self, id: CoreTypeId, b: HeapType) -> bool
        requires sub { id.index < length (types_in self.now) }
        requires sup { IsHeapOver (length (types_in self.now)) b }
        ensures { Decides result (MatchesHeap (declares self.now.groups)
            (exact id.index) (heap_by_ids b)) }
    {
        match b {
            HeapType::Abstract { shared, ty } => self.matches_kind(id, shared, ty),
            HeapType::Concrete(index) => self.id_is_subtype(id, id_in(index)),
            HeapType::Exact(index) => id.index() == id_in(index).index(),
        }
    }

    /// Whether the type has this shared flag, and its kind matches the abstract heap type.
    fn matches_kind(&self, id: CoreTypeId, shared: bool, ty: AbstractHeapType) -> bool
        requires { id.index < length (types_in self.now) }
        ensures { Decides result (MatchesKind (declares self.now.groups) id.index shared
            (abstract_heap_of ty)) }
    {
        let composite = &self[id].composite_type;
        composite.shared == shared && composite.inner.kind().is_subtype_of(ty)
    }

    /// Whether the type has this shared flag, and the abstract heap type is that below its kind.
    fn is_above_bottom(&self, id: CoreTypeId, shared: bool, ty: AbstractHeapType) -> bool
        requires { id.index < length (types_in self.now) }
        ensures { Decides result (IsAboveBottom (declares self.now.groups) id.index shared
            (abstract_heap_of ty)) }
    {
        let composite = &self[id].composite_type;
        composite.shared == shared && composite.inner.has_bottom(ty)
    }
}

/// The id that the reference is.
fn id_in(index: UnpackedIndex) -> CoreTypeId
    requires { IsId index }
    ensures { index ≡ Id result }
{
    match index {
        UnpackedIndex::Id(id) => id,
        UnpackedIndex::Module(_) | UnpackedIndex::RecGroup(_) => unreachable!(),
    }
}
