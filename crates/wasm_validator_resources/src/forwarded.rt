//! Look-ups through a reference, and through a shared value.

use crate::resources::WasmModuleResources;
use std::alloc::Allocator;
use std::rc::Rc;
use wasm_readers_errors::Refusal;
use wasm_readers_types::{
    CoreTypeId, FuncType, GlobalType, HeapType, MemoryType, RefType, SubType, TableType,
    UnpackedIndex, ValType,
};

impl<'a, T: WasmModuleResources> WasmModuleResources for &'a T {
    type A = T::A;

    ghost context = { λ r. T.context r.now };

    #[inline]
    fn table_at(&self, at: u32) -> Option<TableType> {
        (**self).table_at(at)
    }

    #[inline]
    fn memory_at(&self, at: u32) -> Option<MemoryType> {
        (**self).memory_at(at)
    }

    #[inline]
    fn tag_at(&self, at: u32) -> Option<&FuncType<Self::A>> {
        (**self).tag_at(at)
    }

    #[inline]
    fn global_at(&self, at: u32) -> Option<GlobalType> {
        (**self).global_at(at)
    }

    #[inline]
    fn sub_type_at(&self, type_index: u32) -> Option<&SubType<Self::A>> {
        (**self).sub_type_at(type_index)
    }

    #[inline]
    fn sub_type_of(&self, identity: UnpackedIndex) -> Option<&SubType<Self::A>> {
        (**self).sub_type_of(identity)
    }

    #[inline]
    fn sub_type_at_id(&self, id: CoreTypeId) -> &SubType<Self::A> {
        (**self).sub_type_at_id(id)
    }

    #[inline]
    fn type_id_of_function(&self, function_index: u32) -> Option<CoreTypeId> {
        (**self).type_id_of_function(function_index)
    }

    #[inline]
    fn type_index_of_function(&self, function_index: u32) -> Option<u32> {
        (**self).type_index_of_function(function_index)
    }

    #[inline]
    fn element_type_at(&self, at: u32) -> Option<RefType> {
        (**self).element_type_at(at)
    }

    #[inline]
    fn is_subtype(&self, a: ValType, b: ValType) -> bool {
        (**self).is_subtype(a, b)
    }

    #[inline]
    fn is_shared(&self, ty: RefType) -> bool {
        (**self).is_shared(ty)
    }

    #[inline]
    fn check_heap_type(&self, heap_type: &mut HeapType, offset: u64) -> Result<(), Refusal> {
        (**self).check_heap_type(heap_type, offset)
    }

    #[inline]
    fn top_type(&self, heap_type: &HeapType) -> HeapType {
        (**self).top_type(heap_type)
    }

    #[inline]
    fn element_count(&self) -> u32 {
        (**self).element_count()
    }

    #[inline]
    fn data_count(&self) -> Option<u32> {
        (**self).data_count()
    }

    #[inline]
    fn is_function_referenced(&self, function_index: u32) -> bool {
        (**self).is_function_referenced(function_index)
    }

    #[inline]
    fn has_function_exact_type(&self, function_index: u32) -> bool {
        (**self).has_function_exact_type(function_index)
    }
}

impl<T: WasmModuleResources, S: Allocator> WasmModuleResources for Rc<T, S> {
    type A = T::A;

    ghost context = { λ r. T.context r.value };

    #[inline]
    fn table_at(&self, at: u32) -> Option<TableType> {
        (**self).table_at(at)
    }

    #[inline]
    fn memory_at(&self, at: u32) -> Option<MemoryType> {
        (**self).memory_at(at)
    }

    #[inline]
    fn tag_at(&self, at: u32) -> Option<&FuncType<Self::A>> {
        (**self).tag_at(at)
    }

    #[inline]
    fn global_at(&self, at: u32) -> Option<GlobalType> {
        (**self).global_at(at)
    }

    #[inline]
    fn sub_type_at(&self, type_index: u32) -> Option<&SubType<Self::A>> {
        (**self).sub_type_at(type_index)
    }

    #[inline]
    fn sub_type_of(&self, identity: UnpackedIndex) -> Option<&SubType<Self::A>> {
        (**self).sub_type_of(identity)
    }

    #[inline]
    fn sub_type_at_id(&self, id: CoreTypeId) -> &SubType<Self::A> {
        (**self).sub_type_at_id(id)
    }

    #[inline]
    fn type_id_of_function(&self, function_index: u32) -> Option<CoreTypeId> {
        (**self).type_id_of_function(function_index)
    }

    #[inline]
    fn type_index_of_function(&self, function_index: u32) -> Option<u32> {
        (**self).type_index_of_function(function_index)
    }

    #[inline]
    fn element_type_at(&self, at: u32) -> Option<RefType> {
        (**self).element_type_at(at)
    }

    #[inline]
    fn is_subtype(&self, a: ValType, b: ValType) -> bool {
        (**self).is_subtype(a, b)
    }

    #[inline]
    fn is_shared(&self, ty: RefType) -> bool {
        (**self).is_shared(ty)
    }

    #[inline]
    fn check_heap_type(&self, heap_type: &mut HeapType, offset: u64) -> Result<(), Refusal> {
        (**self).check_heap_type(heap_type, offset)
    }

    #[inline]
    fn top_type(&self, heap_type: &HeapType) -> HeapType {
        (**self).top_type(heap_type)
    }

    #[inline]
    fn element_count(&self) -> u32 {
        (**self).element_count()
    }

    #[inline]
    fn data_count(&self) -> Option<u32> {
        (**self).data_count()
    }

    #[inline]
    fn is_function_referenced(&self, function_index: u32) -> bool {
        (**self).is_function_referenced(function_index)
    }

    #[inline]
    fn has_function_exact_type(&self, function_index: u32) -> bool {
        (**self).has_function_exact_type(function_index)
    }
}
