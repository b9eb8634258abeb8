//! The look-ups.

ghost use Rattle.std.specs.Prelude.{◌≡◌, ◌<◌, ◌≤◌, ◌^◌, length, slice_get, IfSome, IsSome, IfOk, OnErr, ◌↔◌};
ghost use Rattle.std.specs.Option.{option_map};
ghost use Rattle.std.specs.declared.option.Option.TheVariants.{None, Some};
ghost use Rattle.wasm_spec_rules.specs.Worlds.{is_below};
ghost use Rattle.wasm_readers_types.specs.WasmReadersValues.declared.indices.TheConstants.{MAX_IDS};
ghost use Rattle.wasm_readers_types.specs.WasmReadersValues.declared.indices.UnpackedIndex.TheVariants.{Id};
ghost use Rattle.wasm_validator_resources.specs.Answers.{same_index, written_index, IsWritten};
ghost use Rattle.examples_own_module.specs.OwnContexts.{own_context, supertype_in};

use crate::parts::OwnParts;
use std::alloc::Allocator;
use wasm_readers_errors::{Fault, Refusal};
use wasm_readers_types::{
    CompositeInnerType, CoreTypeId, FuncType, GlobalType, HeapType, MAX_IDS, MemoryType, RefType,
    SubType, TableType, UnpackedIndex, ValType,
};
use wasm_validator_resources::{
    DeclaredTypes, WasmModuleResources, is_shared, same_index, val_matches,
};

/// A module in a user's own form, with what is looked up of it. Its types are identities by their
/// indices.
#[derive(Drop)]
pub struct OwnModule<'a, A: Allocator> {
    parts: OwnParts<'a, A>,
    ghost few_types: { length parts.types.now ≤ MAX_IDS },
    ghost few_elements: { length parts.elements.now < 2 ^ 32 },
}

impl<'a, A: Allocator> OwnModule<'a, A> {
    /// The module with these parts: none where it has more types than there are ids,
    /// or more element segments than an index can name.
    pub fn new(parts: OwnParts<'a, A>) -> Option<OwnModule<'a, A>>
        ensures parts { IfSome result (λ r. r.parts ≡ parts.entry) }
        ensures fits { IsSome result ↔ (length parts.entry.types.now ≤ MAX_IDS)
            × (length parts.entry.elements.now < 2 ^ 32) }
    {
        if parts.types.len() > MAX_IDS as usize || parts.elements.len() > u32::MAX as usize {
            return None;
        }
        Some(OwnModule { parts })
    }

    /// The id of the type with this index, if there is one.
    fn type_id_at(&self, type_index: u32) -> Option<CoreTypeId>
        ensures value { option_map Id result
            ≡ slice_get (own_context self.now.parts).types type_index }
        ensures small { IfSome result (λ id. id.index < MAX_IDS) }
    {
        if (type_index as usize) < self.parts.types.len() {
            Some(CoreTypeId::from_index(type_index))
        } else {
            None
        }
    }

    /// The supertype that the type declares which this stands for, if it declares one.
    fn supertype(&self, index: UnpackedIndex) -> Option<UnpackedIndex>
        ensures { result ≡ supertype_in (own_context self.now.parts) index }
    {
        let sub = self.type_for(index)?;
        let first = sub.supertype_idxs.as_slice().first()?;
        Some(first.unpack())
    }

    /// Whether the second is the first, or an ancestor of it at so many steps at the most.
    fn is_below_within(&self, steps: usize, a: UnpackedIndex, b: UnpackedIndex) -> bool
        ensures { result
            ≡ is_below same_index (own_context self.now.parts).declares steps a b }
    {
        if same_index(a, b) {
            return true;
        }
        if steps == 0 {
            return false;
        }
        match self.supertype(a) {
            Some(above) => self.is_below_within(steps - 1, above, b),
            None => false,
        }
    }

    /// The id of the type that is written so in the module.
    fn resolve(&self, written: UnpackedIndex, offset: u64) -> Result<CoreTypeId, Refusal>
        requires { IsWritten written }
        ensures ok { IfOk result (λ id. slice_get (own_context self.now.parts).types
            (written_index written) ≡ Some (Id id)) }
        ensures small { IfOk result (λ id. id.index < MAX_IDS) }
        ensures err { OnErr result (slice_get (own_context self.now.parts).types
            (written_index written) ≡ None) }
    {
        let type_index = match written {
            UnpackedIndex::Module(type_index) => type_index,
            UnpackedIndex::RecGroup(_) | UnpackedIndex::Id(_) => unreachable!(),
        };
        match self.type_id_at(type_index) {
            Some(id) => Ok(id),
            None => Err(Refusal::new(Fault::UnknownType(type_index), offset)),
        }
    }
}

impl<'a, A: Allocator> DeclaredTypes for OwnModule<'a, A> {
    type A = A;

    ghost context = { λ r. own_context r.parts };

    fn type_for(&self, index: UnpackedIndex) -> Option<&SubType<A>> {
        match index {
            UnpackedIndex::Id(id) => self.parts.types.get(id.index()),
            UnpackedIndex::Module(_) | UnpackedIndex::RecGroup(_) => None,
        }
    }

    fn is_below(&self, a: UnpackedIndex, b: UnpackedIndex) -> bool {
        self.is_below_within(self.parts.types.len(), a, b)
    }
}

impl<'a, A: Allocator> WasmModuleResources for OwnModule<'a, A> {
    type A = A;

    ghost context = { λ r. own_context r.parts };

    fn table_at(&self, at: u32) -> Option<TableType> {
        match self.parts.tables.get(at as usize) {
            Some(ty) => Some(*ty),
            None => None,
        }
    }

    fn memory_at(&self, at: u32) -> Option<MemoryType> {
        match self.parts.memories.get(at as usize) {
            Some(ty) => Some(*ty),
            None => None,
        }
    }

    fn tag_at(&self, at: u32) -> Option<&FuncType<A>> {
        let type_index = self.parts.tags.get(at as usize)?;
        match &self.sub_type_at(*type_index)?.composite_type.inner {
            CompositeInnerType::Func(signature) => Some(signature),
            _ => None,
        }
    }

    fn global_at(&self, at: u32) -> Option<GlobalType> {
        match self.parts.globals.get(at as usize) {
            Some(ty) => Some(*ty),
            None => None,
        }
    }

    fn sub_type_at(&self, type_index: u32) -> Option<&SubType<A>> {
        match self.type_id_at(type_index) {
            Some(id) => self.type_for(UnpackedIndex::Id(id)),
            None => None,
        }
    }

    fn sub_type_of(&self, identity: UnpackedIndex) -> Option<&SubType<A>> {
        self.type_for(identity)
    }

    fn sub_type_at_id(&self, id: CoreTypeId) -> &SubType<A> {
        match self.type_for(UnpackedIndex::Id(id)) {
            Some(ty) => ty,
            None => unreachable!(),
        }
    }

    fn type_id_of_function(&self, function_index: u32) -> Option<CoreTypeId> {
        match self.type_index_of_function(function_index) {
            Some(type_index) => self.type_id_at(type_index),
            None => None,
        }
    }

    fn type_index_of_function(&self, function_index: u32) -> Option<u32> {
        match self.parts.functions.get(function_index as usize) {
            Some(function) => Some(function.type_index),
            None => None,
        }
    }

    fn element_type_at(&self, at: u32) -> Option<RefType> {
        match self.parts.elements.get(at as usize) {
            Some(ty) => Some(*ty),
            None => None,
        }
    }

    fn is_subtype(&self, a: ValType, b: ValType) -> bool {
        val_matches(self, a, b)
    }

    fn is_shared(&self, ty: RefType) -> bool {
        match ty.heap_type() {
            HeapType::Abstract { shared, .. } => shared,
            HeapType::Concrete(index) | HeapType::Exact(index) => is_shared(self.type_for(index)),
        }
    }

    fn check_heap_type(&self, heap_type: &mut HeapType, offset: u64) -> Result<(), Refusal> {
        match *heap_type {
            HeapType::Abstract { .. } => {}
            HeapType::Concrete(written) => {
                let id = self.resolve(written, offset)?;
                *heap_type = HeapType::Concrete(UnpackedIndex::Id(id));
            }
            HeapType::Exact(written) => {
                let id = self.resolve(written, offset)?;
                *heap_type = HeapType::Exact(UnpackedIndex::Id(id));
            }
        }
        Ok(())
    }

    fn top_type(&self, heap_type: &HeapType) -> HeapType {
        match *heap_type {
            HeapType::Abstract { shared, ty } => HeapType::Abstract {
                shared,
                ty: ty.top(),
            },
            HeapType::Concrete(index) | HeapType::Exact(index) => match self.type_for(index) {
                Some(sub) => HeapType::Abstract {
                    shared: sub.composite_type.shared,
                    ty: sub.composite_type.inner.kind().top(),
                },
                None => unreachable!(),
            },
        }
    }

    fn element_count(&self) -> u32 {
        self.parts.elements.len() as u32
    }

    fn data_count(&self) -> Option<u32> {
        self.parts.data_count
    }

    fn is_function_referenced(&self, function_index: u32) -> bool {
        self.parts.references.contains(&function_index)
    }

    fn has_function_exact_type(&self, function_index: u32) -> bool {
        match self.parts.functions.get(function_index as usize) {
            Some(function) => function.is_exact,
            None => false,
        }
    }
}
