//! The look-ups of a module that is being read.

ghost use Rattle.std.specs.Prelude.{◌≡◌, ◌<◌, ◌^◌, length, map, nat_lt, slice_get, IfSome, IfOk, OnErr};
ghost use Rattle.std.specs.List.{All};
ghost use Rattle.std.specs.Option.{option_map};
ghost use Rattle.std.specs.declared.option.Option.TheVariants.{None, Some};
ghost use Rattle.wasm_readers_types.specs.SeenTypes.{sub_of};
ghost use Rattle.wasm_readers_types.specs.WasmReadersValues.SeenValues.{ref_of};
ghost use Rattle.wasm_readers_types.specs.WasmReadersValues.declared.indices.TheConstants.{MAX_IDS};
ghost use Rattle.wasm_readers_types.specs.WasmReadersValues.declared.indices.UnpackedIndex.TheVariants.{Id};
ghost use Rattle.wasm_validator_type_list.specs.DefTypes.{types_of_list};
ghost use Rattle.wasm_validator_resources.specs.Answers.{world, written_index, IsWritten};
ghost use Rattle.wasm_validator_core_resources.specs.ModuleContexts.{flagged_from, module_context, with_references, AreByIds, FlagsSayReferences};

use crate::types_by_ids::TypesByIds;
use std::alloc::Allocator;
use std::marker::Model;
use wasm_readers_types::{
    CompositeInnerType, CoreTypeId, FuncType, GlobalType, HeapType, MemoryType, RefType, SubType,
    TableType, UnpackedIndex, ValType,
};
use wasm_validator_resources::readers_errors::{Fault, Refusal};
use wasm_validator_resources::{
    DeclaredTypes, WasmModuleResources, is_shared, same_index, val_matches,
};
use wasm_validator_type_list::{SnapshotList, TypeList};
use wasm_validator_types::IndexSpaces;

/// The look-ups of a module as far as it has been read, by reference. A contract sees the context
/// that they are read from (Core Specification 3.0, Validation, Conventions, Contexts).
#[derive(Drop)]
pub struct ModuleResources<'a, A: Allocator> {
    spaces: &'a IndexSpaces<A>,
    list: &'a TypeList<A>,
    types: &'a SnapshotList<SubType<A>, A>,
    elements: &'a [RefType],
    data_count: Option<u32>,
    referenced: Option<&'a [bool]>,
}

impl<'a, A: Allocator> Model for ModuleResources<'a, A> {
    ghost use Rattle.wasm_validator_resources.specs.WasmSpecRules.Contexts.{Context};
    ghost use Rattle.wasm_readers_types.specs.WasmReadersValues.declared.indices.UnpackedIndex.{UnpackedIndex};

    ghost Value = { Context UnpackedIndex };

    ghost use Rattle.wasm_validator_core_resources.specs.ModuleLookups.{shown, IsSound};

    ghost view = { shown };

    ghost invariant = { IsSound };
}

impl<'a, A: Allocator + Copy> ModuleResources<'a, A> {
    /// Those of a module with these index spaces over this list of types, whose element segments
    /// have these types, and which has this data count. The list must have the module's types; and
    /// `types` are all that it has, with ids in the place of positions in their groups.
    ///
    /// Each function of the module counts as referenced, as it does to constant expressions; bodies
    /// ask for `with_referenced`.
    pub fn new(
        spaces: &'a IndexSpaces<A>,
        list: &'a TypeList<A>,
        types: &'a TypesByIds<A>,
        elements: &'a [RefType],
        data_count: Option<u32>,
    ) -> ModuleResources<'a, A>
        requires held { All (λ id. id < length (types_of_list list.now)) spaces.now.types }
        requires types { AreByIds list.now.groups types.now }
        requires few { length elements.now < 2 ^ 32 }
        ensures { result ≡ module_context spaces.now list.now (map ref_of elements.now)
            data_count }
    {
        list.recall_promises();
        ModuleResources {
            spaces,
            list,
            types: types.types(),
            elements,
            data_count,
            referenced: None,
        }
    }

    /// The same, where only the functions whose flags are set count as referenced, as bodies see
    /// them: those that occur in the module outside of bodies (Core Specification 3.0, Validation,
    /// Modules). A flag stands at the function's index; functions behind the flags don't count.
    pub fn with_referenced(self, referenced: &'a [bool]) -> ModuleResources<'a, A>
        ensures { result ≡ with_references (flagged_from 0 referenced.now) self.entry }
    {
        ModuleResources {
            referenced: Some(referenced),
            ..self
        }
    }

    /// The id of the type with this index, if there is one.
    fn type_id_at(&self, type_index: u32) -> Option<CoreTypeId>
        ensures value { option_map Id result ≡ slice_get self.now.types type_index }
        ensures small { IfSome result (λ id. id.index < MAX_IDS) }
    {
        let spaces = self.spaces;
        if type_index < spaces.type_count() {
            Some(spaces.type_at(type_index))
        } else {
            None
        }
    }

    /// Whether the module has the function.
    fn has_function(&self, function_index: u32) -> bool
        ensures { result ≡ nat_lt function_index (length self.now.functions) }
    {
        let spaces = self.spaces;
        spaces.function_count() > function_index
    }

    /// What the type with this id is, if the list has one.
    fn type_of(&self, id: CoreTypeId) -> Option<&SubType<A>>
        ensures { option_map (λ t. sub_of t.now) result ≡ (world self.now).declared (Id id) }
    {
        self.types.get(id.index())
    }

    /// The id of the type that is written so in the module.
    fn resolve(&self, written: UnpackedIndex, offset: u64) -> Result<CoreTypeId, Refusal>
        requires { IsWritten written }
        ensures ok { IfOk result (λ id. slice_get self.now.types (written_index written)
            ≡ Some (Id id)) }
        ensures small { IfOk result (λ id. id.index < MAX_IDS) }
        ensures err { OnErr result (slice_get self.now.types (written_index written) ≡ None) }
    {
        let type_index = match written {
            UnpackedIndex::Module(type_index) => type_index,
            UnpackedIndex::RecGroup(_) | UnpackedIndex::Id(_) => unreachable!(),
        };
        match self.type_id_at(type_index) {
            Some(id) => Ok(id),
            None => Err(Refusal::new(Fault::UnknownType(type_index), offset)),
        }
    }
}

impl<'a, A: Allocator + Copy> DeclaredTypes for ModuleResources<'a, A> {
    type A = A;

    ghost context = { λ C. C };

    fn type_for(&self, index: UnpackedIndex) -> Option<&SubType<A>> {
        // What is always true of the look-ups is known from here on.
        let _types = self.types;
        match index {
            UnpackedIndex::Id(id) => self.type_of(id),
            UnpackedIndex::Module(_) | UnpackedIndex::RecGroup(_) => None,
        }
    }

    fn is_below(&self, a: UnpackedIndex, b: UnpackedIndex) -> bool {
        let list = self.list;
        let id = match a {
            UnpackedIndex::Id(id) => id,
            UnpackedIndex::Module(_) | UnpackedIndex::RecGroup(_) => return same_index(a, b),
        };
        match b {
            UnpackedIndex::Id(other) => list.id_is_below(id, other),
            UnpackedIndex::Module(_) | UnpackedIndex::RecGroup(_) => false,
        }
    }
}

impl<'a, A: Allocator + Copy> WasmModuleResources for ModuleResources<'a, A> {
    type A = A;

    ghost context = { λ C. C };

    fn table_at(&self, at: u32) -> Option<TableType> {
        let spaces = self.spaces;
        if at < spaces.table_count() {
            Some(spaces.table_at(at))
        } else {
            None
        }
    }

    fn memory_at(&self, at: u32) -> Option<MemoryType> {
        let spaces = self.spaces;
        if at < spaces.memory_count() {
            Some(spaces.memory_at(at))
        } else {
            None
        }
    }

    fn tag_at(&self, at: u32) -> Option<&FuncType<A>> {
        let spaces = self.spaces;
        if at >= spaces.tag_count() {
            return None;
        }
        let ty = self.sub_type_at(spaces.tag_type_index(at))?;
        match &ty.composite_type.inner {
            CompositeInnerType::Func(signature) => Some(signature),
            _ => None,
        }
    }

    fn global_at(&self, at: u32) -> Option<GlobalType> {
        let spaces = self.spaces;
        if at < spaces.global_count() {
            Some(spaces.global_at(at))
        } else {
            None
        }
    }

    fn sub_type_at(&self, type_index: u32) -> Option<&SubType<A>> {
        match self.type_id_at(type_index) {
            Some(id) => self.type_of(id),
            None => None,
        }
    }

    fn sub_type_of(&self, identity: UnpackedIndex) -> Option<&SubType<A>> {
        self.type_for(identity)
    }

    fn sub_type_at_id(&self, id: CoreTypeId) -> &SubType<A> {
        match self.type_of(id) {
            Some(ty) => ty,
            None => unreachable!(),
        }
    }

    fn type_id_of_function(&self, function_index: u32) -> Option<CoreTypeId> {
        match self.type_index_of_function(function_index) {
            Some(type_index) => self.type_id_at(type_index),
            None => None,
        }
    }

    fn type_index_of_function(&self, function_index: u32) -> Option<u32> {
        let spaces = self.spaces;
        if function_index < spaces.function_count() {
            Some(spaces.function_type_index(function_index))
        } else {
            None
        }
    }

    fn element_type_at(&self, at: u32) -> Option<RefType> {
        match self.elements.get(at as usize) {
            Some(ty) => Some(*ty),
            None => None,
        }
    }

    fn is_subtype(&self, a: ValType, b: ValType) -> bool {
        val_matches(self, a, b)
    }

    fn is_shared(&self, ty: RefType) -> bool {
        match ty.heap_type() {
            HeapType::Abstract { shared, .. } => shared,
            HeapType::Concrete(index) | HeapType::Exact(index) => is_shared(self.type_for(index)),
        }
    }

    fn check_heap_type(&self, heap_type: &mut HeapType, offset: u64) -> Result<(), Refusal> {
        match *heap_type {
            HeapType::Abstract { .. } => {}
            HeapType::Concrete(written) => {
                let id = self.resolve(written, offset)?;
                *heap_type = HeapType::Concrete(UnpackedIndex::Id(id));
            }
            HeapType::Exact(written) => {
                let id = self.resolve(written, offset)?;
                *heap_type = HeapType::Exact(UnpackedIndex::Id(id));
            }
        }
        Ok(())
    }

    fn top_type(&self, heap_type: &HeapType) -> HeapType {
        match *heap_type {
            HeapType::Abstract { shared, ty } => HeapType::Abstract {
                shared,
                ty: ty.top(),
            },
            HeapType::Concrete(index) | HeapType::Exact(index) => match self.type_for(index) {
                Some(sub) => HeapType::Abstract {
                    shared: sub.composite_type.shared,
                    ty: sub.composite_type.inner.kind().top(),
                },
                None => unreachable!(),
            },
        }
    }

    fn element_count(&self) -> u32 {
        self.elements.len() as u32
    }

    fn data_count(&self) -> Option<u32> {
        self.data_count
    }

    fn is_function_referenced(&self, function_index: u32) -> bool {
        match self.referenced {
            Some(flags) => match flags.get(function_index as usize) {
                Some(flag) => *flag,
                None => false,
            },
            None => self.has_function(function_index),
        }
    }

    fn has_function_exact_type(&self, function_index: u32) -> bool {
        let spaces = self.spaces;
        function_index < spaces.function_count() && spaces.is_exact_function(function_index)
    }
}

/// The functions that flags say, as the context of bodies lists them, are those whose flags are
/// set.
pub fn flags_say_references()
    ensures { FlagsSayReferences }
{}
