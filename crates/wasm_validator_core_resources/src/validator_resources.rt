//! The look-ups, and the module that they are read from.

ghost use Rattle.std.specs.Prelude.{◌≡◌, ◌<◌, length, slice_get, IfOk};
ghost use Rattle.std.specs.List.{All};
ghost use Rattle.std.specs.Option.{option_map};
ghost use Rattle.wasm_readers_types.specs.SeenTypes.{sub_of};
ghost use Rattle.wasm_readers_types.specs.WasmReadersValues.declared.indices.UnpackedIndex.TheVariants.{Id};
ghost use Rattle.wasm_validator_type_list.specs.DefTypes.{types_of_list};
ghost use Rattle.wasm_validator_resources.specs.Answers.{world, sub_in, tag_in, signature_seen};
ghost use Rattle.wasm_validator_core_resources.specs.ModuleContexts.{flagged_from, module_context, with_references, AreByIds};

use crate::{ModuleResources, TypesByIds};
use std::alloc::{AllocError, Allocator, Global};
use std::marker::Model;
use std::rc::Rc;
use wasm_readers_types::{
    CompositeInnerType, CoreTypeId, FuncType, GlobalType, HeapType, MemoryType, RefType, SubType,
    TableType, UnpackedIndex, ValType,
};
use wasm_validator_resources::WasmModuleResources;
use wasm_validator_resources::readers_errors::Refusal;
use wasm_validator_type_list::TypeList;
use wasm_validator_types::IndexSpaces;

/// A module whose code section has started: its index spaces, the list of types that they stand
/// over, all types of the list with ids in the place of positions in their groups, its data count,
/// and for each function whether it occurs outside of bodies. A contract sees the context that it
/// gives.
struct CodeModule<A: Allocator> {
    spaces: Rc<IndexSpaces<A>, A>,
    list: TypeList<A>,
    types: TypesByIds<A>,
    data_count: Option<u32>,
    referenced: Vec<bool, A>,
}

// By hand: so each way out takes one call for it, and not a step for each field.
impl<A: Allocator> Drop for CodeModule<A> {
    fn drop(self) {
        let CodeModule {
            spaces: _,
            list: _,
            types: _,
            data_count: _,
            referenced: _,
        } = self;
    }
}

impl<A: Allocator> Model for CodeModule<A> {
    ghost use Rattle.wasm_validator_resources.specs.WasmSpecRules.Contexts.{Context};
    ghost use Rattle.wasm_readers_types.specs.WasmReadersValues.declared.indices.UnpackedIndex.{UnpackedIndex};

    ghost Value = { Context UnpackedIndex };

    ghost use Rattle.wasm_validator_core_resources.specs.CodeLookups.{shown, IsSound};

    ghost view = { shown };

    ghost invariant = { IsSound };
}

impl<A: Allocator + Copy> CodeModule<A> {
    /// The look-ups of the module.
    #[inline]
    fn lookups(&self) -> ModuleResources<'_, A>
        ensures { result ≡ self.now }
    {
        let spaces = self.spaces.as_ref();
        let all = ModuleResources::new(
            spaces,
            &self.list,
            &self.types,
            spaces.elements(),
            self.data_count,
        );
        all.with_referenced(self.referenced.as_slice())
    }

    /// The id of the type with this index, if there is one.
    #[inline]
    fn type_id_at(&self, type_index: u32) -> Option<CoreTypeId>
        ensures { option_map Id result ≡ slice_get self.now.types type_index }
    {
        let spaces = self.spaces.as_ref();
        if type_index < spaces.type_count() {
            Some(spaces.type_at(type_index))
        } else {
            None
        }
    }

    /// What the type with this id is, if the list has one.
    #[inline]
    fn type_of(&self, id: CoreTypeId) -> Option<&SubType<A>>
        ensures { option_map (λ t. sub_of t.now) result ≡ (world self.now).declared (Id id) }
    {
        self.types.types().get(id.index())
    }

    /// What the type is that this stands for, if it stands for one.
    #[inline]
    fn type_for(&self, index: UnpackedIndex) -> Option<&SubType<A>>
        ensures { option_map (λ t. sub_of t.now) result ≡ (world self.now).declared index }
    {
        // What is always true of the module is known from here on.
        let _data_count = self.data_count;
        match index {
            UnpackedIndex::Id(id) => self.type_of(id),
            UnpackedIndex::Module(_) | UnpackedIndex::RecGroup(_) => None,
        }
    }

    /// The type of this type index, if there is one.
    #[inline]
    fn sub_type(&self, type_index: u32) -> Option<&SubType<A>>
        ensures { option_map (λ t. sub_of t.now) result ≡ sub_in self.now type_index }
    {
        match self.type_id_at(type_index) {
            Some(id) => self.type_of(id),
            None => None,
        }
    }

    /// The function type of the tag of this index, if there is one.
    fn tag(&self, at: u32) -> Option<&FuncType<A>>
        ensures { option_map (λ f. signature_seen f.now) result ≡ tag_in self.now at }
    {
        let spaces = self.spaces.as_ref();
        if at >= spaces.tag_count() {
            return None;
        }
        let ty = self.sub_type(spaces.tag_type_index(at))?;
        match &ty.composite_type.inner {
            CompositeInnerType::Func(signature) => Some(signature),
            _ => None,
        }
    }
}

/// The look-ups of a module whose code section has started. They own what they read, and clones
/// share it. A contract sees the context that they are read from, in which the functions that occur
/// outside of bodies are the ones that count as referenced (Core Specification 3.0, Validation,
/// Modules).
#[derive(Drop)]
pub struct ValidatorResources<A: Allocator = Global>(Rc<CodeModule<A>, A>);

impl<A: Allocator> Model for ValidatorResources<A> {
    ghost use Rattle.wasm_validator_resources.specs.WasmSpecRules.Contexts.{Context};
    ghost use Rattle.wasm_readers_types.specs.WasmReadersValues.declared.indices.UnpackedIndex.{UnpackedIndex};

    ghost Value = { Context UnpackedIndex };

    ghost view = { λ a. a.0.value };
}

impl<A: Allocator> Clone for ValidatorResources<A> {
    ghost is_clone = { λ C D. D ≡ C };

    fn clone(&self) -> Result<ValidatorResources<A>, AllocError> {
        Ok(ValidatorResources(self.0.clone()?))
    }
}

impl<A: Allocator + Copy> ValidatorResources<A> {
    /// Those of a module with these index spaces over this list of types, and with this data count.
    /// The list must have the module's types; and `types` are all that it has, with ids in the place
    /// of positions in their groups. A flag of `referenced` stands at the function's index, and is
    /// set where the function occurs in the module outside of bodies; functions behind the flags
    /// don't count as referenced.
    ///
    /// # Errors
    ///
    /// Fails where memory is refused.
    pub fn new(
        alloc: A,
        spaces: Rc<IndexSpaces<A>, A>,
        list: TypeList<A>,
        types: TypesByIds<A>,
        data_count: Option<u32>,
        referenced: Vec<bool, A>,
    ) -> Result<ValidatorResources<A>, AllocError>
        requires held { All (λ id. id < length (types_of_list list)) spaces.value.types }
        requires types { AreByIds list.groups types }
        ensures { IfOk result (λ r. r ≡ with_references (flagged_from 0 referenced.items)
            (module_context spaces.value list spaces.value.elements data_count)) }
    {
        list.recall_promises();
        // Asked for what it promises: the count of element segments fits.
        let _elements = spaces.as_ref().element_count();
        let module = CodeModule {
            spaces,
            list,
            types,
            data_count,
            referenced,
        };
        Ok(ValidatorResources(Rc::new(alloc, module)?))
    }
}

impl<A: Allocator + Copy> WasmModuleResources for ValidatorResources<A> {
    type A = A;

    ghost context = { λ C. C };

    #[inline]
    fn table_at(&self, at: u32) -> Option<TableType> {
        self.0.as_ref().lookups().table_at(at)
    }

    #[inline]
    fn memory_at(&self, at: u32) -> Option<MemoryType> {
        self.0.as_ref().lookups().memory_at(at)
    }

    #[inline]
    fn tag_at(&self, at: u32) -> Option<&FuncType<A>> {
        self.0.as_ref().tag(at)
    }

    #[inline]
    fn global_at(&self, at: u32) -> Option<GlobalType> {
        self.0.as_ref().lookups().global_at(at)
    }

    #[inline]
    fn sub_type_at(&self, type_index: u32) -> Option<&SubType<A>> {
        self.0.as_ref().sub_type(type_index)
    }

    #[inline]
    fn sub_type_of(&self, identity: UnpackedIndex) -> Option<&SubType<A>> {
        self.0.as_ref().type_for(identity)
    }

    #[inline]
    fn sub_type_at_id(&self, id: CoreTypeId) -> &SubType<A> {
        match self.0.as_ref().type_of(id) {
            Some(ty) => ty,
            None => unreachable!(),
        }
    }

    #[inline]
    fn type_id_of_function(&self, function_index: u32) -> Option<CoreTypeId> {
        self.0
            .as_ref()
            .lookups()
            .type_id_of_function(function_index)
    }

    #[inline]
    fn type_index_of_function(&self, function_index: u32) -> Option<u32> {
        self.0
            .as_ref()
            .lookups()
            .type_index_of_function(function_index)
    }

    #[inline]
    fn element_type_at(&self, at: u32) -> Option<RefType> {
        self.0.as_ref().lookups().element_type_at(at)
    }

    #[inline]
    fn is_subtype(&self, a: ValType, b: ValType) -> bool {
        self.0.as_ref().lookups().is_subtype(a, b)
    }

    #[inline]
    fn is_shared(&self, ty: RefType) -> bool {
        self.0.as_ref().lookups().is_shared(ty)
    }

    #[inline]
    fn check_heap_type(&self, heap_type: &mut HeapType, offset: u64) -> Result<(), Refusal> {
        self.0.as_ref().lookups().check_heap_type(heap_type, offset)
    }

    #[inline]
    fn top_type(&self, heap_type: &HeapType) -> HeapType {
        self.0.as_ref().lookups().top_type(heap_type)
    }

    #[inline]
    fn element_count(&self) -> u32 {
        self.0.as_ref().lookups().element_count()
    }

    #[inline]
    fn data_count(&self) -> Option<u32> {
        self.0.as_ref().lookups().data_count()
    }

    #[inline]
    fn is_function_referenced(&self, function_index: u32) -> bool {
        self.0
            .as_ref()
            .lookups()
            .is_function_referenced(function_index)
    }

    #[inline]
    fn has_function_exact_type(&self, function_index: u32) -> bool {
        self.0
            .as_ref()
            .lookups()
            .has_function_exact_type(function_index)
    }
}
