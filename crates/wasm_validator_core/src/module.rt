//! The state of a module as far as it has been read, and what items add to it.

ghost use Rattle.std.specs.Prelude.{◌≡◌, ◌+◌, ◌<◌, ◌^◌, ◌++◌, ◌∷◌, [], true, length, slice_get, OnOk, OnErr, IfOk, IfErr, is_ok, is_some};
ghost use Rattle.std.specs.Option.{option_map};
ghost use Rattle.std.specs.declared.option.Option.TheVariants.{Some, None};
ghost use Rattle.wasm_spec_rules.specs.FeatureFlags.{features_of};
ghost use Rattle.wasm_spec_rules.specs.Limits.{most_tables, most_memories};
ghost use Rattle.wasm_readers.specs.Items.{import_of, export_of};
ghost use Rattle.wasm_spec.specs.Syntax.{map_table};
ghost use Rattle.wasm_readers_types.specs.SeenExterns.{table_of, memory_of, global_of, extern_of};
ghost use Rattle.wasm_readers_types.specs.WasmReadersValues.SeenValues.{ref_of};
ghost use Rattle.wasm_readers_types.specs.SeenTypes.{rec_of};
ghost use Rattle.wasm_validator_checks.specs.Answers.{IsRefusalAt, IsPlainRefusalAt};
ghost use Rattle.wasm_validator_checks.specs.Items.{is_valid_extern, is_valid_defined_table};
ghost use Rattle.wasm_validator_checks.specs.WasmValidatorTypes.Entities.{entity_of};
ghost use Rattle.wasm_validator_checks.specs.WasmValidatorTypeList.DefTypes.{types_of_list};
ghost use Rattle.wasm_validator_checks.specs.WasmValidatorTypes.Spaces.{no_spaces};
ghost use Rattle.wasm_validator_checks.specs.WasmValidatorCanonical.Groups.{has_form, AreValid};
ghost use Rattle.wasm_validator_checks.specs.WasmValidatorCanonical.GroupInterning.{KeepsGroups};
ghost use Rattle.wasm_validator_checks.specs.WasmValidatorCanonical.Indices.{canonical_index};
ghost use Rattle.wasm_validator_core.specs.Errors.{IsAt, IsMemory, IfContent};
ghost use Rattle.wasm_validator_core.specs.Answers.{Adds, AddsWhere, HasValidTypes};
ghost use Rattle.wasm_validator_core.specs.Functions.{IsTypeOfFunction, IsUnknownFunction};
ghost use Rattle.wasm_validator_core.specs.OpenLists.{IsOpenFor, AreIdsOf, AreHeld};
ghost use Rattle.wasm_validator_core.specs.Machine.{add_group};
ghost use Rattle.wasm_validator_core.specs.Items.{types_of_module, listed, entity, exported_function, exported_entity, arity_of_function, is_startable, add_import, add_function, with_table, add_table, add_memory, with_global, add_tag, add_export};
ghost use Rattle.wasm_validator_core.specs.AddedItemRefusals.{Tells, TellsExport, told_of_added_function, told_of_table_limit, told_of_added_table, told_of_added_memory, told_of_limit, told_of_added_tag, ToldOfAddedGroup, told_of_import, told_of_entity_there, told_of_export, told_of_function_type, told_of_start};
ghost use Rattle.wasm_readers_errors.specs.Refusals.{refused};
ghost use Rattle.wasm_validator_checks.specs.ItemRefusals.{told_of_extern, told_of_defined_table};

use crate::error::Error;
use crate::exports::{add_one_export, exported, function_entity};
use crate::imports::add_one_import;
use crate::items::{
    add_defined_function, add_defined_memory, add_defined_table, add_defined_tag,
    listed_defined_table, place_element, place_global, place_table,
};
use crate::limits::{MAX_GLOBALS, MAX_TYPES, check_max, max_memories, max_tables};
use crate::start::{check_start_function, function_type};
use std::alloc::{AllocError, Allocator, Global};
use std::marker::Model;
use wasm_readers::{
    CoreTypeId, Counted, Export, FuncType, GlobalType, Import, MemoryType, RecGroup, Refusal,
    TableType, TagType, TypeRef, WasmFeatures,
};
use wasm_readers_types::RefType;
use wasm_validator_checks::validator_canonical::{InternRecGroup, intern_rec_group_of};
use wasm_validator_checks::validator_types::{EntityType, IndexSpaces, TypeList};
use wasm_validator_checks::{check_name, check_names, entity_type, known_ids, listed_type_ref};

/// A module as far as it has been read: its index spaces (Core Specification 3.0, Validation,
/// Conventions, Contexts). A contract sees them as lists.
#[derive(Drop)]
pub struct Module<A: Allocator = Global> {
    spaces: IndexSpaces<A>,
}

impl<A: Allocator> Model for Module<A> {
    ghost use Rattle.wasm_validator_checks.specs.WasmValidatorTypes.Spaces.{Spaces};

    ghost Value = { Spaces };

    ghost view = { λ a. a.spaces };
}

impl<A: Allocator + Copy> Module<A> {
    /// A module of which nothing has been read. It takes no memory yet.
    pub fn new(alloc: A) -> Module<A>
        ensures { result ≡ no_spaces }
    {
        Module {
            spaces: IndexSpaces::new(alloc),
        }
    }

    /// Its index spaces.
    pub fn spaces(&self) -> &IndexSpaces<A>
        ensures { result.now ≡ self.now }
    {
        &self.spaces
    }

    /// Its index spaces alone.
    pub fn into_spaces(self) -> IndexSpaces<A>
        ensures { result ≡ self }
    {
        self.spaces
    }

    /// Adds the types of a recursion group behind those of the module, and to the list of types.
    /// `offset` is where the group stands in the input (Core Specification 3.0, Validation,
    /// Modules, Types).
    ///
    /// The list must be one to which groups may be added, with equal types as one where the
    /// features ask for it, and its types must be valid by the features. It must have the types of
    /// the module, at most [`MAX_TYPES`] of them; and a group that is written without `rec` must
    /// have one type.
    ///
    /// # Errors
    ///
    /// Refused where the module would have too many types, where the group can't be added to the
    /// list or one of its types isn't valid, and where memory is refused. The list then still begins
    /// with all that it had; it and the module are only to be dropped.
    pub fn add_types(
        &mut self,
        features: WasmFeatures,
        alloc: A,
        list: &mut TypeList<A>,
        group: RecGroup<A>,
        offset: u64,
    ) -> Result<(), Error<A>>
        requires open { IsOpenFor features list.old }
        requires ids { AreIdsOf list.old self.old.types }
        requires form { has_form (rec_of group) ≡ true }
        requires valid { AreValid (features_of features) (types_of_list list.old) }
        ensures added { AddsWhere (HasValidTypes features) result
            (add_group features (types_of_list list.old, self.old) (rec_of group))
            (types_of_list list.new, self.new) }
        ensures valid { OnOk result (AreValid (features_of features) (types_of_list list.new)) }
        ensures open { IsOpenFor features list.new }
        ensures kept_groups { KeepsGroups list.old list.new }
        ensures ids { OnOk result (AreIdsOf list.new self.new.types) }
        ensures place { IfErr result (IsAt offset) }
        ensures told { IfErr result (IfContent (ToldOfAddedGroup features offset
            list.old self.old (rec_of group))) }
    {
        let more = group.types().len();
        let count = self.spaces.type_count() as usize;
        match check_max(count, more, MAX_TYPES, Counted::Types, offset) {
            Ok(()) => {}
            Err(refusal) => return Err(Error::Refused(refusal)),
        }
        match intern_rec_group_of(self, features, alloc, list, group, offset) {
            Ok(()) => Ok(()),
            Err(error) => Err(Error::from(error)),
        }
    }

    /// Has the names of imports and exports found by a key that is made of these bytes, where there
    /// are none yet: those of the section that they stand in.
    pub fn key_names(&mut self, bytes: &[u8])
        ensures { self.new ≡ self.old }
    {
        self.spaces.key_names(bytes);
    }

    /// Adds an import. `offset` is where it stands in the input (Core Specification 3.0,
    /// Validation, Modules, Imports).
    ///
    /// The list must have the types of the module.
    ///
    /// # Errors
    ///
    /// Refused where the import breaks a rule on what was read so far, or passes a limit, and where
    /// memory is refused. The module is then only to be dropped.
    pub fn add_import(
        &mut self,
        features: WasmFeatures,
        list: &TypeList<A>,
        import: &Import,
        offset: u64,
    ) -> Result<(), Error<A>>
        requires { AreHeld list.now self.old.types }
        ensures added { Adds result (add_import (features_of features) (types_of_list list.now)
            self.old (import_of import.now)) self.new }
        ensures types { self.new.types ≡ self.old.types }
        ensures place { IfErr result (IsAt offset) }
        ensures told { Tells result (told_of_import features offset (types_of_list list.now)
            self.old (import_of import.now)) }
    {
        check_names(features, import, offset)?;
        add_one_import(features, list, &mut self.spaces, import, offset)
    }

    /// Adds a function of the type with this index. `offset` is where it stands in the input (Core
    /// Specification 3.0, Validation, Modules, Functions).
    ///
    /// The list must have the types of the module.
    ///
    /// # Errors
    ///
    /// Refused where the index is not that of a function type of the module, where there would be
    /// too many functions, and where memory is refused. The module is then only to be dropped.
    pub fn add_function(
        &mut self,
        list: &TypeList<A>,
        type_index: u32,
        offset: u64,
    ) -> Result<(), Error<A>>
        requires { AreHeld list.now self.old.types }
        ensures added { Adds result (add_function (types_of_list list.now)
            self.old type_index) self.new }
        ensures types { self.new.types ≡ self.old.types }
        ensures place { IfErr result (IsAt offset) }
        ensures told { Tells result (told_of_added_function offset
            (types_of_list list.now) self.old type_index) }
    {
        add_defined_function(list, &mut self.spaces, type_index, offset)
    }

    /// Adds a table of this type that has no initializer. `offset` is where it stands in the input
    /// (Core Specification 3.0, Validation, Modules, Tables).
    ///
    /// The list must have the types of the module.
    ///
    /// # Errors
    ///
    /// Refused where the type breaks a rule, where there would be too many tables, and where memory
    /// is refused. The module is then only to be dropped.
    pub fn add_table(
        &mut self,
        features: WasmFeatures,
        list: &TypeList<A>,
        ty: TableType,
        offset: u64,
    ) -> Result<(), Error<A>>
        requires { AreHeld list.now self.old.types }
        ensures added { Adds result (add_table (features_of features) (types_of_list list.now)
            self.old (table_of ty)) self.new }
        ensures types { self.new.types ≡ self.old.types }
        ensures place { IfErr result (IsAt offset) }
        ensures told { Tells result (told_of_added_table features offset (types_of_list list.now)
            self.old (table_of ty)) }
    {
        add_defined_table(features, list, &mut self.spaces, ty, offset)
    }

    /// The type of a table that is defined, with an initializer or without, as the list of types
    /// has it (Core Specification 3.0, Validation, Modules, Tables).
    ///
    /// The list must have the types of the module.
    ///
    /// # Errors
    ///
    /// Refused, at `offset`, where the type breaks a rule on the types of the module.
    pub fn check_table(
        &self,
        features: WasmFeatures,
        list: &TypeList<A>,
        ty: TableType,
        has_init: bool,
        offset: u64,
    ) -> Result<TableType, Refusal>
        requires { AreHeld list.now self.now.types }
        ensures allowed { is_ok result ≡ is_valid_defined_table (features_of features)
            (types_of_module (types_of_list list.now) self.now) (table_of ty) has_init }
        ensures listed { IfOk result (λ t. table_of t
            ≡ map_table (canonical_index self.now.types) (table_of ty)) }
        ensures refusal { IfErr result (IsRefusalAt features offset) }
        ensures told { refused result ≡ told_of_defined_table features offset
            (types_of_module (types_of_list list.now) self.now) (table_of ty) has_init }
    {
        listed_defined_table(features, list, &self.spaces, ty, has_init, offset)
    }

    /// Adds a table that is defined, whose type is as the list of types has it: valid, and with ids
    /// in place of type indices. `offset` is where it stands in the input (Core Specification 3.0,
    /// Validation, Modules, Tables).
    ///
    /// # Errors
    ///
    /// Refused where there would be too many tables, and where memory is. The module is then only
    /// to be dropped.
    pub fn add_listed_table(
        &mut self,
        features: WasmFeatures,
        ty: TableType,
        offset: u64,
    ) -> Result<(), Error<A>>
        ensures added { Adds result (with_table (features_of features) self.old
            (table_of ty)) self.new }
        ensures types { self.new.types ≡ self.old.types }
        ensures place { IfErr result (IsAt offset) }
        ensures told { Tells result (told_of_table_limit features offset self.old) }
    {
        place_table(features, &mut self.spaces, ty, offset)
    }

    /// Adds a memory of this type. `offset` is where it stands in the input (Core Specification
    /// 3.0, Validation, Modules, Memories).
    ///
    /// # Errors
    ///
    /// Refused where the type breaks a rule, where there would be too many memories, and where
    /// memory is refused. The module is then only to be dropped.
    pub fn add_memory(
        &mut self,
        features: WasmFeatures,
        ty: MemoryType,
        offset: u64,
    ) -> Result<(), Error<A>>
        ensures added { Adds result (add_memory (features_of features) self.old
            (memory_of ty)) self.new }
        ensures types { self.new.types ≡ self.old.types }
        ensures place { IfErr result (IsAt offset) }
        ensures told { Tells result (told_of_added_memory features offset self.old (memory_of ty)) }
    {
        add_defined_memory(features, &mut self.spaces, ty, offset)
    }

    /// Adds a global that is defined, whose type is as the list of types has it: valid, and with
    /// ids in place of type indices. `offset` is where it stands in the input (Core Specification
    /// 3.0, Validation, Modules, Globals).
    ///
    /// # Errors
    ///
    /// Refused where there would be too many globals, and where memory is. The module is then only
    /// to be dropped.
    pub fn add_global(&mut self, ty: GlobalType, offset: u64) -> Result<(), Error<A>>
        ensures added { Adds result (with_global self.old (global_of ty)) self.new }
        ensures types { self.new.types ≡ self.old.types }
        ensures place { IfErr result (IsAt offset) }
        ensures told { Tells result (told_of_limit offset Counted.Globals
            (length self.old.globals) MAX_GLOBALS) }
    {
        place_global(&mut self.spaces, ty, offset)
    }

    /// Adds an element segment whose items are of this type, as the list of types has it. The
    /// number of element segments must fit 32 bits then (Core Specification 3.0, Validation,
    /// Modules, Element Segments).
    ///
    /// # Errors
    ///
    /// Refused where memory is. The module is then only to be dropped.
    pub fn add_element(&mut self, ty: RefType) -> Result<(), Error<A>>
        requires room { length self.old.elements + 1 < 2 ^ 32 }
        ensures added { Adds result (Some (record self.old
            { elements = self.old.elements ++ ref_of ty ∷ [] })) self.new }
        ensures types { self.new.types ≡ self.old.types }
        ensures memory { IfErr result IsMemory }
    {
        place_element(&mut self.spaces, ty)
    }

    /// Adds a tag of this type. `offset` is where it stands in the input (Core Specification 3.0,
    /// Validation, Modules, Tags).
    ///
    /// The list must have the types of the module.
    ///
    /// # Errors
    ///
    /// Refused where the type breaks a rule, where there would be too many tags, and where memory
    /// is refused. The module is then only to be dropped.
    pub fn add_tag(
        &mut self,
        features: WasmFeatures,
        list: &TypeList<A>,
        ty: TagType,
        offset: u64,
    ) -> Result<(), Error<A>>
        requires { AreHeld list.now self.old.types }
        ensures added { Adds result (add_tag (features_of features) (types_of_list list.now)
            self.old ty.func_type_idx) self.new }
        ensures types { self.new.types ≡ self.old.types }
        ensures place { IfErr result (IsAt offset) }
        ensures told { Tells result (told_of_added_tag features offset (types_of_list list.now)
            self.old ty.func_type_idx) }
    {
        add_defined_tag(features, list, &mut self.spaces, ty, offset)
    }

    /// Adds an export. `offset` is where it stands in the input (Core Specification 3.0,
    /// Validation, Modules, Exports).
    ///
    /// # Errors
    ///
    /// Refused where the export breaks a rule on what was read so far, or passes a limit, and where
    /// memory is refused. The module is then only to be dropped.
    pub fn add_export(
        &mut self,
        features: WasmFeatures,
        alloc: A,
        list: &TypeList<A>,
        export: &Export,
        offset: u64,
    ) -> Result<(), Error<A>>
        ensures added { Adds result (add_export (features_of features) (types_of_list list.now)
            self.old (export_of export.now)) self.new }
        ensures types { self.new.types ≡ self.old.types }
        ensures place { IfErr result (IsAt offset) }
        ensures told { TellsExport self.old export.now.name.now offset result
            (told_of_export features offset (types_of_list list.now) self.old
            export.now.name.now export.now.kind export.now.index (exported_entity
            (features_of features) self.old (export_of export.now))) }
    {
        check_name(features, export.name, offset)?;
        add_one_export(features, alloc, list, &mut self.spaces, export, offset)
    }

    /// The type of the function with this index.
    ///
    /// The list must have the types of the module.
    ///
    /// # Errors
    ///
    /// Refused, at `offset`, where there is no such function.
    pub fn get_func_type<'a>(
        &self,
        list: &'a TypeList<A>,
        func_idx: u32,
        offset: u64,
    ) -> Result<&'a FuncType<A>, Refusal>
        requires { AreHeld list.now self.now.types }
        ensures there { is_ok result ≡ is_some (arity_of_function
            (types_of_list list.now) self.now func_idx) }
        ensures arity { IfOk result (λ f. arity_of_function (types_of_list list.now) self.now
            func_idx ≡ Some (length f.now.params, length f.now.results)) }
        ensures value { IfOk result (λ f. IsTypeOfFunction list.now self.now func_idx f.now) }
        ensures refusal { IfErr result (IsPlainRefusalAt offset) }
        ensures told { refused result ≡ told_of_function_type offset
            (types_of_list list.now) self.now func_idx }
        ensures unknown { slice_get self.now.functions func_idx ≡ None
            → IfErr result (IsUnknownFunction func_idx offset) }
    {
        function_type(list, &self.spaces, func_idx, offset)
    }

    /// Accepts the start function with this index: it is there, and takes and gives nothing (Core
    /// Specification 3.0, Validation, Modules, Start Function).
    ///
    /// The list must have the types of the module.
    ///
    /// # Errors
    ///
    /// Refused, at `offset`, where there is no such function, and where it has parameters or
    /// results.
    pub fn check_start(&self, list: &TypeList<A>, func_idx: u32, offset: u64) -> Result<(), Refusal>
        requires { AreHeld list.now self.now.types }
        ensures allowed { is_ok result ≡ is_startable (types_of_list list.now) self.now func_idx }
        ensures refusal { IfErr result (IsPlainRefusalAt offset) }
        ensures told { refused result ≡ told_of_start offset
            (types_of_list list.now) self.now func_idx }
    {
        check_start_function(list, &self.spaces, func_idx, offset)
    }

    /// What an import of this type is (Core Specification 3.0, Validation, Types, External Types).
    /// Whether a mutable global may be imported isn't asked here.
    ///
    /// The list must have the types of the module.
    ///
    /// # Errors
    ///
    /// Refused, at `offset`, where the type breaks a rule on the types of the module.
    pub fn check_type_ref(
        &self,
        features: WasmFeatures,
        list: &TypeList<A>,
        ty: TypeRef,
        offset: u64,
    ) -> Result<EntityType, Refusal>
        requires { AreHeld list.now self.now.types }
        ensures allowed { is_ok result ≡ is_valid_extern (features_of features)
            (types_of_module (types_of_list list.now) self.now) (extern_of ty) }
        ensures value { IfOk result (λ e. entity_of e
            ≡ entity self.now (listed self.now (extern_of ty))) }
        ensures refusal { IfErr result (IsRefusalAt features offset) }
        ensures told { refused result ≡ told_of_extern features offset
            (types_of_module (types_of_list list.now) self.now) (extern_of ty) }
    {
        let ty = listed_type_ref(features, list, known_ids(list, &self.spaces), ty, offset)?;
        Ok(entity_type(&self.spaces, ty))
    }

    /// What an export names.
    ///
    /// # Errors
    ///
    /// Refused, at `offset`, where the index is not in the index space of its kind.
    pub fn export_to_entity_type(
        &self,
        features: WasmFeatures,
        export: &Export,
        offset: u64,
    ) -> Result<EntityType, Refusal>
        ensures ok { IfOk result (λ e. exported_entity (features_of features) self.now
            (export_of export.now) ≡ Some (entity_of e)) }
        ensures err { OnErr result (exported_entity (features_of features) self.now
            (export_of export.now) ≡ None) }
        ensures place { IfErr result (IsPlainRefusalAt offset) }
        ensures told { refused result ≡ told_of_entity_there offset export.now.kind export.now.index
            (exported_entity (features_of features) self.now (export_of export.now)) }
    {
        exported(features, &self.spaces, export, offset)
    }

    /// The type of the function with this index as an export has it, if there is such a function.
    pub fn exported_function_type(&self, features: WasmFeatures, index: u32) -> Option<EntityType>
        ensures { option_map entity_of result
            ≡ exported_function (features_of features) self.now index }
    {
        function_entity(features, &self.spaces, index)
    }

    /// The most tables that a module may have.
    pub fn max_tables(&self, features: WasmFeatures) -> u32
        ensures { result ≡ most_tables (features_of features) }
    {
        max_tables(features)
    }

    /// The most memories that a module may have.
    pub fn max_memories(&self, features: WasmFeatures) -> u32
        ensures { result ≡ most_memories (features_of features) }
    {
        max_memories(features)
    }
}

impl<A: Allocator + Copy> InternRecGroup<A> for Module<A> {
    ghost use Rattle.std.specs.Prelude.{◌≡◌, ◌+◌, ◌<◌, ◌^◌, ◌++◌, ◌∷◌, [], length, OnOk};
    ghost use Rattle.wasm_validator_checks.specs.WasmValidatorCanonical.Indices.{numbers};

    ghost ids = { λ s. s.types };

    ghost others = { λ s. record s { types = [] } };

    fn type_ids(&self) -> &[CoreTypeId]
        ensures { numbers result.now ≡ self.now.types }
    {
        self.spaces.type_ids()
    }

    fn add_type_id(&mut self, id: CoreTypeId) -> Result<(), AllocError>
        requires room { length self.old.types + 1 < 2 ^ 32 }
        ensures ids { OnOk result (self.new.types ≡ self.old.types ++ id.index ∷ []) }
        ensures others { record self.new { types = [] } ≡ record self.old { types = [] } }
    {
        self.spaces.push_type(id)
    }
}
