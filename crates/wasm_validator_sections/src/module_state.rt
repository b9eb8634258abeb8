//! What is kept of a module while its sections are read.

ghost use Rattle.std.specs.Prelude.{◌≡◌, ◌≤◌, ◌+◌, [], None, nat_le, is_ok, length, IfErr, OnOk};
ghost use Rattle.wasm_spec_rules.specs.FeatureFlags.{features_of};
ghost use Rattle.wasm_readers_bytes.specs.Reader.{SameInput, position_in, rest};
ghost use Rattle.wasm_readers_types.specs.SeenExterns.{table_of};
ghost use Rattle.wasm_validator_type_list.specs.DefTypes.{types_of_list};
ghost use Rattle.wasm_validator_types.specs.Spaces.{no_spaces};
ghost use Rattle.wasm_validator_items.specs.WasmValidatorCore.Errors.{IsAt};
ghost use Rattle.wasm_validator_items.specs.WasmValidatorCore.Answers.{Adds};
ghost use Rattle.wasm_validator_items.specs.WasmValidatorCore.OpenLists.{AreHeld};
ghost use Rattle.wasm_validator_items.specs.WasmValidatorCore.AddedItemRefusals.{Tells, told_of_added_table};
ghost use Rattle.wasm_validator_items.specs.WasmValidatorCore.Items.{add_table};
ghost use Rattle.wasm_validator_items.specs.WasmValidatorCoreResources.ById.{AreFirstByIds};
ghost use Rattle.wasm_validator_items.specs.WasmValidatorReferences.References.{marked, names_of_table, names_of_global, names_of_element};
ghost use Rattle.wasm_validator_items.specs.Answers.{StandsBehind};
ghost use Rattle.wasm_validator_sections.specs.Singles.{next_table, next_global, next_element, next_data};

use std::alloc::{Allocator, Global};
use wasm_readers::{BinaryReader, Counted, Refusal, TableType, WasmFeatures};
use wasm_validator_items::references::ReferencedFunctions;
use wasm_validator_items::validator_core::{Error, MAX_ELEMENT_SEGMENTS, Module, check_max};
use wasm_validator_items::{
    Constants, add_next_element, add_next_global, add_next_table, check_next_data,
    tells_types_apart,
};
use wasm_validator_types::TypeList;

/// Accepts one element segment more, besides those that are there.
fn check_element_room<A: Allocator + Copy>(opened: &Module<A>, offset: u64) -> Result<(), Refusal>
    ensures fits { is_ok result ≡ nat_le (length opened.now.elements + 1) MAX_ELEMENT_SEGMENTS }
    ensures room { OnOk result (length opened.now.elements + 1 ≤ MAX_ELEMENT_SEGMENTS) }
    ensures place { IfErr result (λ r. r.offset ≡ offset) }
{
    let there = opened.spaces().element_count() as usize;
    check_max(
        there,
        1,
        MAX_ELEMENT_SEGMENTS,
        Counted::ElementSegments,
        offset,
    )
}

/// A module while its sections are read.
#[derive(Drop)]
pub struct ModuleState<A: Allocator = Global> {
    /// The module as far as it has been read.
    pub module: Module<A>,
    /// The number of data segments that it is to have, where its data count section says it.
    pub data_count: Option<u32>,
    /// Which of its functions count as referenced, outside of bodies.
    pub referenced: ReferencedFunctions<A>,
}

impl<A: Allocator + Copy> ModuleState<A> {
    /// A module of which no section has been read. It takes no memory yet.
    pub fn new(alloc: A) -> ModuleState<A>
        ensures lists { result.module ≡ no_spaces }
        ensures count { result.data_count ≡ None }
        ensures referenced { result.referenced ≡ [] }
    {
        ModuleState {
            module: Module::new(alloc),
            data_count: None,
            referenced: ReferencedFunctions::new(alloc),
        }
    }

    /// Adds a table of this type that has no initializer. `offset` is where it stands in the input
    /// (Core Specification 3.0, Validation, Modules, Tables).
    ///
    /// The list must have the types of the module.
    ///
    /// # Errors
    ///
    /// Refused where the type breaks a rule, where there would be too many tables, and where memory
    /// is refused. The module is then only to be dropped.
    pub fn add_table_of_type(
        &mut self,
        features: WasmFeatures,
        list: &TypeList<A>,
        ty: TableType,
        offset: u64,
    ) -> Result<(), Error<A>>
        requires { AreHeld list.now self.old.module.types }
        ensures added { Adds result (add_table (features_of features) (types_of_list list.now)
            self.old.module (table_of ty)) self.new.module }
        ensures types { self.new.module.types ≡ self.old.module.types }
        ensures same { (self.new.data_count ≡ self.old.data_count)
            × (self.new.referenced ≡ self.old.referenced) }
        ensures place { IfErr result (IsAt offset) }
        ensures told { Tells result (told_of_added_table features offset (types_of_list list.now)
            self.old.module (table_of ty)) }
    {
        self.module.add_table(features, list, ty, offset)
    }

    /// Adds the table that the bytes begin with, and notes the functions that it names. Its
    /// initializer, where it has one, may read the immutable globals that there are, without `GC`
    /// only imported ones. The reader goes behind it.
    ///
    /// The list must have the types of the module; and what `constants` has must be the first types
    /// of the list, as it is where it is new, and where it was used with the list before that grew.
    ///
    /// # Errors
    ///
    /// Refused where the bytes don't begin with a table of a type that keeps every rule, with a
    /// constant expression of its entries' type where one is written, where there would be too many
    /// (Core Specification 3.0, Validation, Modules, Tables), at an offset from where the reader
    /// stands to the end of its part of the input; and where memory is. The module is then only to
    /// be dropped.
    pub fn add_table<'a>(
        &mut self,
        features: WasmFeatures,
        list: &TypeList<A>,
        constants: &mut Constants<A>,
        reader: &mut BinaryReader<'a>,
    ) -> Result<(), Error<A>>
        requires held { AreHeld list.now self.old.module.types }
        requires first { AreFirstByIds list.now.groups constants.old.types }
        ensures added { Adds result (next_table (features_of features) (types_of_list list.now)
            self.old.module (rest reader.old)) (self.new.module, rest reader.new) }
        ensures types { self.new.module.types ≡ self.old.module.types }
        ensures count { self.new.data_count ≡ self.old.data_count }
        ensures noted { OnOk result (self.new.referenced
            ≡ marked (names_of_table (rest reader.old)) self.old.referenced) }
        ensures first { AreFirstByIds list.now.groups constants.new.types }
        ensures input { SameInput reader.old reader.new }
        ensures onward { position_in reader.old ≤ position_in reader.new }
        ensures place { IfErr result (StandsBehind reader.old) }
    {
        tells_types_apart(list);
        constants.update(list)?;
        add_next_table(
            features,
            list,
            &constants.types,
            &mut constants.memory,
            &mut self.module,
            &mut self.referenced,
            reader,
        )
    }

    /// Adds the global that the bytes begin with, and notes the functions that it names. Its
    /// initializer may read the immutable globals before it, without `GC` only imported ones. The
    /// reader goes behind it.
    ///
    /// The list must have the types of the module; and what `constants` has must be the first types
    /// of the list, as it is where it is new, and where it was used with the list before that grew.
    ///
    /// # Errors
    ///
    /// Refused where the bytes don't begin with a global of a type that keeps every rule, with a
    /// constant expression of what it holds, where there would be too many
    /// (Core Specification 3.0, Validation, Modules, Globals), at an offset from where the reader
    /// stands to the end of its part of the input; and where memory is. The module is then only to
    /// be dropped.
    pub fn add_global<'a>(
        &mut self,
        features: WasmFeatures,
        list: &TypeList<A>,
        constants: &mut Constants<A>,
        reader: &mut BinaryReader<'a>,
    ) -> Result<(), Error<A>>
        requires held { AreHeld list.now self.old.module.types }
        requires first { AreFirstByIds list.now.groups constants.old.types }
        ensures added { Adds result (next_global (features_of features) (types_of_list list.now)
            self.old.module (rest reader.old)) (self.new.module, rest reader.new) }
        ensures types { self.new.module.types ≡ self.old.module.types }
        ensures count { self.new.data_count ≡ self.old.data_count }
        ensures noted { OnOk result (self.new.referenced
            ≡ marked (names_of_global (rest reader.old)) self.old.referenced) }
        ensures first { AreFirstByIds list.now.groups constants.new.types }
        ensures input { SameInput reader.old reader.new }
        ensures onward { position_in reader.old ≤ position_in reader.new }
        ensures place { IfErr result (StandsBehind reader.old) }
    {
        tells_types_apart(list);
        constants.update(list)?;
        add_next_global(
            features,
            list,
            &constants.types,
            &mut constants.memory,
            &mut self.module,
            &mut self.referenced,
            reader,
        )
    }

    /// Adds the element segment that the bytes begin with, and notes the functions that it names. Its
    /// expressions may read the immutable globals, without `GC` only imported ones. The reader goes
    /// behind it.
    ///
    /// The list must have the types of the module; and what `constants` has must be the first types
    /// of the list, as it is where it is new, and where it was used with the list before that grew.
    ///
    /// # Errors
    ///
    /// Refused where there would be too many, where the bytes don't begin with a valid element segment
    /// (Core Specification 3.0, Validation, Modules, Element Segments), at an offset from where the reader
    /// stands to the end of its part of the input; and where memory is. The module is then only to
    /// be dropped.
    pub fn add_element_segment<'a>(
        &mut self,
        features: WasmFeatures,
        list: &TypeList<A>,
        constants: &mut Constants<A>,
        reader: &mut BinaryReader<'a>,
    ) -> Result<(), Error<A>>
        requires held { AreHeld list.now self.old.module.types }
        requires first { AreFirstByIds list.now.groups constants.old.types }
        ensures added { Adds result (next_element (features_of features) (types_of_list list.now)
            self.old.module (rest reader.old)) (self.new.module, rest reader.new) }
        ensures types { self.new.module.types ≡ self.old.module.types }
        ensures count { self.new.data_count ≡ self.old.data_count }
        ensures noted { OnOk result (self.new.referenced
            ≡ marked (names_of_element (rest reader.old)) self.old.referenced) }
        ensures first { AreFirstByIds list.now.groups constants.new.types }
        ensures input { SameInput reader.old reader.new }
        ensures onward { position_in reader.old ≤ position_in reader.new }
        ensures place { IfErr result (StandsBehind reader.old) }
    {
        check_element_room(&self.module, reader.original_position())?;
        tells_types_apart(list);
        constants.update(list)?;
        add_next_element(
            features,
            list,
            &constants.types,
            &mut constants.memory,
            &mut self.module,
            &mut self.referenced,
            reader,
        )
    }

    /// Checks the data segment that the bytes begin with, which adds nothing to the module. Its
    /// offset may read the immutable globals, without `GC` only imported ones. The reader goes
    /// behind it. The caller counts the data segments.
    ///
    /// The list must have the types of the module; and what `constants` has must be the first types
    /// of the list, as it is where it is new, and where it was used with the list before that grew.
    ///
    /// # Errors
    ///
    /// Refused where the bytes don't begin with a valid data segment (Core Specification 3.0,
    /// Validation, Modules, Data Segments), at an offset from where the reader stands to the end of
    /// its part of the input; and where memory is.
    pub fn add_data_segment<'a>(
        &self,
        features: WasmFeatures,
        list: &TypeList<A>,
        constants: &mut Constants<A>,
        reader: &mut BinaryReader<'a>,
    ) -> Result<(), Error<A>>
        requires held { AreHeld list.now self.now.module.types }
        requires first { AreFirstByIds list.now.groups constants.old.types }
        ensures added { Adds result (next_data (features_of features) (types_of_list list.now)
            self.now.module (rest reader.old)) (self.now.module, rest reader.new) }
        ensures first { AreFirstByIds list.now.groups constants.new.types }
        ensures input { SameInput reader.old reader.new }
        ensures onward { position_in reader.old ≤ position_in reader.new }
        ensures place { IfErr result (StandsBehind reader.old) }
    {
        tells_types_apart(list);
        constants.update(list)?;
        let spaces = self.module.spaces();
        check_next_data(
            features,
            list,
            &constants.types,
            &mut constants.memory,
            spaces,
            reader,
        )
    }
}
