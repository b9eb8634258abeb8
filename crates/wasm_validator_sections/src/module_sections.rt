//! The items of a module's sections, one by one.

ghost use Rattle.std.specs.Prelude.{◌≡◌, OnOk, IfErr, IsTrue};
ghost use Rattle.wasm_spec_rules.specs.FeatureFlags.{features_of};
ghost use Rattle.wasm_readers.specs.SectionsSeen.{count_of, bytes_of, section_start, section_end};
ghost use Rattle.wasm_validator_items.specs.WasmValidatorReferences.References.{names_of_tables, names_of_globals, names_of_exports, names_of_elements};
ghost use Rattle.wasm_validator_sections.specs.ModuleNotes.{naming, noted_of};
ghost use Rattle.wasm_validator_type_list.specs.DefTypes.{types_of_list};
ghost use Rattle.wasm_validator_items.specs.WasmValidatorCore.WasmValidatorCanonical.Groups.{AreValid};
ghost use Rattle.wasm_validator_items.specs.WasmValidatorCore.Answers.{Adds, AddsWhere, HasValidTypes};
ghost use Rattle.wasm_validator_items.specs.WasmValidatorCore.OpenLists.{IsOpenFor, AreHeld, AreIdsOf};
ghost use Rattle.wasm_validator_items.specs.WasmValidatorCoreResources.ById.{AreFirstByIds};
ghost use Rattle.wasm_validator_sections.specs.Machine.{type_items, single_imports, entry_imports, import_items, function_items, table_items, memory_items, tag_items, global_items, export_items, element_items, data_items};
ghost use Rattle.wasm_validator_sections.specs.SectionFaults.{OfContent, StandsBetween, TellsTypes, TellsSingleImports, TellsEntries, TellsImports, TellsFunctions, TellsTables, TellsMemories, TellsTags, TellsGlobals, TellsExports, TellsElements, TellsData};

use crate::entry_items::EntryItems;
use crate::plain_items::{
    ExportItems, FunctionItems, GroupItems, ImportItems, MemoryItems, TagItems,
};
use crate::{Constants, ModuleState, tells_types_apart};
use std::alloc::Allocator;
use wasm_parser::items::{Data, Element, Global, Table};
use wasm_readers::{Export, Import, MemoryType, RecGroup, SectionLimited, TagType, WasmFeatures};
use wasm_validator_items::validator_core::{Error, Module};
use wasm_validator_items::{DataItems, ElementItems, GlobalItems, TableItems, add_items};
use wasm_validator_types::{IndexSpaces, TypeList};

/// Adds the types of a type section.
#[tactic(auto, using(crate::proofs::PlainSections::added_where))]
pub fn add_types<'a, A: Allocator + Copy>(
    features: WasmFeatures,
    alloc: A,
    list: &mut TypeList<A>,
    opened: &mut Module<A>,
    section: &SectionLimited<'a, RecGroup<A>, A>,
) -> Result<(), Error<A>>
    requires open { IsOpenFor features list.old }
    requires ids { AreIdsOf list.old opened.old.types }
    requires valid { AreValid (features_of features) (types_of_list list.old) }
    ensures added { AddsWhere (HasValidTypes features) result
        (type_items features (count_of section.now) (bytes_of section.now)
        (types_of_list list.old, opened.old)) (types_of_list list.new, opened.new) }
    ensures valid { OnOk result (AreValid (features_of features) (types_of_list list.new)) }
    ensures open { IsOpenFor features list.new }
    ensures ids { OnOk result (AreIdsOf list.new opened.new.types) }
    ensures place { IfErr result (StandsBetween (section_start section.now)
        (section_end section.now)) }
    ensures told { IfErr result (OfContent (TellsTypes features section.now
        (types_of_list list.old) opened.old)) }
{
    let mut kind = GroupItems {
        features,
        alloc: &alloc,
        list,
        opened,
    };
    add_items(&mut kind, section)
}

/// Adds the imports of an import section, one for each entry.
#[tactic(auto, using(crate::proofs::Cited::adds_items))]
fn add_single_imports<'a, A: Allocator + Copy>(
    features: WasmFeatures,
    list: &TypeList<A>,
    opened: &mut Module<A>,
    section: &SectionLimited<'a, Import<'a>, A>,
) -> Result<(), Error<A>>
    requires { AreHeld list.now opened.old.types }
    ensures added { Adds result (single_imports (features_of features) (types_of_list list.now)
        (count_of section.now) (bytes_of section.now) opened.old) opened.new }
    ensures types { opened.new.types ≡ opened.old.types }
    ensures place { IfErr result (StandsBetween (section_start section.now)
        (section_end section.now)) }
    ensures told { IfErr result (OfContent (TellsSingleImports features section.now
        (types_of_list list.now) opened.old)) }
{
    let mut kind = ImportItems {
        features,
        list,
        opened,
    };
    add_items(&mut kind, section)
}

/// Adds the imports of an import section whose entries may stand for several.
#[tactic(auto, using(crate::proofs::Cited::adds_items))]
fn add_entries<'a, A: Allocator + Copy>(
    features: WasmFeatures,
    list: &TypeList<A>,
    opened: &mut Module<A>,
    section: &SectionLimited<'a, Import<'a>, A>,
) -> Result<(), Error<A>>
    requires { AreHeld list.now opened.old.types }
    ensures added { Adds result (entry_imports (features_of features) (types_of_list list.now)
        (count_of section.now) (bytes_of section.now) opened.old) opened.new }
    ensures types { opened.new.types ≡ opened.old.types }
    ensures place { IfErr result (StandsBetween (section_start section.now)
        (section_end section.now)) }
    ensures told { IfErr result (OfContent (TellsEntries features section.now
        (types_of_list list.now) opened.old)) }
{
    let mut kind = EntryItems {
        features,
        list,
        opened,
    };
    add_items(&mut kind, section)
}

/// Adds the imports of an import section. Where `COMPACT_IMPORTS` is off, each entry is one. Their
/// names are found by a key of the section's own.
pub fn add_imports<'a, A: Allocator + Copy>(
    features: WasmFeatures,
    list: &TypeList<A>,
    opened: &mut Module<A>,
    section: &SectionLimited<'a, Import<'a>, A>,
) -> Result<(), Error<A>>
    requires { AreHeld list.now opened.old.types }
    ensures added { Adds result (import_items (features_of features) (types_of_list list.now)
        (count_of section.now) (bytes_of section.now) opened.old) opened.new }
    ensures types { opened.new.types ≡ opened.old.types }
    ensures place { IfErr result (StandsBetween (section_start section.now)
        (section_end section.now)) }
    ensures told { IfErr result (OfContent (TellsImports features section.now
        (types_of_list list.now) opened.old)) }
{
    opened.key_names(section.reader().remaining());
    if features.compact_imports() {
        add_entries(features, list, opened, section)
    } else {
        add_single_imports(features, list, opened, section)
    }
}

/// Adds the functions of a function section.
#[tactic(auto, using(crate::proofs::Cited::adds_items))]
pub fn add_functions<A: Allocator + Copy>(
    list: &TypeList<A>,
    opened: &mut Module<A>,
    section: &SectionLimited<'_, u32, A>,
) -> Result<(), Error<A>>
    requires { AreHeld list.now opened.old.types }
    ensures added { Adds result (function_items (types_of_list list.now) (count_of section.now)
        (bytes_of section.now) opened.old) opened.new }
    ensures types { opened.new.types ≡ opened.old.types }
    ensures place { IfErr result (StandsBetween (section_start section.now)
        (section_end section.now)) }
    ensures told { IfErr result (OfContent (TellsFunctions section.now
        (types_of_list list.now) opened.old)) }
{
    let mut kind = FunctionItems { list, opened };
    add_items(&mut kind, section)
}

/// Adds the memories of a memory section.
#[tactic(auto, using(crate::proofs::Cited::adds_items))]
pub fn add_memories<A: Allocator + Copy>(
    features: WasmFeatures,
    opened: &mut Module<A>,
    section: &SectionLimited<'_, MemoryType, A>,
) -> Result<(), Error<A>>
    ensures added { Adds result (memory_items (features_of features) (count_of section.now)
        (bytes_of section.now) opened.old) opened.new }
    ensures types { opened.new.types ≡ opened.old.types }
    ensures place { IfErr result (StandsBetween (section_start section.now)
        (section_end section.now)) }
    ensures told { IfErr result (OfContent (TellsMemories section.now features opened.old)) }
{
    let mut kind = MemoryItems { features, opened };
    add_items(&mut kind, section)
}

/// Adds the tags of a tag section, where the exceptions proposal is on.
#[tactic(auto, using(crate::proofs::PlainSections::added_if))]
pub fn add_tags<A: Allocator + Copy>(
    features: WasmFeatures,
    list: &TypeList<A>,
    opened: &mut Module<A>,
    section: &SectionLimited<'_, TagType, A>,
) -> Result<(), Error<A>>
    requires held { AreHeld list.now opened.old.types }
    requires exceptions { IsTrue (features_of features).exceptions }
    ensures added { Adds result (tag_items (features_of features) (types_of_list list.now)
        (count_of section.now) (bytes_of section.now) opened.old) opened.new }
    ensures types { opened.new.types ≡ opened.old.types }
    ensures place { IfErr result (StandsBetween (section_start section.now)
        (section_end section.now)) }
    ensures told { IfErr result (OfContent (TellsTags features section.now
        (types_of_list list.now) opened.old)) }
{
    let mut kind = TagItems {
        features,
        list,
        opened,
    };
    add_items(&mut kind, section)
}

/// Checks the data segments of a data section, which change nothing in the module.
pub fn check_data_segments<'a, A: Allocator + Copy>(
    features: WasmFeatures,
    list: &TypeList<A>,
    constants: &mut Constants<A>,
    spaces: &IndexSpaces<A>,
    section: &SectionLimited<'a, Data<'a>, A>,
) -> Result<(), Error<A>>
    requires held { AreHeld list.now spaces.now.types }
    requires first { AreFirstByIds list.now.groups constants.old.types }
    ensures added { Adds result (data_items (features_of features) (types_of_list list.now)
        (count_of section.now) (bytes_of section.now) spaces.now) spaces.now }
    ensures first { AreFirstByIds list.now.groups constants.new.types }
    ensures place { IfErr result (StandsBetween (section_start section.now)
        (section_end section.now)) }
    ensures told { IfErr result (OfContent (TellsData section.now)) }
{
    tells_types_apart(list);
    constants.update(list)?;
    let mut kind = DataItems {
        features,
        list,
        types: &constants.types,
        memory: &mut constants.memory,
        spaces,
    };
    add_items(&mut kind, section)
}

/// Adds the tables of a table section, and notes the functions that they name.
pub fn add_tables<'a, A: Allocator + Copy>(
    features: WasmFeatures,
    list: &TypeList<A>,
    constants: &mut Constants<A>,
    state: &mut ModuleState<A>,
    section: &SectionLimited<'a, Table<'a>, A>,
) -> Result<(), Error<A>>
    requires held { AreHeld list.now state.old.«module».types }
    requires first { AreFirstByIds list.now.groups constants.old.types }
    ensures added { Adds result (table_items (features_of features) (types_of_list list.now)
        (count_of section.now) (bytes_of section.now) state.old.«module»)
        state.new.«module» }
    ensures noted { OnOk result (noted_of state.new ≡ naming (names_of_tables
        (count_of section.now) (bytes_of section.now)) (noted_of state.old)) }
    ensures types { state.new.«module».types ≡ state.old.«module».types }
    ensures first { AreFirstByIds list.now.groups constants.new.types }
    ensures place { IfErr result (StandsBetween (section_start section.now)
        (section_end section.now)) }
    ensures told { IfErr result (OfContent (TellsTables section.now features state.old.«module»)) }
{
    tells_types_apart(list);
    constants.update(list)?;
    let mut kind = TableItems {
        features,
        list,
        types: &constants.types,
        memory: &mut constants.memory,
        opened: &mut state.module,
        referenced: &mut state.referenced,
    };
    add_items(&mut kind, section)
}

/// Adds the globals of a global section, and notes the functions that they name.
pub fn add_globals<'a, A: Allocator + Copy>(
    features: WasmFeatures,
    list: &TypeList<A>,
    constants: &mut Constants<A>,
    state: &mut ModuleState<A>,
    section: &SectionLimited<'a, Global<'a>, A>,
) -> Result<(), Error<A>>
    requires held { AreHeld list.now state.old.«module».types }
    requires first { AreFirstByIds list.now.groups constants.old.types }
    ensures added { Adds result (global_items (features_of features) (types_of_list list.now)
        (count_of section.now) (bytes_of section.now) state.old.«module»)
        state.new.«module» }
    ensures noted { OnOk result (noted_of state.new ≡ naming (names_of_globals
        (count_of section.now) (bytes_of section.now)) (noted_of state.old)) }
    ensures types { state.new.«module».types ≡ state.old.«module».types }
    ensures first { AreFirstByIds list.now.groups constants.new.types }
    ensures place { IfErr result (StandsBetween (section_start section.now)
        (section_end section.now)) }
    ensures told { IfErr result (OfContent (TellsGlobals section.now state.old.«module»)) }
{
    tells_types_apart(list);
    constants.update(list)?;
    let mut kind = GlobalItems {
        features,
        list,
        types: &constants.types,
        memory: &mut constants.memory,
        opened: &mut state.module,
        referenced: &mut state.referenced,
    };
    add_items(&mut kind, section)
}

/// Adds the element segments of an element section, and notes the functions that they name.
pub fn add_elements<'a, A: Allocator + Copy>(
    features: WasmFeatures,
    list: &TypeList<A>,
    constants: &mut Constants<A>,
    state: &mut ModuleState<A>,
    section: &SectionLimited<'a, Element<'a>, A>,
) -> Result<(), Error<A>>
    requires held { AreHeld list.now state.old.«module».types }
    requires first { AreFirstByIds list.now.groups constants.old.types }
    ensures added { Adds result (element_items (features_of features) (types_of_list list.now)
        (count_of section.now) (bytes_of section.now) state.old.«module»)
        state.new.«module» }
    ensures noted { OnOk result (noted_of state.new ≡ naming (names_of_elements
        (count_of section.now) (bytes_of section.now)) (noted_of state.old)) }
    ensures types { state.new.«module».types ≡ state.old.«module».types }
    ensures first { AreFirstByIds list.now.groups constants.new.types }
    ensures place { IfErr result (StandsBetween (section_start section.now)
        (section_end section.now)) }
    ensures told { IfErr result (OfContent (TellsElements section.now state.old.«module»)) }
{
    tells_types_apart(list);
    constants.update(list)?;
    let mut kind = ElementItems {
        features,
        list,
        types: &constants.types,
        memory: &mut constants.memory,
        opened: &mut state.module,
        referenced: &mut state.referenced,
    };
    add_items(&mut kind, section)
}

/// Adds the exports of an export section one by one, and notes the functions that they name.
fn add_each_export<'a, A: Allocator + Copy>(
    features: WasmFeatures,
    alloc: A,
    list: &TypeList<A>,
    state: &mut ModuleState<A>,
    section: &SectionLimited<'a, Export<'a>, A>,
) -> Result<(), Error<A>>
    ensures added { Adds result (export_items (features_of features) (types_of_list list.now)
        (count_of section.now) (bytes_of section.now) state.old.«module»)
        state.new.«module» }
    ensures noted { OnOk result (noted_of state.new ≡ naming (names_of_exports
        (count_of section.now) (bytes_of section.now)) (noted_of state.old)) }
    ensures types { state.new.«module».types ≡ state.old.«module».types }
    ensures place { IfErr result (StandsBetween (section_start section.now)
        (section_end section.now)) }
    ensures told { IfErr result (OfContent (TellsExports features section.now
        (types_of_list list.now) state.old.«module»)) }
{
    let mut kind = ExportItems {
        features,
        alloc: &alloc,
        list,
        opened: &mut state.module,
        referenced: &mut state.referenced,
    };
    add_items(&mut kind, section)
}

/// Adds the exports of an export section, and notes the functions that they name. Their names are
/// found by a key of the section's own.
pub fn add_exports<'a, A: Allocator + Copy>(
    features: WasmFeatures,
    alloc: A,
    list: &TypeList<A>,
    state: &mut ModuleState<A>,
    section: &SectionLimited<'a, Export<'a>, A>,
) -> Result<(), Error<A>>
    ensures added { Adds result (export_items (features_of features) (types_of_list list.now)
        (count_of section.now) (bytes_of section.now) state.old.«module»)
        state.new.«module» }
    ensures noted { OnOk result (noted_of state.new ≡ naming (names_of_exports
        (count_of section.now) (bytes_of section.now)) (noted_of state.old)) }
    ensures types { state.new.«module».types ≡ state.old.«module».types }
    ensures place { IfErr result (StandsBetween (section_start section.now)
        (section_end section.now)) }
    ensures told { IfErr result (OfContent (TellsExports features section.now
        (types_of_list list.now) state.old.«module»)) }
{
    state.module.key_names(section.reader().remaining());
    add_each_export(features, alloc, list, state, section)
}
