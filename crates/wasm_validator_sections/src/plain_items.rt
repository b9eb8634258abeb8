//! The items that have no constant expressions: each is read as it is written, and then added.

ghost use Rattle.std.specs.Prelude.{◌≡◌, ◌≤◌, ℕ, List, Bool, length, ⊤, Some, None, IfOk, OnOk, OnErr, IfErr};
ghost use Rattle.wasm_spec.specs.Values.{u32_at};
ghost use Rattle.wasm_spec.specs.BinaryModules.{export_at, import_at};
ghost use Rattle.wasm_spec.specs.BinaryTypes.{memory_at, rec_at, tag_at};
ghost use Rattle.wasm_spec_rules.specs.FeatureFlags.{features_of};
ghost use Rattle.wasm_spec_rules.specs.Limits.{most_memories};
ghost use Rattle.wasm_spec_rules.specs.LinkRules.{exported_functions};
ghost use Rattle.wasm_readers.specs.Items.{import_of, export_of};
ghost use Rattle.wasm_readers.specs.WrittenIndices.{written};
ghost use Rattle.wasm_readers_bytes.specs.Reader.{SameInput, RefusedFrom, position_in, rest};
ghost use Rattle.wasm_readers_errors.specs.WasmReadersFeatures.declared.features.WasmFeatures.{WasmFeatures};
ghost use Rattle.wasm_readers_errors.specs.declared.error.Counted.TheVariants as counted;
ghost use Rattle.wasm_validator_type_list.specs.DefTypes.{types_of_list};
ghost use Rattle.wasm_validator_type_list.specs.ListViews.{Listing};
ghost use Rattle.wasm_validator_types.specs.Spaces.{Spaces};
ghost use Rattle.wasm_validator_items.specs.ItemSteps.{naming_step, tells_read};
ghost use Rattle.wasm_validator_items.specs.WasmValidatorCore.WasmValidatorCanonical.Groups.{AreValid};
ghost use Rattle.wasm_validator_items.specs.WasmValidatorCore.Answers.{TypesSoFar, IsNowhere, HasValidTypes};
ghost use Rattle.wasm_validator_items.specs.WasmValidatorCore.Items.{add_import, add_function, add_memory, add_tag, add_export};
ghost use Rattle.wasm_validator_items.specs.WasmValidatorCore.Machine.{add_group};
ghost use Rattle.wasm_validator_items.specs.WasmValidatorCore.OpenLists.{AreHeld, AreIdsOf, IsOpenFor};
ghost use Rattle.wasm_validator_items.specs.WasmValidatorCore.declared.limits.TheConstants.{MAX_TYPES, MAX_IMPORTS, MAX_FUNCTIONS, MAX_TAGS, MAX_EXPORTS};
ghost use Rattle.wasm_validator_items.specs.WasmValidatorReferences.References.{marked, names_at};
ghost use Rattle.wasm_validator_sections.specs.Sections.{read_one};
ghost use Rattle.wasm_validator_sections.specs.SectionFaults.{IsNone, tells_group, tells_import, tells_function, tells_memory, tells_tag, TellsOfExport};

use std::alloc::{AllocError, Allocator};
use wasm_readers::externs::{read_memory_type, read_tag_type, read_type_ref};
use wasm_readers::{
    BinaryReader, Counted, Export, ExternalKind, FromReader, Import, RecGroup, Refusal,
    WasmFeatures,
};
use wasm_validator_items::references::ReferencedFunctions;
use wasm_validator_items::validator_core::{
    Error, MAX_EXPORTS, MAX_FUNCTIONS, MAX_IMPORTS, MAX_TAGS, MAX_TYPES, Module,
};
use wasm_validator_items::{ItemLimit, SectionItem};
use wasm_validator_types::TypeList;

/// Recursion groups, whose types are added to the list of types and to the module.
#[derive(Drop)]
pub(crate) struct GroupItems<'s, A: Allocator> {
    pub features: WasmFeatures,
    pub alloc: &'s A,
    pub list: &'s mut TypeList<A>,
    pub opened: &'s mut Module<A>,
}

impl<A: Allocator + Copy> SectionItem<A> for GroupItems<'_, A> {
    ghost State = { TypesSoFar × Spaces };

    ghost Kept = { WasmFeatures × ℕ × ℕ };

    ghost state = { λ a. (types_of_list a.list.now, a.opened.now) };

    ghost kept = { λ a. (a.features, a.list.ghost_name, a.opened.ghost_name) };

    ghost step = { λ k p bytes. read_one (rec_at written) (add_group k.0) p bytes };

    ghost accepts = { λ k p. HasValidTypes k.0 p };

    ghost tells = { λ k stop p bytes e. tells_read (rec_at written) (add_group k.0)
        (IsNowhere (HasValidTypes k.0)) (tells_group k.0) stop p bytes e };

    ghost ready = { λ a. AreIdsOf a.list.now a.opened.now.types
        × AreValid (features_of a.features) (types_of_list a.list.now) };

    ghost stands = { λ a. IsOpenFor a.features a.list.now };

    ghost what = { counted.Types };

    ghost there = { λ p. length p.1.types };

    ghost most = { λ k. MAX_TYPES };

    fn limit(&self) -> ItemLimit {
        ItemLimit {
            what: Counted::Types,
            there: self.opened.spaces().type_count() as usize,
            most: MAX_TYPES,
        }
    }

    #[tactic(auto, using(crate::proofs::Forms::is_formed))]
    fn add_next<'a>(&mut self, reader: &mut BinaryReader<'a>) -> Result<(), Error<A>> {
        let offset = reader.original_position();
        let group = RecGroup::from_reader(*self.alloc, reader)?;
        self.opened
            .add_types(self.features, *self.alloc, self.list, group, offset)
    }
}

/// An import, as it is written (Core Specification 3.0, Binary Format, Modules, Import Section). Its
/// names are borrowed, so that it takes no memory. Refused where the bytes encode none.
#[tactic(auto, unfolding(crate::proofs::Cited::import_at))]
fn read_import<'a>(reader: &mut BinaryReader<'a>) -> Result<Import<'a>, Refusal>
    ensures same { SameInput reader.old reader.new }
    ensures onward { position_in reader.old ≤ position_in reader.new }
    ensures refusal { IfErr result (RefusedFrom reader.old) }
    ensures ok { IfOk result (λ x. import_at written (rest reader.old)
        ≡ Some (import_of x, rest reader.new)) }
    ensures err { OnErr result (import_at written (rest reader.old) ≡ None) }
{
    let module = reader.read_string()?;
    let name = reader.read_string()?;
    let ty = read_type_ref(reader)?;
    Ok(Import { module, name, ty })
}

/// Imports.
#[derive(Drop)]
pub(crate) struct ImportItems<'s, A: Allocator> {
    pub features: WasmFeatures,
    pub list: &'s TypeList<A>,
    pub opened: &'s mut Module<A>,
}

impl<A: Allocator + Copy> SectionItem<A> for ImportItems<'_, A> {
    ghost State = { Spaces };

    ghost Kept = { WasmFeatures × Listing A × ℕ × List ℕ };

    ghost state = { λ a. a.opened.now };

    ghost kept = { λ a. (a.features, a.list.now, a.opened.ghost_name, a.opened.now.types) };

    ghost step = { λ k s bytes. read_one (import_at written) (add_import (features_of k.0)
        (types_of_list k.1)) s bytes };

    ghost accepts = { λ k s. ⊤ };

    ghost tells = { λ k stop s bytes e. tells_read (import_at written) (add_import
        (features_of k.0) (types_of_list k.1)) IsNone (tells_import k.0 (types_of_list k.1)) stop s
        bytes e };

    ghost ready = { λ a. AreHeld a.list.now a.opened.now.types };

    ghost what = { counted.Imports };

    ghost there = { λ s. length s.imports };

    ghost most = { λ k. MAX_IMPORTS };

    fn limit(&self) -> ItemLimit {
        ItemLimit {
            what: Counted::Imports,
            there: self.opened.spaces().import_count(),
            most: MAX_IMPORTS,
        }
    }

    fn add_next<'a>(&mut self, reader: &mut BinaryReader<'a>) -> Result<(), Error<A>> {
        let offset = reader.original_position();
        let import = read_import(reader)?;
        self.opened
            .add_import(self.features, self.list, &import, offset)
    }
}

/// Functions, each as the index of its type.
#[derive(Drop)]
pub(crate) struct FunctionItems<'s, A: Allocator> {
    pub list: &'s TypeList<A>,
    pub opened: &'s mut Module<A>,
}

impl<A: Allocator + Copy> SectionItem<A> for FunctionItems<'_, A> {
    ghost State = { Spaces };

    ghost Kept = { Listing A × ℕ × List ℕ };

    ghost state = { λ a. a.opened.now };

    ghost kept = { λ a. (a.list.now, a.opened.ghost_name, a.opened.now.types) };

    ghost step = { λ k s bytes. read_one u32_at (add_function (types_of_list k.0)) s bytes };

    ghost accepts = { λ k s. ⊤ };

    ghost tells = { λ k stop s bytes e. tells_read u32_at (add_function (types_of_list k.0)) IsNone
        (tells_function (types_of_list k.0)) stop s bytes e };

    ghost ready = { λ a. AreHeld a.list.now a.opened.now.types };

    ghost what = { counted.Functions };

    ghost there = { λ s. length s.functions };

    ghost most = { λ k. MAX_FUNCTIONS };

    fn limit(&self) -> ItemLimit {
        ItemLimit {
            what: Counted::Functions,
            there: self.opened.spaces().function_count() as usize,
            most: MAX_FUNCTIONS,
        }
    }

    fn add_next<'a>(&mut self, reader: &mut BinaryReader<'a>) -> Result<(), Error<A>> {
        let offset = reader.original_position();
        let type_index = reader.read_var_u32()?;
        self.opened.add_function(self.list, type_index, offset)
    }
}

/// Memories.
#[derive(Drop)]
pub(crate) struct MemoryItems<'s, A: Allocator> {
    pub features: WasmFeatures,
    pub opened: &'s mut Module<A>,
}

impl<A: Allocator + Copy> SectionItem<A> for MemoryItems<'_, A> {
    ghost State = { Spaces };

    ghost Kept = { WasmFeatures × ℕ × List ℕ };

    ghost state = { λ a. a.opened.now };

    ghost kept = { λ a. (a.features, a.opened.ghost_name, a.opened.now.types) };

    ghost step = { λ k s bytes. read_one memory_at (add_memory (features_of k.0)) s bytes };

    ghost accepts = { λ k s. ⊤ };

    ghost tells = { λ k stop s bytes e. tells_read memory_at (add_memory (features_of k.0)) IsNone
        (tells_memory k.0) stop s bytes e };

    ghost what = { counted.Memories };

    ghost there = { λ s. length s.memories };

    ghost most = { λ k. most_memories (features_of k.0) };

    fn limit(&self) -> ItemLimit {
        ItemLimit {
            what: Counted::Memories,
            there: self.opened.spaces().memory_count() as usize,
            most: self.opened.max_memories(self.features),
        }
    }

    fn add_next<'a>(&mut self, reader: &mut BinaryReader<'a>) -> Result<(), Error<A>> {
        let offset = reader.original_position();
        let ty = read_memory_type(reader)?;
        self.opened.add_memory(self.features, ty, offset)
    }
}

/// Tags.
#[derive(Drop)]
pub(crate) struct TagItems<'s, A: Allocator> {
    pub features: WasmFeatures,
    pub list: &'s TypeList<A>,
    pub opened: &'s mut Module<A>,
}

impl<A: Allocator + Copy> SectionItem<A> for TagItems<'_, A> {
    ghost State = { Spaces };

    ghost Kept = { WasmFeatures × Listing A × ℕ × List ℕ };

    ghost state = { λ a. a.opened.now };

    ghost kept = { λ a. (a.features, a.list.now, a.opened.ghost_name, a.opened.now.types) };

    ghost step = { λ k s bytes. read_one tag_at (add_tag (features_of k.0) (types_of_list k.1)) s
        bytes };

    ghost accepts = { λ k s. ⊤ };

    ghost tells = { λ k stop s bytes e. tells_read tag_at (add_tag (features_of k.0)
        (types_of_list k.1)) IsNone (tells_tag k.0 (types_of_list k.1)) stop s bytes e };

    ghost ready = { λ a. AreHeld a.list.now a.opened.now.types };

    ghost what = { counted.Tags };

    ghost there = { λ s. length s.tags };

    ghost most = { λ k. MAX_TAGS };

    fn limit(&self) -> ItemLimit {
        ItemLimit {
            what: Counted::Tags,
            there: self.opened.spaces().tag_count() as usize,
            most: MAX_TAGS,
        }
    }

    fn add_next<'a>(&mut self, reader: &mut BinaryReader<'a>) -> Result<(), Error<A>> {
        let offset = reader.original_position();
        let ty = read_tag_type(reader)?;
        self.opened.add_tag(self.features, self.list, ty, offset)
    }
}

/// Notes the function that is exported, if it is a function.
fn note_export<A: Allocator + Copy>(
    referenced: &mut ReferencedFunctions<A>,
    export: &Export<'_>,
) -> Result<(), AllocError>
    ensures { OnOk result (referenced.new
        ≡ marked (exported_functions (export_of export.now)) referenced.old) }
{
    match export.kind {
        ExternalKind::Func => referenced.mark(export.index),
        _ => Ok(()),
    }
}

/// Exports, whose functions are noted.
#[derive(Drop)]
pub(crate) struct ExportItems<'s, A: Allocator> {
    pub features: WasmFeatures,
    pub alloc: &'s A,
    pub list: &'s TypeList<A>,
    pub opened: &'s mut Module<A>,
    pub referenced: &'s mut ReferencedFunctions<A>,
}

impl<A: Allocator + Copy> SectionItem<A> for ExportItems<'_, A> {
    ghost State = { Spaces × List Bool };

    ghost Kept = { WasmFeatures × Listing A × ℕ × ℕ × List ℕ };

    ghost state = { λ a. (a.opened.now, a.referenced.now) };

    ghost kept = { λ a. (
      a.features,
      a.list.now,
      a.opened.ghost_name,
      a.referenced.ghost_name,
      a.opened.now.types,
    ) };

    ghost step = { λ k p bytes. naming_step (read_one export_at (add_export (features_of k.0)
        (types_of_list k.1))) (names_at export_at exported_functions) p bytes };

    ghost accepts = { λ k s. ⊤ };

    ghost tells = { λ k stop p bytes e. tells_read export_at (add_export (features_of k.0)
        (types_of_list k.1)) IsNone (TellsOfExport k.0 (types_of_list k.1)) stop p.0 bytes e };

    ghost what = { counted.Exports };

    ghost there = { λ p. length p.0.exports };

    ghost most = { λ k. MAX_EXPORTS };

    fn limit(&self) -> ItemLimit {
        ItemLimit {
            what: Counted::Exports,
            there: self.opened.spaces().export_count(),
            most: MAX_EXPORTS,
        }
    }

    fn add_next<'a>(&mut self, reader: &mut BinaryReader<'a>) -> Result<(), Error<A>> {
        let offset = reader.original_position();
        let export = Export::from_reader(*self.alloc, reader)?;
        self.opened
            .add_export(self.features, *self.alloc, self.list, &export, offset)?;
        note_export(self.referenced, &export)?;
        Ok(())
    }
}
